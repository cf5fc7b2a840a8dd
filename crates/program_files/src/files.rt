//! Reads files, and reports what is wrong with them.

use crate::shown::{one_line, push_shown};
use std::alloc::Global;
use std::fmt::Display;
use std::fs::{File, OpenFile};
use std::io::Read;
use std::process::ExitCode;
use std::{fs, io};

// One more byte than a text may have: of a longer input no more is read.
const MOST: u64 = 0x1_0000_0000;

// Reports what is wrong with a word of the command line, or the file that it names.
fn report(rt: &HostRuntime, what: &str, why: &impl Display) -> io::Result<()> {
    let mut line = String::new(rt.alloc());
    push_shown(&mut line, what)?;
    let text = format!(in rt.alloc(); "{why}")?;
    let why = one_line(rt.alloc(), text.as_str())?;
    eprintln!(rt; "filgordd: {line}: {why}")
}

/// Reports what is wrong with a word of the command line, or why the file that it names cannot be
/// opened. The status is 2.
pub fn misused(rt: &HostRuntime, what: &str, why: &impl Display) -> io::Result<ExitCode> {
    report(rt, what, why)?;
    Ok(ExitCode::from(2))
}

/// Reports what is wrong with a file that was opened. The status is 1.
pub fn refused(rt: &HostRuntime, path: &str, why: &str) -> io::Result<ExitCode> {
    report(rt, path, &why)?;
    Ok(ExitCode::FAILURE)
}

/// Reports why the text is not answered. The status is 1.
pub fn stopped(rt: &HostRuntime, why: &str) -> io::Result<ExitCode> {
    eprintln!(rt; "{why}")?;
    Ok(ExitCode::FAILURE)
}

/// A file that is no folder, to be read.
pub fn opened(rt: &HostRuntime, path: &str) -> io::Result<File> {
    let file = fs::open(rt, path)?;
    if file.metadata()?.is_dir() {
        return Err(io::Error::from(io::ErrorKind::IsADirectory));
    }
    Ok(file)
}

/// Reads to the end, or says why that failed. Of a text that is too long no more is read.
pub fn read_whole<R: Read + Drop>(alloc: Global, reader: R) -> Result<Vec<u8>, &'static str> {
    let mut text = Vec::new(alloc);
    match reader.take(MOST).read_to_end(&mut text) {
        Ok(_) => Ok(text),
        Err(error) => match error.kind() {
            io::ErrorKind::OutOfMemory => Err("out of memory"),
            _ => Err("read failed"),
        },
    }
}
