//! Warns of definitions that write modules, which a walk through a crate does not follow.

use crate::lacking::{below, text_of};
use crate::shown::push_shown;
use crate::spots::Spots;
use crate::whole::Whole;
use crate_picks::Definitions;
use crate_walk::Modules;
use rustc_lexer::{FrontmatterAllowed, Token, TokenKind, tokenize};
use std::alloc::{AllocError, Global};
use std::io;

// What the last tokens of a text may begin: nothing, a module at this offset, or one that is named.
#[derive(Clone, Copy)]
enum Begun {
    Nothing,
    Word(usize),
    Named(usize),
}

// Whether a token counts as a blank.
fn is_blank(kind: TokenKind) -> bool {
    match kind {
        TokenKind::Whitespace | TokenKind::LineComment { .. } | TokenKind::BlockComment { .. } =>
            true,
        _ => false,
    }
}

// What tokens begin with one more of this kind and spelling, which is at this offset.
fn begun_by(begun: Begun, kind: TokenKind, spelled: &str, at: usize) -> Begun {
    match (begun, kind) {
        (Begun::Word(start), TokenKind::Dollar) => Begun::Word(start),
        (Begun::Word(start), TokenKind::Ident) => Begun::Named(start),
        (_, TokenKind::Ident) if spelled == "mod" => Begun::Word(at),
        _ => Begun::Nothing,
    }
}

// The offset of the first `mod name;` in a text, by its tokens. A name may be a metavariable.
fn module_in(text: &str) -> Option<usize> {
    if text.len() > u32::MAX as usize {
        return None;
    }
    let (mut begun, mut at) = (Begun::Nothing, 0usize);
    for token in tokenize(text, FrontmatterAllowed::No) {
        let Token { kind, len } = token;
        let end = at.saturating_add(len as usize);
        if !is_blank(kind) {
            if let (Begun::Named(start), TokenKind::Semi) = (begun, kind) {
                return Some(start);
            }
            begun = begun_by(begun, kind, text.get(at..end).unwrap_or(""), at);
        }
        at = end;
    }
    None
}

// The line that warns of a module at an offset of a file. `folder` is not told of a file that is in
// it.
fn written_line(
    alloc: Global,
    modules: &Modules,
    folder: &str,
    spots: &mut Spots,
    file: usize,
    at: usize,
) -> Result<String, AllocError> {
    let mut line = String::new(alloc);
    push_shown(
        &mut line,
        below(folder, modules.file_name(file).unwrap_or("")),
    )?;
    let spot = spots.spot(file, text_of(modules, file), at)?;
    let (row, column) = (spot.line, spot.column);
    let why = "warning: the module that this definition writes is not followed";
    let rest = format!(in alloc; ": line {row}, byte column {column}: {why}")?;
    line.push_str(rest.as_str())?;
    Ok(line)
}

// The offsets of modules in the definitions of a text, one for each definition that has some.
fn modules_in(
    alloc: Global,
    definitions: &Definitions,
    text: &str,
) -> Result<Vec<usize>, AllocError> {
    let mut all = Vec::new(alloc);
    let source = definitions.source();
    for i in 0..source.len() {
        let range = source.range(i);
        let start = range.start as usize;
        if let Some(at) = module_in(text.get(start..range.end as usize).unwrap_or("")) {
            all.push(start.saturating_add(at))?;
        }
    }
    Ok(all)
}

/// Warns of each definition of a crate that writes `mod name;`: no walk follows such a module.
pub fn tell_written(rt: &HostRuntime, whole: &Whole, folder: &str) -> io::Result<()> {
    let mut spots = Spots::new(rt.alloc());
    let modules = &whole.walked.modules;
    for (file, definitions) in whole.walked.definitions.iter().enumerate() {
        let Some(definitions) = definitions else {
            continue;
        };
        for at in &modules_in(rt.alloc(), definitions, text_of(modules, file))? {
            let line = written_line(rt.alloc(), modules, folder, &mut spots, file, *at)?;
            eprintln!(rt; "filgordd: {line}")?;
        }
    }
    Ok(())
}
