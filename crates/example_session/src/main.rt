//! The expander as a library: the example of the README.
#![tactic(auto)]

use expander::{Edition, Reply, Session, SmallGrammar};
use std::io;

const TEXT: &str = "macro_rules! swap { ($a:ident $b:tt) => { $b $a } }
swap!(x y);
swap!(1 2);
";

// Prints what the session's text gives.
fn show(rt: &impl Print, session: &mut Session<SmallGrammar>) -> io::Result<()> {
    match session.expansion() {
        Ok(Reply::Read(found)) => {
            print!(rt; "{}", found.printed())?;
            for fault in found.faults() {
                println!(rt; "fault: {:?} at {}", fault.kind, fault.range.start)?;
            }
            if found.tokens() > 0 {
                println!(rt; "first token: from {:?}", found.origin(0))?;
            }
            println!(rt; "expanded: {}", found.expanded())
        }
        Ok(Reply::Unread(fault)) => println!(rt; "{fault:?}"),
        Err(refusal) => println!(rt; "{refusal:?}"),
    }
}

fn main(rt: HostRuntime) -> io::Result<()> {
    let mut session = Session::new(rt.alloc(), TEXT, SmallGrammar, Edition::Edition2024, 128)?;
    show(&rt, &mut session)?;
    // The `1` becomes a name, so a rule fits the second call, which alone is expanded anew.
    if let Some(at) = session.text().find('1') {
        let end = at + 1;
        if session.is_boundary(at) && session.is_boundary(end) && session.fits(at, end, 1) {
            session.edit(at, end, "z")?;
        }
    }
    show(&rt, &mut session)
}
