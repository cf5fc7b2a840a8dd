//! A session over a grammar of one's own, and where the printed tokens come from.
#![tactic(auto)]

mod items;

use expander::{Edition, Reply, Session, SmallGrammar};
use fragment_grammar::FragmentGrammar;
use items::WithItems;
use std::io;

const TEXT: &str = "macro_rules! public { ($item:item) => { pub $item } }
public! { fn f() {} }
";

// Prints what the session's text gives, and the text that each printed token comes from.
fn show<G: FragmentGrammar + Drop>(rt: &impl Print, session: &mut Session<G>) -> io::Result<()> {
    match session.expansion() {
        Ok(Reply::Read(found)) => {
            print!(rt; "{}", found.printed())?;
            for fault in found.faults() {
                println!(rt; "fault: {:?} at {}", fault.kind, fault.range.start)?;
            }
            for i in 0..found.tokens() {
                if let Some(range) = found.origin(i) {
                    println!(rt; "token {i}: bytes {} to {}", range.start, range.end)?;
                }
            }
            Ok(())
        }
        Ok(Reply::Unread(fault)) => println!(rt; "{fault:?}"),
        Err(refusal) => println!(rt; "{refusal:?}"),
    }
}

fn main(rt: HostRuntime) -> io::Result<()> {
    let edition = Edition::Edition2024;
    let mut small = Session::new(rt.alloc(), TEXT, SmallGrammar, edition, 128)?;
    show(&rt, &mut small)?;
    let grammar = WithItems {
        inner: SmallGrammar,
    };
    let mut whole = Session::new(rt.alloc(), TEXT, grammar, edition, 128)?;
    show(&rt, &mut whole)
}
