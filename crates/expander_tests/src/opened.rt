//! Sessions and their expansions. Each call is made once more if it is refused: a refused call
//! changes nothing.
use expander::{Edition, Expansion, Reply, Session, SmallGrammar};
use fragment_grammar::FragmentGrammar;
use std::alloc::Global;
use std::test::Fail;

/// A session with the small grammar over a text that is short.
pub(crate) fn opened(alloc: Global, text: &str, depth: u8) -> Result<Session<SmallGrammar>, Fail> {
    if text.len() >= 1000 {
        return Err(Fail::new("a text is long"));
    }
    let edition = Edition::Edition2024;
    match Session::new(alloc, text, SmallGrammar, edition, depth) {
        Ok(session) => Ok(session),
        Err(_) => Ok(Session::new(alloc, text, SmallGrammar, edition, depth)?),
    }
}

/// The reply to the session's text.
pub(crate) fn reply_of<G: FragmentGrammar + Drop>(session: &mut Session<G>) -> Result<Reply, Fail> {
    match session.expansion() {
        Ok(reply) => Ok(reply),
        Err(_refusal) => Ok(session.expansion()?),
    }
}

/// The expansion of the session's text.
pub(crate) fn found<G: FragmentGrammar + Drop>(
    session: &mut Session<G>,
) -> Result<Expansion, Fail> {
    match reply_of(session)? {
        Reply::Read(found) => Ok(found),
        Reply::Unread(_fault) => Err(Fail::new("the text is not read")),
    }
}
