//! By what the texts of a workspace are expanded.
ghost use Rattle.std.specs.Prelude.{◌≡◌, ◌<◌, ◌^◌, IfOk, List, false, length, ℕ};
ghost use Rattle.tt_data.specs.Forest.{Forest};

use any_grammar::AnyGrammar;
use expander_run::options::Options;
use expander_scope::refusal::Refusal;
use expander_session::session::Session;
use expander_sources::prelude::Prelude;
use std::alloc::{AllocError, Global};
use tt_data::{TextRange, TtFault};

/// A part of a text that definitions come from.
#[derive(Drop)]
pub struct Elsewhere {
    /// The name of the text.
    pub uri: String,
    /// The text, as a client has it.
    pub text: String,
    /// The bytes of the part.
    pub range: TextRange,
}

/// By what the texts of a workspace are expanded. Each text has its own options and definitions.
pub trait Setup {
    /// The definitions of other texts that the text of a name may be given, in order.
    ghost gives: { Self → List ℕ → List Forest → Type 0 };

    /// The options by which a text is expanded.
    fn options(&self, alloc: Global) -> Result<Options<AnyGrammar>, AllocError>;

    /// The definitions of other texts that the text of this name is expanded after.
    fn prelude(&self, alloc: Global, uri: &str) -> Result<Prelude, TtFault>
        ensures { IfOk result (λ p. gives self.now uri.now p) };

    /// Has the text of this name count as this one from now on; without one, as it was at the
    /// start. A text that cannot be read changes nothing. Answers whether texts may be given other
    /// definitions now.
    fn replace(&mut self, alloc: Global, uri: &str, text: Option<&str>) -> Result<bool, AllocError>
        ensures { IfOk result (λ changed. changed ≡ false → (name : List ℕ) (p : List Forest)
            → gives self.old name p → gives self.new name p) };

    /// The names of the texts that those definitions come from, in order of their numbers, from 1.
    fn names(&self, alloc: Global) -> Result<Vec<String>, AllocError>;

    /// Where the bytes of a definition are of the text with this number, from 1, among those that
    /// definitions come from. `None` if it cannot be told.
    fn elsewhere(
        &self,
        alloc: Global,
        number: u32,
        range: TextRange,
    ) -> Result<Option<Elsewhere>, AllocError>;
}

/// A session over a text of at most `u32::MAX` bytes, which has this name.
pub(crate) fn session_over<S: Setup>(
    alloc: Global,
    setup: &S,
    uri: &str,
    text: &str,
) -> Result<Session<AnyGrammar>, Refusal>
    requires { length text.now < 2 ^ 32 }
    ensures text { IfOk result (λ s. s.text ≡ text.now) }
    ensures prelude { IfOk result (λ s. S.gives setup.now uri.now s.prelude) }
{
    let Options {
        grammar,
        edition,
        dialect,
        depth,
    } = setup.options(alloc)?;
    let mut session = Session::with_dialect(alloc, text, grammar, edition, dialect, depth)?;
    session.set_prelude(setup.prelude(alloc, uri)?);
    Ok(session)
}
