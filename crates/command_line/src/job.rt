//! What the program is asked for: a subcommand, its options and its text.
ghost use Rattle.std.specs.Prelude.{◌≡◌, ◌≢◌, IfSome, MatchOption};
ghost use Rattle.any_grammar.specs.declared.chosen.AnyGrammar.{AnyGrammar};
ghost use Rattle.expander_model.specs.declared.scope_rules.ScopeRules.{ScopeRules};
ghost use Rattle.command_line.specs.Choices.{Chosen, IsGrammar, IsLimited, action_name, scope_name};

use any_grammar::AnyGrammar;
use crate_picks::edition_of;
use expander_model::dialect::Dialect;
use expander_model::limits::Limits;
use expander_model::scope_rules::ScopeRules;
use expander_run::options::Options;
use tt_data::Edition;

/// What is done with a text.
#[derive(Clone, Copy, PartialEq, Eq)]
pub enum Action {
    /// Its macros are expanded.
    Expand,
    /// Its faults are explained.
    Explain,
    /// The definitions that it sees are listed.
    Macros,
    /// It is answered as a script of edits and expansions.
    Replay,
    /// An editor is served.
    Serve,
    /// The steps of its calls are shown.
    Trace,
    /// It is shown with its expansion, as an HTML page.
    View,
}

/// What is done by the subcommand of a name, if there is one.
pub(crate) fn action_of(name: &str) -> Option<Action>
    ensures { MatchOption result ((a : Action) → name.now ≢ action_name a)
        (λ a. name.now ≡ action_name a) }
{
    match name {
        "expand" => Some(Action::Expand),
        "explain" => Some(Action::Explain),
        "macros" => Some(Action::Macros),
        "lsp" => Some(Action::Serve),
        "replay" => Some(Action::Replay),
        "trace" => Some(Action::Trace),
        "view" => Some(Action::View),
        _ => None,
    }
}

/// Which faults an editor is sent.
#[derive(Clone, Copy, PartialEq, Eq)]
pub enum Diagnostics {
    /// All, those too of calls that rustc may never expand.
    All,
    /// Those of calls that rustc would expand.
    Likely,
    /// None.
    Nothing,
}

/// A text, what is done with it, by which grammar, edition, dialect and number of levels, and
/// after which definitions of other texts.
#[derive(Drop)]
pub struct Job<'a> {
    pub action: Action,
    pub options: Options<AnyGrammar>,
    /// Whether the expansion is laid out.
    pub layout: bool,
    /// Whether the reply is told as JSON.
    pub json: bool,
    /// Whether each file of a crate is answered by itself.
    pub apart: bool,
    /// Which faults an editor is sent.
    pub diagnostics: Diagnostics,
    /// The folder of the libraries whose definitions come first.
    pub library: Option<&'a str>,
    /// The words for the other files, in order.
    pub with: Vec<&'a str>,
    /// The words for options of `cfg`, in order.
    pub cfg: Vec<&'a str>,
    /// The path of the text's file; without one it is standard input. The line and column of a call
    /// to expand or to trace, or of a fault to explain, may follow.
    pub file: Option<&'a str>,
    /// The paths of all files that were named, in order.
    pub files: Vec<&'a str>,
    /// The words for other crates, in order.
    pub externs: Vec<&'a str>,
    /// The root of the crate that they are files of.
    pub root: Option<&'a str>,
    /// The word for how many steps are traced at most.
    pub steps: Option<&'a str>,
}

// The grammar of a name, if it is one's; that of Rust is of this edition.
fn grammar_of(name: &str, edition: Edition) -> Option<AnyGrammar>
    ensures { MatchOption result ((g : AnyGrammar) → IsGrammar name.now edition g → ⊥)
        (IsGrammar name.now edition) }
{
    match name {
        "rust" => Some(AnyGrammar::Rust(edition)),
        "small" => Some(AnyGrammar::Small),
        _ => None,
    }
}

// The rules of scopes of a name, if they are one's.
fn scope_of(name: &str) -> Option<ScopeRules>
    ensures { MatchOption result ((r : ScopeRules) → name.now ≢ scope_name r)
        (λ r. name.now ≡ scope_name r) }
{
    match name {
        "rust" => Some(ScopeRules::Rust),
        "top" => Some(ScopeRules::TopLevel),
        _ => None,
    }
}

// The limits that two words are, which count by Rust's rules alone.
fn limits_of(scope: ScopeRules, calls: &str, tokens: &str) -> Option<Option<Limits>>
    ensures { IfSome result (IsLimited scope calls.now tokens.now) }
{
    match scope {
        ScopeRules::TopLevel => Some(None),
        ScopeRules::Rust => Some(Some(Limits {
            calls: calls.parse::<usize>().ok()?,
            tokens: tokens.parse::<usize>().ok()?,
        })),
    }
}

/// The options that these six words choose, if each of them is one.
pub(crate) fn options_of(
    grammar: &str,
    edition: &str,
    scope: &str,
    depth: &str,
    calls: &str,
    tokens: &str,
) -> Option<Options<AnyGrammar>>
    ensures { IfSome result
        (Chosen grammar.now edition.now scope.now depth.now calls.now tokens.now) }
{
    let edition = edition_of(edition)?;
    let scope = scope_of(scope)?;
    let mut dialect = Dialect::by(scope);
    dialect.limits = limits_of(scope, calls, tokens)?;
    Some(Options {
        grammar: grammar_of(grammar, edition)?,
        edition,
        dialect,
        depth: depth.parse::<u8>().ok()?,
    })
}
