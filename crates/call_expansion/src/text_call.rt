//! Expands the call at a byte of a text: the whole piece in which it is, and takes what comes of
//! the call.
ghost use Rattle.std.specs.Prelude.{◌≡◌, ◌<◌, ◌^◌, [], Err, IfOk, IsOkUnless, List, length};
ghost use Rattle.std.specs.Prelude.{option_map, true};
ghost use Rattle.std.specs.List.{list_any};
ghost use Rattle.tt_data.specs.fault.TtFault.TheVariants as fault;
ghost use Rattle.expander_model.specs.Definitions.{Definition, definition_of};
ghost use Rattle.expander_model.specs.Meaning.{definitions_after, member, members_after};
ghost use Rattle.expander_model.specs.Pieces.{cut};
ghost use Rattle.expander_scope.specs.ScopeTable.{AreRead, expanded_under};
ghost use Rattle.call_expansion.specs.Answers.{answer_among};
ghost use Rattle.call_expansion.specs.InScope.{HasInScope};
ghost use Rattle.call_expansion.specs.Texts.{IsFound, NeedsTooMany, answer_in, bursts};
ghost use Rattle.call_expansion.specs.Texts.{first_answer, member_answer, text_layers};

use crate::answer::{Called, Expanded, answer_among};
use crate::around::{CallPlace, calls_around};
use crate::definitions::{define, scope_behind};
use crate::moved::text_top;
use crate::reading::read_text;
use bridge::{Read, ReadFault};
use expander_model::definition::definition_of;
use expander_model::dialect::Dialect;
use expander_model::split::next_piece;
use expander_scope::environment::Environment;
use expander_scope::expand::expand_into;
use expander_scope::outcome::Event;
use expander_scope::scope::Scope;
use mbe::FragmentGrammar;
use pieced_text::expander_sources::prelude::Prelude;
use std::alloc::Global;
use tt::{TopSubtree, TtIter};
use tt_data::{Edition, TtFault};

/// By what a text is expanded.
#[derive(Drop)]
pub struct CallOptions<'a, G> {
    /// Decides what fragments are.
    pub grammar: &'a G,
    /// The edition of all identifiers.
    pub edition: Edition,
    /// By which options.
    pub dialect: &'a Dialect,
    /// How many levels of calls may be expanded.
    pub depth: u8,
}

/// What is found at a byte of a text.
#[derive(Drop)]
pub enum Found {
    /// The text cannot be read as trees.
    Unread(ReadFault),
    /// No call is there, or only calls in a definition.
    Nothing,
    /// A call, and what is said of it.
    Call(Called),
}

/// A tree of these trees, in no brackets. Out of memory is its only error: they are a part of a
/// tree, so they are not too many.
pub fn tree_of(alloc: Global, piece: &TtIter<'_>) -> Result<TopSubtree, TtFault>
    ensures tree { IfOk result (λ t. t.inner ≡ piece.now) }
    ensures memory { IsOkUnless result fault.Memory }
{
    match TopSubtree::from_token_trees(alloc, text_top(), piece.remaining()) {
        Ok(tree) => Ok(tree),
        Err(_) => Err(TtFault::Memory),
    }
}

// What is said of one of these calls of a piece that is no definition.
fn call_among<G: FragmentGrammar>(
    alloc: Global,
    by: &CallOptions<'_, G>,
    scope: &Scope,
    piece: &TtIter<'_>,
    calls: &[CallPlace],
) -> Result<Option<Called>, TtFault>
    requires read { AreRead scope.now }
    ensures answer { let o = expanded_under (G.answer by.now.grammar.now) scope.now
        by.now.dialect.now by.now.depth piece.now in
        IfOk result (λ c. option_map answer_in c ≡ answer_among o.steps o.faults calls.now) }
    ensures tokens { result ≡ Err fault.Tokens → (expanded_under (G.answer by.now.grammar.now)
        scope.now by.now.dialect.now by.now.depth piece.now).bursts ≡ true }
{
    let env = Environment {
        alloc,
        grammar: by.grammar,
        scope,
        dialect: by.dialect,
        depth: by.depth,
    };
    let tree = tree_of(alloc, piece)?;
    let events: Vec<Event> = Vec::new(alloc);
    let given = expand_into(&env, &tree, events)?;
    let expanded = Expanded {
        events: given.output.as_slice(),
        faults: given.faults.as_slice(),
    };
    answer_among(alloc, &expanded, calls)
}

/// What is said of a call around a byte in a piece, in the scope of the definitions before it.
pub(crate) fn call_in_piece<G: FragmentGrammar>(
    alloc: Global,
    by: &CallOptions<'_, G>,
    scope: &Scope,
    piece: &TtIter<'_>,
    at: u32,
) -> Result<Option<Called>, TtFault>
    requires read { AreRead scope.now }
    requires edition { scope.now.edition ≡ by.now.edition }
    ensures answer { (before : List Definition) →
        HasInScope by.now.dialect.now scope.now before →
        IfOk result (λ c. option_map answer_in c ≡ member_answer at (member
        (text_layers (G.answer by.now.grammar.now) by.now.edition by.now.dialect.now)
        by.now.depth before piece.now (definition_of piece.now))) }
    ensures tokens { (before : List Definition) →
        HasInScope by.now.dialect.now scope.now before → result ≡ Err fault.Tokens →
        bursts (member
        (text_layers (G.answer by.now.grammar.now) by.now.edition by.now.dialect.now)
        by.now.depth before piece.now (definition_of piece.now)) ≡ true }
{
    if definition_of(piece).is_some() {
        return Ok(None);
    }
    let calls = calls_around(alloc, piece, at)?;
    if calls.is_empty() {
        return Ok(None);
    }
    call_among(alloc, by, scope, piece, calls.as_slice())
}

// What is said in the first of these pieces that has a call around a byte. Each is in the scope of
// those before it.
fn call_in_pieces<G: FragmentGrammar>(
    alloc: Global,
    by: &CallOptions<'_, G>,
    scope: &mut Scope,
    trees: &TtIter<'_>,
    at: u32,
) -> Result<Option<Called>, TtFault>
    requires read { AreRead scope.old }
    requires edition { scope.old.edition ≡ by.now.edition }
    ensures answer { (before : List Definition) →
        HasInScope by.now.dialect.now scope.old before →
        IfOk result (λ c. option_map answer_in c ≡ first_answer at (members_after
        (text_layers (G.answer by.now.grammar.now) by.now.edition by.now.dialect.now)
        by.now.depth before (cut trees.now))) }
    ensures tokens { (before : List Definition) →
        HasInScope by.now.dialect.now scope.old before → result ≡ Err fault.Tokens →
        list_any bursts (members_after
        (text_layers (G.answer by.now.grammar.now) by.now.edition by.now.dialect.now)
        by.now.depth before (cut trees.now)) ≡ true }
{
    let mut rest = trees.copied();
    while let Some(piece) = next_piece(&mut rest) {
        if let Some(called) = call_in_piece(alloc, by, scope, &piece, at)? {
            return Ok(Some(called));
        }
        define(alloc, by.dialect, scope, &piece)?;
    }
    Ok(None)
}

// What is said of a call around a byte in the trees of a text, after a prelude.
fn call_in_tree<G: FragmentGrammar>(
    alloc: Global,
    by: &CallOptions<'_, G>,
    prelude: &Prelude,
    trees: &TtIter<'_>,
    at: u32,
) -> Result<Option<Called>, TtFault>
    ensures answer { IfOk result (λ c. option_map answer_in c ≡ first_answer at (members_after
        (text_layers (G.answer by.now.grammar.now) by.now.edition by.now.dialect.now)
        by.now.depth (definitions_after [] prelude.now) (cut trees.now))) }
    ensures tokens { result ≡ Err fault.Tokens → list_any bursts (members_after
        (text_layers (G.answer by.now.grammar.now) by.now.edition by.now.dialect.now)
        by.now.depth (definitions_after [] prelude.now) (cut trees.now)) ≡ true }
{
    let mut scope = scope_behind(alloc, by.edition, by.dialect, prelude)?;
    call_in_pieces(alloc, by, &mut scope, trees, at)
}

/// The call around a byte of a text that is expanded after a prelude: the outermost that is
/// replaced or has a fault, or else the innermost, which stays. What is told of it is what the
/// text's meaning says: the tokens that come of it, printed alone, and the faults at its name.
///
/// The text is read as new, and of its pieces the one in which the call is, alone, is expanded.
/// A call in what conditions leave out, or in the body of a definition in a list, gives no tokens.
///
/// # Errors
///
/// `Memory`. `Tokens`, only if what is read of the text has more than `u32::MAX` tokens, which doc
/// comments alone can bring about, or if a rule that is tried for a call puts out more.
pub fn call_in_text<G: FragmentGrammar>(
    alloc: Global,
    text: &str,
    by: &CallOptions<'_, G>,
    prelude: &Prelude,
    at: u32,
) -> Result<Found, TtFault>
    requires { length text.now < 2 ^ 32 }
    ensures found { IfOk result (IsFound
        (text_layers (G.answer by.now.grammar.now) by.now.edition by.now.dialect.now)
        by.now.depth (definitions_after [] prelude.now) text.now at) }
    ensures tokens { result ≡ Err fault.Tokens → NeedsTooMany
        (text_layers (G.answer by.now.grammar.now) by.now.edition by.now.dialect.now)
        by.now.depth (definitions_after [] prelude.now) text.now }
{
    let tree = match read_text(alloc, text)? {
        Read::Fault(fault) => return Ok(Found::Unread(fault)),
        Read::Tree(tree) => tree,
    };
    match call_in_tree(alloc, by, prelude, &tree.iter(), at)? {
        Some(called) => Ok(Found::Call(called)),
        None => Ok(Found::Nothing),
    }
}
