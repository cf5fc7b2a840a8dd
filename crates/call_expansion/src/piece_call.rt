//! Expands the call at a byte of a text that was read as pieces, or that follows others: in the
//! last piece that begins at or before the byte.
ghost use Rattle.std.specs.Prelude.{◌≡◌, ◌≤◌, ◌<◌, ◌++◌, ◌∷◌, [], All, Err, IfOk, IfSome};
ghost use Rattle.std.specs.Prelude.{IsOkUnless, List, None, OnOk, is_some, map, option_map, true};
ghost use Rattle.std.specs.List.{list_any};
ghost use Rattle.tt_data.specs.fault.TtFault.TheVariants as fault;
ghost use Rattle.expander_model.specs.Definitions.{Definition, definition_of};
ghost use Rattle.expander_model.specs.Meaning.{definitions_after, member, members_after};
ghost use Rattle.expander_model.specs.Meaning.{with_definition};
ghost use Rattle.expander_reparse.specs.RelativePieces.{IsOwnPiece, piece_at};
ghost use Rattle.expander_reparse.specs.declared.piece.Piece.{Piece};
ghost use Rattle.expander_scope.specs.ScopeTable.{AreRead};
ghost use Rattle.call_expansion.specs.InScope.{HasInScope};
ghost use Rattle.call_expansion.specs.Texts.{NeedsTooMany, answer_in, answer_near, bursts};
ghost use Rattle.call_expansion.specs.Texts.{last_answer, member_answer, text_layers};

use crate::answer::Called;
use crate::definitions::{define, scope_behind};
use crate::moved::moved_tree;
use crate::text_call::{CallOptions, call_in_piece};
use bridge::parts::Place;
use expander_model::dialect::Dialect;
use expander_reparse::piece::Piece;
use expander_scope::scope::Scope;
use mbe::FragmentGrammar;
use pieced_text::PiecedText;
use pieced_text::expander_sources::prelude::Prelude;
use std::alloc::Global;
use tt::TopSubtree;
use tt_data::TtFault;

/// The tree of a piece, with the spans of its text. Out of memory is its only error.
pub fn piece_tree(alloc: Global, piece: &Piece) -> Result<TopSubtree, TtFault>
    ensures tree { IfOk result (λ t. t.inner ≡ piece_at piece.now) }
    ensures memory { IsOkUnless result fault.Memory }
{
    let place = Place {
        text: 0,
        start: piece.start,
    };
    moved_tree(alloc, place, &piece.tree.get().as_ref().tree().iter())
}

/// Whether a piece is a definition.
pub fn is_definition(piece: &Piece) -> bool
    ensures { result ≡ is_some (definition_of (piece_at piece.now)) }
{
    piece.tree.get().as_ref().is_definition()
}

// Adds the definition that a piece is, if it is one.
fn define_piece(
    alloc: Global,
    dialect: &Dialect,
    scope: &mut Scope,
    piece: &Piece,
) -> Result<(), TtFault>
    requires read { AreRead scope.old }
    ensures met { (before : List Definition) → HasInScope dialect.now scope.old before →
        OnOk result (HasInScope dialect.now scope.new
        (with_definition (definition_of (piece_at piece.now)) before)) }
    ensures edition { OnOk result (scope.new.edition ≡ scope.old.edition) }
    ensures read { OnOk result (AreRead scope.new) }
    ensures memory { IsOkUnless result fault.Memory }
{
    if !is_definition(piece) {
        return Ok(());
    }
    let tree = piece_tree(alloc, piece)?;
    define(alloc, dialect, scope, &tree.iter())
}

// Adds the definitions among these pieces.
fn define_all(
    alloc: Global,
    dialect: &Dialect,
    scope: &mut Scope,
    pieces: &[Piece],
) -> Result<(), TtFault>
    requires read { AreRead scope.old }
    ensures met { (before : List Definition) → HasInScope dialect.now scope.old before →
        OnOk result (HasInScope dialect.now scope.new
        (definitions_after before (map piece_at pieces.now))) }
    ensures edition { OnOk result (scope.new.edition ≡ scope.old.edition) }
    ensures read { OnOk result (AreRead scope.new) }
    ensures memory { IsOkUnless result fault.Memory }
{
    for piece in pieces {
        define_piece(alloc, dialect, scope, piece)?;
    }
    Ok(())
}

/// The last of these pieces that begins at or before a byte, and those before it.
pub fn last_at(pieces: &[Piece], at: u32) -> Option<(&[Piece], &Piece)>
    ensures none { result ≡ None → All (λ (o : Piece). at < o.start) pieces.now }
    ensures some { IfSome result (λ r. (after : List Piece)
        × (pieces.now ≡ r.0.now ++ (r.1.now ∷ after)) × (r.1.now.start ≤ at)
        × All (λ (o : Piece). at < o.start) after) }
{
    let mut count = pieces.len();
    while count > 0 {
        let last = count - 1;
        if pieces[last].start <= at {
            return Some((&pieces[..last], &pieces[last]));
        }
        count = last;
    }
    None
}

// What is said of a call around a byte in a piece, behind a prelude and the pieces before it.
fn call_behind<G: FragmentGrammar>(
    alloc: Global,
    by: &CallOptions<'_, G>,
    prelude: &Prelude,
    before: &[Piece],
    piece: &Piece,
    at: u32,
) -> Result<Option<Called>, TtFault>
    ensures answer { IfOk result (λ c. option_map answer_in c ≡ member_answer at (member
        (text_layers (G.answer by.now.grammar.now) by.now.edition by.now.dialect.now)
        by.now.depth (definitions_after (definitions_after [] prelude.now)
        (map piece_at before.now)) (piece_at piece.now) (definition_of (piece_at piece.now)))) }
    ensures tokens { result ≡ Err fault.Tokens → bursts (member
        (text_layers (G.answer by.now.grammar.now) by.now.edition by.now.dialect.now)
        by.now.depth (definitions_after (definitions_after [] prelude.now)
        (map piece_at before.now)) (piece_at piece.now) (definition_of (piece_at piece.now)))
        ≡ true }
{
    let mut scope = scope_behind(alloc, by.edition, by.dialect, prelude)?;
    define_all(alloc, by.dialect, &mut scope, before)?;
    let tree = piece_tree(alloc, piece)?;
    call_in_piece(alloc, by, &scope, &tree.iter(), at)
}

/// The call around a byte in the last of a text's pieces that begins at or before it, where the
/// text is expanded after a prelude: the outermost that is replaced or has a fault, or else the
/// innermost, which stays. What is told of it is what the text's meaning says: the tokens that come
/// of it, printed alone, and the faults at its name.
///
/// Of the pieces that one alone is expanded. A call in what conditions leave out, or in the body of
/// a definition in a list, gives no tokens.
///
/// # Errors
///
/// `Memory`. `Tokens`, only if a rule that is tried for a call puts out more than `u32::MAX`.
pub fn call_in_pieces<G: FragmentGrammar>(
    alloc: Global,
    by: &CallOptions<'_, G>,
    prelude: &Prelude,
    pieces: &[Piece],
    at: u32,
) -> Result<Option<Called>, TtFault>
    requires { All IsOwnPiece pieces.now }
    ensures answer { IfOk result (λ c. option_map answer_in c ≡ last_answer at (members_after
        (text_layers (G.answer by.now.grammar.now) by.now.edition by.now.dialect.now)
        by.now.depth (definitions_after [] prelude.now) (map piece_at pieces.now))) }
    ensures tokens { result ≡ Err fault.Tokens → list_any bursts (members_after
        (text_layers (G.answer by.now.grammar.now) by.now.edition by.now.dialect.now)
        by.now.depth (definitions_after [] prelude.now) (map piece_at pieces.now)) ≡ true }
{
    match last_at(pieces, at) {
        Some((before, piece)) => call_behind(alloc, by, prelude, before, piece, at),
        None => Ok(None),
    }
}

/// The call around a byte of a text that follows others: what `call_in_pieces` says of its pieces,
/// which are read over those that were read last. `None` too if the text cannot be read.
///
/// # Errors
///
/// `Memory`. `Tokens`, only if what is read of the text has more than `u32::MAX` tokens, which doc
/// comments alone can bring about, or if a rule that is tried for a call puts out more.
pub fn call_in_followed<G: FragmentGrammar>(
    alloc: Global,
    by: &CallOptions<'_, G>,
    prelude: &Prelude,
    text: &mut PiecedText,
    at: u32,
) -> Result<Option<Called>, TtFault>
    ensures answer { IfOk result (λ c. option_map answer_in c ≡ answer_near
        (text_layers (G.answer by.now.grammar.now) by.now.edition by.now.dialect.now)
        by.now.depth (definitions_after [] prelude.now) text.old at) }
    ensures tokens { result ≡ Err fault.Tokens → NeedsTooMany
        (text_layers (G.answer by.now.grammar.now) by.now.edition by.now.dialect.now)
        by.now.depth (definitions_after [] prelude.now) text.old }
    ensures same { text.new ≡ text.old }
{
    match text.pieces()? {
        Some(pieces) => call_in_pieces(alloc, by, prelude, pieces.as_slice(), at),
        None => Ok(None),
    }
}
