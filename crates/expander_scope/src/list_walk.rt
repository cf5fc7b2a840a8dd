//! A traversal of a list and of those in its groups that knows where their pieces begin.
ghost use Rattle.std.specs.Prelude.{◌≡◌, ◌++◌, ◌∷◌, [], List, IfOk, IfSome, None, OnOk, Some};
ghost use Rattle.std.specs.Prelude.{reverse};
ghost use Rattle.tt_data.specs.declared.edition.Edition.{Edition};
ghost use Rattle.expander_model.specs.PieceStates.{after_group};
ghost use Rattle.expander_model.specs.WalkSteps.{groups_of};
ghost use Rattle.expander_scope.specs.Leaving.{Leaves};
ghost use Rattle.expander_model.specs.Scoping.{in_group};
ghost use Rattle.expander_scope.specs.ListsLeft.{IsAhead, IsOutAhead, can_begin};
ghost use Rattle.expander_scope.specs.Turns.{is_alone_at};
ghost use Rattle.expander_scope.specs.LocalTables.{AreReadIn};

use crate::locals::Locals;
use expander_model::begun::Begun;
use expander_model::definition::definition_of;
use expander_model::dialect::Dialect;
use expander_model::left_out::{is_items, is_out};
use expander_model::scope_rules::Standing;
use expander_model::split::next_piece;
use expander_model::tree_walk::TreeWalk;
use small_grammar::names::has_text;
use std::alloc::{AllocError, Global};
use tt::TtIter;
use tt_data::{DelimiterKind, LeafRef};

/// What the list around an open group goes on with.
#[derive(Drop)]
pub(crate) struct Level {
    begun: Begun,
    standing: Standing,
    // How many definitions were around the group.
    locals: usize,
}

/// A traversal of a list and of those in its groups.
#[derive(Drop)]
pub(crate) struct ListWalk<'a> {
    pub trees: TreeWalk<'a>,
    // One for each group that it is in, the innermost last.
    levels: Vec<Level>,
    /// What of the present piece came so far.
    pub begun: Begun,
    /// Where the innermost list is.
    pub standing: Standing,
}

impl<'a> ListWalk<'a> {
    /// A traversal at the beginning of a list.
    pub fn new(alloc: Global, trees: &TtIter<'a>, standing: Standing) -> Self
        ensures here { result.trees.here ≡ trees.now }
        ensures groups { groups_of result.trees ≡ [] }
        ensures levels { reverse result.levels.items ≡ [] }
        ensures begun { result.begun ≡ Begun.Nothing }
        ensures standing { result.standing ≡ standing }
    {
        ListWalk {
            trees: TreeWalk::new(alloc, trees),
            levels: Vec::new(alloc),
            begun: Begun::Nothing,
            standing,
        }
    }

    /// A group of this kind was entered, around which there are so many definitions: its list is
    /// `inside`.
    pub fn enter(
        &mut self,
        kind: DelimiterKind,
        locals: usize,
        inside: Standing,
    ) -> Result<(), AllocError>
        ensures trees { self.new.trees ≡ self.old.trees }
        ensures levels { OnOk result (self.new.levels.items ≡ self.old.levels.items
            ++ record {
              begun = after_group self.old.begun kind;
              standing = self.old.standing;
              locals = locals;
            } ∷ []) }
        ensures begun { OnOk result (self.new.begun ≡ Begun.Nothing) }
        ensures standing { OnOk result (self.new.standing ≡ inside) }
    {
        self.levels.push(Level {
            begun: self.begun.with_group(kind),
            standing: self.standing,
            locals,
        })?;
        self.begun = Begun::Nothing;
        self.standing = inside;
        Ok(())
    }

    /// A group of this kind was left: what a visible one defines ends with it.
    pub fn leave(&mut self, kind: DelimiterKind, locals: &mut Locals)
        ensures trees { self.new.trees ≡ self.old.trees }
        ensures level { (level : Level) (rest : List Level) →
            reverse self.old.levels.items ≡ level ∷ rest →
            Leaves kind level rest locals.old self.new locals.new }
        ensures read { (edition : Edition) → AreReadIn edition locals.old →
            AreReadIn edition locals.new }
    {
        let Some(level) = self.levels.pop() else {
            return;
        };
        if kind != DelimiterKind::Invisible {
            locals.cut_back(level.locals);
        }
        self.begun = level.begun;
        self.standing = level.standing;
    }
}

/// Where the list in a group of this kind is, before which so much came of its piece.
pub(crate) fn in_group(begun: Begun, kind: DelimiterKind, standing: Standing) -> Standing
    ensures { result ≡ in_group begun kind standing }
{
    if kind == DelimiterKind::Invisible || standing == Standing::Argument {
        return standing;
    }
    if begun.holds_items(kind) {
        Standing::Items
    } else {
        Standing::Enclosed
    }
}

/// Whether a call whose group these trees begin with stands alone in a list of items, in
/// parentheses or brackets.
pub(crate) fn is_alone_at(
    dialect: &Dialect,
    begun: Begun,
    standing: Standing,
    from_group: &TtIter<'_>,
) -> bool
    ensures { result ≡ is_alone_at dialect.now begun standing from_group.now }
{
    match from_group.first_group() {
        Some((brackets, _, _)) => {
            dialect.items
                && is_items(standing)
                && begun.is_at_start()
                && brackets.kind != DelimiterKind::Brace
        }
        None => false,
    }
}

// What follows the first piece of a list, if conditional compilation leaves it out.
fn out_of_list<'a>(
    dialect: &Dialect,
    standing: Standing,
    trees: &TtIter<'a>,
) -> Result<Option<TtIter<'a>>, AllocError>
    ensures { IfOk result (IsOutAhead dialect.now.cfg standing trees.now) }
{
    let mut rest = trees.copied();
    let Some(piece) = next_piece(&mut rest) else {
        return Ok(None);
    };
    if is_out(dialect, standing, &piece)? {
        Ok(Some(rest))
    } else {
        Ok(None)
    }
}

/// What follows the piece that begins at the present place, if conditional compilation leaves it
/// out. `None` in the midst of a piece. Out of memory is its only error.
#[inline(always)]
pub(crate) fn out_ahead<'a>(
    dialect: &Dialect,
    walk: &ListWalk<'a>,
) -> Result<Option<TtIter<'a>>, AllocError>
    ensures some { IfOk result (λ out. IfSome out (λ rest. (walk.now.begun ≡ Begun.Nothing)
        × IsOutAhead dialect.now.cfg walk.now.standing walk.now.trees.here (Some rest))) }
    ensures none { IfOk result (λ out. out ≡ None → walk.now.begun ≡ Begun.Nothing →
        IsOutAhead dialect.now.cfg walk.now.standing walk.now.trees.here None) }
{
    if dialect.cfg.is_none() || walk.begun != Begun::Nothing {
        return Ok(None);
    }
    out_of_list(dialect, walk.standing, &walk.trees.here)
}

// Whether a definition can begin with the tree that these begin with: an attribute, `pub`, or one
// of the words that make definitions.
fn can_begin(trees: &TtIter<'_>) -> bool
    ensures { result ≡ can_begin trees.now }
{
    match trees.lent_leaf() {
        Some((LeafRef::Ident(word), _)) => has_text(word, "macro_rules")
            || has_text(word, "macro")
            || has_text(word, "pub"),
        Some((LeafRef::Punct(punct), _)) => punct.char == '#',
        _ => false,
    }
}

/// The first piece of a list and what follows it, if that piece is a definition.
pub(crate) fn definition_ahead<'a>(trees: &TtIter<'a>) -> Option<(TtIter<'a>, TtIter<'a>)>
    ensures { IsAhead trees.now result }
{
    if !can_begin(trees) {
        return None;
    }
    let mut rest = trees.copied();
    let piece = next_piece(&mut rest)?;
    let _definition = definition_of(&piece)?;
    Some((piece, rest))
}
