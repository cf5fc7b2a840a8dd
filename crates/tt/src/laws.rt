//! Laws of positions and of trees under construction, for the proofs of crates above.
//!
//! Calling a law does nothing: its contract is the statement, which the caller then has in its
//! own proof.
ghost use Rattle.std.specs.Prelude.{◌≡◌, ◌↔◌, ℕ, Bool, true, List, [], ◌∷◌, ◌+◌, ◌*◌, ◌≤◌, length};
ghost use Rattle.std.specs.Prelude.{map, nat_eq, Some, option_map};
ghost use Rattle.std.specs.List.{IsDistinct, count_by, list_any};
ghost use Rattle.std.specs.Option.{unwrap_or};
ghost use Rattle.tt_data.specs.Forest.{Forest};
ghost use Rattle.tt_data.specs.Walk.{walk};
ghost use Rattle.token_bytes.specs.Packing.{records, table_after};
ghost use Rattle.tt.specs.Building.{Building, Point, Reached, built, point_of, cut_back};
ghost use Rattle.tt.specs.Elements.{elements};
ghost use Rattle.tt.specs.Places.{Place, beginning, IsEnd, moved, steps_before, steps_after};
ghost use Rattle.tt.specs.Places.{IsStep};
ghost use Rattle.tt.specs.Splitting.{until_separator, behind_separator, pieces_between};
ghost use Rattle.tt.specs.Relabelling.{anchors_of, by_first_use, relabelled};
ghost use Rattle.tt_data.specs.Spans.{anchor_with};
ghost use Rattle.tt.specs.Tops.{Top, tokens_of};
ghost use Rattle.tt_data.specs.Spans.{token_with};
ghost use Rattle.tt.specs.declared.iter.TtElement.{TtElement};
ghost use Rattle.tt.specs.declared.top_subtree.transform.TransformTtAction.{TransformTtAction};
ghost use Rattle.tt.specs.declared.view.SubtreeView.{SubtreeView};
ghost use Rattle.tt.specs.declared.view.TokenTreesView.{TokenTreesView};

use crate::buffer::Cursor;
use crate::iter::{TtElement, TtIter};
use crate::top_subtree::TopSubtree;
use crate::top_subtree::builder::SubtreeBuilderRestorePoint;
use crate::top_subtree::transform::TransformTtAction;
use crate::view::{SubtreeView, TokenTreesView};

/// A cursor goes over the walk of its list step by step: at the beginning all steps are after it,
/// each move passes one, and at the end none is left.
pub fn walk_of_a_cursor()
    ensures before { (f : Forest) → steps_before (beginning f) ≡ [] }
    ensures after { (f : Forest) → steps_after (beginning f) ≡ walk f }
    ensures step { (p : Place) → (IsEnd p → ⊥) → IsStep p (moved p) }
    ensures done { (p : Place) → IsEnd p → steps_after p ≡ [] }
{}

/// A restore point of a builder stays valid as long as only leaves and groups come after it, and
/// no group is closed that was open there. Restoring gives the tree of that point.
pub fn points_stand()
    ensures { (b t : Building) → Reached b t → cut_back (point_of b) t ≡ Some b }
{}

/// The parts of a split list come in order, each up to the next separator, and there is one more
/// than there are separators.
pub fn pieces_of_trees()
    ensures next { (p : TtElement → Bool) (f : Forest) → pieces_between p f
        ≡ until_separator p f ∷ unwrap_or (option_map (pieces_between p) (behind_separator p f))
        [] }
    ensures counted { (p : TtElement → Bool) (f : Forest) →
        length (pieces_between p f) ≡ count_by p (elements f) + 1 }
{}

/// A tree with other anchors: its tokens and its anchors change one by one, two changes in turn
/// are one, and what a change makes of anchors that the tree hasn't does not matter.
pub fn trees_relabelled()
    ensures tokens { (h : ℕ → ℕ) (t : Top) →
        tokens_of (relabelled h t) ≡ map (token_with (anchor_with h)) (tokens_of t) }
    ensures anchors { (h : ℕ → ℕ) (t : Top) → anchors_of (relabelled h t) ≡ map h (anchors_of t) }
    ensures twice { (h k : ℕ → ℕ) (t : Top) →
        relabelled h (relabelled k t) ≡ relabelled (λ a. h (k a)) t }
    ensures same { (t : Top) → relabelled (λ a. a) t ≡ t }
    ensures agreeing { (h k : ℕ → ℕ) (t : Top) →
        ((a : ℕ) → list_any (nat_eq a) (anchors_of t) ≡ true → h a ≡ k a) →
        relabelled h t ≡ relabelled k t }
{}

/// Anchors by their first use: none comes twice, and each one comes.
pub fn anchors_by_first_use()
    ensures once { (xs : List ℕ) → IsDistinct nat_eq (by_first_use xs) }
    ensures all { (xs : List ℕ) (a : ℕ) → list_any (nat_eq a) xs ≡ true →
        list_any (nat_eq a) (by_first_use xs) ≡ true }
{}

/// Two trees are equal by `==` exactly where they are the same tree, spans included.
pub fn equal_trees()
    ensures { (a b : Top) → (⟦<TopSubtree as PartialEq>⟧.eq a b ≡ true) ↔ (a ≡ b) }
{}

/// Two trees are equal exactly where their bytes and their tables are. The bytes are at most 31 a
/// token. A tree whose builder went back to a restore point has the bytes and the table of the
/// tree that was built up to that point alone.
pub fn stored_trees()
    ensures same { (a b : Top) → ((records [] (tokens_of a) ≡ records [] (tokens_of b))
        × (table_after [] (tokens_of a) ≡ table_after [] (tokens_of b))) ↔ (a ≡ b) }
    ensures size { (t : Top) → length (records [] (tokens_of t)) ≤ 31 * length (tokens_of t) }
    ensures restored { (b t back : Building) → Reached b t → cut_back (point_of b) t ≡ Some back →
        (records [] (tokens_of (built back)) ≡ records [] (tokens_of (built b)))
        × (table_after [] (tokens_of (built back)) ≡ table_after [] (tokens_of (built b))) }
{}

/// A clone of a view, an iterator, a cursor, a point or an action is the same value.
pub fn clones_are_the_same()
    ensures views { (v copy : TokenTreesView) →
        ⟦<TokenTreesView<'static> as Clone>⟧.is_clone v copy → copy ≡ v }
    ensures groups { (g copy : SubtreeView) → ⟦<SubtreeView<'static> as Clone>⟧.is_clone g copy →
        copy ≡ g }
    ensures walks { (f copy : Forest) → ⟦<TtIter<'static> as Clone>⟧.is_clone f copy → copy ≡ f }
    ensures trees { (t copy : TtElement) → ⟦<TtElement<'static> as Clone>⟧.is_clone t copy →
        copy ≡ t }
    ensures cursors { (p copy : Place) → ⟦<Cursor<'static> as Clone>⟧.is_clone p copy → copy ≡ p }
    ensures points { (p copy : Point) → ⟦<SubtreeBuilderRestorePoint as Clone>⟧.is_clone p copy →
        copy ≡ p }
    ensures actions { (a copy : TransformTtAction) →
        ⟦<TransformTtAction<'static> as Clone>⟧.is_clone a copy → copy ≡ a }
{}
