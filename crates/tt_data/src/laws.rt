//! Laws of forests, for the proofs of crates above. Calling a law does nothing: its contract is
//! the statement.
ghost use Rattle.std.specs.Prelude.{◌≡◌, ◌↔◌, true, ℕ, ◌+◌, List, ◌∷◌, ◌++◌, length, map};
ghost use Rattle.tt_data.specs.Flat.{Parts};
ghost use Rattle.tt_data.specs.Forest.{Forest, empty, group, joined, size, preorder, front, back};
ghost use Rattle.tt_data.specs.Forest.{forest_of, head_of, IsPreorder, map_spans, shape};
ghost use Rattle.tt_data.specs.Spans.{token_with, no_span};
ghost use Rattle.tt_data.specs.Walk.{walk, step_with};
ghost use Rattle.tt_data.specs.declared.delimiter.Delimiter.{Delimiter};
ghost use Rattle.tt_data.specs.declared.leaf.Leaf.{Leaf};
ghost use Rattle.tt_data.specs.declared.leaf.LitKind.{LitKind};
ghost use Rattle.tt_data.specs.declared.leaf.Spacing.{Spacing};
ghost use Rattle.tt_data.specs.declared.leaf.Spacing.TheVariants.{Alone};
ghost use Rattle.tt_data.specs.declared.span.Span.{Span};
ghost use Rattle.tt_data.specs.declared.span.SyntaxContext.{SyntaxContext};
ghost use Rattle.tt_data.specs.declared.span.SyntaxContext.TheVariants.{Written};
ghost use Rattle.tt_data.specs.declared.span.TextRange.{TextRange};
ghost use Rattle.tt_data.specs.declared.tree.Subtree.{Subtree};
ghost use Rattle.tt_data.specs.declared.tree.TokenTree.{TokenTree};
ghost use Rattle.tt_data.specs.declared.tree.TokenTree.TheVariants as token;
ghost use Rattle.tt_data.specs.declared.leaf.Ident.{Ident};
ghost use Rattle.tt_data.specs.declared.leaf.Literal.{Literal};
ghost use Rattle.tt_data.specs.declared.leaf.Punct.{Punct};

use crate::delimiter::Delimiter;
use crate::leaf::{Ident, Leaf, LitKind, Literal, Punct, Spacing};
use crate::span::{Span, SyntaxContext, TextRange};
use crate::tree::{Subtree, TokenTree};
use symbols::Symbol;

/// A forest and its flat list give each other back; the list is as long as the forest's size.
pub fn tokens_of_a_forest()
    ensures back { (f : Forest) → forest_of (preorder f) ≡ f }
    ensures whole { (f : Forest) → IsPreorder (preorder f) }
    ensures counted { (f : Forest) → length (preorder f) ≡ size f }
{}

/// In the flat list of a forest, the tokens after a leaf are those of the trees after it. Those
/// after the head of a group are first those of the trees inside, as many as it counts, and then
/// the others.
pub fn flat_lists_taken_apart()
    ensures after_leaf { (l : Leaf) (more : List TokenTree) → IsPreorder (token.Leaf l ∷ more) →
        IsPreorder more }
    ensures after_head { (s : Subtree) (more : List TokenTree) →
        IsPreorder (token.Subtree s ∷ more) → Parts s more }
{}

/// Flat lists of forests make further ones: a leaf before one, one list after another, and the
/// head of a group that counts the tokens of the first of two lists.
pub fn flat_lists_put_together()
    ensures leaf_before { (l : Leaf) (more : List TokenTree) → IsPreorder more →
        IsPreorder (token.Leaf l ∷ more) }
    ensures appended { (a b : List TokenTree) → IsPreorder a →
        forest_of (a ++ b) ≡ joined (forest_of a) (forest_of b) }
    ensures appended_whole { (a b : List TokenTree) → IsPreorder a → IsPreorder b →
        IsPreorder (a ++ b) }
    ensures grouped { (d : Delimiter) (a b : List TokenTree) → IsPreorder a →
        forest_of (head_of d (length a) ∷ a ++ b) ≡ group d (forest_of a) (forest_of b) }
    ensures grouped_whole { (d : Delimiter) (a b : List TokenTree) → IsPreorder a → IsPreorder b →
        IsPreorder (head_of d (length a) ∷ a ++ b) }
{}

/// Joining forests is associative, and the empty forest changes nothing. Tokens, their number and
/// the walk of a joined forest are those of its parts, in order.
pub fn forests_joined()
    ensures grouping { (f g h : Forest) → joined (joined f g) h ≡ joined f (joined g h) }
    ensures nothing { (f : Forest) → joined f empty ≡ f }
    ensures counted { (f g : Forest) → size (joined f g) ≡ size f + size g }
    ensures tokens { (f g : Forest) → preorder (joined f g) ≡ preorder f ++ preorder g }
    ensures steps { (f g : Forest) → walk (joined f g) ≡ walk f ++ walk g }
    ensures followed { (f : Forest) (more : List TokenTree) →
        forest_of (preorder f ++ more) ≡ joined f (forest_of more) }
{}

/// A forest cut in two gives its parts back.
pub fn forests_cut()
    ensures whole { (n : ℕ) (f : Forest) → joined (front n f) (back n f) ≡ f }
    ensures first { (f g : Forest) → front (size f) (joined f g) ≡ f }
    ensures others { (f g : Forest) → back (size f) (joined f g) ≡ g }
{}

/// Two forests with one walk are one forest.
pub fn walk_of_a_forest()
    ensures { (f g : Forest) → walk f ≡ walk g → f ≡ g }
{}

/// A span map changes no tree, size or shape. It changes the span of each token and of each step
/// of the walk, and two maps in turn are one.
pub fn spans_mapped()
    ensures joining { (m : Span → Span) (f g : Forest) →
        map_spans m (joined f g) ≡ joined (map_spans m f) (map_spans m g) }
    ensures counted { (m : Span → Span) (f : Forest) → size (map_spans m f) ≡ size f }
    ensures tokens { (m : Span → Span) (f : Forest) →
        preorder (map_spans m f) ≡ map (token_with m) (preorder f) }
    ensures steps { (m : Span → Span) (f : Forest) →
        walk (map_spans m f) ≡ map (step_with m) (walk f) }
    ensures twice { (m n : Span → Span) (f : Forest) →
        map_spans m (map_spans n f) ≡ map_spans (λ s. m (n s)) f }
    ensures same { (f : Forest) → map_spans (λ s. s) f ≡ f }
    ensures flat { (m : Span → Span) (ts : List TokenTree) →
        forest_of (map (token_with m) ts) ≡ map_spans m (forest_of ts) }
    ensures flat_whole { (m : Span → Span) (ts : List TokenTree) → IsPreorder ts →
        IsPreorder (map (token_with m) ts) }
    ensures shapes { (m : Span → Span) (f : Forest) → shape (map_spans m f) ≡ shape f }
{}

/// Two tokens are equal by `==` exactly where they are the same, spans included.
pub fn equal_tokens()
    ensures spans { (a b : Span) → (⟦<Span as PartialEq>⟧.eq a b ≡ true) ↔ (a ≡ b) }
    ensures delimiters { (a b : Delimiter) → (⟦<Delimiter as PartialEq>⟧.eq a b ≡ true) ↔ (a ≡ b) }
    ensures symbols { (a b : List ℕ) → (⟦<Symbol as PartialEq>⟧.eq a b ≡ true) ↔ (a ≡ b) }
    ensures kinds { (a b : LitKind) → (⟦<LitKind as PartialEq>⟧.eq a b ≡ true) ↔ (a ≡ b) }
    ensures puncts { (a b : Punct) → (⟦<Punct as PartialEq>⟧.eq a b ≡ true) ↔ (a ≡ b) }
    ensures idents { (a b : Ident) → (⟦<Ident as PartialEq>⟧.eq a b ≡ true) ↔ (a ≡ b) }
    ensures literals { (a b : Literal) → (⟦<Literal as PartialEq>⟧.eq a b ≡ true) ↔ (a ≡ b) }
    ensures leaves { (a b : Leaf) → (⟦<Leaf as PartialEq>⟧.eq a b ≡ true) ↔ (a ≡ b) }
    ensures heads { (a b : Subtree) → (⟦<Subtree as PartialEq>⟧.eq a b ≡ true) ↔ (a ≡ b) }
    ensures tokens { (a b : TokenTree) → (⟦<TokenTree as PartialEq>⟧.eq a b ≡ true) ↔ (a ≡ b) }
{}

/// By `Default` a span is 0..0 with anchor 0 and context `Written`, and a punct is U+0000,
/// `Alone`, there.
pub fn defaults()
    ensures ranges { (r : TextRange) → ⟦<TextRange as Default>⟧.is_default r →
        r ≡ record { start = 0; «end» = 0 } }
    ensures contexts { (c : SyntaxContext) → ⟦<SyntaxContext as Default>⟧.is_default c →
        c ≡ Written }
    ensures spans { (s : Span) → ⟦<Span as Default>⟧.is_default s → s ≡ no_span }
    ensures spacings { (s : Spacing) → ⟦<Spacing as Default>⟧.is_default s → s ≡ Alone }
    ensures puncts { (p : Punct) → ⟦<Punct as Default>⟧.is_default p →
        p ≡ record { char = 0; spacing = Alone; span = no_span } }
{}
