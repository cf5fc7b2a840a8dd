//! What a session caches of the last text that was read.
ghost use Rattle.std.specs.Prelude.{◌≡◌, ℕ, [], All, IfSome, List, None, Some, is_some, slice_get};
ghost use Rattle.std.specs.Rc.{rc_value};
ghost use Rattle.tt_data.specs.declared.edition.Edition.{Edition};
ghost use Rattle.expander_scope.specs.Interning.{AreInTable, definition_tops, known_in};
ghost use Rattle.expander_model.specs.Definitions.{Definition, definition_of};
ghost use Rattle.expander_model.specs.Expansion.{World};
ghost use Rattle.expander_session.specs.MemoRefs.{AreLinked, LeadsTo, plain_tops};
ghost use Rattle.expander_session.specs.Caches.{IsCache, LinksTo, held_in, trees_of};
ghost use Rattle.expander_reparse.specs.RelativePieces.{tree_at};
ghost use Rattle.expander_reparse.specs.Reparsing.{IsMet};
ghost use Rattle.expander_session.specs.Memos.{IsPlain};
ghost use Rattle.expander_reparse.specs.Segments.{AreSegments, all_in};
ghost use Rattle.tt.specs.Tops.{Top};

use crate::memo::Memo;
use crate::memo_ref::MemoRef;
use expander_reparse::piece::Piece;
use expander_reparse::segment::Segments;
use expander_scope::interner::Interner;
use expander_scope::macro_def::MacroDef;
use std::alloc::Global;
use std::rc::Rc;

// How many pieces `look_ahead` looks at together.
const RUN: usize = 32;

/// What is cached of the last text that was read.
#[derive(Drop)]
pub(crate) struct Cache {
    /// Whether any text was read.
    pub was_read: bool,
    /// The memos of its plain pieces, in order.
    pub plains: Vec<Rc<Memo>>,
    /// The hashes of the memos' trees.
    pub hashes: Vec<u64>,
    /// Its definitions, in order.
    pub definitions: Vec<Rc<MacroDef>>,
    /// The definition that each tree has.
    pub by_tree: Interner,
    /// How many ids were given to definitions, in all texts so far.
    pub given: u32,
    /// Its pieces in segments, with the bytes that they were read from.
    pub sources: Segments,
    /// Which memo or definition each piece of the segments has, in order.
    pub links: Vec<MemoRef>,
}

// The reference at this index, if there is one.
fn link_at(links: &[MemoRef], at: usize) -> Option<MemoRef>
    ensures { IfSome result (λ link. slice_get links.now at ≡ Some link) }
{
    if at < links.len() {
        Some(links[at])
    } else {
        None
    }
}

impl Cache {
    /// The cache before the first text is read: empty.
    pub fn new(alloc: Global) -> Self
        ensures right { (world : World Definition) (edition : Edition) (depth : ℕ) →
            IsCache world depth edition result }
        ensures held { held_in result ≡ None }
        ensures trees { trees_of result ≡ [] }
        ensures given { result.given ≡ 0 }
    {
        Cache {
            was_read: false,
            plains: Vec::new(alloc),
            hashes: Vec::new(alloc),
            definitions: Vec::new(alloc),
            by_tree: Interner::new(alloc),
            given: 0,
            sources: Segments::new(alloc),
            links: Vec::new(alloc),
        }
    }

    /// The reference of a piece that was taken from the cached segments. `None` for one that was
    /// read anew.
    pub(crate) fn link_of(&self, own: &Piece) -> Option<MemoRef>
        requires linked { AreLinked (plain_tops self.now.plains.items)
            (definition_tops self.now.definitions.items)
            (all_in self.now.sources) self.now.links.items }
        requires met { IsMet self.now.sources own.now.met (tree_at own.now) }
        ensures { LinksTo self.now result (tree_at own.now) }
    {
        let Some(at) = own.met else {
            return None;
        };
        let Some(link) = link_at(self.links.as_slice(), at) else {
            return None;
        };
        Some(link)
    }

    /// The cached definition that a reference leads to, if it leads to one.
    pub(crate) fn definition_at(&self, link: Option<MemoRef>) -> Option<&Rc<MacroDef>>
        requires listed { AreInTable self.now.by_tree self.now.definitions.items }
        ensures { (t : Top) → LinksTo self.now link t →
            IfSome result (λ k. known_in self.now.by_tree t ≡ Some k.now.value) }
    {
        match link {
            Some(MemoRef::Definition(i)) => self.definitions.get(i),
            _ => None,
        }
    }

    /// A rough size of the memos and definitions that may come next, in tokens and bytes of names,
    /// if this piece is the first of a run, and else 0. The memos of a run are looked at together,
    /// so the processor waits for memory once and not at each. This decides speed alone.
    pub(crate) fn look_ahead(&self, own: &Piece) -> usize
        requires { AreSegments self.now.sources }
    {
        let Some(at) = own.met else {
            return 0;
        };
        if at % RUN != 0 {
            return 0;
        }
        let end = at.saturating_add(RUN).min(self.links.len());
        let mut sum: usize = 0;
        for i in at..end {
            sum = sum.saturating_add(self.size_at(i));
        }
        sum
    }

    // The size of the cached piece at this index, as its memo or definition gives it, or 0.
    fn size_at(&self, at: usize) -> usize
        requires { AreSegments self.now.sources }
    {
        match link_at(self.links.as_slice(), at) {
            Some(MemoRef::Plain(i)) => match self.plains.get(i) {
                Some(plain) => plain.as_ref().size(),
                None => 0,
            },
            Some(MemoRef::Definition(i)) => match (self.definitions.get(i), self.sources.get(at)) {
                (Some(known), Some(source)) => known
                    .as_ref()
                    .size()
                    .saturating_add(source.as_ref().size()),
                _ => 0,
            },
            None => 0,
        }
    }

    /// Whether a piece with this reference is a definition. If it has one, its tree is not looked
    /// at.
    pub(crate) fn is_definition(&self, own: &Piece, link: Option<MemoRef>) -> bool
        requires link { LinksTo self.now link (tree_at own.now) }
        requires plain { All (λ q. IsPlain (rc_value q)) self.now.plains.items }
        ensures { result ≡ is_some (definition_of (tree_at own.now).inner) }
    {
        match link {
            Some(MemoRef::Plain(_)) => false,
            Some(MemoRef::Definition(_)) => true,
            None => own.tree.get().as_ref().is_definition(),
        }
    }
}

/// The index of the memo that a reference leads to, if it leads to one.
pub(crate) fn plain_at(link: Option<MemoRef>) -> Option<usize>
    ensures { (plains definitions : List Top) (t : Top) → LeadsTo plains definitions link t →
        IfSome result (λ i. slice_get plains i ≡ Some t) }
{
    match link {
        Some(MemoRef::Plain(i)) => Some(i),
        _ => None,
    }
}
