//! The pieces of a text, each a tree with piece-relative spans and where it starts.
ghost use Rattle.std.specs.Prelude.{◌≡◌, All, IfOk, IsOkUnless, None};
ghost use Rattle.tt_data.specs.fault.TtFault.TheVariants as fault;
ghost use Rattle.expander_reparse.specs.RelativePieces.{AreOwn, IsOwn, tree_in};
ghost use Rattle.expander_model.specs.Pieces.{cut};

use crate::segment::CachedPiece;
use crate::segment_piece::SegmentPiece;
use expander_model::hashed_tree::HashedTree;
use expander_model::relative_spans::{own_tree, start_of};
use expander_model::split::next_piece;
use std::alloc::Global;
use std::rc::Rc;
use tt::TtIter;
use tt_data::TtFault;

/// The tree of a piece: alone, with the cached piece that it was read from, or as part of a
/// segment.
#[derive(Drop)]
pub enum PieceTree {
    Alone(Rc<HashedTree>),
    Source(Rc<CachedPiece>),
    Part(SegmentPiece),
}

impl PieceTree {
    /// The shared tree. This reads nothing of the tree itself.
    pub fn get(&self) -> &Rc<HashedTree>
        ensures { result.now.value ≡ tree_in self.now }
    {
        match self {
            PieceTree::Alone(tree) => tree,
            PieceTree::Source(source) => &source.as_ref().tree,
            PieceTree::Part(placed) => placed.tree(),
        }
    }
}

/// A piece with piece-relative spans, and where it starts.
#[derive(Drop)]
pub struct Piece {
    /// Where its first token starts.
    pub start: u32,
    /// Its spans count from there.
    pub tree: PieceTree,
    /// The index of the cached piece that it was taken from, if it was not read anew.
    pub met: Option<usize>,
}

// A piece of a text, with piece-relative spans.
fn own_piece(alloc: Global, piece: &TtIter<'_>) -> Result<Piece, TtFault>
    ensures own { IfOk result (IsOwn piece.now) }
    ensures none { IfOk result (λ own. own.met ≡ None) }
    ensures memory { IsOkUnless result fault.Memory }
{
    let tree = own_tree(alloc, piece)?;
    match Rc::new(alloc, HashedTree::new(tree)) {
        Ok(tree) => Ok(Piece {
            start: start_of(piece),
            tree: PieceTree::Alone(tree),
            met: None,
        }),
        Err(_) => Err(TtFault::Memory),
    }
}

/// The pieces of a text's trees, in order.
pub(crate) fn own_pieces(alloc: Global, trees: &TtIter<'_>) -> Result<Vec<Piece>, TtFault>
    ensures own { IfOk result (λ own. AreOwn (cut trees.now) own.items) }
    ensures none { IfOk result (λ own. All (λ o. o.met ≡ None) own.items) }
    ensures memory { IsOkUnless result fault.Memory }
{
    let mut pieces = Vec::new(alloc);
    let mut rest = trees.copied();
    while let Some(piece) = next_piece(&mut rest) {
        let own = own_piece(alloc, &piece)?;
        let Ok(()) = pieces.push(own) else {
            return Err(TtFault::Memory);
        };
    }
    Ok(pieces)
}
