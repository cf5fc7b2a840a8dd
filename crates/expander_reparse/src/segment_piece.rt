//! A piece given by its segment and its index there, so that nothing of it is read.
ghost use Rattle.std.specs.Prelude.{◌≡◌, ◌<◌, length};
ghost use Rattle.std.specs.Rc.{rc_value};
ghost use Rattle.expander_reparse.specs.SegmentTrees.{part_tree};

use crate::segment::Segment;
use expander_model::hashed_tree::HashedTree;
use std::rc::Rc;

/// A piece of a segment.
#[derive(Drop)]
pub struct SegmentPiece {
    segment: Rc<Segment>,
    at: usize,
    ghost in_range: { at < length (rc_value segment).parts.items },
}

impl SegmentPiece {
    /// The piece at this index of the segment.
    pub fn new(segment: Rc<Segment>, at: usize) -> Self
        requires { at < length (rc_value segment).parts.items }
        ensures segment { result.segment ≡ segment }
        ensures at { result.at ≡ at }
    {
        SegmentPiece { segment, at }
    }

    /// Its shared tree. This reads nothing of the tree itself.
    pub fn tree(&self) -> &Rc<HashedTree>
        ensures { result.now.value ≡ part_tree (rc_value self.now.segment).parts.items self.now.at }
    {
        &self.segment.as_ref().parts[self.at].source.as_ref().tree
    }
}
