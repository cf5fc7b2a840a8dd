//! The bytes that a change replaces.
ghost use Rattle.std.specs.Prelude.{◌≡◌, ◌≤◌, IsCharBoundary, length};
ghost use Rattle.client_texts.specs.Texts.{changed, replaced};
ghost use Rattle.client_texts.specs.Views.{change_view};

use crate::change::Change;
use line_index::offset_of;

/// Bytes of a text, and what is put in their place.
#[derive(Clone, Copy, Drop)]
pub struct Edit<'a> {
    pub start: usize,
    pub end: usize,
    pub new: &'a str,
}

/// The bytes that a change replaces in a text. A begin behind the end is taken as the end.
pub fn edit_of<'a>(change: &Change<'a>, text: &str) -> Edit<'a>
    ensures edit { replaced text.now result.start result.end result.new.now
        ≡ changed (change_view change.now) text.now }
    ensures start { IsCharBoundary text.now result.start }
    ensures stop { IsCharBoundary text.now result.end }
    ensures order { result.start ≤ result.end }
{
    match *change {
        Change::Whole(new) => Edit {
            start: 0,
            end: text.len(),
            new,
        },
        Change::Part(start, end, new) => {
            let end = offset_of(text, end);
            let start = offset_of(text, start).min(end);
            Edit { start, end, new }
        }
    }
}
