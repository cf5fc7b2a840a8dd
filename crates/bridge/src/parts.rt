//! What expansion over cached pieces uses beyond whole texts and trees: parts of a text, read by
//! themselves, and token events and chunks of text, printed one after another.

pub use crate::printing::chunk::PrintedChunk;
pub use crate::printing::event::TokenEvent;
pub use crate::printing::printer::LazyPrinted;
pub use crate::printing::relative_spans::{Place, RelativeSpans, Shift};
pub use crate::printing::span_list::SpanList;
pub use crate::reading::name_cache::NameCache;
pub use crate::reading::{begins_with_mark, read_part};
