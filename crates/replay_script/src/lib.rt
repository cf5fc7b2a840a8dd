//! Scripts: lines that edit and expand a text, and the answers to them as text or as JSON.
//!
//! A script is read line by line. A line is UTF-8, without a carriage return, and ends with a line
//! feed. The text is empty at first. A line is one of these:
//!
//! - `origins`, as the first line alone: the origins of printed tokens are written too.
//! - `edit START END REPLACEMENT`: the replacement replaces the bytes from START to END of the
//!   text. Both are decimal numbers. One space comes before each of the three, and the
//!   replacement is the rest of the line; it may be empty. In it `\n` means a line feed, `\r` a
//!   carriage return and `\\` a backslash. No other backslash is allowed.
//! - `expand`: the text is expanded.
//! - `source N HOME TEXT`: TEXT is read for its definitions, as the source N, a decimal number from
//!   1 to `u32::MAX`. One space comes before each of the three. TEXT is the rest of the line, has
//!   the escapes of a replacement, and means at most `u32::MAX` bytes. HOME is `-` where the source
//!   is of the crate of the text that is expanded. Else it is `ROOT@EDITION`: the word that
//!   `$crate` stands for, as `Home::new` takes it, and 2015, 2018, 2021 or 2024. Nothing is
//!   expanded otherwise until the next `prelude` line. A number that comes again replaces its
//!   source, for later `prelude` lines.
//! - `prelude`, or `prelude WORD..` with one space before each word: from now on the text is
//!   expanded after these definitions alone, a later one nearer. A word is `N`: the definitions of
//!   the source N that are in no inline module and do not have the attribute
//!   `rustc_builtin_macro`, in order. Or it is `N:I,I..`: those with these indices, in this order.
//!   Index 0 is the first of all definitions of the source, and those in its inline modules are
//!   counted too. N and I are decimal numbers. Behind the definitions of a word come all of its
//!   source but for those with that attribute, if its HOME is not `-`: they are what
//!   `$crate::name!` finds in definitions of that crate.
//!
//! Any other line is wrong, an empty one too, and so is a last line without a line feed. The lines
//! before a wrong line are answered, and nothing after it is read.
//!
//! Each line but `origins` is answered in turn, and the answer is written and flushed before the
//! next line is read:
//!
//! - An edit by `edited`; by `bad edit`, if an offset is no character boundary or past the end,
//!   START is greater than END, or the text would have more than `u32::MAX` bytes; or by `refused
//!   Memory`. Only after `edited` has the text changed.
//! - An expansion by `unread KIND START END`, if the text has a reading fault; or by `refused
//!   Memory`, `refused Tokens` or `refused Numbers`; or by several lines: `printed N`, and then
//!   the N bytes of printed text, the last of which, if any, ends a line; `fault KIND START END`
//!   for each fault; `expanded N`, the number of pieces that the last text that was read did not
//!   have; and a line for each printed token, if the script begins with `origins`: `origin START
//!   END` if it comes from the text, and `origin START END in N` if it comes from the source N.
//! - A source by `source N DEFINITIONS`, with the number of its definitions; by `unread KIND START
//!   END`, if TEXT has a reading fault, with offsets in what it means; or by `refused Memory` or
//!   `refused Tokens`. Only after `source` has the source N changed.
//! - A prelude by `prelude COUNT`, with the number of its definitions that are seen by their names;
//!   by `bad prelude`, if there is no source N or it has no index I; or by `refused Memory` or
//!   `refused Tokens`. Only after `prelude` has something changed.
//!
//! KIND is the name of a [`FaultKind`](expander::FaultKind) or a
//! [`ReadFaultKind`](expander::ReadFaultKind), START and END are byte offsets in the text that
//! was expanded, or in the source N.
//!
//! As JSON each of these answers is one line, an object with the member `answer`: `edited`,
//! `bad_edit`, `expansion`, `unread`, `source`, `prelude`, `bad_prelude` or `refused`. The line
//! `origins` changes nothing then.
//!
//! A script may begin with a prelude. Up to its first `prelude COUNT` an origin's N is then the
//! number of that prelude's source. No word can pick that source: words pick from `source` lines
//! alone.
#![tactic(auto)]

mod answer;
mod form;
mod home;
mod json;
pub mod laws;
mod line;
mod picks;
mod script;
mod sources;
mod tell;
mod words;

pub use answer::LineAnswer;
pub use form::Form;
pub use line::{Line, Pick, Wrong};
pub use script::{Answered, End, answer_script};
pub use tell::{kind_name, read_kind_name, refusal_name, wrong_words};
