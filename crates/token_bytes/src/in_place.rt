//! Changes records in place.
ghost use Rattle.std.specs.Prelude.{◌≡◌, ◌++◌, ◌+◌, ◌≤◌, length};
ghost use Rattle.token_bytes.specs.TokenLists.{alone_token};
ghost use Rattle.token_bytes.specs.Anchors.{IsAtHand, answer_of};
ghost use Rattle.token_bytes.specs.Marks.{record_size};
ghost use Rattle.token_bytes.specs.Records.{token_bytes};
ghost use Rattle.token_bytes.specs.Relabelled.{RecordAt, renamed_span, renamed_token};

use crate::reading::{first_size, from, span_in};
use crate::renaming::Renaming;
use crate::writing::span_bytes;
use byte_buffer::ByteBuffer;
use tt_data::Span;

/// Makes the record at a byte that of a punct that is `Alone`, if it is of a punct.
pub(crate) fn set_alone(records: &mut ByteBuffer, at: usize)
    requires { RecordAt at records.old }
    ensures { (r : RecordAt at records.old) → records.new ≡ r.before
        ++ (token_bytes r.n (alone_token r.token) ++ r.more) }
{
    let tag = from(records.bytes(), at)[0];
    if tag == 5 || tag == 6 {
        records.patch(at, &[4]);
    }
}

// Replaces the anchor of the span at a byte.
fn relabel_span(records: &mut ByteBuffer, at: usize, renaming: &Renaming)
    requires hand { IsAtHand renaming.now }
    requires fits { at + 13 ≤ length records.old }
    ensures { records.new ≡ renamed_span (answer_of renaming.now) at records.old }
{
    let span = span_in(from(records.bytes(), at));
    let renamed = Span {
        anchor: renaming.anchor(span.anchor),
        ..span
    };
    records.patch(at, &span_bytes(renamed));
}

/// Replaces the anchors of the record at a byte. The byte behind it.
pub(crate) fn relabel_record(records: &mut ByteBuffer, at: usize, renaming: &Renaming) -> usize
    requires hand { IsAtHand renaming.now }
    requires record { RecordAt at records.old }
    ensures bytes { (r : RecordAt at records.old) → records.new ≡ r.before
        ++ (token_bytes r.n (renamed_token (answer_of renaming.now) r.token) ++ r.more) }
    ensures next { (r : RecordAt at records.old) → result ≡ at + record_size r.token }
{
    // The proof that the byte's index fits needs this.
    let _len = records.bytes().len();
    let size = first_size(from(records.bytes(), at));
    relabel_span(records, at + 1, renaming);
    if size == 31 {
        relabel_span(records, at + 14, renaming);
    }
    at + size
}
