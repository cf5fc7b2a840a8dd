//! The file that a URI names, and the URI of a file.
ghost use Rattle.std.specs.Prelude.{◌≡◌, ◌++◌, IfOk, IfSome, List, codes, string_bytes, true, ℕ};
ghost use Rattle.percent_encoding.specs.AsciiSet.{contains};
ghost use Rattle.percent_encoding.specs.Percent.{percent_decode};

use percent_encoding::{AsciiSet, NON_ALPHANUMERIC, percent_decode_str, utf8_percent_encode};
use std::alloc::{AllocError, Global};

/// The path that a `file` URI of this machine names, if that is UTF-8. (RFC 8089.)
pub(crate) fn path_of(alloc: Global, uri: &str) -> Result<Option<String>, AllocError>
    ensures { IfOk result (λ found. IfSome found (λ path. (rest : List ℕ)
        × (uri.now ≡ codes "file://" ++ rest) × (string_bytes path ≡ percent_decode rest))) }
{
    let Some(rest) = uri.strip_prefix("file://") else {
        return Ok(None);
    };
    let mut bytes = Vec::new(alloc);
    percent_decode_str(rest).append_to(&mut bytes)?;
    Ok(String::from_utf8(bytes).ok())
}

// The characters of a path that a URI escapes: all but letters, digits and `/-._~`.
fn escaped_in_paths() -> AsciiSet
    ensures { contains result 37 ≡ true }
{
    let set = NON_ALPHANUMERIC.remove(b'/').remove(b'-').remove(b'.');
    set.remove(b'_').remove(b'~').add(b'%')
}

/// The `file` URI of a path. (RFC 8089.)
pub(crate) fn uri_of(alloc: Global, path: &str) -> Result<String, AllocError>
    ensures { IfOk result (λ uri. (rest : List ℕ) × (string_bytes uri ≡ codes "file://" ++ rest)
        × (percent_decode rest ≡ path.now)) }
{
    let mut uri = String::from_str(alloc, "file://")?;
    utf8_percent_encode(path, escaped_in_paths()).append_to(&mut uri)?;
    Ok(uri)
}
