//! Compares the texts of two names.
ghost use Rattle.std.specs.Prelude.{◌≡◌};
ghost use Rattle.std.specs.Str.{bytes_eq};
ghost use Rattle.mbe_rules.specs.Text.{same_text};

use symbols::Symbol;

// Whether these are the same bytes. They are compared one by one: most texts that differ do so in
// length.
fn is_equal(first: &[u8], second: &[u8]) -> bool
    ensures { result ≡ bytes_eq first.now second.now }
{
    if first.len() != second.len() {
        return false;
    }
    for (i, byte) in first.iter().enumerate() {
        if *byte != second[i] {
            return false;
        }
    }
    true
}

/// Whether two names have the same text.
pub(crate) fn is_same(first: &Symbol, second: &Symbol) -> bool
    ensures { result ≡ same_text first.now second.now }
{
    is_equal(first.as_str().as_bytes(), second.as_str().as_bytes())
}
