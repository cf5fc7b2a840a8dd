//! Names, and the restrictions of visibilities.
ghost use Rattle.std.specs.Prelude.{◌≡◌, ◌&&◌, ◌||◌, codes};
ghost use Rattle.std.specs.List.{list_any};
ghost use Rattle.small_grammar.specs.Text.{has_text, is_raw_name, is_word, same_text};
ghost use Rattle.small_grammar.specs.Tokens.{token_at, a_name, a_restriction, is_name, is_among};
ghost use Rattle.small_grammar.specs.Tokens.{reserved, path_words, words, is_place};
ghost use Rattle.tt.specs.FirstTrees.{first_ident};
ghost use Rattle.tt_data.specs.Lent.{ident_lent};

use tt::TtIter;
use tt_data::{DelimiterKind, IdentIsRaw, IdentRef};

// The reserved words, by their number of bytes.
const OF_TWO: [&str; 5] = ["as", "fn", "if", "in", "do"];

const OF_THREE: [&str; 11] = [
    "for", "let", "mod", "mut", "pub", "ref", "use", "dyn", "box", "try", "gen",
];

const OF_FOUR: [&str; 10] = [
    "else", "enum", "impl", "loop", "move", "self", "Self", "true", "type", "priv",
];

const OF_FIVE: [&str; 14] = [
    "break", "const", "crate", "false", "match", "super", "trait", "where", "while", "async",
    "await", "final", "macro", "yield",
];

const OF_SIX: [&str; 7] = [
    "extern", "return", "static", "struct", "unsafe", "become", "typeof",
];

const OF_SEVEN: [&str; 2] = ["unsized", "virtual"];

const OF_EIGHT: [&str; 3] = ["continue", "abstract", "override"];

const PATH_WORDS: [&str; 4] = ["self", "Self", "super", "crate"];

// Whether a text is this word. Most others differ in their first byte, which is compared first.
#[tactic(auto, using(crate::proofs::NameLemmas::other_start))]
fn is_same(text: &str, known: &str) -> bool
    ensures { result ≡ same_text text.now known.now }
{
    if let Some((here, _)) = text.as_bytes().split_first() {
        if let Some((there, _)) = known.as_bytes().split_first() {
            if *here != *there {
                return false;
            }
        }
    }
    text == known
}

// Whether the text is one of these.
fn is_among(texts: &[&str], text: &str) -> bool
    ensures { result ≡ list_any (λ t. same_text text.now t.now) texts.now }
{
    for known in texts {
        if is_same(text, *known) {
            return true;
        }
    }
    false
}

fn is_of_two(text: &str) -> bool
    ensures { result ≡ is_among (words (codes "as fn if in do")) text.now }
{
    let words: [&str; 5] = OF_TWO;
    is_among(words.as_slice(), text)
}

fn is_of_three(text: &str) -> bool
    ensures { result ≡ is_among (words (codes "for let mod mut pub ref use dyn box try gen"))
        text.now }
{
    let words: [&str; 11] = OF_THREE;
    is_among(words.as_slice(), text)
}

fn is_of_four(text: &str) -> bool
    ensures { result ≡ is_among (words (codes "else enum impl loop move self Self true type priv"))
        text.now }
{
    let words: [&str; 10] = OF_FOUR;
    is_among(words.as_slice(), text)
}

fn is_of_five(text: &str) -> bool
    ensures { result ≡ is_among (words (codes
        "break const crate false match super trait where while async await final macro yield"))
        text.now }
{
    let words: [&str; 14] = OF_FIVE;
    is_among(words.as_slice(), text)
}

fn is_of_six(text: &str) -> bool
    ensures { result ≡ is_among (words (codes "extern return static struct unsafe become typeof"))
        text.now }
{
    let words: [&str; 7] = OF_SIX;
    is_among(words.as_slice(), text)
}

fn is_of_seven(text: &str) -> bool
    ensures { result ≡ is_among (words (codes "unsized virtual")) text.now }
{
    let words: [&str; 2] = OF_SEVEN;
    is_among(words.as_slice(), text)
}

fn is_of_eight(text: &str) -> bool
    ensures { result ≡ is_among (words (codes "continue abstract override")) text.now }
{
    let words: [&str; 3] = OF_EIGHT;
    is_among(words.as_slice(), text)
}

/// Whether the text is reserved in some edition: only words with as many bytes are compared.
pub fn is_reserved(text: &str) -> bool
    ensures { result ≡ is_among reserved text.now }
{
    match text.len() {
        2 => is_of_two(text),
        3 => is_of_three(text),
        4 => is_of_four(text),
        5 => is_of_five(text),
        6 => is_of_six(text),
        7 => is_of_seven(text),
        8 => is_of_eight(text),
        _ => false,
    }
}

/// Whether the text is `self`, `Self`, `super` or `crate`.
pub fn is_path_word(text: &str) -> bool
    ensures { result ≡ is_among path_words text.now }
{
    let words: [&str; 4] = PATH_WORDS;
    is_among(words.as_slice(), text)
}

/// Whether the identifier is written with `r#`.
#[inline]
pub fn is_raw_name(ident: IdentRef<'_>) -> bool
    ensures { result ≡ is_raw_name (ident_lent ident.entry) }
{
    match ident.is_raw {
        IdentIsRaw::No => false,
        IdentIsRaw::Yes => true,
    }
}

/// Whether the identifier has this text, and isn't raw.
#[inline]
pub fn has_text(ident: IdentRef<'_>, text: &str) -> bool
    ensures { result ≡ has_text text.now (ident_lent ident.entry) }
{
    !is_raw_name(ident) && ident.sym.as_str() == text
}

// Whether it is a name: an identifier but `_` that is raw, or not reserved, or `self`, `Self`,
// `super` or `crate`.
fn is_name(ident: IdentRef<'_>) -> bool
    ensures { result ≡ is_name (ident_lent ident.entry) }
{
    let text = ident.sym.as_str();
    text != "_" && (is_raw_name(ident) || !is_reserved(text) || is_path_word(text))
}

/// A name.
#[tactic(auto, unfolding(crate::specs::Tokens::token_at))]
pub(crate) fn name<'a>(trees: &TtIter<'a>) -> Option<TtIter<'a>>
    ensures { result ≡ token_at a_name trees.now }
{
    let (ident, rest) = trees.lent_ident()?;
    if is_name(ident) { Some(rest) } else { None }
}

// Whether a visibility may be restricted to exactly this.
fn is_lone_place(text: &str) -> bool
    ensures { result ≡ (same_text text.now (codes "crate") ||
        (same_text text.now (codes "self") || same_text text.now (codes "super"))) }
{
    text == "crate" || text == "self" || text == "super"
}

// Whether a visibility may be restricted to what begins with this name, which is all of it if
// `is_alone`.
fn begins_place(ident: IdentRef<'_>, is_alone: bool) -> bool
    ensures { result ≡ (is_word "in" (ident_lent ident.entry) ||
        (is_alone && (is_word "crate" (ident_lent ident.entry) ||
        (is_word "self" (ident_lent ident.entry) || is_word "super" (ident_lent ident.entry))))) }
{
    if is_raw_name(ident) {
        return false;
    }
    let text = ident.sym.as_str();
    text == "in" || is_alone && is_lone_place(text)
}

// Whether a visibility may be restricted to these trees.
fn is_place(trees: &TtIter<'_>) -> bool
    ensures { result ≡ is_place (first_ident trees.now) }
{
    match trees.lent_ident() {
        Some((ident, rest)) => begins_place(ident, rest.is_empty()),
        None => false,
    }
}

/// A parenthesis group that restricts a visibility.
#[tactic(auto, unfolding(crate::specs::Tokens::token_at))]
pub fn restriction<'a>(trees: &TtIter<'a>) -> Option<TtIter<'a>>
    ensures { result ≡ token_at a_restriction trees.now }
{
    let (delimiter, inner, rest) = trees.first_group()?;
    if delimiter.kind == DelimiterKind::Parenthesis && is_place(&inner) {
        Some(rest)
    } else {
        None
    }
}
