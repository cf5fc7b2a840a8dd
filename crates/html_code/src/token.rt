//! A token on a page: as it is where its characters show where it begins and ends, else in an
//! element of its own.
ghost use Rattle.std.specs.Prelude.{◌≡◌, ◌++◌, [], None, OnOk, IfOk, string_bytes};
ghost use Rattle.html_code.specs.Parts.{Adds, content_of, html_of_part, isolated};
ghost use Rattle.html_code.specs.Tokens.{blank_part, comment_part, ends_word, is_plain};
ghost use Rattle.html_code.specs.Tokens.{is_plain_byte, is_sign, is_sign_byte, is_word};
ghost use Rattle.html_code.specs.Tokens.{is_word_byte, token_part};

use crate::escape::push_escaped;
use std::alloc::AllocError;

// Whether this is a letter, a digit or `_`.
fn is_word_byte(b: u8) -> bool
    ensures { result ≡ is_word_byte b }
{
    (48 <= b && b <= 57) || (65 <= b && b <= 90) || (97 <= b && b <= 122) || b == 95
}

// Whether this is another character of ASCII that is printed.
fn is_sign_byte(b: u8) -> bool
    ensures { result ≡ is_sign_byte b }
{
    33 <= b && b <= 126 && !is_word_byte(b)
}

// Whether this is a character of ASCII that is printed, or white space.
fn is_plain_byte(b: u8) -> bool
    ensures { result ≡ is_plain_byte b }
{
    (32 <= b && b <= 126) || b == 9 || b == 10 || b == 13
}

fn is_plain(text: &str) -> bool
    ensures { result ≡ is_plain text.now }
{
    for byte in text.as_bytes() {
        if !is_plain_byte(*byte) {
            return false;
        }
    }
    true
}

fn is_word(text: &str) -> bool
    ensures { result ≡ is_word text.now }
{
    for byte in text.as_bytes() {
        if !is_word_byte(*byte) {
            return false;
        }
    }
    true
}

fn is_sign(text: &str) -> bool
    ensures { result ≡ is_sign text.now }
{
    match text.as_bytes() {
        [byte] => is_sign_byte(*byte),
        _ => false,
    }
}

/// Adds what follows the attributes of an element with this text.
pub(crate) fn push_content(page: &mut String, text: &str) -> Result<(), AllocError>
    ensures { Adds result page.old page.new (content_of text.now) }
{
    page.push_str(">")?;
    push_escaped(page, text)?;
    page.push_str("</bdi>")?;
    Ok(())
}

/// Adds a text in an element of its own, without attributes.
pub(crate) fn push_isolated(page: &mut String, text: &str) -> Result<(), AllocError>
    ensures { Adds result page.old page.new (html_of_part (isolated [] text.now)) }
{
    page.push_str("<bdi")?;
    push_content(page, text)?;
    Ok(())
}

/// Adds a comment.
pub(crate) fn push_comment(page: &mut String, text: &str) -> Result<(), AllocError>
    ensures { Adds result page.old page.new (html_of_part (comment_part text.now)) }
{
    page.push_str("<bdi class=c")?;
    push_content(page, text)?;
    Ok(())
}

/// Adds white space.
pub(crate) fn push_blank(page: &mut String, text: &str) -> Result<(), AllocError>
    ensures { Adds result page.old page.new (html_of_part (blank_part text.now)) }
{
    if is_plain(text) {
        push_escaped(page, text)
    } else {
        push_comment(page, text)
    }
}

/// Adds a token without attributes, and gives whether a word that is shown as it is now ends;
/// `behind` is whether one ended before.
pub(crate) fn push_token(page: &mut String, behind: bool, text: &str) -> Result<bool, AllocError>
    ensures html { Adds result page.old page.new (html_of_part (token_part behind None text.now)) }
    ensures behind { IfOk result (λ ends. ends ≡ ends_word behind None text.now) }
{
    let is_word_here = !behind && is_word(text);
    if is_sign(text) || is_word_here {
        push_escaped(page, text)?;
    } else {
        push_isolated(page, text)?;
    }
    Ok(is_word_here)
}
