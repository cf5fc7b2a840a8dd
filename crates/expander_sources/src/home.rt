//! Homes of definitions: crates other than that of the text that is expanded.
ghost use Rattle.std.specs.Prelude.{◌≡◌, IfOk, string_bytes};
ghost use Rattle.bridge.specs.Spelling.{is_root_text, is_rooted};
ghost use Rattle.expander_sources.specs.Homes.{home_named, is_root_word, root_of};

use rustc_lexer::is_ident;
use small_grammar::names::is_reserved;
use std::alloc::{AllocError, Global};
use std::marker::Model;
use tt_data::Edition;

/// A crate other than that of the text that is expanded: the word that `$crate` is printed as in
/// its definitions, and their edition.
#[derive(Drop)]
pub struct Home {
    root: String,
    edition: Edition,
}

impl Model for Home {
    ghost use Rattle.std.specs.Prelude.{◌≡◌, string_bytes, true};
    ghost use Rattle.bridge.specs.Spelling.{is_root_text, is_rooted};
    ghost use Rattle.expander_sources.specs.Homes.{Home, home_code, is_root_word};

    ghost Value = { Home };

    ghost coded = { home_code };

    ghost view = { λ h. record { root = string_bytes h.root; edition = h.edition } };

    ghost invariant = { λ h. is_root_word (string_bytes h.root) ≡ true };
}

// Whether the name of a crate is neither a root nor a keyword of definitions.
fn is_root_text(name: &str) -> bool
    ensures { result ≡ is_root_text name.now }
{
    !name.starts_with("$") && name != "macro_rules" && name != "macro"
}

// Whether what stands for the root of a crate is spelled as this name.
#[tactic(auto, using(crate::proofs::HomeLemmas::rooted_is))]
fn is_spelled(name: &str) -> bool
    ensures { result ≡ is_rooted (root_of name.now) }
{
    name.len() < 0xffff_fff9 && is_root_text(name)
}

// Whether the word can stand for a crate.
fn is_root_word(word: &str) -> bool
    ensures { result ≡ is_root_word word.now }
{
    is_ident(word) && !is_reserved(word) && word != "_" && is_spelled(word)
}

impl Home {
    /// The crate with this root, of which all definitions are of this edition. `None` if the word
    /// can't stand for a crate: it is no identifier, or is reserved, `_` or `macro_rules`, or it is
    /// longer than what stands for it may be.
    pub fn new(alloc: Global, root: &str, edition: Edition) -> Result<Option<Home>, AllocError>
        ensures { IfOk result (λ home. home ≡ home_named root.now edition) }
    {
        if !is_root_word(root) {
            return Ok(None);
        }
        let root = String::from_str(alloc, root)?;
        Ok(Some(Home { root, edition }))
    }

    /// The word that `$crate` is printed as.
    pub fn root(&self) -> &str
        ensures { result.now ≡ self.now.root }
    {
        self.root.as_str()
    }

    /// The edition of its definitions.
    pub fn edition(&self) -> Edition
        ensures { result ≡ self.now.edition }
    {
        self.edition
    }

    /// The same home.
    pub fn try_clone(&self, alloc: Global) -> Result<Home, AllocError>
        ensures { IfOk result (λ home. home ≡ self.now) }
    {
        Ok(Home {
            root: String::from_str(alloc, self.root.as_str())?,
            edition: self.edition,
        })
    }

    // The text of the identifier that stands for its root.
    pub(crate) fn mark(&self, alloc: Global) -> Result<String, AllocError>
        ensures { IfOk result (λ text. string_bytes text ≡ root_of self.now.root) }
    {
        let mut text = String::from_str(alloc, "$crate:")?;
        text.push_str(self.root.as_str())?;
        Ok(text)
    }
}
