//! The styles of macro calls, and sets of them.
ghost use Rattle.std.specs.Prelude.{⊤, ◌≡◌};
ghost use Rattle.std.specs.Int.RustNames.{bit_or};
ghost use Rattle.mbe_rules.specs.Styles.{bits_of, style_bit, style_names};

use bitflags::{Flag, Flags};

/// How a macro is called. (The Rust Reference, "Macros", "Attributes" and "Derive".)
#[derive(Clone, Copy, PartialEq, Eq, Debug)]
pub enum MacroCallStyle {
    /// By its name and `!`, as `name!(..)`.
    FnLike,
    /// As an attribute, `#[name]`.
    Attr,
    /// In an attribute `derive`, `#[derive(Name)]`.
    Derive,
}

/// A set of [`MacroCallStyle`]s. Contracts see it as the number of its bits: 1, 2 and 4 in the
/// order of the styles.
#[derive(Clone, Copy, PartialEq, Eq, Hash, Debug)]
pub struct MacroCallStyles(u8);

impl MacroCallStyles {
    /// Called by name and `!`.
    pub const FN_LIKE: MacroCallStyles = MacroCallStyles(1);
    /// Called as an attribute.
    pub const ATTR: MacroCallStyles = MacroCallStyles(2);
    /// Called in an attribute `derive`.
    pub const DERIVE: MacroCallStyles = MacroCallStyles(4);

    const FLAGS: &'static [Flag<MacroCallStyles>] = &[
        Flag {
            name: "FN_LIKE",
            value: MacroCallStyles::FN_LIKE,
        },
        Flag {
            name: "ATTR",
            value: MacroCallStyles::ATTR,
        },
        Flag {
            name: "DERIVE",
            value: MacroCallStyles::DERIVE,
        },
    ];

    /// The styles of either set.
    pub fn union(self, other: MacroCallStyles) -> MacroCallStyles
        ensures { bits_of result ≡ bit_or (bits_of self) (bits_of other) }
    {
        MacroCallStyles(self.0 | other.0)
    }
}

impl Flags for MacroCallStyles {
    type Bits = u8;

    ghost exact = { ⊤ };

    ghost table = { style_names };

    ghost set_of = { bits_of };

    fn flags<'a>() -> &'a [Flag<MacroCallStyles>] {
        MacroCallStyles::FLAGS
    }

    fn bits(&self) -> u8 {
        self.0
    }

    fn from_bits_retain(bits: u8) -> MacroCallStyles {
        MacroCallStyles(bits)
    }
}

impl From<MacroCallStyle> for MacroCallStyles {
    ghost from_gives = { λ style styles. bits_of styles ≡ style_bit style };

    /// The set of only this style.
    fn from(style: MacroCallStyle) -> MacroCallStyles {
        match style {
            MacroCallStyle::FnLike => MacroCallStyles::FN_LIKE,
            MacroCallStyle::Attr => MacroCallStyles::ATTR,
            MacroCallStyle::Derive => MacroCallStyles::DERIVE,
        }
    }
}
