//! The editions of the language.
ghost use Rattle.std.specs.Prelude.{◌≡◌, nat_le};
ghost use Rattle.tt_data.specs.Editions.{year_of};

/// An edition of the language. How a definition's rules are read can depend on it.
#[derive(Clone, Copy, PartialEq, Eq, Hash, Debug)]
pub enum Edition {
    Edition2015,
    Edition2018,
    Edition2021,
    Edition2024,
}

impl Edition {
    /// Whether it is edition 2021 or later.
    pub fn at_least_2021(self) -> bool
        ensures { result ≡ nat_le 2021 (year_of self) }
    {
        matches!(self, Edition::Edition2021 | Edition::Edition2024)
    }

    /// Whether it is edition 2024 or later.
    pub fn at_least_2024(self) -> bool
        ensures { result ≡ nat_le 2024 (year_of self) }
    {
        matches!(self, Edition::Edition2024)
    }
}
