//! The options that are set.
ghost use Rattle.std.specs.Prelude.{◌≡◌, ◌||◌, ℕ, Bool, List, Option, Some, None};
ghost use Rattle.std.specs.Prelude.{false, option_map, OnOk, OnErr};
ghost use Rattle.cfg_options.specs.Options.{SameOptions, is_option, options_of};

use std::alloc::{AllocError, Global};
use std::collections::HashSet;
use tt_data::Symbol;

/// An option: its name, and the bytes of its value.
#[derive(PartialEq, Eq, Hash, Drop)]
pub(crate) struct CfgOption {
    pub(crate) name: Symbol,
    pub(crate) value: Option<Vec<u8>>,
}

/// A set of options, as `rustc --cfg` takes them.
#[derive(Drop)]
pub struct CfgOptions {
    pub(crate) alloc: Global,
    pub(crate) set: HashSet<CfgOption>,
}

#[tactic(auto, unfolding(crate::specs::Options::options_of))]
impl CfgOptions {
    /// No option is set.
    pub fn new(alloc: Global) -> CfgOptions
        ensures { (name : List ℕ) (value : Option (List ℕ)) → options_of result name value ≡ false }
    {
        CfgOptions {
            alloc,
            set: HashSet::new(alloc),
        }
    }

    /// Whether an option is set.
    pub(crate) fn has(&self, option: &CfgOption) -> bool
        ensures { result ≡ options_of self.now option.now.name
            (option_map (λ v. v.items) option.now.value) }
    {
        self.set.contains(option)
    }

    // The option is set from now on.
    pub(crate) fn add(&mut self, option: CfgOption) -> Result<(), AllocError>
        ensures ok { OnOk result ((name : List ℕ) (value : Option (List ℕ)) →
            options_of self.new name value
            ≡ (is_option name value option || options_of self.old name value)) }
        ensures err { OnErr result (SameOptions self.old self.new) }
    {
        let _ = self.set.insert(option)?;
        Ok(())
    }
}
