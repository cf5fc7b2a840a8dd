//! The options of what a text means.
ghost use Rattle.std.specs.Prelude.{◌≡◌};
ghost use Rattle.expander_model.specs.Dialects.{dialect_by, rust, top_level};

use crate::limits::Limits;
use crate::scope_rules::ScopeRules;
use cfg_options::CfgOptions;

/// The options of what a text means.
#[derive(Drop)]
pub struct Dialect {
    /// Which definitions a name can find.
    pub scope: ScopeRules,
    /// Whether the `;` behind a call that stands alone in a list of items goes with the call.
    pub items: bool,
    /// The options that are set for conditional compilation. `None` if it leaves nothing out.
    pub cfg: Option<CfgOptions>,
    /// How much one outermost call may make. `None` if there is no limit.
    pub limits: Option<Limits>,
    /// Whether a call in the argument of a call that stays may fit no rule without a fault. The
    /// macro that is called there is not known, and may take its argument for mere tokens.
    pub excuses: bool,
}

impl Dialect {
    /// No option is set: names find pieces of texts alone, each `;` stays, conditions leave nothing
    /// out, nothing limits what a call makes, and each call that fits no rule has a fault.
    pub fn top_level() -> Dialect
        ensures { result ≡ top_level }
    {
        Dialect {
            scope: ScopeRules::TopLevel,
            items: false,
            cfg: None,
            limits: None,
            excuses: false,
        }
    }

    /// Rust's rules: names find definitions of lists too, the `;` of an item's call goes with it,
    /// and a call in the argument of one that stays has no fault if it fits no rule.
    pub fn rust() -> Dialect
        ensures { result ≡ rust }
    {
        Dialect {
            scope: ScopeRules::Rust,
            items: true,
            cfg: None,
            limits: None,
            excuses: true,
        }
    }

    /// The one of these two for scope rules.
    pub fn by(scope: ScopeRules) -> Dialect
        ensures { result ≡ dialect_by scope }
    {
        match scope {
            ScopeRules::TopLevel => Dialect::top_level(),
            ScopeRules::Rust => Dialect::rust(),
        }
    }
}
