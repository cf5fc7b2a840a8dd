//! The options for conditional compilation that words name.
ghost use Rattle.std.specs.Prelude.{◌≡◌, ◌≢◌, Some, IfOk, IfErr, IfNone, IfSome, map, []};
ghost use Rattle.cfg_options.specs.Options.{options_of};
ghost use Rattle.expander.specs.NamedOptions.{no_options, with_named};
ghost use Rattle.filgordd.specs.Conditions.{IsFirstWrong};

use any_grammar::AnyGrammar;
use cfg_options::{CfgFault, CfgOptions};
use expander::{Dialect, Options};
use std::alloc::{AllocError, Global};

/// The set of the options that these words name, or the first word that sets none. Without a word
/// there is no set, and only then. Out of memory is its only error.
pub(crate) fn cfg_of<'a>(
    alloc: Global,
    words: &[&'a str],
) -> Result<Result<Option<CfgOptions>, &'a str>, AllocError>
    ensures none { IfOk result (λ given. IfOk given (λ set. IfNone set (words.now ≡ []))) }
    ensures some { IfOk result (λ given. IfOk given (λ set. IfSome set (λ _. words.now ≢ []))) }
    ensures set { IfOk result (λ given. IfOk given (λ set. IfSome set (λ o.
        with_named no_options (map (λ w. w.now) words.now) ≡ Some (options_of o)))) }
    ensures refused { IfOk result (λ given. IfErr given (λ word.
        IsFirstWrong (map (λ w. w.now) words.now) word.now)) }
{
    if words.is_empty() {
        return Ok(Ok(None));
    }
    let mut options = CfgOptions::new(alloc);
    for word in words {
        match options.push(word) {
            Ok(()) => {}
            Err(CfgFault::Memory) => return Err(AllocError),
            Err(CfgFault::NoOption) => return Ok(Err(word)),
            Err(CfgFault::TooLong) => return Ok(Err(word)),
        }
    }
    Ok(Ok(Some(options)))
}

/// The same options, where these are set for conditions.
pub(crate) fn under(options: &Options<AnyGrammar>, cfg: Option<CfgOptions>) -> Options<AnyGrammar>
    ensures { result ≡ record options.now { dialect = record options.now.dialect { cfg = cfg } } }
{
    let dialect = &options.dialect;
    Options {
        grammar: options.grammar,
        edition: options.edition,
        dialect: Dialect {
            scope: dialect.scope,
            items: dialect.items,
            cfg,
            limits: dialect.limits,
            excuses: dialect.excuses,
        },
        depth: options.depth,
    }
}
