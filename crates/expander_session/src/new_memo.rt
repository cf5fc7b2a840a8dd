//! Expands a piece into a new memo, with its output as it is cached: as text, or as events.
ghost use Rattle.std.specs.Prelude.{◌≡◌, IfOk, IfSome, IsOkUnless, true};
ghost use Rattle.tt_data.specs.fault.TtFault.TheVariants as as_fault;
ghost use Rattle.expander_scope.specs.Outcomes.{parts_of};
ghost use Rattle.expander_scope.specs.ScopeTable.{AreRead, expanded_under};
ghost use Rattle.expander_session.specs.CachedOutputs.{HasParts, Holds};
ghost use Rattle.expander_session.specs.Memos.{tree_of};

use crate::cached_output::{CachedOutput, nothing_printed, output_of};
use crate::memo::Memo;
use expander_model::hashed_tree::HashedTree;
use expander_scope::environment::Environment;
use expander_scope::expand::{expand_into, expand_piece};
use expander_scope::outcome::{Expanding, Outcome};
use mbe::FragmentGrammar;
use std::alloc::Global;
use std::rc::Rc;
use tt::TopSubtree;
use tt_data::TtFault;

/// A memo with a reference count, so that texts can share it. Out of memory is its only error.
pub(crate) fn shared(alloc: Global, plain: Memo) -> Result<Rc<Memo>, TtFault>
    ensures same { IfOk result (λ q. q.value ≡ plain) }
    ensures memory { IsOkUnless result as_fault.Memory }
{
    match Rc::new(alloc, plain) {
        Ok(plain) => Ok(plain),
        Err(_) => Err(TtFault::Memory),
    }
}

// Expands a tree and prints the events as they come. `None` if what was printed is no chunk.
fn printed_output<G: FragmentGrammar>(
    env: &Environment<'_, G>,
    tree: &TopSubtree,
) -> Result<Option<Expanding<CachedOutput>>, TtFault>
    requires { AreRead env.now.scope.now }
    ensures parts { IfOk result (λ o. IfSome o (λ given. HasParts tree.now.inner given (parts_of
        (expanded_under (G.answer env.now.grammar.now) env.now.scope.now env.now.dialect.now
        env.now.depth tree.now.inner)))) }
    ensures tokens { result ≡ Err TtFault.Tokens →
        (expanded_under (G.answer env.now.grammar.now) env.now.scope.now env.now.dialect.now
        env.now.depth tree.now.inner).bursts ≡ true }
{
    let none = nothing_printed(env.alloc, tree)?;
    let Expanding {
        output,
        faults,
        finds,
    } = expand_into(env, tree, none)?;
    let Some(output) = output_of(env.alloc, output)? else {
        return Ok(None);
    };
    Ok(Some(Expanding {
        output,
        faults,
        finds,
    }))
}

// Expands a tree. If `as_part` asks for it and the events print as a chunk, their text is its
// output, else the events.
fn output_to_cache<G: FragmentGrammar>(
    env: &Environment<'_, G>,
    tree: &TopSubtree,
    as_part: bool,
) -> Result<Expanding<CachedOutput>, TtFault>
    requires { AreRead env.now.scope.now }
    ensures parts { IfOk result (λ given. HasParts tree.now.inner given (parts_of
        (expanded_under (G.answer env.now.grammar.now) env.now.scope.now env.now.dialect.now
        env.now.depth tree.now.inner))) }
    ensures tokens { result ≡ Err TtFault.Tokens →
        (expanded_under (G.answer env.now.grammar.now) env.now.scope.now env.now.dialect.now
        env.now.depth tree.now.inner).bursts ≡ true }
{
    if as_part && let Some(given) = printed_output(env, tree)? {
        return Ok(given);
    }
    // Few trees print what is no chunk. Only they are expanded a second time, which gives the same
    // faults and look-ups.
    let Outcome {
        steps,
        faults,
        finds,
    } = expand_piece(env, tree)?;
    let output = CachedOutput::Steps(steps);
    Ok(Expanding {
        output,
        faults,
        finds,
    })
}

/// Expands a tree into a memo. If `as_part` asks for it and the events print as a chunk, their text
/// is cached, else the events.
pub(crate) fn expanded<G: FragmentGrammar>(
    env: &Environment<'_, G>,
    tree: Rc<HashedTree>,
    as_part: bool,
) -> Result<Rc<Memo>, TtFault>
    requires { AreRead env.now.scope.now }
    ensures tree { IfOk result (λ q. tree_of q.value ≡ tree.value) }
    ensures holds { IfOk result (λ q. Holds q.value (parts_of
        (expanded_under (G.answer env.now.grammar.now) env.now.scope.now env.now.dialect.now
        env.now.depth tree.value.inner))) }
    ensures tokens { result ≡ Err TtFault.Tokens →
        (expanded_under (G.answer env.now.grammar.now) env.now.scope.now env.now.dialect.now
        env.now.depth tree.value.inner).bursts ≡ true }
{
    let Expanding {
        output,
        faults,
        finds,
    } = output_to_cache(env, tree.as_ref().tree(), as_part)?;
    let plain = Memo {
        tree,
        output,
        faults,
        finds,
    };
    shared(env.alloc, plain)
}
