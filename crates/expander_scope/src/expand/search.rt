//! An expansion so far: what names find, what is left of limits, and what is taken back.
ghost use Rattle.std.specs.Prelude.{◌≡◌, ◌-◌, ◌<◌, ◌++◌, ◌∷◌, [], List, length, map, take, false};
ghost use Rattle.std.specs.Prelude.{IfOk, IfSome, IsOkUnless, OnOk, Option, Some, None};
ghost use Rattle.std.specs.Prelude.{option_map};
ghost use Rattle.tt_data.specs.declared.edition.Edition.{Edition};
ghost use Rattle.tt_data.specs.declared.span.Span.{Span};
ghost use Rattle.tt_data.specs.fault.TtFault.TheVariants.{Memory};
ghost use Rattle.expander_model.specs.Definitions.{Definition};
ghost use Rattle.expander_model.specs.Expansion.{PlacedStep};
ghost use Rattle.expander_model.specs.Held.{unnumbered};
ghost use Rattle.expander_scope.specs.Editions.{IsRead};
ghost use Rattle.expander_scope.specs.Expanding.{Adds, left_within, limits_at, limits_for};
ghost use Rattle.expander_scope.specs.LocalTables.{AreReadIn, locals_of};
ghost use Rattle.expander_scope.specs.Outcomes.{find_of, numbered_of_known};
ghost use Rattle.expander_scope.specs.ScopeTable.{AreRead, scope_in};
ghost use Rattle.expander_scope.specs.Turns.{is_bare, local_at, lookups_of, resolved};

use crate::environment::Environment;
use crate::event_sink::EventSink;
use crate::locals::Locals;
use crate::macro_def::MacroDef;
use crate::outcome::{Expanding, NameLookup};
use crate::scope::Scope;
use expander_model::call::{Call, key_at};
use expander_model::dialect::Dialect;
use expander_model::fault::FaultKind;
use expander_model::limits::Limits;
use std::alloc::AllocError;
use std::rc::Rc;
use tt::TtIter;
use tt_data::{Span, Symbol, TtFault};

// Adds a look-up: a name, and the definition that it resolves to, if any.
pub(crate) fn push_find(
    finds: &mut Vec<NameLookup>,
    name: Symbol,
    known: Option<&Rc<MacroDef>>,
) -> Result<(), AllocError>
    ensures { OnOk result (map find_of finds.new.items
        ≡ map find_of finds.old.items ++ (
          name,
          option_map (λ k.
              numbered_of_known k.now.value) known.entry,
        ) ∷ []) }
{
    let known = match known {
        None => None,
        Some(known) => Some(known.clone()?),
    };
    finds.push(NameLookup { name, known })?;
    Ok(())
}

// Adds a fault at a span.
pub(crate) fn push_told(
    faults: &mut Vec<(FaultKind, Span)>,
    kind: FaultKind,
    at: Span,
) -> Result<(), AllocError>
    ensures { OnOk result (faults.new.items ≡ faults.old.items ++ (kind, at) ∷ []) }
{
    faults.push((kind, at))?;
    Ok(())
}

// An expansion so far, and the definitions of the lists around the present place.
#[derive(Drop)]
pub(crate) struct Search<S> {
    pub(crate) out: Expanding<S>,
    pub(crate) locals: Locals,
    // What is left of the limits of the outermost call. None outside of such a call, and if it has
    // none.
    pub(crate) left: Option<Limits>,
}

// The limits of a call in a list of a text. A call in what comes of another has none of its own.
pub(crate) fn limits_at(dialect: &Dialect, outer: Option<Span>) -> Option<Limits>
    ensures { result ≡ limits_at dialect.now outer }
{
    match outer {
        None => dialect.limits,
        Some(_) => None,
    }
}

// What is left where a call begins: all that the dialect allows, or in what comes of another call
// what that one has left.
pub(crate) fn limits_for(
    dialect: &Dialect,
    outer: Option<Span>,
    left: Option<Limits>,
) -> Option<Limits>
    ensures { result ≡ limits_for dialect.now outer left }
{
    match outer {
        None => dialect.limits,
        Some(_) => left,
    }
}

// What is left behind a call, if this was left of its limits: outside of all calls there are none.
pub(crate) fn left_within(outer: Option<Span>, left: Option<Limits>) -> Option<Limits>
    ensures { result ≡ left_within outer left }
{
    match outer {
        None => None,
        Some(_) => left,
    }
}

// Takes back what was added since there were so many faults and definitions around, and the sink
// had this mark. The look-ups stay.
pub(crate) fn take_back<S: EventSink>(
    search: &mut Search<S>,
    mark: usize,
    told: usize,
    around: usize,
)
    ensures takes { (before more : List PlacedStep) → S.marks mark before →
        S.has_taken search.old.out.output (before ++ more) →
        S.has_taken search.new.out.output before }
    ensures faults { search.new.out.faults.items ≡ take told search.old.out.faults.items }
    ensures finds { search.new.out.finds ≡ search.old.out.finds }
    ensures locals { (front back : List Definition) →
        locals_of search.old.locals ≡ front ++ back → length back ≡ around →
        locals_of search.new.locals ≡ back }
    ensures read { (edition : Edition) → AreReadIn edition search.old.locals →
        AreReadIn edition search.new.locals }
    ensures left { search.new.left ≡ search.old.left }
{
    search.out.output.take_back(mark);
    search.out.faults.truncate(told);
    search.locals.cut_back(around);
}

// Whether a call that the trees begin with is a name alone, without a root before it.
pub(crate) fn is_bare(trees: &TtIter<'_>) -> bool
    ensures { result ≡ is_bare trees.now }
{
    let Some((_, after_name)) = trees.lent_ident() else {
        return false;
    };
    match after_name.first_punct() {
        Some((punct, _)) => punct.char == '!',
        None => false,
    }
}

// The definition that a call finds in the lists around it: the nearest of its name, if no root is
// before it.
pub(crate) fn local_of(
    locals: &Locals,
    trees: &TtIter<'_>,
    call: &Call<'_>,
) -> Result<Option<Rc<MacroDef>>, AllocError>
    ensures found { IfOk result (λ given. option_map (λ k. numbered_of_known k.value) given
        ≡ option_map unnumbered (local_at (locals_of locals.now) trees.now call.now)) }
    ensures rules { (edition : Edition) → AreReadIn edition locals.now →
        IfOk result (λ given. IfSome given (λ k. IsRead edition k.value)) }
{
    if locals.is_empty() || !is_bare(trees) {
        return Ok(None);
    }
    match locals.find(&call.name.sym) {
        None => Ok(None),
        Some(known) => Ok(Some(known.clone()?)),
    }
}

// Looks a key up outside of all lists.
pub(crate) fn look_up(
    scope: &Scope,
    finds: &mut Vec<NameLookup>,
    key: Symbol,
) -> Result<Option<Rc<MacroDef>>, AllocError>
    requires read { AreRead scope.now }
    ensures found { IfOk result (λ given. option_map (λ k. numbered_of_known k.value) given
        ≡ scope_in scope.now key) }
    ensures rules { IfOk result (λ given. IfSome given (λ k. IsRead scope.now.edition k.value)) }
    ensures finds { OnOk result (map find_of finds.new.items
        ≡ map find_of finds.old.items ++ (key, scope_in scope.now key) ∷ []) }
{
    let Some(known) = scope.find(&key) else {
        push_find(finds, key, None)?;
        return Ok(None);
    };
    let given = known.clone()?;
    push_find(finds, key, Some(known))?;
    Ok(Some(given))
}

// What a call with which the trees begin finds: a definition of a list around it, or else what its
// key finds outside of them, which alone is a look-up.
pub(crate) fn resolve<G, S>(
    env: &Environment<'_, G>,
    search: &mut Search<S>,
    trees: &TtIter<'_>,
    call: &Call<'_>,
) -> Result<Option<Rc<MacroDef>>, TtFault>
    requires read { AreRead env.now.scope.now }
    requires locals { AreReadIn env.now.scope.now.edition search.old.locals }
    ensures found { IfOk result (λ given. option_map (λ k. numbered_of_known k.value) given
        ≡ resolved (scope_in env.now.scope.now) (locals_of search.old.locals) trees.now call.now) }
    ensures known { IfOk result (λ given.
        IfSome given (λ k. IsRead env.now.scope.now.edition k.value)) }
    ensures locals { search.new.locals ≡ search.old.locals }
    ensures left { search.new.left ≡ search.old.left }
    ensures read { AreReadIn env.now.scope.now.edition search.new.locals }
    ensures output { search.new.out.output ≡ search.old.out.output }
    ensures faults { search.new.out.faults ≡ search.old.out.faults }
    ensures finds { OnOk result (map find_of search.new.out.finds.items
        ≡ map find_of search.old.out.finds.items
        ++ lookups_of (scope_in env.now.scope.now) (locals_of search.old.locals) trees.now
        call.now) }
    ensures memory { IsOkUnless result Memory }
{
    let local = local_of(&search.locals, trees, call)?;
    if let Some(known) = local {
        return Ok(Some(known));
    }
    let key = key_at(env.alloc, trees, call)?;
    Ok(look_up(env.scope, &mut search.out.finds, key)?)
}
