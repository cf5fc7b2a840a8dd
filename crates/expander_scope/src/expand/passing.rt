//! What an expansion emits as it is: leaves, groups, calls that stay, definitions of lists.
ghost use Rattle.std.specs.Prelude.{◌≡◌, ◌-◌, ◌<◌, ℕ, ◌++◌, ◌∷◌, [], List, take, true, false};
ghost use Rattle.std.specs.Prelude.{IfOk, IsOkUnless, OnOk, Option, Some, None, Err, is_some};
ghost use Rattle.std.specs.Prelude.{if◌then◌else◌};
ghost use Rattle.expander_model.specs.mbe.Macros.{rules_of};
ghost use Rattle.tt_data.specs.Forest.{Forest, empty, joined};
ghost use Rattle.tt_data.specs.Walk.{walk};
ghost use Rattle.tt_data.specs.declared.edition.Edition.{Edition};
ghost use Rattle.tt_data.specs.declared.span.Span.{Span};
ghost use Rattle.tt_data.specs.fault.TtFault.TheVariants.{Memory};
ghost use Rattle.expander_model.specs.CallSteps.{call_at};
ghost use Rattle.expander_model.specs.Definitions.{Definition, definition_of};
ghost use Rattle.expander_model.specs.Expansion.{World, just, placed};
ghost use Rattle.expander_model.specs.Held.{Numbered};
ghost use Rattle.expander_model.specs.Scoping.{in_group, is_excused, is_left_out, unless_excused};
ghost use Rattle.expander_model.specs.World.{world};
ghost use Rattle.expander_scope.specs.Expanding.{Adds, Levels, defined_under, stays_for};
ghost use Rattle.expander_scope.specs.Expanding.{told_once};
ghost use Rattle.expander_model.specs.declared.scope_rules.Standing.TheVariants.{Argument};
ghost use Rattle.tt_data.specs.Lent.{leaf_lent};
ghost use Rattle.expander_scope.specs.ListsLeft.{Place};
ghost use Rattle.expander_scope.specs.LocalTables.{AreReadIn, locals_of};
ghost use Rattle.expander_scope.specs.Sinks.{TakesMore};
ghost use Rattle.expander_scope.specs.Turns.{BeginsWithGroup, Goes, GoesBehind, is_alone_at};
ghost use Rattle.expander_scope.specs.Turns.{IsAt, IsPassable, begun_behind, broken_at};
ghost use Rattle.expander_scope.specs.Turns.{kept_left, left_ahead, shown_of};

use crate::environment::Environment;
use crate::event_sink::{EventSink, take_walk};
use crate::expand::search::{Search, push_told};
use crate::list_walk::{ListWalk, in_group, is_alone_at};
use crate::macro_def::MacroDef;
use crate::outcome::Expanding;
use bridge::parts::TokenEvent;
use expander_model::begun::Begun;
use expander_model::call::{Call, call_at};
use expander_model::definition::definition_of;
use expander_model::dialect::Dialect;
use expander_model::fault::FaultKind;
use expander_model::mbe::FragmentGrammar;
use expander_model::scope_rules::Standing;
use std::alloc::{AllocError, Global};
use std::rc::Rc;
use tt::TtIter;
use tt_data::{DelimiterKind, LeafRef, Span, TtFault};

// Emits the trees before `behind` as they are, and goes on with `behind`.
pub(crate) fn keep<'a, S: EventSink>(
    alloc: Global,
    outer: Option<Span>,
    out: &mut Expanding<S>,
    trees: &mut TtIter<'a>,
    behind: TtIter<'a>,
) -> Result<(), AllocError>
    requires { (passed : Forest) × (trees.old ≡ joined passed behind) }
    ensures rest { OnOk result (trees.new ≡ behind.entry) }
    ensures adds { (passed : Forest) → trees.old ≡ joined passed behind.entry →
        OnOk result (Adds S.has_taken out.old out.new (just outer (walk passed))) }
{
    let kept = behind.passed_since(trees.remaining()).iter();
    take_walk(alloc, &mut out.output, &kept, outer)?;
    *trees = behind;
    Ok(())
}

// Where the list in a group is, before which so much came of its piece. It may be that of a call
// that stays.
pub(crate) fn standing_inside(
    is_argument: bool,
    begun: Begun,
    kind: DelimiterKind,
    standing: Standing,
) -> Standing
    ensures { result ≡ (if is_argument then Argument else in_group begun kind standing) }
{
    if is_argument {
        return Standing::Argument;
    }
    in_group(begun, kind, standing)
}

// Emits a leaf before which so much came of its piece, unless it is a `;` that went with a call.
#[inline(always)]
pub(crate) fn show_leaf<S: EventSink>(
    output: &mut S,
    leaf: LeafRef<'_>,
    begun: Begun,
    outer: Option<Span>,
) -> Result<(), AllocError>
    ensures { OnOk result (TakesMore S.has_taken output.old output.new
        (placed outer (shown_of begun (leaf_lent leaf.entry)))) }
{
    if begun.drops(leaf) {
        return Ok(());
    }
    output.take(&TokenEvent::Leaf(leaf), outer)
}

// Emits the next event, and passes it: a leaf, the opening of a group or its closing. `false` at
// the end of all lists. Where `is_argument` a group that is entered is that of a call that stays.
pub(crate) fn pass_event<S: EventSink>(
    outer: Option<Span>,
    search: &mut Search<S>,
    walk: &mut ListWalk<'_>,
    is_argument: bool,
) -> Result<bool, AllocError>
    ensures end { IfOk result (λ more. more ≡ false → (search.new ≡ search.old) × ((p : Place) →
        IsAt walk.old search.old.locals p → (p.here ≡ empty) × (p.groups ≡ []))) }
    ensures turn { IfOk result (λ more. more ≡ true → (dialect : Dialect)
        (world : World Numbered) (scope : List ℕ → Option Numbered) (levels : Levels)
        (edition : Edition) (p : Place) →
        IsAt walk.old search.old.locals p → IsPassable dialect is_argument p →
        Goes dialect world scope levels outer p.outside edition
        S.has_taken
        (left_ahead dialect world scope levels outer is_argument p)
        search.old search.new walk.old walk.new) }
{
    let Some(step) = walk.trees.next()? else {
        return Ok(false);
    };
    match step {
        TokenEvent::Leaf(leaf) => {
            show_leaf(&mut search.out.output, leaf, walk.begun, outer)?;
            walk.begun = walk.begun.with_leaf(leaf);
        }
        TokenEvent::Opens(kind, span) => {
            search
                .out
                .output
                .take(&TokenEvent::Opens(kind, span), outer)?;
            let inside = standing_inside(is_argument, walk.begun, kind, walk.standing);
            walk.enter(kind, search.locals.len(), inside)?;
        }
        TokenEvent::Closes(kind, span) => {
            search
                .out
                .output
                .take(&TokenEvent::Closes(kind, span), outer)?;
            walk.leave(kind, &mut search.locals);
        }
    }
    Ok(true)
}

// Emits the tokens before the group of a call that stays, and enters the group.
pub(crate) fn keep_call<'a, S: EventSink>(
    alloc: Global,
    outer: Option<Span>,
    search: &mut Search<S>,
    walk: &mut ListWalk<'a>,
    from_group: TtIter<'a>,
) -> Result<(), AllocError>
    requires { (passed : Forest) × (walk.old.trees.here ≡ joined passed from_group) }
    ensures turn { OnOk result ((dialect : Dialect) (world : World Numbered)
        (scope : List ℕ → Option Numbered) (levels : Levels) (edition : Edition) (p : Place)
        (before : Forest) →
        IsAt walk.old search.old.locals p → p.here ≡ joined before from_group.entry →
        BeginsWithGroup from_group.entry →
        Goes dialect world scope levels outer p.outside edition
        S.has_taken
        (kept_left dialect world scope levels outer before from_group.entry p)
        search.old search.new walk.old walk.new) }
{
    keep(
        alloc,
        outer,
        &mut search.out,
        &mut walk.trees.here,
        from_group,
    )?;
    walk.begun = walk.begun.behind_name();
    let _entered = pass_event(outer, search, walk, true)?;
    Ok(())
}

// Adds a fault for a definition that is invalid.
pub(crate) fn tell_broken(
    faults: &mut Vec<(FaultKind, Span)>,
    known: &MacroDef,
    at: Span,
) -> Result<(), AllocError>
    ensures { OnOk result (faults.new.items ≡ faults.old.items
        ++ broken_at (is_some (rules_of known.now.rules).err) at) }
{
    match known.rules.err() {
        Some(_) => push_told(faults, FaultKind::BrokenDefinition, at),
        None => Ok(()),
    }
}

// Emits a definition of a list, where it is not left out.
pub(crate) fn show_definition<S: EventSink>(
    alloc: Global,
    outer: Option<Span>,
    output: &mut S,
    standing: Standing,
    piece: &TtIter<'_>,
) -> Result<(), AllocError>
    ensures { OnOk result (TakesMore S.has_taken output.old output.new
        (placed outer (if is_left_out standing then [] else walk piece.now))) }
{
    match standing {
        Standing::Enclosed | Standing::Items => Ok(()),
        _ => take_walk(alloc, output, piece, outer),
    }
}

// A definition of a list enters the scope. It is printed where it is not left out.
pub(crate) fn define<G: FragmentGrammar, S: EventSink>(
    env: &Environment<'_, G>,
    outer: Option<Span>,
    search: &mut Search<S>,
    standing: Standing,
    piece: &TtIter<'_>,
) -> Result<(), TtFault>
    requires definition { is_some (definition_of piece.now) ≡ true }
    ensures adds { OnOk result ((d : Definition) (locals : List Definition) →
        definition_of piece.now ≡ Some d → Adds S.has_taken search.old.out search.new.out
        (defined_under (G.answer env.now.grammar.now) env.now.scope.now env.now.dialect.now
        (record { standing = standing; outer = outer; locals = locals }) d).outcome) }
    ensures locals { OnOk result ((d : Definition) → definition_of piece.now ≡ Some d →
        locals_of search.new.locals ≡ d ∷ locals_of search.old.locals) }
    ensures left { search.new.left ≡ search.old.left }
    ensures read { OnOk result (AreReadIn env.now.scope.now.edition search.old.locals →
        AreReadIn env.now.scope.now.edition search.new.locals) }
    ensures memory { IsOkUnless result Memory }
{
    let Some(definition) = definition_of(piece) else {
        unreachable!()
    };
    let place = definition.name.span;
    let known = MacroDef::in_list(env.alloc, env.scope.edition, piece, place)?;
    tell_broken(&mut search.out.faults, &known, outer.unwrap_or(place))?;
    show_definition(
        env.alloc,
        outer,
        &mut search.out.output,
        standing,
        &definition.piece,
    )?;
    match Rc::new(env.alloc, known) {
        Ok(known) => search.locals.push(known)?,
        Err(_) => return Err(TtFault::Memory),
    }
    Ok(())
}

// What of a piece came behind a call whose group the trees begin with. `gone` tells that a `;`
// right behind it goes with it.
pub(crate) fn begun_behind(gone: bool, begun: Begun, from_group: &TtIter<'_>) -> Begun
    ensures { result ≡ begun_behind gone begun from_group.now }
{
    match from_group.first_group() {
        Some((brackets, _, _)) => begun.behind_call(gone, brackets.kind),
        None => Begun::Other,
    }
}

// Goes on behind a call that was replaced.
pub(crate) fn pass_call<'a>(dialect: &Dialect, walk: &mut ListWalk<'a>, call: Call<'a>)
    ensures { GoesBehind
        (is_alone_at dialect.now walk.old.begun walk.old.standing call.entry.from_group)
        call.entry walk.old walk.new }
{
    let alone = is_alone_at(dialect, walk.begun, walk.standing, &call.from_group);
    walk.begun = begun_behind(alone, walk.begun, &call.from_group);
    walk.trees.go_on(call.rest);
}

// What is told of a call that stays for a fault in such a list: the fault at this place, unless
// it is excused.
pub(crate) fn told_of(
    dialect: &Dialect,
    standing: Standing,
    kind: FaultKind,
    at: Span,
) -> Option<(FaultKind, Span)>
    ensures { told_once result
        ≡ unless_excused (is_excused dialect.now kind standing) kind at }
{
    let is_argument = standing == Standing::Argument;
    if dialect.excuses && is_argument && kind == FaultKind::CannotExpand {
        return None;
    }
    Some((kind, at))
}

// Emits a call that stays, of which this is told, and passes it.
pub(crate) fn stay<'a, S: EventSink>(
    alloc: Global,
    outer: Option<Span>,
    search: &mut Search<S>,
    walk: &mut ListWalk<'a>,
    call: Call<'a>,
    told: Option<(FaultKind, Span)>,
) -> Result<(), AllocError>
    requires call { call_at walk.old.trees.here ≡ Some call }
    ensures adds { (passed : Forest) → walk.old.trees.here ≡ joined passed call.entry.rest →
        OnOk result (Adds S.has_taken search.old.out search.new.out
        (stays_for told outer passed)) }
    ensures behind { OnOk result (GoesBehind false call.entry walk.old walk.new) }
    ensures locals { search.new.locals ≡ search.old.locals }
    ensures left { search.new.left ≡ search.old.left }
{
    walk.begun = begun_behind(false, walk.begun, &call.from_group);
    if let Some((kind, at)) = told {
        push_told(&mut search.out.faults, kind, at)?;
    }
    keep(
        alloc,
        outer,
        &mut search.out,
        &mut walk.trees.here,
        call.rest,
    )
}

// A limit is passed at a call. An outermost call stays with that fault, and is passed; in what
// comes of another nothing is done. `false` there.
pub(crate) fn stop_at<'a, S: EventSink>(
    alloc: Global,
    outer: Option<Span>,
    search: &mut Search<S>,
    walk: &mut ListWalk<'a>,
    call: Call<'a>,
    at: Span,
) -> Result<bool, AllocError>
    requires call { call_at walk.old.trees.here ≡ Some call }
    ensures inside { IfOk result (λ more. more ≡ false → (is_some outer ≡ true)
        × (search.new ≡ search.old)) }
    ensures outside { IfOk result (λ more. more ≡ true → is_some outer ≡ false) }
    ensures adds { (passed : Forest) → walk.old.trees.here ≡ joined passed call.entry.rest →
        IfOk result (λ more. more ≡ true → Adds S.has_taken search.old.out search.new.out
        (stays_for (Some (FaultKind.TooLarge, at)) outer passed)) }
    ensures behind { IfOk result (λ more. more ≡ true →
        GoesBehind false call.entry walk.old walk.new) }
    ensures locals { search.new.locals ≡ search.old.locals }
    ensures left { search.new.left ≡ search.old.left }
{
    if outer.is_some() {
        return Ok(false);
    }
    let told = Some((FaultKind::TooLarge, at));
    stay(alloc, outer, search, walk, call, told)?;
    Ok(true)
}
