//! Bindings: the value of each metavariable of a matcher. A loop frees them, so that repetitions in
//! one another take no call stack.
ghost use Rattle.std.specs.Prelude.{◌≡◌, ◌<◌, ◌≤◌, suc, length, None, Some, OnOk, IfOk, IfSome};
ghost use denote.Param.Weighed.{most};
ghost use Rattle.mbe_matcher.specs.Bindings as spec;
ghost use Rattle.mbe_matcher.specs.Bindings.{value_put, with_round};
ghost use Rattle.mbe_matcher.specs.Bound.{standing_for, values_of};
ghost use Rattle.mbe_matcher.specs.Counts.{count_of, count_values};
ghost use Rattle.mbe_matcher.specs.declared.bindings.Binding.{size-Binding};

use crate::count::Count;
use crate::same::is_same;
use mbe_rules::MetaVarKind;
use std::alloc::{AllocError, Global};
use std::mem;
use symbols::Symbol;
use tt::TokenTreesView;

/// What a metavariable is bound to.
pub enum Binding<'a> {
    /// The trees of a fragment.
    Fragment {
        kind: MetaVarKind,
        trees: TokenTreesView<'a>,
    },
    /// A value for each iteration of a repetition.
    Rounds(Vec<Binding<'a>>),
    /// Nothing: the repetition was skipped.
    Skipped,
}

impl<'a> Binding<'a> {
    // The values of iterations. A fragment's trees are not freed: they are only borrowed.
    fn into_values(self) -> Option<Vec<Binding<'a>>>
        ensures fewer { IfSome result (λ v. count_of (standing_for self.entry)
            ≡ suc (count_values (values_of v.items))) }
        ensures flatter { IfSome result (λ v. most size-Binding v.items < size-Binding self.entry) }
    {
        match self {
            Binding::Rounds(values) => Some(values),
            Binding::Fragment {
                kind: _kind,
                trees: _trees,
            } => None,
            Binding::Skipped => None,
        }
    }
}

impl<'a> Binding<'a> {
    ghost use Rattle.mbe_matcher.specs.Bindings.{Values, rounds};

    // The values of iterations, which the binding has.
    fn expect_values(self) -> Vec<Binding<'a>>
        requires { (vs : Values) × (standing_for self ≡ rounds vs) }
        ensures { standing_for self.entry ≡ rounds (values_of result.items) }
    {
        match self {
            Binding::Rounds(values) => values,
            Binding::Fragment { .. } => unreachable!(),
            Binding::Skipped => unreachable!(),
        }
    }

    // The binding after an iteration. One that is no list stays as it is.
    #[inline(always)]
    fn with_round(self, round: &Count, value: Binding<'a>) -> Result<Binding<'a>, AllocError>
        ensures { IfOk result (λ b. standing_for b
            ≡ with_round round.now (standing_for value.entry) (Some (standing_for self.entry))) }
    {
        match self {
            Binding::Rounds(mut values) => {
                put_value(&mut values, round, value)?;
                Ok(Binding::Rounds(values))
            }
            kept => Ok(kept),
        }
    }
}

impl<'a> Drop for Binding<'a> {
    #[cycle(frees)]
    fn drop(self) {
        if let Some(values) = self.into_values()
            && !values.is_empty()
        {
            free(values);
        }
    }
}

// Frees values and those inside them. Where a value has values inside, these come first: the list
// that is left takes the place of the first of them, so that no memory is needed for it.
#[cycle(frees)]
fn free<'a>(values: Vec<Binding<'a>>)
    requires { 0 < length values.items }
{
    let mut list = values;
    while let Some(value) = list.pop() {
        let mut next = value;
        while let Some(mut inner) = next.into_values() {
            if list.is_empty() {
                list = inner;
                break;
            }
            let Some(first) = inner.first_mut() else {
                break;
            };
            next = mem::replace(first, Binding::Rounds(list));
            list = inner;
        }
    }
}

/// A metavariable with its binding.
#[derive(Drop)]
pub struct Bound<'a> {
    pub name: &'a Symbol,
    pub binding: Binding<'a>,
}

/// The bindings of a matcher's metavariables.
#[derive(Drop)]
pub struct Bindings<'a> {
    pub(crate) bound: Vec<Bound<'a>>,
}

// Appends empty lists for the iterations before this one that have no value.
#[inline(always)]
fn fill_up<'a>(values: &mut Vec<Binding<'a>>, round: &Count) -> Result<(), AllocError>
    ensures filled { OnOk result (round.now ≤ length values.new.items) }
    ensures same { OnOk result ((b : spec.Binding) →
        value_put round.now b (values_of values.new.items)
        ≡ value_put round.now b (values_of values.old.items)) }
{
    while round.is_above(values.len()) {
        let none = Vec::new(*values.allocator());
        values.push(Binding::Rounds(none))?;
    }
    Ok(())
}

// Appends the value of an iteration, after empty lists for those before it that have none.
#[inline(always)]
pub(crate) fn put_value<'a>(
    values: &mut Vec<Binding<'a>>,
    round: &Count,
    value: Binding<'a>,
) -> Result<(), AllocError>
    ensures { OnOk result (values_of values.new.items
        ≡ value_put round.now (standing_for value.entry) (values_of values.old.items)) }
{
    fill_up(values, round)?;
    values.push(value)?;
    Ok(())
}

// The binding after an iteration, if there was none before.
fn first_of<'a>(alloc: Global, round: &Count, value: Binding<'a>) -> Result<Binding<'a>, AllocError>
    ensures { IfOk result (λ b. standing_for b
        ≡ with_round round.now (standing_for value.entry) None) }
{
    let binding = Binding::Rounds(Vec::new(alloc)).with_round(round, value)?;
    Ok(binding)
}

impl<'a> Bound<'a> {
    // Adds the value of an iteration.
    #[inline(always)]
    fn add_round(&mut self, round: &Count, value: Binding<'a>) -> Result<(), AllocError>
        ensures name { OnOk result (self.new.name.now ≡ self.old.name.now) }
        ensures binding { OnOk result (standing_for self.new.binding
            ≡ with_round round.now (standing_for value.entry)
            (Some (standing_for self.old.binding))) }
    {
        let before = mem::replace(&mut self.binding, Binding::Skipped);
        self.binding = before.with_round(round, value)?;
        Ok(())
    }
}

impl<'a> Bindings<'a> {
    ghost use Rattle.std.specs.Prelude.{List, ℕ, [], ◌∷◌, option_map, true};
    ghost use Rattle.mbe_matcher.specs.Bindings.{bind, binding_of, bind_round};
    ghost use Rattle.mbe_matcher.specs.Bound.{entries_of, entry_of, map_of, place_among};

    /// No bindings.
    pub(crate) fn new(alloc: Global) -> Bindings<'a>
        ensures { map_of result ≡ [] }
    {
        Bindings {
            bound: Vec::new(alloc),
        }
    }

    /// The allocator that bindings take memory from.
    pub fn allocator(&self) -> Global {
        *self.bound.allocator()
    }

    /// All bindings, in the order in which their names were bound.
    pub fn entries(&self) -> &[Bound<'a>]
        ensures { entries_of result.now ≡ map_of self.now }
    {
        &self.bound
    }

    // The index of a name.
    fn position(&self, name: &Symbol) -> Option<usize>
        ensures { result ≡ place_among name.now self.now.bound.items }
    {
        for (i, bound) in self.bound.iter().enumerate() {
            if is_same(name, bound.name) {
                return Some(i);
            }
        }
        None
    }

    /// The binding of a name, if it has one.
    pub fn get(&self, name: &Symbol) -> Option<&Binding<'a>>
        ensures { option_map (λ b. standing_for b.now) result
            ≡ binding_of name.now (map_of self.now) }
    {
        match self.position(name) {
            Some(i) => Some(&self.bound[i].binding),
            None => None,
        }
    }

    /// Whether exactly this name is bound.
    #[inline(always)]
    pub(crate) fn is_alone(&self, name: &Symbol) -> bool
        ensures { result ≡ true → (b : spec.Binding) × (map_of self.now ≡ (name.now, b) ∷ []) }
    {
        self.bound.len() == 1 && is_same(name, self.bound[0].name)
    }

    /// Replaces the value of the one name that is bound, and answers the old one.
    pub(crate) fn replace_alone(&mut self, binding: Binding<'a>) -> Binding<'a>
        requires { (n : List ℕ) × (b : spec.Binding) × (map_of self.old ≡ (n, b) ∷ []) }
        ensures new { (n : List ℕ) (b : spec.Binding) → map_of self.old ≡ (n, b) ∷ [] →
            map_of self.new ≡ (n, standing_for binding.entry) ∷ [] }
        ensures old { (n : List ℕ) (b : spec.Binding) → map_of self.old ≡ (n, b) ∷ [] →
            standing_for result ≡ b }
    {
        mem::replace(&mut self.bound[0].binding, binding)
    }

    /// Whether the name has values of iterations.
    pub(crate) fn has_values(&self, name: &Symbol) -> bool
        ensures { result ≡ true → (vs : spec.Values) × (binding_of name.now (map_of self.now)
            ≡ Some (spec.rounds vs)) }
    {
        matches!(self.get(name), Some(Binding::Rounds(_)))
    }

    /// Takes out the values of iterations that the name has.
    pub(crate) fn take_values(&mut self, name: &Symbol) -> Vec<Binding<'a>>
        requires { (vs : spec.Values) × (binding_of name.now (map_of self.old)
            ≡ Some (spec.rounds vs)) }
        ensures values { binding_of name.now (map_of self.old)
            ≡ Some (spec.rounds (values_of result.items)) }
        ensures others { (b : spec.Binding) → bind name.now b (map_of self.new)
            ≡ bind name.now b (map_of self.old) }
    {
        let Some(i) = self.position(name) else {
            unreachable!()
        };
        mem::replace(&mut self.bound[i].binding, Binding::Skipped).expect_values()
    }

    /// Binds the name, in place of what it was bound to.
    #[inline]
    pub fn bind(&mut self, name: &'a Symbol, binding: Binding<'a>) -> Result<(), AllocError>
        ensures { OnOk result (map_of self.new ≡ bind name.now (standing_for binding.entry)
            (map_of self.old)) }
    {
        let bound = Bound { name, binding };
        match self.position(name) {
            Some(i) => {
                self.bound[i] = bound;
                Ok(())
            }
            None => {
                self.bound.push(bound)?;
                Ok(())
            }
        }
    }

    // Binds the value of the name in an iteration. A binding that is no list stays as it is.
    #[inline(always)]
    fn bind_in_round(
        &mut self,
        round: &Count,
        name: &'a Symbol,
        value: Binding<'a>,
    ) -> Result<(), AllocError>
        ensures { OnOk result (map_of self.new
            ≡ bind name.now (with_round round.now (standing_for value.entry)
            (binding_of name.now (map_of self.old))) (map_of self.old)) }
    {
        match self.position(name) {
            Some(i) => {
                self.bound[i].add_round(round, value)?;
                Ok(())
            }
            None => {
                let binding = first_of(*self.bound.allocator(), round, value)?;
                self.bound.push(Bound { name, binding })?;
                Ok(())
            }
        }
    }

    /// Adds the bindings of an iteration to the lists of their names. The iteration is left
    /// without bindings.
    #[inline]
    pub(crate) fn bind_round(
        &mut self,
        number: &Count,
        round: &mut Bindings<'a>,
    ) -> Result<(), AllocError>
        ensures bound { OnOk result (map_of self.new
            ≡ bind_round number.now (map_of round.old) (map_of self.old)) }
        ensures left { OnOk result (map_of round.new ≡ []) }
    {
        round.bound.reverse();
        while let Some(bound) = round.bound.pop() {
            self.bind_in_round(number, bound.name, bound.binding)?;
        }
        Ok(())
    }

    /// Adds the bindings of an iteration to the lists of their names. The iteration is left with
    /// only `next`.
    #[inline(always)]
    pub(crate) fn bind_round_before(
        &mut self,
        number: &Count,
        round: &mut Bindings<'a>,
        next: Bound<'a>,
    ) -> Result<(), AllocError>
        ensures bound { OnOk result (map_of self.new
            ≡ bind_round number.now (map_of round.old) (map_of self.old)) }
        ensures left { OnOk result (map_of round.new ≡ entry_of next.entry ∷ []) }
    {
        if round.bound.len() == 1 {
            let ended = mem::replace(&mut round.bound[0], next);
            return self.bind_in_round(number, ended.name, ended.binding);
        }
        self.bind_round(number, round)?;
        round.bound.push(next)?;
        Ok(())
    }
}
