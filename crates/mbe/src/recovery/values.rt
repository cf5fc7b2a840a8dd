//! The values of a matcher's metavariables where it does not match.
use mbe_rules::MetaVarKind;
use mbe_transcriber::mbe_matcher::{Binding, Bindings};
use std::alloc::AllocError;
use symbols::Symbol;
use tt::TokenTreesView;

// The metavariable whose fragment is wrong, and the trees that are passed for it all the same.
#[derive(Clone, Copy)]
pub(crate) struct Partial<'a> {
    pub(crate) name: &'a Symbol,
    pub(crate) kind: MetaVarKind,
    pub(crate) trees: TokenTreesView<'a>,
}

// The values of metavariables. One may be missing: a fragment of which nothing was consumed.
#[derive(Drop)]
pub(crate) struct Values<'a> {
    bindings: Bindings<'a>,
    missing: Option<Partial<'a>>,
}

// The value of a name.
#[derive(Clone, Copy)]
pub(crate) enum Value<'v, 'a> {
    Bound(&'v Binding<'a>),
    Missing(MetaVarKind),
}

// What a name gives in the iterations around it.
#[derive(Clone, Copy)]
pub(crate) enum VarLookup<'a> {
    Fragment(MetaVarKind, TokenTreesView<'a>),
    Missing(MetaVarKind),
    Unbound,
    // A list, or a skipped repetition, has no member for an iteration.
    NoMember,
    NothingInRound,
    // All iterations are applied, and it is still a list or skipped.
    List,
    Nothing,
}

// How a repetition uses the names inside it.
#[derive(Clone, Copy)]
pub(crate) enum Usage {
    None,
    Fragment,
    // One has a list of values there, so that its iterations have an end.
    List,
    // One has no value for the iteration.
    Lacking,
}

impl<'a> Values<'a> {
    // The bindings, and the fragment that is wrong.
    pub(crate) fn new(
        bindings: Bindings<'a>,
        partial: Option<Partial<'a>>,
    ) -> Result<Values<'a>, AllocError> {
        let mut bindings = bindings;
        let Some(Partial { name, kind, trees }) = partial else {
            return Ok(Values {
                bindings,
                missing: None,
            });
        };
        bindings.bind(name, Binding::Fragment { kind, trees })?;
        let missing = if trees.is_empty() { partial } else { None };
        Ok(Values { bindings, missing })
    }

    pub(crate) fn get(&self, name: &Symbol) -> Option<Value<'_, 'a>> {
        match self.missing {
            Some(missing) if *missing.name == *name => Some(Value::Missing(missing.kind)),
            _ => match self.bindings.get(name) {
                Some(binding) => Some(Value::Bound(binding)),
                None => None,
            },
        }
    }

    // The number of fragments and skips that are bound.
    pub(crate) fn count(&self) -> usize {
        let mut count = 0usize;
        for bound in self.bindings.entries() {
            count = count.saturating_add(leaves(&bound.binding));
        }
        count
    }
}

// The number of fragments and skips in a binding.
fn leaves(binding: &Binding<'_>) -> usize {
    let Binding::Rounds(values) = binding else {
        return 1;
    };
    let mut sum = 0usize;
    for value in values {
        sum = sum.saturating_add(leaves(value));
    }
    sum
}

// The number of values in a binding, `depth` lists further in.
pub(crate) fn count(binding: &Binding<'_>, depth: usize) -> usize {
    match binding {
        Binding::Fragment { .. } => 1,
        Binding::Skipped => 0,
        Binding::Rounds(values) => {
            if depth == 0 {
                return values.len();
            }
            let mut sum = 0usize;
            for value in values {
                sum = sum.saturating_add(count(value, depth - 1));
            }
            sum
        }
    }
}

// What a binding is in these iterations, as far as its lists have members for them, and the
// iterations that are left.
pub(crate) fn within<'v, 'r, 'a>(
    binding: &'v Binding<'a>,
    rounds: &'r [usize],
) -> (&'v Binding<'a>, &'r [usize]) {
    let Some((round, more)) = rounds.split_first() else {
        return (binding, rounds);
    };
    match binding {
        Binding::Rounds(values) => match values.get(*round) {
            Some(value) => within(value, more),
            None => (binding, rounds),
        },
        _ => (binding, rounds),
    }
}

// What a binding gives in these iterations.
pub(crate) fn found<'a>(binding: &Binding<'a>, rounds: &[usize]) -> VarLookup<'a> {
    let (here, left) = within(binding, rounds);
    match here {
        Binding::Fragment { kind, trees } => VarLookup::Fragment(*kind, *trees),
        Binding::Rounds(_) if left.is_empty() => VarLookup::List,
        Binding::Rounds(_) => VarLookup::NoMember,
        Binding::Skipped if left.is_empty() => VarLookup::Nothing,
        Binding::Skipped => VarLookup::NothingInRound,
    }
}

// How the innermost of these iterations uses a binding.
pub(crate) fn usage_in(binding: &Binding<'_>, rounds: &[usize]) -> Usage {
    let Some((round, around)) = rounds.split_last() else {
        return Usage::None;
    };
    let (here, left) = within(binding, around);
    if !left.is_empty() {
        return Usage::None;
    }
    match here {
        Binding::Fragment { .. } => Usage::Fragment,
        Binding::Rounds(values) if *round < values.len() => Usage::List,
        _ => Usage::Lacking,
    }
}

impl Usage {
    pub(crate) fn with(self, other: Usage) -> Usage {
        match (self, other) {
            (Usage::Lacking, _) | (_, Usage::Lacking) => Usage::Lacking,
            (Usage::List, _) | (_, Usage::List) => Usage::List,
            (Usage::Fragment, _) | (_, Usage::Fragment) => Usage::Fragment,
            _ => Usage::None,
        }
    }
}
