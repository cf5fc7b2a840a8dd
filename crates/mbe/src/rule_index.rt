//! Keys of the identifiers that matchers begin with. Rules that begin with another identifier
//! than the argument are passed at once. It decides speed alone.
ghost use Rattle.std.specs.Prelude.{◌≡◌, [], true, map, IfOk};
ghost use Rattle.tt.specs.Views.{forest};
ghost use Rattle.tt_data.specs.Forest.{Forest};
ghost use Rattle.mbe_rules.specs.Items.{Items};
ghost use Rattle.mbe_rules.specs.Ops.{items_of, put_op, rule_of};
ghost use Rattle.mbe_transcriber.specs.mbe_matcher.Blocked.{is_blocked};
ghost use Rattle.mbe.specs.Keys.{first_key, key_from, keys_of, name_key};
ghost use Rattle.mbe_transcriber.specs.mbe_matcher.Units.{place};

use mbe_rules::{Op, Rule};
use mbe_transcriber::mbe_matcher::is_blocked;
use std::alloc::{AllocError, Global};
use tt::TokenTreesView;

// The key of a text.
fn key_of(text: &str) -> u32
    ensures { result ≡ key_from 0 text.now }
{
    let mut key: u32 = 0;
    for byte in text.as_bytes() {
        key = key.wrapping_mul(31).wrapping_add(u32::from(*byte));
    }
    key
}

// The key of the identifier that an op is, if it is one.
fn key_of_op(op: &Op) -> Option<u32>
    ensures { (rest : Items) → result ≡ first_key (put_op op.now rest) }
{
    match op {
        Op::Ident(ident) => Some(key_of(ident.sym.as_str())),
        _ => None,
    }
}

// The key of the identifier that a matcher begins with, if it begins with one.
fn first_key(pattern: &[Op]) -> Option<u32>
    ensures { result ≡ first_key (items_of pattern.now) }
{
    match pattern.split_first() {
        Some((op, _rest)) => key_of_op(op),
        None => None,
    }
}

/// The keys of the identifiers that the matchers of rules begin with.
pub(crate) fn keys_of(alloc: Global, rules: &[Rule]) -> Result<Vec<Option<u32>>, AllocError>
    ensures { IfOk result (λ keys. keys.items ≡ keys_of (map rule_of rules.now)) }
{
    let mut keys = Vec::with_capacity(alloc, rules.len())?;
    for rule in rules {
        keys.push(first_key(&rule.pattern))?;
    }
    Ok(keys)
}

/// The key of the identifier that an argument begins with, if it begins with one.
#[tactic(auto, using(crate::proofs::KeyLemmas::a_name_first, crate::proofs::KeyLemmas::no_name))]
pub(crate) fn name_key(argument: TokenTreesView<'_>) -> Option<u32>
    ensures { result ≡ name_key (forest argument.entry) }
{
    match argument.iter().lent_ident() {
        Some((name, _behind)) => Some(key_of(name.sym.as_str())),
        None => None,
    }
}

// Whether a matcher with the key `key` begins with another identifier than an argument with the
// key `name`.
#[inline(always)]
#[tactic(auto, using(crate::proofs::KeyLemmas::no_name_here, crate::proofs::KeyLemmas::another_name))]
fn is_other(key: Option<u32>, name: Option<u32>) -> bool
    ensures { (pattern : Items) (argument : Forest) → key ≡ first_key pattern → name
        ≡ name_key argument →
        result ≡ true → is_blocked pattern (place argument []) ≡ true }
{
    let Some(key) = key else {
        return false;
    };
    match name {
        Some(name) => key != name,
        None => true,
    }
}

/// Whether a matcher cannot begin at an argument with these keys.
#[inline(always)]
pub(crate) fn is_passed(
    alloc: Global,
    pattern: &[Op],
    key: Option<u32>,
    argument: TokenTreesView<'_>,
    name: Option<u32>,
) -> bool
    requires key { key ≡ first_key (items_of pattern.now) }
    requires name { name ≡ name_key (forest argument) }
    ensures { result ≡ is_blocked (items_of pattern.now) (place (forest argument.entry) []) }
{
    is_other(key, name) || is_blocked(alloc, pattern, argument)
}
