//! Types and their paths. Each function gives the trees after what it is named for, or `None` if
//! the list begins otherwise.
//!
//! What is open around a place is kept in a list of fixed length, so that a call goes through many
//! levels. A further call is made only where that list is full.
ghost use Rattle.std.specs.Prelude.{◌≡◌, ◌<◌, ◌≤◌, ◌+◌, ◌*◌, true, IfSome, option_and_then};
ghost use Rattle.arrayvec.specs.ArrayVec.{array_vec_len};
ghost use Rattle.tt_data.specs.Forest.{size};
ghost use Rattle.small_grammar.specs.declared.type_steps.Begun.TheVariants.{Angle, Arrow};
ghost use Rattle.small_grammar.specs.Expressions.{Taking};
ghost use Rattle.small_grammar.specs.Levels.{after, left, gone, outside, within, size_of, weight};
ghost use Rattle.small_grammar.specs.Levels.{next_size, next_weight};
ghost use Rattle.small_grammar.specs.SmallGrammar.{takes, type, generics, tpath, single};

use crate::tokens::{punct, two_puncts};
use crate::type_parts::path_start;
use crate::type_steps::{
    Begun, Follow, Next, begin_type, behind_name, behind_result, behind_segment, first_arg,
    next_arg,
};
use arrayvec::ArrayVec;
use tt::TtIter;

// How many levels a call goes through.
const LEVELS: usize = 128;

// What is open around a place. Each remembers what may follow the segment that it belongs to.
#[derive(Clone, Copy)]
enum Level {
    // Arguments in angle brackets.
    Args(Follow),
    // A function's result.
    Result(Option<Follow>),
}

impl Default for Level {
    fn default() -> Level {
        Level::Args(Follow::Segments)
    }
}

type Levels = ArrayVec<Level, LEVELS>;

/// A type.
#[cycle(types)]
pub(crate) fn ty<'a>(trees: &TtIter<'a>) -> Option<TtIter<'a>>
    ensures { result ≡ takes type trees.now }
{
    complete(begin_type(trees)?, false)
}

/// A path of a type.
#[tactic(auto, unfolding(crate::specs::SmallGrammar::tpath))]
pub(crate) fn tpath<'a>(trees: &TtIter<'a>) -> Option<TtIter<'a>>
    ensures { result ≡ takes tpath trees.now }
{
    complete(Begun::Named(path_start(trees)?, Follow::Segments), false)
}

/// Arguments in angle brackets.
#[cycle(types)]
#[tactic(auto, unfolding(crate::specs::SmallGrammar::generics))]
pub(crate) fn generics<'a>(trees: &TtIter<'a>) -> Option<TtIter<'a>>
    ensures { result ≡ takes generics trees.now }
{
    match first_arg(&punct(trees, '<')?)? {
        Next::Part(begun) => complete(begun, true),
        Next::End(rest) => Some(rest),
    }
}

// The trees after what is begun; and, if that is an argument, after all arguments and their `>`.
#[cycle(types)]
fn complete<'a>(begun: Begun<'a>, is_arg: bool) -> Option<TtIter<'a>>
    ensures { result ≡ outside is_arg (left begun.entry) }
{
    let mut levels: Levels = ArrayVec::new();
    let mut at = begun;
    loop {
        at = match at {
            Begun::Named(rest, follow) => behind_name(rest, follow),
            Begun::Angle(rest, follow) if is_arg && !levels.is_full() => {
                enter_args(rest, follow, &mut levels)?
            }
            Begun::Angle(rest, follow) => pass_args(rest, follow),
            Begun::Arrow(rest, follow) if !levels.is_full() => {
                enter_result(rest, follow, &mut levels)
            }
            Begun::Arrow(rest, follow) => pass_result(rest, follow),
            Begun::Whole(rest) => match leave(rest, is_arg, &mut levels)? {
                Next::Part(begun) => begun,
                Next::End(rest) => return Some(rest),
            },
        };
    }
}

// The trees behind `::` if that comes first.
fn behind_colons<'a>(trees: &TtIter<'a>) -> TtIter<'a>
    ensures what { result ≡ after (single "::") trees.now }
    ensures further { size result ≤ size trees.now }
{
    two_puncts(trees, ':', ':').unwrap_or(trees.copied())
}

// The trees behind `<`, or behind `::` and `<`.
fn open_angle<'a>(trees: &TtIter<'a>) -> Option<TtIter<'a>>
    ensures { result ≡ takes (single "<") (after (single "::") trees.now) }
{
    match punct(trees, '<') {
        Some(rest) => Some(rest),
        None => punct(&two_puncts(trees, ':', ':')?, '<'),
    }
}

// Goes into arguments, all within others. `None` if these cannot be complete.
fn enter_args<'a>(trees: TtIter<'a>, follow: Follow, levels: &mut Levels) -> Option<Begun<'a>>
    requires { array_vec_len levels.old < 128 }
    ensures what { option_and_then (λ b. within (outside true) levels.new.items (left b)) result
        ≡ within (outside true) levels.old.items (left (Angle trees.entry follow)) }
    ensures further { IfSome result (λ b. size_of b ≤ size trees.entry) }
    ensures falls { IfSome result (λ b. weight b + array_vec_len levels.new * 4
        ≤ size trees.entry * 8 + 1 + array_vec_len levels.old * 4) }
    ensures room { array_vec_len levels.new ≤ 128 }
{
    let Some(open) = open_angle(&trees) else {
        return Some(Begun::Whole(trees));
    };
    match first_arg(&open)? {
        Next::Part(begun) => {
            levels.push(Level::Args(follow));
            Some(begun)
        }
        Next::End(rest) => Some(behind_segment(rest, follow)),
    }
}

// Passes arguments if they are complete.
#[cycle(types)]
fn pass_args<'a>(trees: TtIter<'a>, follow: Follow) -> Begun<'a>
    ensures what { left result ≡ left (Angle trees.entry follow) }
    ensures further { weight result ≤ size trees.entry * 8 + 1 }
{
    match generics(&behind_colons(&trees)) {
        Some(rest) => behind_segment(rest, follow),
        None => Begun::Whole(trees),
    }
}

// Goes into a result if a type comes behind `->`.
fn enter_result<'a>(trees: TtIter<'a>, follow: Option<Follow>, levels: &mut Levels) -> Begun<'a>
    requires { array_vec_len levels.old < 128 }
    ensures what { (around : Taking) → within around levels.new.items (left result)
        ≡ within around levels.old.items (left (Arrow trees.entry follow)) }
    ensures further { size_of result ≤ size trees.entry }
    ensures falls { weight result + array_vec_len levels.new * 4
        ≤ size trees.entry * 8 + 2 + array_vec_len levels.old * 4 }
    ensures room { array_vec_len levels.new ≤ 128 }
{
    let Some(rest) = two_puncts(&trees, '-', '>') else {
        return behind_result(trees, follow);
    };
    let Some(begun) = begin_type(&rest) else {
        return behind_result(trees, follow);
    };
    levels.push(Level::Result(follow));
    begun
}

// Passes a result if a type comes behind `->`.
#[cycle(types)]
fn pass_result<'a>(trees: TtIter<'a>, follow: Option<Follow>) -> Begun<'a>
    ensures what { left result ≡ left (Arrow trees.entry follow) }
    ensures further { weight result ≤ size trees.entry * 8 + 2 }
{
    let Some(rest) = two_puncts(&trees, '-', '>') else {
        return behind_result(trees, follow);
    };
    behind_result(ty(&rest).unwrap_or(trees), follow)
}

// Goes out of what is open after a type or an argument. `None` if nothing that may follow it comes.
fn leave<'a>(trees: TtIter<'a>, is_arg: bool, levels: &mut Levels) -> Option<Next<'a>>
    requires { array_vec_len levels.old ≤ 128 }
    ensures what { gone (within (outside is_arg) levels.new.items) result
        ≡ within (outside is_arg) levels.old.items trees.entry }
    ensures further { IfSome result (λ n. next_size n ≤ size trees.entry) }
    ensures falls { IfSome result (λ n. next_weight n + array_vec_len levels.new * 4
        ≤ size trees.entry * 8 + array_vec_len levels.old * 4) }
    ensures room { array_vec_len levels.new ≤ 128 }
{
    match levels.pop() {
        Some(Level::Result(follow)) => Some(Next::Part(behind_result(trees, follow))),
        Some(Level::Args(follow)) => match next_arg(&trees)? {
            Next::Part(begun) => {
                levels.push(Level::Args(follow));
                Some(Next::Part(begun))
            }
            Next::End(rest) => Some(Next::Part(behind_segment(rest, follow))),
        },
        None if is_arg => next_arg(&trees),
        None => Some(Next::End(trees)),
    }
}
