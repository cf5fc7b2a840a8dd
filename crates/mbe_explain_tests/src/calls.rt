//! Calls that no rule fits: a line for each, with rules, argument, and what is told: the place of
//! the nearest rule among those told of, from 1, and then each rule by its number.
use crate::texts::told;
use std::alloc::Global;
use std::test::Fail;

const CALLS: &str = r##"
($n:ident = $v:literal) => {} ¦ 7 = x ¦ 1; 1 unread at 0..1 wants `$n:ident`
($l:expr ; $r:expr) => {}; (none) => {} ¦ 1 2 ¦ 1; 1 unread at 2..3 wants `;`; 2 unread at 0..1 wants `none`
($($f:ident : $v:literal),* $(,)?) => {} ¦ a: 1, b 2 ¦ 1; 1 unread at 8..9 wants `:`
($($f:ident : $v:literal),* $(,)?) => {} ¦ a: 1 b: 2 ¦ 1; 1 unread at 5..6 wants `,`, `,`, the end
($($h:ident)* $t:ident) => {} ¦ p q ¦ 1; 1 ambiguous at 0..1 wants `$h:ident`, `$t:ident`
([ $i:ident ]) => {} ¦ [ 0 ] ¦ 1; 1 unread at 2..3 wants `$i:ident`
([ $i:ident ]) => {} ¦ [ i j ] ¦ 1; 1 unread at 4..5 wants the group's end
(push $v:expr) => {}; (pop $v:expr) => {} ¦ peek 3 ¦ 1; 1 unread at 0..4 wants `push`; 2 unread at 0..4 wants `pop`
($i:ident) => {} ¦  ¦ 1; 1 unread at the end wants `$i:ident`
($i:ident) => {} ¦ i j ¦ 1; 1 unread at 2..3 wants the end
(struct $n:ident { $($f:ident : $t:ty),* }) => {} ¦ struct P { x: u8, y u8 } ¦ 1; 1 unread at 20..22 wants `:`
({ $($k:ident);* } -> $o:expr) => {} ¦ { p; q r } -> 1 ¦ 1; 1 unread at 7..8 wants `;`, the group's end
(x) => {}; (y z) => {}; (y w v) => {}; (y w u $i:ident) => {}; ($i:ident : $e:expr) => {}; (y w u 5 6) => {} ¦ y w u 7 ¦ 4; 1 unread at 0..1 wants `x`; 2 unread at 2..3 wants `z`; 3 unread at 4..5 wants `v`; 4 unread at 6..7 wants `$i:ident`; 5 unread at 2..3 wants `:`; 6 unread at 6..7 wants `5`
(x) => {}; ($i:ident : $e:expr) => {} ¦ q : ¦ 2; 1 unread at 0..1 wants `x`; 2 unread at the end wants `$e:expr`
($n:ident $(: $t:ty)? $(= $e:expr)?) => {} ¦ n : u8 , 1 ¦ 1; 1 unread at 7..8 wants `=`, the end
($($p:ident)? $($q:ident)?) => {} ¦ x ¦ 1; 1 ambiguous at 0..1 wants `$p:ident`, `$q:ident`, the end
(=> $a:tt) => {} ¦ = > z ¦ 1; 1 unread at 0..1 wants `=>`
($a:lifetime) => {} ¦ a ¦ 1; 1 unread at 0..1 wants `$a:lifetime`
('static $a:tt) => {} ¦ 'other x ¦ 1; 1 unread at 0..1 wants `'static`
("one" $a:tt) => {} ¦ "two" x ¦ 1; 1 unread at 0..5 wants `"one"`
($($a:ident),+ ; $($b:literal)|+) => {} ¦ a, b; 1 | c ¦ 1; 1 unread at 10..11 wants `$b:literal`
(( $($x:tt)* ) $y:ident) => {} ¦ (a b) 1 ¦ 1; 1 unread at 6..7 wants `$y:ident`
($v:vis struct $n:ident) => {} ¦ pub(crate) enum E ¦ 1; 1 unread at 11..15 wants `struct`
($($k:ident => $v:expr),* ; end) => {} ¦ a => 1, b => 2 end ¦ 1; 1 unread at 15..18 wants `,`, `;`
($a:ident, $($b:ident),*) => {} ¦ a ¦ 1; 1 unread at the end wants `,`
(($a:ident) [$b:ident]) => {} ¦ (x) (y) ¦ 1; 1 unread at 4..5 wants `[`
(($a:ident) [$b:ident]) => {} ¦ (x) [] ¦ 1; 1 unread at 5..6 wants `$b:ident`
"##;

// A matcher with two readings, an ambiguous one before a rule that comes further, a rule that fits,
// one that cannot be filled, one of another style, and a definition without rules.
const OTHERS: &str = r##"
($(a)? $(a)?) => {} ¦ a ¦ 1; 1 two readings at the end wants `a`, the end
($($h:ident)* $t:ident) => {}; (p $i:ident 1) => {} ¦ p q 2 ¦ 1; 1 ambiguous at 0..1 wants `$h:ident`, `$t:ident`; 2 unread at 4..5 wants `1`
(a) => {}; ($x:tt) => {} ¦ b ¦ 2; 1 unread at 0..1 wants `a`; 2 matches at the end wants the end fits
(b) => {}; ($($x:ident)*) => { $x } ¦ a ¦ 2; 1 unread at 0..1 wants `b`; 2 matches at the end wants `$x:ident`, the end
derive() (a) => {}; (b) => {} ¦ a ¦ 1; 2 unread at 0..1 wants `b`
 ¦ a ¦
"##;

// The rules, the argument and what is told, of a line.
fn parts(line: &str) -> Option<(&str, &str, &str)> {
    let (rules, call) = line.split_once('¦')?;
    let (argument, want) = call.split_once('¦')?;
    Some((rules.trim(), argument.trim(), want.trim()))
}

// Fails with what is told if that is not what is expected.
fn expect(alloc: Global, row: (&str, &str, &str)) -> Result<(), Fail> {
    let (rules, argument, want) = row;
    let got = told(alloc, rules, argument)?;
    if got.as_str() == want {
        return Ok(());
    }
    Err(Fail::new(format!(in alloc; "{rules} on {argument}: {got}")?.as_str()))
}

fn run(alloc: Global, lines: &str) -> Result<(), Fail> {
    for line in lines.lines() {
        if let Some(row) = parts(line) {
            expect(alloc, row)?;
        }
    }
    Ok(())
}

#[test]
fn calls_that_no_rule_fits(rt: HostRuntime) -> Result<(), Fail> {
    run(rt.alloc(), CALLS)
}

#[test]
fn other_calls(rt: HostRuntime) -> Result<(), Fail> {
    run(rt.alloc(), OTHERS)
}
