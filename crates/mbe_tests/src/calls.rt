//! Rules, calls, and their results: a line for each call, with rules, argument and result. A
//! result is the index of the rule and the printed text, in which `⏎` is the end of a line. If no
//! rule fits, it is the error, its range, the index of the nearest rule if there is one, and its
//! tree as it is displayed.
use crate::texts::answered;
use mbe::FragmentGrammar;
use small_grammar::SmallGrammar;
use std::alloc::Global;
use std::test::Fail;
use test_grammars::{AllSteps, Faults, OneStep};
use tt::Edition;

const WITH_THE_SMALL_GRAMMAR: &str = r###"
() => {} ¦  ¦ 0
($a:ident $b:tt) => { $b $a } ¦ x y ¦ 0 y x⏎
(a) => {0}; (b) => {1}; ($x:ident) => {2} ¦ b ¦ 1 1⏎
(a) => {0}; ($x:ident) => {2} ¦ c ¦ 1 2⏎
($x:ident) => {} ¦ _ ¦ none
($x:ident) => {} ¦  ¦ none
($x:ident) => {} ¦ a b ¦ none
($($x:ident),*) => { $($x;)* } ¦ a, b, c ¦ 0 a ;⏎b ;⏎c ;⏎
($($x:ident),*) => { $($x;)* } ¦ a, b, ¦ none
($($x:ident),* $(,)?) => { $($x)* } ¦ a, b, ¦ 0 a b⏎
($($a:tt)* $($b:tt)*) => {} ¦ x ¦ none
($(a)* $(a)*) => {} ¦ a ¦ none
($($(a)+)*) => {} ¦ a a a ¦ none
($($(a)*),* $($(a)*),* $($(a)*),* $($(a)*),* $($(a)*),* $($(a)*),* $($(a)*),* $($(a)*),* $($(a)*),* $($(a)*),* $($(a)*),* $($(a)*),* $($(a)*),* $($(a)*),* $($(a)*),* $($(a)*),* $($(a)*),* $($(a)*),* $($(a)*),* $($(a)*),* $($(a)*),* $($(a)*),* $($(a)*),* $($(a)*),* $($(a)*),* $($(a)*),* $($(a)*),* $($(a)*),* $($(a)*),* $($(a)*),*) => {} ¦ a ¦ none
($($x:ident)* end) => {} ¦ a end ¦ none
($x:expr) => { ($x) * 2 } ¦ 1 + 2 ¦ 0 ( ( 1 + 2 ) ) * 2⏎
($x:expr) => { $x } ¦ (1) ¦ 0 ( 1 )⏎
($x:expr) => { $x } ¦ - 1 ¦ 0 - 1⏎
($x:expr) => {} ¦ let x = 1 ¦ none
($x:expr_2021) => {} ¦ _ ¦ none
($x:expr_2021) => {} ¦ const { 1 } ¦ none
($x:expr) => {0} ¦ const { 1 } ¦ 0 0⏎
($v:vis fn) => { $v } ¦ fn ¦ 0
($v:vis fn) => { $v } ¦ pub(crate) fn ¦ 0 pub ( crate )⏎
($l:lifetime) => { $l } ¦ 'a ¦ 0 'a⏎
($l:literal) => { $l } ¦ -1 ¦ 0 - 1⏎
($l:literal) => { $l } ¦ true ¦ 0 true⏎
($l:literal) => { f($l) } ¦ #"a"# ¦ 0 f ( #"a"# )⏎
("a") => { 1 } ¦ #"a"# ¦ 0 1⏎
(##"a"##x) => { 1 } ¦ "a"x ¦ 0 1⏎
("a") => { 1 } ¦ #"b"# ¦ none
($($y:tt)*) => { #$($y)* } ¦ #[a] ¦ 0 ## [ a ]⏎
($($y:tt)*) => { #$($y)* } ¦ "a" ¦ 0 # "a"⏎
(##) => { 1 } ¦ ## ¦ 0 1⏎
($t:ty) => { $t } ¦ Vec<u8> ¦ 0 Vec < u8 >⏎
($p:path) => { $p } ¦ a::B<u8> ¦ 0 a :: B :: < u8 >⏎
($p:pat) => { $p } ¦ A | B ¦ 0 A | B⏎
($p:pat_param) => { $p } ¦ A | B ¦ none
({ [ ( $x:tt ) ] }) => { $x } ¦ { [ ( y ) ] } ¦ 0 y⏎
({ $x:tt }) => { $x } ¦ ( y ) ¦ none
(1u8) => {} ¦ 1u16 ¦ none
(0x1) => {0} ¦ 0x1 ¦ 0 0⏎
(a => $x:tt) => { $x } ¦ a => ..= ¦ 0 ..=⏎
($x:foo) => {} ¦ a ¦ none
() => { ${index(1)} ${len()} } ¦  ¦ 0 0 0⏎
() => { ${concat(f, n)} } ¦  ¦ 0 r#fn⏎
($x:expr, $y:ty) => { $y $x } ¦ a.0?[1], Vec<Vec<u8>> ¦ 0 Vec < Vec < u8 >> ( a . 0 ? [ 1 ] )⏎
($($e:expr_2021),* $(,)?) => { $($e);* ; } ¦ 4, "literal", funcall(), future.await, ¦ 0 4 ;⏎"literal" ;⏎( funcall ( ) ) ;⏎( future . await ) ;⏎
($x:tt $($y:tt)*) => { $( $y $( $x )* )* } ¦ 1 a b ¦ 0 a b⏎
($($x:ident)*) => { $x } ¦ a ¦ none
($($a:ident)* ; $($b:ident)*) => { $( $a $b )* } ¦ x y ; z ¦ 0 x z⏎
($($a:ident)* $(; $b:ident)?) => { $( $a ${ignore($b)} )* } ¦ x y ¦ 0
($($a:ident)* ; $($($b:ident)*),*) => { $( $a $( $b )* )* } ¦ x y ; z w ¦ 0 x z w⏎
(-1) => {-1}; (- 2) => {- 2}; (- 3.0) => {- 3.0}; (@$lit:literal) => {$lit} ¦ -1 ¦ 0 - 1⏎
(-1) => {-1}; (- 2) => {- 2}; (- 3.0) => {- 3.0}; (@$lit:literal) => {$lit} ¦ - 1 ¦ 0 - 1⏎
(-1) => {-1}; (- 2) => {- 2}; (- 3.0) => {- 3.0}; (@$lit:literal) => {$lit} ¦ -2 ¦ 1 - 2⏎
(-1) => {-1}; (- 2) => {- 2}; (- 3.0) => {- 3.0}; (@$lit:literal) => {$lit} ¦ @1.0 ¦ 3 1.0⏎
(-1) => {-1}; (- 2) => {- 2}; (- 3.0) => {- 3.0}; (@$lit:literal) => {$lit} ¦ @-1 ¦ 3 - 1⏎
"###;

// Calls that no rule fits. Two faults of a name are never reported. Where a list or a skipped
// metavariable has no value for an iteration around the name, that iteration is dropped with its
// faults, since each name in it is looked up before it is transcribed.
const UNFIT: &str = r#"
(-1) => {-1}; (- 2) => {- 2}; (- 3.0) => {- 3.0}; (@$lit:literal) => {$lit} ¦ @--1.0 ¦ none: expected literal (1..2, 3) missing
($($e:expr),* $(,)?) => { $($e);* ; } ¦ _, ¦ none: no rule matches input tokens (0..1, 0) ;
($($e:expr),* $(,)?) => { $($e);* ; } ¦ const { 1 }, ¦ none: no rule matches input tokens (0..5, 0) ;
(a b) => {x} ¦ a c ¦ none: unexpected token in input (2..3, 0) x
(a b) => {x} ¦ a ¦ none: expected ident: `b` (92..93, 0) x
(a 'b) => {x} ¦ a 'c ¦ none: unexpected token in input (2..3, 0) x
(a 'b) => {x} ¦ a + ¦ none: expected punct: `'` (2..3, 0) x
(a 1) => {x} ¦ a () ¦ none: expected literal: `1` (2..3, 0) x
(a "z") => {x} ¦ a () ¦ none: expected literal: `"z"` (2..3, 0) x
(a r#fn) => {x} ¦ a () ¦ none: expected ident: `r#fn` (2..3, 0) x
(a ==) => {x} ¦ a + b ¦ none: expected punct: `==` (2..3, 0) x
(a ==) => {x} ¦ a 'b ¦ none: unexpected token in input (2..3, 0) x
(a ==) => {x} ¦ a b ¦ none: unexpected token in input (2..3, 0) x
(a ==) => {x} ¦ a ¦ none: unexpected token in input (92..93, 0) x
(a (b)) => {x} ¦ a [b] ¦ none: leftover tokens (90..91, 0) x
(a (b)) => {x} ¦ a (c) ¦ none: unexpected token in input (3..4, 0) x
(a (b)) => {x} ¦ a (b c) ¦ none: leftover tokens (90..91, 0) x
(a) => {x} ¦ a b c ¦ none: leftover tokens (90..91, 0) x
($a:ident) => {$a} ¦ 1 ¦ none: expected ident (0..1, 0) missing
($a:ident) => {$a} ¦  ¦ none: expected ident (92..93, 0) missing
($a:tt) => {< $a >} ¦  ¦ none: expected token tree (92..93, 0) < >
($a:lifetime) => {$a} ¦ x ¦ none: expected lifetime (0..1, 0) 'missing
($a:literal) => {$a} ¦ x ¦ none: expected literal (0..1, 0) missing
($a:ty) => {$a} ¦ ; ¦ none: expected Ty (0..1, 0) missing
($a:pat) => {$a} ¦ ; ¦ none: expected PatTop (0..1, 0) missing
($a:pat_param) => {$a} ¦ ; ¦ none: expected Pat (0..1, 0) missing
($a:stmt) => {$a} ¦ x ¦ none: expected Stmt (0..1, 0) ;
($a:block) => {$a} ¦ x ¦ none: expected Block (0..1, 0) {}
($a:meta) => {< $a >} ¦ ; ¦ none: expected MetaItem (0..1, 0) < >
($a:item) => {< $a >} ¦ ; ¦ none: expected Item (0..1, 0) < >
($a:path) => {< $a >} ¦ ; ¦ none: expected Path (0..1, 0) < missing >
($a:expr) => {< $a >} ¦ let x ¦ none: no rule matches input tokens (0..3, 0) < missing >
($a:expr) => {< $a >} ¦ ; ¦ none: expected Expr (0..1, 0) < missing >
($a:expr_2021) => {< $a >} ¦ _ ¦ none: no rule matches input tokens (0..1, 0) < missing >
($a:expr_2021) => {< $a >} ¦ const { 1 } ¦ none: no rule matches input tokens (0..5, 0) < missing >
($($a:ident)*) => { ${count($a)} $($a)* $(${count($a)})* } ¦ 1 ¦ none: expected ident (0..1, 0) 1
($($a:ident)*) => { < $a > } ¦ x y ¦ none: expected simple binding, found nested binding `a` (22..23, 0) < >
($($a:ident)?) => { < $a > } ¦  ¦ none: expected simple binding, found empty binding `a` (22..23, 0) < >
($a:ident) => { ${ignore($b)} $a } ¦ x ¦ none: could not find binding b (16..17, 0) x
($a:ident) => { ${count($b)} $a } ¦ x ¦ none: could not find binding b (16..17, 0) x
($a:ident) => { ${concat(a, $b)} $a } ¦ x ¦ none: could not find binding b (16..17, 0) a x
($a:ident) => { ${concat(1, $a)} $a } ¦ x ¦ none: `${concat(..)}` is not generating a valid identifier (16..17, 0) __ra_concat_dummy x
($a:ty) => { ${concat(a, $a)} $a } ¦ (u8) ¦ none: metavariables of `${concat(..)}` must be of type `ident`, `literal` or `tt` (13..14, 0) a (u8)
($a:ident) => { $($a)* z } ¦ x ¦ none: Expand exceed limit (77..78, 0) z
($a:ident) => { $($a)? $($b)+ z } ¦ x ¦ none: unexpected token in input (77..78, 0) x z
($($a:ident)*) => { $($a)+ z } ¦  ¦ none: unexpected token in input (77..78, 0) z
($($a:ident $b:ident),*) => { $($a ${concat(1, $b)}),* z } ¦ x y, z w ¦ none: `${concat(..)}` is not generating a valid identifier (35..36, 0) x __ra_concat_dummy z __ra_concat_dummy z
($($a:ident)* ; $($b:ident)*) => { $( $( ($a $b) )* )* } ¦ x y ; z w ¦ none: Expand exceed limit (77..78, 0)
($a:expr, $b:expr, $c:path) => { $a $b $c ${count($d)} } ¦ 1 + 2, -3, A<u8> ¦ none: could not find binding d (42..43, 0) (1 + 2) - 3 A :: < u8 >
($a:ident) => {1 $a}; ($a:ident $b:ident) => {2 $a $b}; ($a:tt ,) => {3 $a} ¦ x 1 ¦ none: expected ident (2..3, 1) 2 x missing
($a:ident a $b:ident) => {1}; ($a:ident b $b:tt) => {$a $b} ¦ x b ¦ none: expected token tree (92..93, 1) x
(($a:ident x) y) => {1}; (($a:ident ; $b:ident) y z w) => {$a $b} ¦ (q ; 1) y z w ¦ none: expected ident (5..6, 1) q missing
(a) => {1}; (b) => {2} ¦ c ¦ none: unexpected token in input (0..1, 0) 1
 ¦ c ¦ none: no rule matches input tokens (77..78, none)
attr(a) (b) => {c}; derive() (b) => {d} ¦ e ¦ none: no rule matches input tokens (77..78, none)
attr(a) (b) => {c}; (b) => {d} ¦ e ¦ none: unexpected token in input (0..1, 1) d
($($a:tt)* $b:tt) => {1} ¦ c d ¦ none: leftover tokens (90..91, 0) 1
($($(a)+)*) => {1} ¦ a a a a a a a a a a a a a a a a a a a a a a a a a a a a a a a a a a a a ¦ none: expected ident: `a` (92..93, 0) 1
($($(a)+)*) => {1} ¦ a a a a a a a a a a a a a a a a a a a a a a a a a a a a a a a a a a a a b ¦ none: unexpected token in input (72..73, 0) 1
($a:ident, $($b:ident)* ; $c:expr) => {$a $($b)* $c} ¦ x, y z ; let ¦ none: unexpected token in input (3..4, 0) x y z missing
($($a:ident = $b:ty);*) => {$($a $b)*} ¦ x = u8; y = ; ¦ none: expected Ty (12..13, 0)
($($a:ident),+ ; $(x)?) => {$($a)*} ¦ q, r ¦ none: expected punct: `;` (1..2, 0) q r
($($a:ident),+ ; $(x)?) => {$($a)*} ¦ q, r ; x x ¦ none: expected punct: `;` (1..2, 0) q r
($($a:tt ; $($b:ident),*)|*) => { [$($a [$($b $a),*])|*] } ¦ 1; x, y| 2; z, 3 ¦ none: expected ident (15..16, 0) []
($($a:vis),*) => {x} ¦  ¦ none: unexpected token in input (90..91, 0) x
(a 1) => {x} ¦ a ¦ none: expected literal: `1` (92..93, 0) x
(a 'b) => {x} ¦ a ¦ none: unexpected token in input (92..93, 0) x
(a ==) => {x} ¦ a () ¦ none: unexpected token in input (2..3, 0) x
(a ==) => {x} ¦ a 1 ¦ none: unexpected token in input (2..3, 0) x
(a (b c)) => {x} ¦ a (b) ¦ none: expected ident: `c` (92..93, 0) x
(a (b $c:ty)) => {$c} ¦ a (b) d ¦ none: expected Ty (92..93, 0) missing
(a $b:lifetime) => {$b} ¦ a ¦ none: expected lifetime (92..93, 0) 'missing
(a $b:literal) => {$b} ¦ a ¦ none: expected literal (92..93, 0) missing
(a $b:ty) => {$b} ¦ a ¦ none: expected Ty (92..93, 0) missing
($a:foo) => {$a} ¦ x ¦ none: leftover tokens (90..91, 0) $ a
"#;

const WITH_ONE_STEP: &str = r#"
($x:expr) => { $x } ¦ a ¦ 0 a⏎
($x:expr) => { $x } ¦ (a) ¦ none
($x:item) => { $x } ¦  ¦ none
($($x:ty)*) => { $($x,)* } ¦ a + b ¦ 0 a , + , b ,⏎
($a:expr) => {< $a >} ¦ (a b) c ¦ none: expected Expr (0..1, 0) < (a b) >
"#;

const WITH_ALL_STEPS: &str = r#"
($x:ty) => { $x } ¦ a (b) c ¦ 0 a ( b ) c⏎
($x:ty ;) => { $x } ¦ a ; ¦ none
"#;

const WITH_FAULTS: &str = r#"
($x:ty) => {}; ($x:tt) => { $x } ¦ a ¦ 1 a⏎
($v:vis) => {}; () => {} ¦  ¦ 1
($a:vis) => {< $a >} ¦ ; ¦ none: expected Vis (0..1, 0) < >
($a:expr) => { ${count($a)} < $($a)* > $(${count($a)})? ${concat(a, $a)} ${ignore($a)} } ¦ 1 ¦ none: expected Expr (0..1, 0) 1 < > 1 amissing
($a:block) => { ${concat(a, $a)} } ¦ 1 ¦ none: expected Block (0..1, 0) a
"#;

// The rules, the argument and the result of a line.
fn parts(line: &str) -> Option<(&str, &str, &str)> {
    let (rules, call) = line.split_once('¦')?;
    let (argument, want) = call.split_once('¦')?;
    Some((rules.trim(), argument.trim(), want.trim()))
}

// Fails with the result of a call if that is not the expected one.
fn expect<G: FragmentGrammar>(
    alloc: Global,
    grammar: &G,
    edition: Edition,
    row: (&str, &str, &str),
) -> Result<(), Fail> {
    let (rules, argument, want) = row;
    let got = answered(alloc, grammar, edition, rules, argument)?;
    if is_wanted(got.as_str().trim(), want) {
        return Ok(());
    }
    Err(Fail::new(format!(in alloc; "{rules} on {argument}: {got}")?.as_str()))
}

fn run<G: FragmentGrammar>(
    alloc: Global,
    grammar: &G,
    edition: Edition,
    lines: &str,
) -> Result<(), Fail> {
    for line in lines.lines() {
        if let Some(row) = parts(line) {
            expect(alloc, grammar, edition, row)?;
        }
    }
    Ok(())
}

// Whether a result is the expected one. `none` expects any result of a call that no rule fits.
fn is_wanted(got: &str, want: &str) -> bool {
    got == want || (want == "none" && got.starts_with("none:"))
}

#[test]
fn with_the_small_grammar(rt: HostRuntime) -> Result<(), Fail> {
    run(
        rt.alloc(),
        &SmallGrammar,
        Edition::Edition2024,
        WITH_THE_SMALL_GRAMMAR,
    )?;
    run(rt.alloc(), &SmallGrammar, Edition::Edition2021, UNFIT)
}

#[test]
fn with_fake_grammars(rt: HostRuntime) -> Result<(), Fail> {
    run(rt.alloc(), &OneStep, Edition::Edition2021, WITH_ONE_STEP)?;
    run(rt.alloc(), &AllSteps, Edition::Edition2021, WITH_ALL_STEPS)?;
    run(rt.alloc(), &Faults, Edition::Edition2021, WITH_FAULTS)
}
