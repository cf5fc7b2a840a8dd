//! The output of texts without faults is a fixed point: here with a grammar that is not Rust's,
//! and without any level of calls.
use crate::opened::found;
use expander::{Edition, Session};
use std::alloc::Global;
use std::test::Fail;
use test_grammars::OneStep;

const ROWS: &str = r###"
y x⏎
let y = 3 + 3 ;⏎
let y = ( 1 + 2 ) + ( 1 + 2 ) ;⏎
struct MyTraitMap2 { map : :: std :: collections :: HashSet < ( ) >, }⏎
/ /⏎
x += 1⏎
x + = y⏎
fn f < 'a > ( x : & 'a T ) { }⏎
1⏎
m ! { }⏎
$ y⏎
# [ doc = " a \"b\"" ] struct S ;⏎
#! [ a ] 1⏎
1 ;⏎
vec ! [ 2 ] ;⏎a :: f ! ( ) ;⏎
7 crate :: z⏎
2 get_a 0 get_b 1⏎
Vec :: < u8 >⏎
struct A ;⏎pub struct B ;⏎
_ ;⏎( const { 1 } ) ;⏎
( + ) x y ;⏎
x "ab"⏎
b ;⏎
( )⏎
é⏎
let x = 1 ;⏎# [ a ] struct S ;⏎
a ;⏎a ;⏎
1 fn f ( ) { 1 }⏎
2 fn f ( ) { 2 }⏎2⏎
z⏎
a b⏎
{ }⏎
fn main ( ) { 1 ; 1.0 ; ( ( 1 , ) , ) . 0.0 ; let x = 1 ; }⏎
2 ;⏎
[ a b ] [ ] [ c ]⏎
0 0⏎
r#fn⏎
Vec < Vec < u8 >> ( a . 0 ? [ 1 ] ) ;⏎
4 ;⏎"literal" ;⏎( funcall ( ) ) ;⏎( future . await ) ;⏎
x += 1 ;⏎
/ / x⏎
## [ a ] struct S ;⏎
a ## b⏎
let s = #"x"# ;⏎
f ( #"a"# ) ;⏎
a ;⏎## b ;⏎
a ;⏎##"x"## b ;⏎
a ;⏎#;⏎"b;c" #;⏎d ;⏎
a ;⏎#"b;c"# ;⏎d ;⏎
a ### ###⏎
- 1 - 1 - 2 1.0 - 1⏎
é ! { }⏎名 Δ⏎
a ;⏎;⏎b ;⏎# [ c ] ;⏎
x ;⏎+ y⏎
a :: f ! ( ) ;⏎a : : y ;⏎
g ! ( ! x ) ;⏎! +⏎
( x ) x x ;⏎
vec ! [ y , g ! ( y ) ] ;⏎a :: f ! ( y ) ;⏎
m ! ( ) ;⏎m ! ( ) ;⏎
let x = ( "ab" , 'c' , 1u8 , r#"d"# , b'e' ) ;⏎
r#fn r#x ;⏎
1.0e3 'b r#d⏎
x += 1 x +/ 1 x +* 1⏎
/ / #/ / * #* / # ##⏎
& 'a str fn f < 'b > ( x : & 'b u8 ) { }⏎
# [ doc = " \"quoted\" \\ doc " ] struct S ;⏎# ! [ doc = " inner " ]⏎
#! [ a ] #! [ b ] fn f ( ) { }⏎# [ c ] fn g ( ) { }⏎
let s = "a\n\"" b'x' b"y\\" c"z" r#"raw""# br##"more"#"## cr"c" 'q' '\'' 0x1f_u8 1e5 2.5f32 r#type ;⏎
2 fn f ( ) { 2 }⏎
ab⏎
c ;⏎
a ;⏎
a + b⏎
a + b ;⏎
a ;⏎b⏎
c ;⏎b⏎
a ;⏎b + c⏎
a ;⏎b + c ;⏎
( x )⏎
w y z v⏎
[ ( a ) ] b⏎
( 1 + 2 ) ;⏎
# [ doc = " d" ] v⏎
1 2⏎
1 2 4⏎
x + 1⏎
'z⏎
abc ;⏎
1 ;⏎3 ;⏎
"###;

// Whether a text prints itself, without faults.
fn prints_itself(alloc: Global, text: &str) -> Result<bool, Fail> {
    if text.len() >= 1000 {
        return Err(Fail::new("a text is long"));
    }
    let mut session = Session::new(alloc, text, OneStep, Edition::Edition2021, 0)?;
    let found = found(&mut session)?;
    Ok(found.printed() == text && found.faults().is_empty())
}

#[test]
fn prints_the_same(rt: HostRuntime) -> Result<(), Fail> {
    for row in ROWS.lines() {
        let text = row.replace(rt.alloc(), "⏎", "\n")?;
        assert!(rt; prints_itself(rt.alloc(), text.as_str())?, "{row}");
    }
    Ok(())
}
