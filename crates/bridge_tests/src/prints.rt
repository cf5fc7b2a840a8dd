//! Trees, and the texts that they print.
use crate::rows::tree;
use bridge::parts::TokenEvent;
use bridge::{Printed, Printer, print};
use std::alloc::Global;
use std::test::Fail;
use tt::{TokenTreesView, TopSubtree, TopSubtreeBuilder};
use tt_data::{
    Delimiter, DelimiterKind, Ident, IdentIsRaw, Leaf, LitKind, Literal, Punct, Spacing, Span,
    Symbol, TtFault,
};

// Fails with what a printed form is if it is not the expected one: the text, the number of tokens,
// and the numbers of the omitted ones.
fn expect(alloc: Global, printed: &Printed, want: &str) -> Result<(), Fail> {
    let text = printed.text.as_str();
    let got = format!(in alloc; "{text}{} {:?}", printed.tokens.len(), printed.left_out)?;
    if got.as_str() == want {
        return Ok(());
    }
    Err(Fail::new(got.as_str()))
}

// Whether the trees of a text print this one.
fn prints(alloc: Global, text: &str, want: &str) -> Result<bool, Fail> {
    let tree = tree(alloc, text)?;
    Ok(print(alloc, tree.token_trees())?.text.as_str() == want)
}

// A text, and what its trees print.
const TEXTS: [(&str, &str); 9] = [
    ("", ""),
    ("x+/*c*/=y", "x + = y\n"),
    ("x+=1", "x += 1\n"),
    ("fn f<'a>(x: &'a T) {}", "fn f < 'a > ( x : & 'a T ) { }\n"),
    (
        "/// a \"b\"\nstruct S;\n",
        "# [ doc = \" a \\\"b\\\"\" ] struct S ;\n",
    ),
    ("//! a\nx", "# ! [ doc = \" a\" ] x\n"),
    ("/** b */s", "# [ doc = \" b \" ] s\n"),
    ("0x 1e r#fn b'x'", "0x 1e r#fn b'x'\n"),
    ("{a;b};c", "{ a ; b }\n;\nc\n"),
];

#[test]
fn prints_texts(rt: HostRuntime) -> Result<(), Fail> {
    for (text, want) in &TEXTS {
        assert!(rt; prints(rt.alloc(), text, want)?, "{text}");
        assert!(rt; prints(rt.alloc(), want, want)?, "{want}");
    }
    Ok(())
}

fn name(alloc: Global, text: &str, is_raw: IdentIsRaw) -> Result<Leaf, TtFault> {
    let sym = Symbol::new(alloc, text)?;
    let span = Span::default();
    Ok(Leaf::Ident(Ident { sym, span, is_raw }))
}

fn mark(char: char, spacing: Spacing) -> Leaf {
    let span = Span::default();
    Leaf::Punct(Punct {
        char,
        spacing,
        span,
    })
}

// The leaf that a character stands for: `.` is a quote that is `Alone`, `r` is a raw name, `?` a
// name that cannot be spelled, and `"` a string with a quote in it. Every other punct is `Joint`.
fn leaf_for(alloc: Global, char: char) -> Result<Leaf, TtFault> {
    match char {
        '.' => Ok(mark('\'', Spacing::Alone)),
        'a' => name(alloc, "a", IdentIsRaw::No),
        'r' => name(alloc, "r", IdentIsRaw::Yes),
        '?' => name(alloc, "a b", IdentIsRaw::No),
        '$' => name(alloc, "$crate", IdentIsRaw::No),
        '"' => {
            let text = Literal::new_no_suffix(alloc, "a\"b", Span::default(), LitKind::Str)?;
            Ok(Leaf::Literal(text))
        }
        _ => Ok(mark(char, Spacing::Joint)),
    }
}

// Appends what a character stands for, where `<` and `>` are the ends of an invisible group.
fn add(alloc: Global, builder: &mut TopSubtreeBuilder, char: char) -> Result<(), TtFault> {
    let kind = match char {
        '(' => DelimiterKind::Parenthesis,
        '<' => DelimiterKind::Invisible,
        ')' | '>' => return builder.close(Span::default()),
        _ => return builder.push(leaf_for(alloc, char)?),
    };
    builder.open(kind, Span::default())
}

// The tree of what the characters stand for.
fn tree_of(alloc: Global, text: &str) -> Result<TopSubtree, TtFault> {
    let top = Delimiter::invisible_spanned(Span::default());
    let mut builder = TopSubtreeBuilder::new(alloc, top)?;
    for char in text.chars() {
        add(alloc, &mut builder, char)?;
    }
    match builder.build() {
        Ok(tree) => Ok(tree),
        Err((_, fault)) => Err(fault),
    }
}

// Appends the trees. A refused call leaves the printer as it was, so it is made once more.
fn put(printer: &mut Printer, trees: TokenTreesView<'_>) -> Result<(), TtFault> {
    match printer.put(trees) {
        Err(TtFault::Memory) => printer.put(trees),
        answer => answer,
    }
}

// What is printed if each tree of the list is appended by itself. A refused call is made once
// more.
fn one_by_one(alloc: Global, trees: TokenTreesView<'_>) -> Result<Printed, TtFault> {
    let mut printer = Printer::new(alloc);
    let mut rest = trees.iter();
    for _ in 0..trees.len() {
        let Some(first) = rest.next_as_view() else {
            break;
        };
        put(&mut printer, first)?;
    }
    finished_again(printer)
}

fn finished(printer: Printer) -> Result<Printed, TtFault> {
    match printer.finish() {
        Ok(printed) => Ok(printed),
        Err((_, fault)) => Err(fault),
    }
}

// The same. A refused call gives the printer back, so it is made once more.
fn finished_again(printer: Printer) -> Result<Printed, TtFault> {
    match printer.finish() {
        Ok(printed) => Ok(printed),
        Err((printer, _)) => finished(printer),
    }
}

// What the first trees of the list print, each appended by itself.
fn front(alloc: Global, trees: TokenTreesView<'_>, count: usize) -> Result<Printed, TtFault> {
    let mut printer = Printer::new(alloc);
    let mut rest = trees.iter();
    for _ in 0..count {
        if let Some(first) = rest.next_as_view() {
            printer.put(first)?;
        }
    }
    finished(printer)
}

fn are_equal(a: &Printed, b: &Printed) -> bool {
    a.text.as_str() == b.text.as_str()
        && a.tokens.as_slice() == b.tokens.as_slice()
        && a.left_out.as_slice() == b.left_out.as_slice()
}

// Whether the printer prints what the first trees print on another one.
fn is_front(
    alloc: Global,
    printer: Printer,
    trees: TokenTreesView<'_>,
    count: usize,
) -> Result<bool, TtFault> {
    Ok(are_equal(&finished(printer)?, &front(alloc, trees, count)?))
}

// Whether a printer is as if a refused call had not been made. If none is refused, all are made.
fn is_kept(alloc: Global, trees: TokenTreesView<'_>) -> Result<bool, TtFault> {
    let mut printer = Printer::new(alloc);
    let mut rest = trees.iter();
    for count in 0..trees.len() {
        let Some(first) = rest.next_as_view() else {
            return is_front(alloc, printer, trees, count);
        };
        if printer.put(first).is_err() {
            return is_front(alloc, printer, trees, count);
        }
    }
    is_front(alloc, printer, trees, trees.len())
}

// The event that a character stands for: this leaf if it is no bracket.
fn step_for(char: char, leaf: &Leaf) -> TokenEvent<'_> {
    let span = Span::default();
    match char {
        '(' => TokenEvent::Opens(DelimiterKind::Parenthesis, span),
        '<' => TokenEvent::Opens(DelimiterKind::Invisible, span),
        ')' => TokenEvent::Closes(DelimiterKind::Parenthesis, span),
        '>' => TokenEvent::Closes(DelimiterKind::Invisible, span),
        _ => TokenEvent::Leaf(leaf.lent()),
    }
}

// What is printed if each event is appended by itself. A refused call is made once more.
fn step_by_step(alloc: Global, text: &str) -> Result<Printed, TtFault> {
    let mut printer = Printer::new(alloc);
    for char in text.chars() {
        let leaf = leaf_for(alloc, char)?;
        let step = step_for(char, &leaf);
        if printer.put_event(&step).is_err() {
            printer.put_event(&step)?;
        }
    }
    finished(printer)
}

// Characters, and what the trees that they stand for print, with the number of tokens and the
// numbers of the omitted ones.
const TREES: [(&str, &str); 15] = [
    ("'a", "'a\n2 []"),
    ("'r", "r#r\n1 [0]"),
    ("'<a>", "'a\n2 []"),
    ("'(a)", "( a )\n3 [0]"),
    ("''a.", "'a\n2 [0, 3]"),
    (".", "0 [0]"),
    ("?\"a", "a\n1 [0, 1]"),
    ("$::a", "crate :: a\n4 []"),
    ("//", "/ /\n2 []"),
    ("##a", "## a\n3 []"),
    ("/*##", "/ *##\n4 []"),
    ("a<+>=", "a +=\n3 []"),
    ("<<>>", "0 []"),
    ("a?a'", "a a\n2 [1, 3]"),
    ("\\a", "a\n1 [0]"),
];

fn expect_whole(alloc: Global, trees: TokenTreesView<'_>, want: &str) -> Result<(), Fail> {
    expect(alloc, &print(alloc, trees)?, want)
}

fn expect_parts(alloc: Global, trees: TokenTreesView<'_>, want: &str) -> Result<(), Fail> {
    expect(alloc, &one_by_one(alloc, trees)?, want)
}

// Prints a tree as a whole, in parts and in steps.
fn expect_thrice(alloc: Global, text: &str, want: &str) -> Result<(), Fail> {
    let tree = tree_of(alloc, text)?;
    expect_whole(alloc, tree.token_trees(), want)?;
    expect_parts(alloc, tree.token_trees(), want)?;
    expect(alloc, &step_by_step(alloc, text)?, want)
}

#[test]
fn prints_trees(rt: HostRuntime) -> Result<(), Fail> {
    for (text, want) in &TREES {
        expect_thrice(rt.alloc(), text, want)?;
    }
    Ok(())
}

// The tree of what the characters stand for. A refused call is made once more.
fn made(alloc: Global, text: &str) -> Result<TopSubtree, TtFault> {
    match tree_of(alloc, text) {
        Err(TtFault::Memory) => tree_of(alloc, text),
        answer => answer,
    }
}

// The printed form of trees. A refused call is made once more.
fn printed_whole(alloc: Global, trees: TokenTreesView<'_>) -> Result<Printed, TtFault> {
    match print(alloc, trees) {
        Err(TtFault::Memory) => print(alloc, trees),
        answer => answer,
    }
}

// Whether this text and seven tokens are printed, with the tokens 3 and 8 omitted.
fn is_printed(printed: &Printed, text: &str) -> bool {
    printed.text.as_str() == text
        && printed.tokens.len() == 7
        && printed.left_out.as_slice() == [3, 8].as_slice()
}

// For runs in which one request for memory is refused.
fn prints_in_both_ways(alloc: Global) -> Result<bool, TtFault> {
    let tree = made(alloc, "'<a>(?$)//'")?;
    let want = "'a ( crate ) / /\n";
    let is_whole = is_printed(&printed_whole(alloc, tree.token_trees())?, want);
    Ok(is_whole && is_printed(&one_by_one(alloc, tree.token_trees())?, want))
}

// Whether a printer of a longer text is kept. What it is compared with is made once more if it is
// refused.
fn is_kept_long(alloc: Global) -> Result<bool, TtFault> {
    let tree = made(alloc, "'<a>(?$)//'a?aaaaaaaaaaaaaaaa")?;
    match is_kept(alloc, tree.token_trees()) {
        Err(TtFault::Memory) => is_kept(alloc, tree.token_trees()),
        answer => answer,
    }
}

#[test]
fn refused_calls(rt: HostRuntime) -> Result<(), Fail> {
    assert!(rt; prints_in_both_ways(rt.alloc())? && is_kept_long(rt.alloc())?);
    Ok(())
}
