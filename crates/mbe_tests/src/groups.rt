//! Arguments that no text gives, or that are deeply nested.
use crate::texts::{Answer, call_site, defined, given, told, tree};
use mbe::{DeclarativeMacro, DelimiterKind, MacroCallStyle};
use small_grammar::SmallGrammar;
use std::alloc::{AllocError, Global};
use std::test::Fail;
use tt::{Delimiter, Edition, Ident, Leaf, TopSubtree, TopSubtreeBuilder};

// The name `a` in an invisible group.
fn hidden_name(alloc: Global) -> Result<TopSubtree, Fail> {
    let mut builder = TopSubtreeBuilder::new(alloc, Delimiter::invisible_spanned(call_site()))?;
    builder.open(DelimiterKind::Invisible, call_site())?;
    builder.push(Leaf::from(Ident::new(alloc, "a", call_site())?))?;
    builder.close(call_site())?;
    match builder.build() {
        Ok(tree) => Ok(tree),
        Err(_) => Err(Fail::new("a group is open")),
    }
}

// What a rule for any token gives for that name.
fn hidden_told(alloc: Global) -> Result<String, Fail> {
    let rules = defined(
        alloc,
        "(a) => {1}; ($t:tt) => { $t $t }",
        Edition::Edition2024,
    )?;
    told(alloc, &SmallGrammar, &rules, &hidden_name(alloc)?)
}

#[test]
fn invisible(rt: HostRuntime) -> Result<(), Fail> {
    assert!(rt; hidden_told(rt.alloc())?.as_str() == "1 a a⏎");
    Ok(())
}

const DEPTH: usize = 20_000;

// A text inside many groups.
fn nested(alloc: Global, text: &str) -> Result<String, AllocError> {
    let begun = "(".repeat(alloc, DEPTH)?;
    let ended = ")".repeat(alloc, DEPTH)?;
    format!(in alloc; "{begun}{text}{ended}")
}

// A rule for nested groups.
fn deep_rule(alloc: Global) -> Result<String, AllocError> {
    let pattern = nested(alloc, "$x:tt")?;
    let template = nested(alloc, "$x")?;
    format!(in alloc; "({pattern}) => {{{template}}}")
}

// The index of the rule that fits, if one does, and how many tokens it gives.
fn counted(answer: &Answer) -> (Option<u32>, usize) {
    let (tree, rule) = &answer.value;
    let rule = if answer.err.is_some() { None } else { *rule };
    (rule, tree.token_trees().len())
}

// The same for a text inside these groups.
fn given_deep(
    alloc: Global,
    found: &DeclarativeMacro,
    text: &str,
) -> Result<(Option<u32>, usize), Fail> {
    let argument = tree(alloc, &nested(alloc, text)?)?;
    let style = MacroCallStyle::FnLike;
    Ok(counted(&given(alloc, &SmallGrammar, found, &argument, style)?))
}

#[test]
fn nested_deep(rt: HostRuntime) -> Result<(), Fail> {
    let rules = defined(rt.alloc(), &deep_rule(rt.alloc())?, Edition::Edition2024)?;
    assert!(rt; given_deep(rt.alloc(), &rules, "a")? == (Some(0), DEPTH + 1));
    let (rule, len) = given_deep(rt.alloc(), &rules, "a b")?;
    assert!(rt; rule.is_none() && len >= DEPTH);
    Ok(())
}
