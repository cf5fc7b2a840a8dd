//! Styles of calls, and sets of them.
use bitflags::Flags;
use mbe_rules::{MacroCallStyle, MacroCallStyles};
use std::hash::{DefaultHasher, Hash, Hasher};
use std::test::Fail;

fn hash_of(styles: MacroCallStyles) -> u64 {
    let mut state = DefaultHasher::new();
    styles.hash(&mut state);
    state.finish()
}

#[test]
fn are_sets(rt: HostRuntime) -> Result<(), Fail> {
    let attr = MacroCallStyles::from(MacroCallStyle::Attr);
    let both = attr.union(MacroCallStyles::from(MacroCallStyle::Derive));
    assert!(rt; attr == MacroCallStyles::ATTR && both.bits() == 6);
    assert!(rt; both.contains(MacroCallStyles::DERIVE) && !both.contains(MacroCallStyles::FN_LIKE));
    assert!(rt;
        both.union(MacroCallStyles::from(MacroCallStyle::FnLike))
            .is_all()
    );
    assert!(rt; MacroCallStyles::from_name("DERIVE") == Some(MacroCallStyles::DERIVE));
    assert!(rt; MacroCallStyles::from_bits(8).is_none() && MacroCallStyles::empty().is_empty());
    assert!(rt; hash_of(attr) != hash_of(both));
    let told = format!(in rt.alloc(); "{:?} {both:?}", MacroCallStyle::FnLike)?;
    assert!(rt; told.as_str().starts_with("FnLike MacroCallStyles"));
    Ok(())
}
