//! Calls that are items of a text, and a text in which they are opened.
use cfg_options::CfgOptions;
use crate_items::{Outline, extents_of, open_calls};
use std::test::Fail;
use tt_data::TextRange;

#[test]
fn calls_are_opened(rt: HostRuntime) -> Result<(), Fail> {
    let alloc = rt.alloc();
    let text = "m! {\n mod a; }\n#[x] mod b;";
    let Some(extents) = extents_of(alloc, &CfgOptions::new(alloc), text)? else {
        return Err(Fail::new("the text can be read"));
    };
    let call = TextRange { start: 0, end: 14 };
    assert_eq!(rt; extents.calls.as_slice(), [call].as_slice());
    let outline = Outline {
        name: 24,
        range: TextRange { start: 15, end: 26 },
    };
    assert_eq!(rt; extents.outlines.as_slice(), [outline].as_slice());
    let kept = [TextRange { start: 6, end: 12 }];
    let out = open_calls(alloc, text.as_bytes(), extents.calls.as_slice(), &kept)?;
    assert_eq!(rt; out.as_slice(), b"    \n mod a;  \n#[x] mod b;".as_slice());
    Ok(())
}

#[test]
fn other_texts_have_no_extents(rt: HostRuntime) -> Result<(), Fail> {
    let alloc = rt.alloc();
    let none = extents_of(alloc, &CfgOptions::new(alloc), "mod a; (]")?;
    assert!(rt; none.is_none());
    Ok(())
}
