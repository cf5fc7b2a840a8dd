//! What a text declares.
use crate::told::content_told;
use cfg_options::CfgOptions;
use crate_items::{content_of, content_of_bytes};
use std::alloc::Global;
use std::test::Fail;

// The options `unix` and `feature="std"`.
fn options(alloc: Global) -> Result<CfgOptions, Fail> {
    let mut options = CfgOptions::new(alloc);
    for word in ["unix", "feature=\"std\""] {
        if options.push(word).is_err() {
            return Err(Fail::new("no option"));
        }
    }
    Ok(options)
}

// What a text declares.
fn items(alloc: Global, text: &str) -> Result<String, Fail> {
    let options = options(alloc)?;
    let content = content_of(alloc, &options, String::from_str(alloc, text)?)?;
    Ok(content_told(alloc, &content)?)
}

#[test]
fn modules(rt: HostRuntime) -> Result<(), Fail> {
    let told = items(
        rt.alloc(),
        "mod a; #[macro_use] pub(crate) mod b; #[path = \"x/y.rs\"] mod r#c; mod d {} fn \
         f() { mod e; }",
    )?;
    assert_eq!(rt;
        told.as_str(),
        "mod a\nmod b kept\nmod c by x/y.rs\nmod d of 0\n"
    );
    Ok(())
}

#[test]
fn inline_modules(rt: HostRuntime) -> Result<(), Fail> {
    let told = items(
        rt.alloc(),
        "mod a { mod b { mod c; } macro_rules! m { () => {} } } mod d;",
    )?;
    assert_eq!(rt;
        told.as_str(),
        "mod a of 3\nmod b of 1\nmod c\nmacro_rules m\nmod d\n"
    );
    Ok(())
}

// rustc 1.95 reads each so.
#[test]
fn attributes_under_conditions(rt: HostRuntime) -> Result<(), Fail> {
    let told = items(
        rt.alloc(),
        "#[cfg_attr(unix, path = \"u.rs\")] #[cfg_attr(not(unix), path = \"o.rs\")] mod a;
         #[cfg_attr(windows, path = \"w.rs\", macro_use)] mod b;
         #[cfg_attr(unix, allow(x), cfg_attr(feature = \"std\", path = \"s.rs\"), macro_use)] mod c;",
    )?;
    assert_eq!(rt; told.as_str(), "mod a by u.rs\nmod b\nmod c by s.rs kept\n");
    Ok(())
}

#[test]
fn inner_attributes(rt: HostRuntime) -> Result<(), Fail> {
    let told = items(
        rt.alloc(),
        "#![allow(x)] #![macro_use] mod a { #![cfg_attr(unix, macro_use)] } #![macro_uses] mod b;",
    )?;
    assert_eq!(rt; told.as_str(), "macro_use\nmod a of 1\nmacro_use\nmod b\n");
    Ok(())
}

#[test]
fn conditions(rt: HostRuntime) -> Result<(), Fail> {
    let told = items(
        rt.alloc(),
        "#[cfg(windows)] mod a; #[cfg(unix)] mod b; #[cfg(not(unix))] mod c { mod d; }
         #[cfg_attr(unix, cfg(feature = \"std\"))] mod e; #[cfg(any())] macro_rules! m { () => {} }",
    )?;
    assert_eq!(rt; told.as_str(), "mod b\nmod e\n");
    Ok(())
}

#[test]
fn definitions(rt: HostRuntime) -> Result<(), Fail> {
    let told = items(
        rt.alloc(),
        "/// A.\n#[macro_export] macro_rules! a { () => {} } macro_rules! b(() => {}); \
         pub macro c() {}",
    )?;
    assert_eq!(rt;
        told.as_str(),
        "exported macro_rules a\nmacro_rules b\nmacro c\n"
    );
    Ok(())
}

#[test]
fn other_crates(rt: HostRuntime) -> Result<(), Fail> {
    let told = items(
        rt.alloc(),
        "extern crate a; #[macro_use(x, y)] extern crate b; pub extern crate c as d; \
         extern \"C\" {}",
    )?;
    assert_eq!(rt; told.as_str(), "crate a\ncrate b kept\ncrate c as d\n");
    Ok(())
}

#[test]
fn uses(rt: HostRuntime) -> Result<(), Fail> {
    let told = items(
        rt.alloc(),
        "use a; use a::b; use ::a::b as c; pub use self::m; use a::{self, b::{c as d, e}, \
         f::*,}; use a::T as _;",
    )?;
    assert_eq!(rt;
        told.as_str(),
        "use a as a\nuse a::b as b\nuse ::a::b as c\npub use self::m as m\n\
         use a as a\nuse a::b::c as d\nuse a::b::e as e\nuse a::f all\n"
    );
    Ok(())
}

#[test]
fn uses_in_braces_alone(rt: HostRuntime) -> Result<(), Fail> {
    let told = items(
        rt.alloc(),
        "use {a, b::c}; pub(crate) use crate::m; use super::*; use crate::{};",
    )?;
    assert_eq!(rt;
        told.as_str(),
        "use a as a\nuse b::c as c\npub use crate::m as m\nuse super all\n"
    );
    Ok(())
}

#[test]
fn unread(rt: HostRuntime) -> Result<(), Fail> {
    let told = items(rt.alloc(), "mod a; (]")?;
    assert_eq!(rt; told.as_str(), "fault at 8");
    let options = options(rt.alloc())?;
    let bytes = Vec::from_slice(rt.alloc(), &[109, 255])?;
    let content = content_of_bytes(rt.alloc(), &options, bytes)?;
    let told = content_told(rt.alloc(), &content)?;
    assert_eq!(rt; told.as_str(), "no UTF-8");
    Ok(())
}
