//! Walks through crates.
use crate::listed::{Entry, Listed, file, link};
use crate::told::walk_told;
use cfg_options::CfgOptions;
use crate_walk::{Content, Modules, Unread, textual_picks, walk_crate};
use std::alloc::{AllocError, Global};
use std::test::Fail;

// The steps of the walk through these files from a root.
fn walked(alloc: Global, root: &str, most: usize, entries: &[Entry<'_>]) -> Result<String, Fail> {
    let options = CfgOptions::new(alloc);
    let files = Listed {
        entries,
        options: &options,
    };
    match walk_crate(alloc, &files, root, most)? {
        Some(modules) => Ok(walk_told(alloc, &modules)?),
        None => Ok(String::from_str(alloc, "no root")?),
    }
}

#[test]
fn no_root(rt: HostRuntime) -> Result<(), Fail> {
    let told = walked(rt.alloc(), "src/lib.rs", 9, &[file("src/main.rs", "")])?;
    assert_eq!(rt; told.as_str(), "no root");
    Ok(())
}

#[test]
fn files_and_folders(rt: HostRuntime) -> Result<(), Fail> {
    let told = walked(
        rt.alloc(),
        "src/lib.rs",
        9,
        &[
            file("src/lib.rs", "mod a; macro_rules! m { () => {} } mod b;"),
            file("src/a.rs", "mod c;"),
            file("src/a/c.rs", "use super::x;"),
            file("src/b/mod.rs", "mod d;"),
            file("src/b/d.rs", ""),
        ],
    )?;
    assert_eq!(rt;
        told.as_str(),
        "mod a in src/a.rs {\nmod c in src/a/c.rs {\nuse super::x as x\n}\n}\nmacro_rules m\n\
         mod b in src/b/mod.rs {\nmod d in src/b/d.rs {\n}\n}\n}\n",
    );
    Ok(())
}

#[test]
fn paths(rt: HostRuntime) -> Result<(), Fail> {
    let told = walked(
        rt.alloc(),
        "src/lib.rs",
        9,
        &[
            file(
                "src/lib.rs",
                "mod a; #[path = \"t\"] mod t { #[path = \"l.rs\"] mod l; }",
            ),
            file(
                "src/a.rs",
                "#[path = \"o.rs\"] mod o; mod i { #[path = \"o.rs\"] mod o; mod p; }",
            ),
            file("src/o.rs", "mod n;"),
            file("src/n.rs", ""),
            file("src/a/i/o.rs", ""),
            file("src/a/i/p.rs", ""),
            file("src/t/l.rs", ""),
        ],
    )?;
    assert_eq!(rt;
        told.as_str(),
        "mod a in src/a.rs {\nmod o by o.rs in src/o.rs {\nmod n in src/n.rs {\n}\n}\n\
         mod i of 2 {\nmod o by o.rs in src/a/i/o.rs {\n}\nmod p in src/a/i/p.rs {\n}\n}\n}\n\
         mod t by t of 1 {\nmod l by l.rs in src/t/l.rs {\n}\n}\n}\n",
    );
    Ok(())
}

#[test]
fn lacks(rt: HostRuntime) -> Result<(), Fail> {
    let told = walked(
        rt.alloc(),
        "lib.rs",
        9,
        &[
            file(
                "lib.rs",
                "mod a; mod b; #[path = \"lib.rs\"] mod c; mod d; mod e;",
            ),
            file("b.rs", ""),
            file("b/mod.rs", ""),
            file("d.rs", ")"),
            link("e.rs", "lib.rs"),
        ],
    )?;
    assert_eq!(rt;
        told.as_str(),
        "mod a missing\nmod b twice\nmod c by lib.rs in itself, 0\nmod d unread, 1\n\
         mod e in itself, 0\n}\n",
    );
    Ok(())
}

#[test]
fn a_file_of_two_modules_is_entered_twice(rt: HostRuntime) -> Result<(), Fail> {
    let told = walked(
        rt.alloc(),
        "lib.rs",
        9,
        &[
            file(
                "lib.rs",
                "#[path = \"x.rs\"] mod a; #[path = \"x.rs\"] mod b;",
            ),
            file("x.rs", "mod c;"),
            file("c.rs", ""),
        ],
    )?;
    assert_eq!(rt;
        told.as_str(),
        "mod a by x.rs in x.rs {\nmod c in c.rs {\n}\n}\nmod b by x.rs in x.rs {\n\
         mod c in c.rs {\n}\n}\n}\n",
    );
    Ok(())
}

#[test]
fn too_many(rt: HostRuntime) -> Result<(), Fail> {
    let told = walked(
        rt.alloc(),
        "lib.rs",
        1,
        &[
            file("lib.rs", "mod a; mod b; mod c {}"),
            file("a.rs", ""),
            file("b.rs", ""),
        ],
    )?;
    assert_eq!(rt;
        told.as_str(),
        "mod a in a.rs {\n}\nmod b too many\nmod c of 0 {\n}\n}\n",
    );
    Ok(())
}

// The steps of a walk through two files, and how many definitions of others each sees.
fn two_files(alloc: Global) -> Result<String, AllocError> {
    let options = CfgOptions::new(alloc);
    let entries = [
        file("lib.rs", "macro_rules! m { () => {} } mod a; use b::c;"),
        file("a.rs", "mod d { mod e; }"),
    ];
    let files = Listed {
        entries: &entries,
        options: &options,
    };
    let Some(modules) = walk_crate(alloc, &files, "lib.rs", 9)? else {
        return String::from_str(alloc, "no root");
    };
    let mut told = walk_told(alloc, &modules)?;
    for picks in &textual_picks(alloc, &modules)? {
        let count = picks.places.len();
        told.push_str(format!(in alloc; "{count} ")?.as_str())?;
    }
    Ok(told)
}

// A walk that is refused memory gives the same when it is made again.
#[test]
fn refused_walks(rt: HostRuntime) -> Result<(), Fail> {
    let told = match two_files(rt.alloc()) {
        Ok(told) => told,
        Err(_) => two_files(rt.alloc())?,
    };
    assert_eq!(rt;
        told.as_str(),
        "macro_rules m\nmod a in a.rs {\nmod d of 1 {\nmod e missing\n}\n}\nuse b::c as c\n}\n1 0 ",
    );
    Ok(())
}

// How many events a file has.
fn event_count(modules: &Modules, file: usize) -> usize {
    match modules.content(file) {
        Some(content) => content.events().len(),
        None => 0,
    }
}

// Another content stands in place of what was read; past the last file nothing changes.
#[test]
fn another_content(rt: HostRuntime) -> Result<(), Fail> {
    let options = CfgOptions::new(rt.alloc());
    let files = Listed {
        entries: &[file("lib.rs", "macro_rules! m { () => {} }")],
        options: &options,
    };
    let Some(mut modules) = walk_crate(rt.alloc(), &files, "lib.rs", 9)? else {
        return Err(Fail::new("no root"));
    };
    let steps = modules.steps().len();
    modules.set_content(1, Content::Unread(Unread::Failed));
    assert_eq!(rt; event_count(&modules, 0), 1);
    modules.set_content(0, Content::Unread(Unread::Failed));
    assert_eq!(rt; event_count(&modules, 0), 0);
    assert_eq!(rt; modules.steps().len(), steps);
    Ok(())
}
