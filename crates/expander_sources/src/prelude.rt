//! Preludes: definitions of other texts, which a text is expanded after.
ghost use Rattle.std.specs.Prelude.{◌≡◌, ◌<◌, ◌++◌, ◌∷◌, All, IfErr, IfOk, IfSome, IsOkUnless};
ghost use Rattle.std.specs.Prelude.{OnErr, OnOk, Some, [], filter_map, length, option_map, take};
ghost use Rattle.tt_data.specs.fault.TtFault.TheVariants as fault;
ghost use Rattle.expander_model.specs.Definitions.{Definition, definition_of};
ghost use Rattle.expander_sources.specs.Builds.{IsBuildFault};
ghost use Rattle.expander_sources.specs.Imports.{IsImport, import_piece, import_pieces};
ghost use Rattle.expander_sources.specs.Picks.{home_piece, picked, rooted_pick, rooted_picks};
ghost use Rattle.expander_sources.specs.Sources.{item_at};

use crate::home::Home;
use crate::import::Import;
use crate::items::SourceItem;
use crate::rooting::home_tree;
use crate::source::Source;
use expander_model::call::key_behind;
use expander_model::definition::{definition_of, has_attribute};
use expander_model::hashed_tree::HashedTree;
use std::alloc::{AllocError, Global};
use std::marker::Model;
use std::rc::Rc;
use tt_data::{Symbol, TtFault};

/// Definitions of other texts, in order: a later one of the same name is nearer.
#[derive(Drop)]
pub struct Prelude {
    imports: Vec<Import>,
}

impl Model for Prelude {
    ghost use Rattle.std.specs.Prelude.{All, List};
    ghost use Rattle.std.specs.Coded.{coded_list};
    ghost use Rattle.tt_data.specs.Coded.{forest_code};
    ghost use Rattle.tt_data.specs.Forest.{Forest};
    ghost use Rattle.expander_sources.specs.Imports.{IsImport, import_pieces};

    ghost Value = { List Forest };

    ghost coded = { coded_list forest_code };

    ghost view = { λ p. import_pieces p.imports.items };

    ghost invariant = { λ p. All IsImport p.imports.items };
}

// The definition of a crate of this home, looked up by this key.
fn home_import(alloc: Global, home: &Home, key: Symbol, import: &Import) -> Result<Import, TtFault>
    requires { IsImport import.now }
    ensures right { IfOk result IsImport }
    ensures piece { IfOk result (λ i. (d : Definition) → definition_of (import_piece import.now)
        ≡ Some d → import_piece i ≡ home_piece home.now key d) }
    ensures faults { IfErr result IsBuildFault }
{
    let Some(definition) = definition_of(&import.tree.as_ref().tree().iter()) else {
        unreachable!()
    };
    let tree = HashedTree::new(home_tree(alloc, home, key, &definition)?);
    let Ok(tree) = Rc::new(alloc, tree) else {
        return Err(TtFault::Memory);
    };
    Ok(Import {
        place: import.place,
        tree,
    })
}

// The same definition.
fn same_import(import: &Import) -> Result<Import, AllocError>
    requires { IsImport import.now }
    ensures right { IfOk result IsImport }
    ensures piece { IfOk result (λ i. import_piece i ≡ import_piece import.now) }
{
    Ok(Import {
        place: import.place,
        tree: import.tree.clone()?,
    })
}

// A definition of a source, seen by its name.
fn picked(alloc: Global, home: Option<&Home>, item: &SourceItem) -> Result<Import, TtFault>
    ensures right { IfOk result IsImport }
    ensures piece { IfOk result (λ i. import_piece i
        ≡ picked (option_map (λ h. h.now) home.entry) item.now.piece) }
    ensures faults { IfErr result IsBuildFault }
{
    match home {
        None => Ok(same_import(&item.import)?),
        Some(home) => home_import(alloc, home, item.name.clone()?, &item.import),
    }
}

// A definition of a source of this home, seen behind a root. `None` if the compiler has it built
// in.
fn rooted_pick(
    alloc: Global,
    root: &Home,
    home: &Home,
    item: &SourceItem,
) -> Result<Option<Import>, TtFault>
    ensures right { IfOk result (λ o. IfSome o IsImport) }
    ensures piece { IfOk result (λ o. option_map import_piece o
        ≡ rooted_pick root.now.root home.now item.now) }
    ensures faults { IfErr result IsBuildFault }
{
    let tree = item.import.tree.as_ref().tree().iter();
    if has_attribute(&tree, "rustc_builtin_macro") {
        return Ok(None);
    }
    let mark = root.mark(alloc)?;
    let key = key_behind(alloc, mark.as_str(), item.name.as_str())?;
    Ok(Some(home_import(alloc, home, key, &item.import)?))
}

/// The definitions of a prelude in order, for a session.
pub fn imports_of(prelude: &Prelude) -> &[Import]
    ensures pieces { prelude.now ≡ import_pieces result.now }
    ensures right { All IsImport result.now }
{
    prelude.imports.as_slice()
}

impl Prelude {
    ghost use Rattle.std.specs.Prelude.{◌≤◌};

    /// A prelude without a definition.
    pub fn new(alloc: Global) -> Prelude
        ensures { result ≡ [] }
    {
        Prelude {
            imports: Vec::new(alloc),
        }
    }

    /// How many definitions it has.
    pub fn len(&self) -> usize
        ensures { result ≡ length self.now }
    {
        self.imports.len()
    }

    /// The definition of this index of a source is seen by its name. It is nearer than all before
    /// it. That of another crate has the mark of its edition, and its `$crate` stands for that
    /// crate.
    ///
    /// # Errors
    ///
    /// `Memory`, or `Tokens` if it would have more than `u32::MAX` tokens. Then nothing changes.
    pub fn push(&mut self, alloc: Global, source: &Source, i: usize) -> Result<(), TtFault>
        requires { i < length source.now.items }
        ensures ok { OnOk result (self.new
            ≡ self.old ++ picked source.now.home (item_at source.now.items i).piece ∷ []) }
        ensures err { OnErr result (self.new ≡ self.old) }
        ensures faults { IfErr result IsBuildFault }
    {
        let import = picked(alloc, source.home(), source.item(i))?;
        self.add(import)?;
        Ok(())
    }

    // Adds a definition.
    fn add(&mut self, import: Import) -> Result<(), AllocError>
        requires { IsImport import }
        ensures ok { OnOk result (self.new ≡ self.old ++ import_piece import ∷ []) }
        ensures err { OnErr result (self.new ≡ self.old) }
    {
        self.imports.push(import)?;
        Ok(())
    }

    /// All definitions of a source of another crate are seen behind the root of a crate, as by the
    /// path `$crate::name` in its own definitions, but for those that the compiler has built in:
    /// they have the attribute `rustc_builtin_macro`. Their edition, and what their `$crate` stands
    /// for, are those of the source. Nothing is added for a source without a home.
    ///
    /// # Errors
    ///
    /// `Memory`, or `Tokens` if one would have more than `u32::MAX` tokens. Then nothing changes.
    pub fn push_rooted(
        &mut self,
        alloc: Global,
        source: &Source,
        root: &Home,
    ) -> Result<(), TtFault>
        ensures ok { OnOk result (self.new
            ≡ self.old ++ rooted_picks root.now.root source.now.home source.now.items) }
        ensures err { OnErr result (self.new ≡ self.old) }
        ensures faults { IfErr result IsBuildFault }
    {
        let Some(home) = source.home() else {
            return Ok(());
        };
        let before = self.imports.len();
        let pushed = self.push_picks(alloc, source.items(), root, home);
        if pushed.is_err() {
            self.imports.truncate(before);
        }
        pushed
    }

    // Adds the definitions of a source of this home that are seen behind a root. If it is refused,
    // some of them may have been added.
    fn push_picks(
        &mut self,
        alloc: Global,
        items: &[SourceItem],
        root: &Home,
        home: &Home,
    ) -> Result<(), TtFault>
        ensures ok { OnOk result (self.new
            ≡ self.old ++ filter_map (rooted_pick root.now.root home.now) items.now) }
        ensures err { OnErr result (take (length self.old) self.new ≡ self.old) }
        ensures faults { IfErr result IsBuildFault }
    {
        for item in items {
            if let Some(import) = rooted_pick(alloc, root, home, item)? {
                self.add(import)?;
            }
        }
        Ok(())
    }
}
