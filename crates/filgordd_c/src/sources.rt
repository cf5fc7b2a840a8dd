//! Texts that a session may have definitions from beside its own text.
ghost use Rattle.std.specs.Prelude.{◌≡◌, ◌<◌, ◌≤◌, ◌++◌, [], Some, IfOk, IfErr, OnOk, OnErr};
ghost use Rattle.std.specs.Prelude.{flat_map, length};
ghost use Rattle.expander_sources.specs.Sources.{item_at};
ghost use Rattle.filgordd_c.specs.declared.code.Code.TheVariants.{Done};
ghost use Rattle.filgordd_c.specs.Sources.{IsWhyNot, behind_root, fault_code, index_code, index_of};
ghost use Rattle.filgordd_c.specs.Sources.{open_pick, picked_by, picks_code, prelude_of};
ghost use Rattle.filgordd_c.specs.Sources.{with_source};

use crate::code::Code;
use expander::{Prelude, Source};
use std::alloc::{AllocError, Global};
use std::marker::Model;
use tt_data::TtFault;

/// A definition of a source: the source's number, and the index. An index of `u32::MAX` stands for
/// all definitions of the source that are in no inline module and not built into the compiler.
#[repr(C)]
#[derive(Clone, Copy, Debug, PartialEq, Eq)]
pub struct Pick {
    pub source: u32,
    pub index: u32,
}

/// Sources, at most one of each number.
#[derive(Drop)]
pub struct Sources {
    items: Vec<Source>,
}

impl Model for Sources {
    ghost use Rattle.std.specs.Prelude.{List};
    ghost use Rattle.std.specs.Coded.{coded_list};
    ghost use Rattle.expander_sources.specs.Sources.{Source, source_code};

    ghost Value = { List Source };

    ghost coded = { coded_list source_code };

    ghost view = { λ s. s.items.items };
}

// The code of a fault.
fn fault_code(fault: TtFault) -> Code
    ensures { result ≡ fault_code fault }
{
    match fault {
        TtFault::Tokens => Code::Tokens,
        _ => Code::Memory,
    }
}

// Adds the definition of this index of a source, if it is in no inline module and not built into
// the compiler.
fn push_open(alloc: Global, prelude: &mut Prelude, source: &Source, i: usize) -> Result<(), TtFault>
    requires { i < length source.now.items }
    ensures { OnOk result (prelude.new
        ≡ prelude.old ++ open_pick source.now.home (item_at source.now.items i)) }
{
    if source.modules(i).is_empty() && !source.has_attribute(i, "rustc_builtin_macro") {
        prelude.push(alloc, source, i)?;
    }
    Ok(())
}

// Adds all such definitions of a source.
fn push_all(alloc: Global, prelude: &mut Prelude, source: &Source) -> Result<(), TtFault>
    ensures { OnOk result (prelude.new
        ≡ prelude.old ++ flat_map (open_pick source.now.home) source.now.items) }
{
    for i in 0..source.len() {
        push_open(alloc, prelude, source, i)?;
    }
    Ok(())
}

// Adds the definitions of a source of another crate, behind its root.
fn push_behind(alloc: Global, prelude: &mut Prelude, source: &Source) -> Result<(), TtFault>
    ensures { OnOk result (prelude.new ≡ prelude.old ++ behind_root source.now) }
{
    match source.home() {
        Some(home) => prelude.push_rooted(alloc, source, home),
        None => Ok(()),
    }
}

// Adds the definition of this index of a source, or all of them.
fn push_picked(
    alloc: Global,
    prelude: &mut Prelude,
    source: &Source,
    index: u32,
) -> Result<(), Code>
    ensures ok { OnOk result ((index_code (Some source.now) index ≡ Done)
        × (prelude.new ≡ prelude.old ++ picked_by (Some source.now) index)) }
    ensures err { IfErr result (IsWhyNot (index_code (Some source.now) index)) }
{
    let pushed = if index == u32::MAX {
        push_all(alloc, prelude, source)
    } else if (index as usize) < source.len() {
        prelude.push(alloc, source, index as usize)
    } else {
        return Err(Code::Index);
    };
    match pushed {
        Ok(()) => Ok(()),
        Err(fault) => Err(fault_code(fault)),
    }
}

impl Sources {
    ghost use Rattle.filgordd_c.specs.Sources.{pick_code, pieces_of};

    /// No sources.
    pub(crate) fn new(alloc: Global) -> Sources
        ensures { result ≡ [] }
    {
        Sources {
            items: Vec::new(alloc),
        }
    }

    // The index of the source of this number: that behind all if there is none.
    fn index_of(&self, number: u32) -> usize
        ensures { result ≡ index_of number self.now }
    {
        let mut i = 0;
        while i < self.items.len() && self.items[i].number() != number {
            i += 1;
        }
        i
    }

    /// Adds a source, in the place of the one of its number if there is one.
    pub(crate) fn put(&mut self, source: Source) -> Result<(), AllocError>
        ensures ok { OnOk result (self.new ≡ with_source source self.old) }
        ensures err { OnErr result (self.new ≡ self.old) }
    {
        let i = self.index_of(source.number());
        if i < self.items.len() {
            self.items[i] = source;
            Ok(())
        } else {
            self.items.push(source)?;
            Ok(())
        }
    }

    // Adds what this pick stands for.
    fn push_pick(&self, alloc: Global, prelude: &mut Prelude, pick: Pick) -> Result<(), Code>
        ensures ok { OnOk result ((pick_code self.now pick ≡ Done)
            × (prelude.new ≡ prelude.old ++ pieces_of self.now pick)) }
        ensures err { IfErr result (IsWhyNot (pick_code self.now pick)) }
    {
        match self.items.get(self.index_of(pick.source)) {
            Some(source) => push_picked(alloc, prelude, source, pick.index),
            None => Err(Code::Source),
        }
    }

    // All definitions of sources of other crates, behind their roots.
    fn behind_roots(&self, alloc: Global) -> Result<Prelude, TtFault>
        ensures { IfOk result (λ prelude. prelude ≡ flat_map behind_root self.now) }
    {
        let mut prelude = Prelude::new(alloc);
        for source in &self.items {
            push_behind(alloc, &mut prelude, source)?;
        }
        Ok(prelude)
    }

    /// What these picks stand for, in order, behind all definitions of sources of other crates,
    /// which are seen behind their roots.
    pub(crate) fn prelude(&self, alloc: Global, picks: &[Pick]) -> Result<Prelude, Code>
        ensures prelude { IfOk result (λ prelude. (picks_code self.now picks.now ≡ Done)
            × (prelude ≡ prelude_of self.now picks.now)) }
        ensures why { IfErr result (IsWhyNot (picks_code self.now picks.now)) }
    {
        let mut prelude = match self.behind_roots(alloc) {
            Ok(prelude) => prelude,
            Err(fault) => return Err(fault_code(fault)),
        };
        for pick in picks {
            self.push_pick(alloc, &mut prelude, *pick)?;
        }
        Ok(prelude)
    }
}
