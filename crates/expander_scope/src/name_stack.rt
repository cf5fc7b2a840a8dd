//! Values by name, of which the nearest counts: a stack with undo.
ghost use Rattle.std.specs.Prelude.{◌≡◌, ℕ, List, reverse};
ghost use Rattle.std.specs.HashMap.{get};
ghost use Rattle.small_grammar.specs.Text.{same_text};
ghost use Rattle.expander_scope.specs.StackEntries.{KnowHidden, index_among};

use std::alloc::{AllocError, Global};
use std::collections::HashMap;
use tt_data::Symbol;

/// A name with its value.
#[derive(Drop)]
struct Entry<T> {
    name: Symbol,
    value: T,
    /// The index of the entry that this one hides.
    shadowed: Option<usize>,
}

/// Values by name, pushed one after another: a name resolves to the value pushed last for it.
#[derive(Drop)]
pub(crate) struct NameStack<T> {
    entries: Vec<Entry<T>>,
    /// The index of the entry that each name resolves to.
    nearest: HashMap<Symbol, usize>,
    ghost hidden: { KnowHidden (reverse entries.items) },
    ghost in_order: { (name : List ℕ) → get same_text nearest name
        ≡ index_among (reverse entries.items) name },
}

impl<T> NameStack<T> {
    ghost use Rattle.std.specs.Prelude.{[], ◌↔◌, IsTrue, find, length, option_map};
    ghost use Rattle.std.specs.Option.{option_copied};
    ghost use Rattle.expander_scope.specs.NameStacks.{entries_of};

    /// The stack without entries.
    pub fn new(alloc: Global) -> Self
        ensures { entries_of result ≡ [] }
    {
        NameStack {
            entries: Vec::new(alloc),
            nearest: HashMap::new(alloc),
        }
    }

    /// How many entries there are.
    pub fn len(&self) -> usize
        ensures { result ≡ length (entries_of self.now) }
    {
        self.entries.len()
    }

    /// The value that the name resolves to, by one look-up.
    pub fn find(&self, name: &Symbol) -> Option<&T>
        ensures { option_copied result
            ≡ option_map (λ e. e.1) (find (λ e. same_text e.0 name.now) (entries_of self.now)) }
    {
        let index = *self.nearest.get(name)?;
        Some(&self.entries[index].value)
    }

    /// Whether there is no entry.
    pub fn is_empty(&self) -> bool
        ensures { IsTrue result ↔ (entries_of self.now ≡ []) }
    {
        self.entries.is_empty()
    }
}

impl<T: Drop> NameStack<T> {
    ghost use Rattle.std.specs.Prelude.{◌∷◌, [], ◌++◌, ◌≤◌, OnErr, OnOk, drop, length};
    ghost use Rattle.expander_scope.specs.NameStacks.{entries_of};

    /// The name resolves to this value from now on. If memory is refused, nothing changes.
    pub fn push(&mut self, name: Symbol, value: T) -> Result<(), AllocError>
        ensures ok { OnOk result (entries_of self.new ≡ (name, value) ∷ entries_of self.old) }
        ensures err { OnErr result (entries_of self.new ≡ entries_of self.old) }
    {
        self.entries.reserve(1)?;
        let index = self.entries.len();
        let shadowed = self.nearest.insert(name.clone()?, index)?;
        let Ok(()) = self.entries.push(Entry {
            name,
            value,
            shadowed,
        })
        else {
            unreachable!()
        };
        Ok(())
    }

    /// Pops entries until there are at most `len`. The name of a popped entry resolves to what
    /// that entry hid.
    pub fn cut_back(&mut self, len: usize)
        ensures split { (front back : List (List ℕ × T)) → entries_of self.old ≡ front ++ back →
            length back ≡ len → entries_of self.new ≡ back }
        ensures short { length (entries_of self.old) ≤ len →
            entries_of self.new ≡ entries_of self.old }
    {
        for _ in len..self.entries.len() {
            self.pop();
        }
    }

    // Pops the last entry, if there is one. Its name resolves to what the entry hid.
    fn pop(&mut self)
        ensures { entries_of self.new ≡ drop 1 (entries_of self.old) }
    {
        let Some(entry) = self.entries.pop() else {
            return;
        };
        match entry.shadowed {
            Some(index) => {
                let Ok(_) = self.nearest.insert(entry.name, index) else {
                    unreachable!()
                };
            }
            None => {
                self.nearest.remove(&entry.name);
            }
        }
    }
}
