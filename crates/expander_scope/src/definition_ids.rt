//! Gives each definition of a text its id: that of an equal definition of this text or the last,
//! or else the next one.
ghost use Rattle.std.specs.Prelude.{◌≡◌, ◌≢◌, ℕ, ◌+◌, ◌≤◌, ◌^◌, ◌∷◌, [], ◌++◌, List, Some, Err};
ghost use Rattle.std.specs.Prelude.{IfOk, IfSome, OnOk, is_some, option_map, true};
ghost use Rattle.bridge.specs.ReadText.{text_top};
ghost use Rattle.tt_data.specs.Forest.{Forest};
ghost use Rattle.expander_scope.specs.Interning.{AllRead, IsTable, known_in, numbers_in};
ghost use Rattle.expander_model.specs.Definitions.{definition_of};
ghost use Rattle.expander_scope.specs.Editions.{IsRead};
ghost use Rattle.expander_scope.specs.Interning.{definition_tops};
ghost use Rattle.expander_scope.specs.DefinitionTexts.{HasNumbered};
ghost use Rattle.expander_scope.specs.DefinitionIds.{HaveNumbers};
ghost use Rattle.expander_scope.specs.NewNumbers.{needed};

use crate::interner::Interner;
use crate::macro_def::MacroDef;
use crate::refusal::Refusal;
use expander_model::hashed_tree::HashedTree;
use expander_model::laws;
use std::alloc::{AllocError, Global};
use std::rc::Rc;
use tt_data::Edition;

/// The definitions of a text so far, with their ids.
#[derive(Drop)]
pub struct DefinitionIds {
    /// How many ids were given, those for earlier texts included.
    pub given: u32,
    /// The definitions, in order.
    pub definitions: Vec<Rc<MacroDef>>,
    pub by_tree: Interner,
}

impl DefinitionIds {
    ghost use Rattle.std.specs.Prelude.{if◌then◌else◌};
    ghost use Rattle.tt.specs.Tops.{Top};
    ghost use Rattle.expander_scope.specs.Interning.{known_in};
    ghost use Rattle.expander_model.specs.EqualTrees.{same_top};

    // Adds a definition whose tree is in the interner already.
    fn push(&mut self, known: Rc<MacroDef>) -> Result<(), AllocError>
        ensures given { OnOk result (self.new.given ≡ self.old.given) }
        ensures definitions { OnOk result (self.new.definitions.items ≡ self.old.definitions.items
            ++ known ∷ []) }
        ensures table { OnOk result (self.new.by_tree ≡ self.old.by_tree) }
    {
        self.definitions.push(known)?;
        Ok(())
    }

    // Adds a definition, and interns its tree.
    fn put(&mut self, tree: Rc<HashedTree>, known: Rc<MacroDef>) -> Result<(), AllocError>
        ensures given { OnOk result (self.new.given ≡ self.old.given) }
        ensures definitions { OnOk result (self.new.definitions.items ≡ self.old.definitions.items
            ++ known ∷ []) }
        ensures table { OnOk result ((t : Top) → known_in self.new.by_tree t
            ≡ (if same_top tree.value t then Some known.value else known_in self.old.by_tree t)) }
    {
        self.by_tree.insert(tree, known.clone()?)?;
        self.definitions.push(known)?;
        Ok(())
    }
}

// A definition with the next id.
fn next_known(
    alloc: Global,
    edition: Edition,
    given: u32,
    tree: &Rc<HashedTree>,
) -> Result<Rc<MacroDef>, Refusal>
    requires { is_some (definition_of tree.now.value.inner) ≡ true }
    ensures number { IfOk result (λ k. k.value.number ≡ given + 1) }
    ensures tree { IfOk result (λ k. k.value.tree ≡ tree.now.value) }
    ensures read { IfOk result (λ k. IsRead edition k.value) }
    ensures numbers { result ≡ Err Refusal.Numbers → 2 ^ 32 ≤ given + 1 }
    ensures tokens { result ≢ Err Refusal.Tokens }
{
    let Some(number) = given.checked_add(1) else {
        return Err(Refusal::Numbers);
    };
    let own = tree.as_ref().tree().try_clone(alloc)?;
    let known = MacroDef::new(alloc, edition, number, own)?;
    match Rc::new(alloc, known) {
        Ok(known) => Ok(known),
        Err(_) => Err(Refusal::Memory),
    }
}

// The definition of this tree: `held` if the caller knows it, else the one in the interner.
fn known_of<'a>(
    old: &'a Interner,
    held: Option<&'a Rc<MacroDef>>,
    tree: &Rc<HashedTree>,
) -> Option<&'a Rc<MacroDef>>
    requires { IfSome held (λ k. known_in old.now tree.now.value ≡ Some k.now.value) }
    ensures { option_map (λ k. k.now.value) result ≡ known_in old.now tree.now.value }
{
    match held {
        Some(known) => Some(known),
        None => old.get(tree),
    }
}

/// Gives a definition of a text its id: that of an equal definition of this text or of the last
/// one, or else the next.
/// `held` is the equal definition of the last text, if the caller knows it.
pub fn number(
    alloc: Global,
    edition: Edition,
    old: &Interner,
    now: &mut DefinitionIds,
    tree: Rc<HashedTree>,
    held: Option<&Rc<MacroDef>>,
) -> Result<Rc<MacroDef>, Refusal>
    requires definition { is_some (definition_of tree.value.inner) ≡ true }
    requires top { tree.value.delimiter ≡ text_top }
    requires held { IfSome held (λ k. known_in old.now tree.value ≡ Some k.now.value) }
    requires old_table { IsTable old.now }
    requires table { IsTable now.old.by_tree }
    ensures numbered { (given : ℕ) (known trees : List Forest) →
        HaveNumbers (numbers_in old.now) known → HasNumbered given old.now known trees now.old →
        OnOk result (HasNumbered given old.now known (trees ++ tree.value.inner ∷ []) now.new) }
    ensures tree { IfOk result (λ k. k.value.tree ≡ tree.value) }
    ensures listed { IfOk result (λ k. definition_tops now.new.definitions.items
        ≡ definition_tops now.old.definitions.items ++ k.value.tree ∷ []) }
    ensures number { IfOk result (λ k. numbers_in now.new.by_tree tree.value.inner
        ≡ Some k.value.number) }
    ensures grows { OnOk result ((t : Forest) (n : ℕ) → numbers_in now.old.by_tree t ≡ Some n →
        numbers_in now.new.by_tree t ≡ Some n) }
    ensures read { AllRead edition old.now → AllRead edition now.old.by_tree →
        IfOk result (λ k. IsRead edition k.value) }
    ensures table_read { AllRead edition old.now → AllRead edition now.old.by_tree →
        OnOk result (AllRead edition now.new.by_tree) }
    ensures cause { (given : ℕ) (known trees : List Forest) →
        HaveNumbers (numbers_in old.now) known → HasNumbered given old.now known trees now.old →
        result ≡ Err Refusal.Numbers → 2 ^ 32 ≤ given + needed known (trees
        ++ tree.value.inner ∷ []) }
    ensures tokens { result ≢ Err Refusal.Tokens }
{
    laws::equal_pieces();
    tt::laws::equal_trees();
    if let Some(known) = now.by_tree.get(&tree) {
        let known = known.clone()?;
        now.push(known.clone()?)?;
        return Ok(known);
    }
    if let Some(known) = known_of(old, held, &tree) {
        let known = known.clone()?;
        now.put(tree, known.clone()?)?;
        return Ok(known);
    }
    let known = next_known(alloc, edition, now.given, &tree)?;
    now.given = known.as_ref().number;
    now.put(tree, known.clone()?)?;
    Ok(known)
}
