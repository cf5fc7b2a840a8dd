//! Evaluates the pieces of a text in order: adds definitions to the scope, takes the memos of
//! plain pieces from the cache or expands the pieces, and emits the output.
ghost use Rattle.std.specs.Prelude.{◌≡◌, ◌≢◌, ℕ, ◌+◌, ◌<◌, ◌≤◌, ◌^◌, [], ◌∷◌, ◌++◌, All, List};
ghost use Rattle.std.specs.Prelude.{IfOk, IfSome, OnOk, None, Err, Option, Some, false};
ghost use Rattle.std.specs.Prelude.{if◌then◌else◌, is_some, length, map, slice_get, true};
ghost use Rattle.std.specs.Global.{Global as GhostGlobal};
ghost use Rattle.std.specs.List.{list_any};
ghost use Rattle.std.specs.Rc.{rc_value};
ghost use Rattle.bridge.specs.ReadText.{text_top};
ghost use Rattle.mbe.specs.Grammar.{Grammar};
ghost use Rattle.tt_data.specs.Forest.{Forest};
ghost use Rattle.tt_data.specs.declared.edition.Edition.{Edition};
ghost use Rattle.expander_scope.specs.Interning.{known_in, numbers_in};
ghost use Rattle.expander_model.specs.HashedTrees.{own_top, tree_hash};
ghost use Rattle.expander_model.specs.Definitions.{definition_of};
ghost use Rattle.expander_model.specs.Held.{IsMet, Met, Stands, first_place, numbered_scope};
ghost use Rattle.expander_model.specs.Scoping.{is_out};
ghost use Rattle.expander_model.specs.declared.scope_rules.Standing.TheVariants.{Top as AtTop};
ghost use Rattle.expander_scope.specs.Editions.{IsRead};
ghost use Rattle.expander_scope.specs.Outcomes.{numbered_of_known};
ghost use Rattle.expander_session.specs.AbsoluteSpans.{told_of};
ghost use Rattle.bridge.specs.RelativeSpans.{own_place};
ghost use Rattle.expander_sources.specs.Imports.{IsImport, import_piece};
ghost use Rattle.expander_session.specs.EvaluatedTexts.{kept_in};
ghost use Rattle.expander_session.specs.State.{definitions_of};
ghost use Rattle.expander_model.specs.DefinitionTrees.{definition_trees};
ghost use Rattle.expander_session.specs.CachedOutputs.{Holds};
ghost use Rattle.expander_session.specs.Layered.{layers};
ghost use Rattle.expander_session.specs.MemoRefs.{plain_tops};
ghost use Rattle.expander_model.specs.Meaning.{members_after};
ghost use Rattle.expander_model.specs.declared.dialect.Dialect.{Dialect};
ghost use Rattle.expander_session.specs.Caches.{IsCache, IsRight, piece_of, trees_of};
ghost use Rattle.expander_scope.specs.ScopeTable.{AreRead, HasMet, expanded_under, scope_in};
ghost use Rattle.expander_scope.specs.DefinitionTexts.{HasNumbered};
ghost use Rattle.expander_scope.specs.DefinitionIds.{AreNumbers, HaveNumbers, number_by};
ghost use Rattle.expander_scope.specs.DefinitionIds.{numbered_by};
ghost use Rattle.expander_scope.specs.NewNumbers.{needed};
ghost use Rattle.expander_model.specs.OtherPlaces.{LooksAtNoPlace};
ghost use Rattle.expander_scope.specs.Outcomes.{parts_of};
ghost use Rattle.expander_session.specs.Emitting.{PutsOut};
ghost use Rattle.expander_reparse.specs.RelativePieces.{IsOwn, IsOwnPiece, piece_at, tree_at};
ghost use Rattle.expander_reparse.specs.Reparsing.{AreMet, IsMet as IsMetIn};
ghost use Rattle.expander_model.specs.Pieces.{first_start, relative};
ghost use Rattle.expander_session.specs.AbsoluteSpans.{resolved_faults, resolved_steps};
ghost use Rattle.expander_session.specs.LookupTrees.{IndexesMemos};
ghost use Rattle.expander_session.specs.Memos.{tree_of};
ghost use Rattle.expander_session.specs.Reuse.{matches};
ghost use Rattle.expander_session.specs.Evaluating.{AreLinks, CanDefine, Evaluates, Grows};
ghost use Rattle.expander_session.specs.Evaluating.{HasImported, Imports, IsEvaluated};
ghost use Rattle.expander_session.specs.Evaluating.{MakesTooMany, NeedsMore};
ghost use Rattle.expander_session.specs.TooMany.{bursts};
ghost use Rattle.expander_session.specs.declared.memo_ref.MemoRef.TheVariants as as_link;
ghost use Rattle.tt.specs.Tops.{Top};
ghost use Rattle.expander_model.specs.World.{world};

use crate::absolute_spans::{emit_cached, emit_events, put_faults, tell_if_broken};
use crate::cache::{Cache, plain_at};
use crate::cached_output::CachedOutput;
use crate::emitter::{Emitter, no_steps, reserve, takes_chunks};
use crate::memo::Memo;
use crate::memo_index::{MemoIndex, find_in_text, find_valid};
use crate::memo_ref::MemoRef;
use crate::new_memo::{expanded, shared};
use crate::recent_memos::RecentMemos;
use bridge::parts::Place;
use expander_model::dialect::Dialect;
use expander_model::fault::Fault;
use expander_model::hashed_tree::HashedTree;
use expander_model::laws;
use expander_model::left_out::is_out;
use expander_model::scope_rules::Standing;
use expander_reparse::piece::Piece;
use expander_scope::definition_ids::{DefinitionIds, number};
use expander_scope::environment::Environment;
use expander_scope::expand::expand_piece;
use expander_scope::interner::Interner;
use expander_scope::macro_def::MacroDef;
use expander_scope::refusal::Refusal;
use expander_scope::scope::Scope;
use expander_sources::import::Import;
use expander_sources::prelude::{Prelude, imports_of};
use mbe::FragmentGrammar;
use std::alloc::{AllocError, Global};
use std::rc::Rc;
use tt_data::{Edition, TtFault};

/// What the pieces of a text are evaluated by: the grammar, the dialect, how many levels of calls
/// may be expanded, and the cache of the last text that was read.
///
/// `Session::expansion` makes one for each text. It is the same for all pieces.
#[derive(Drop)]
pub(crate) struct EvaluationContext<'a, G> {
    pub alloc: Global,
    /// Decides what fragments are.
    pub grammar: &'a G,
    /// By which options pieces are expanded.
    pub dialect: &'a Dialect,
    /// How many levels of calls may be expanded.
    pub depth: u8,
    /// What is cached of the last text. The new text changes none of it.
    pub memory: &'a Cache,
    /// The definitions of other texts that come before the first piece.
    pub prelude: &'a Prelude,
}

// A memo of a tree that the cache has none for: a valid one of this text, if it is found, or else a
// new one. `taken` is what the pieces so far have given.
fn fresh_memo<G: FragmentGrammar>(
    env: &Environment<'_, G>,
    taken: &Evaluated,
    recent: &RecentMemos,
    tree: &Rc<HashedTree>,
) -> Result<Rc<Memo>, TtFault>
    requires read { AreRead env.now.scope.now }
    requires top { tree.now.value.delimiter ≡ text_top }
    ensures tree { IfOk result (λ q. tree_of q.value ≡ tree.now.value) }
    ensures holds { (given : ℕ) (numbers : Forest → Option ℕ) (before : List Met) →
        AreNumbers given numbers →
        All (λ q. IsRight (world (G.answer env.now.grammar.now) env.now.scope.now.edition
        env.now.dialect.now) env.now.depth numbers (rc_value q)) taken.now.plains.items →
        scope_in env.now.scope.now ≡ numbered_scope env.now.dialect.now before →
        All (IsMet (numbered_by numbers)) before →
        IfOk result (λ q. Holds q.value (parts_of
        (expanded_under (G.answer env.now.grammar.now) env.now.scope.now env.now.dialect.now
        env.now.depth tree.now.value.inner))) }
    ensures tokens { result ≡ Err TtFault.Tokens →
        (expanded_under (G.answer env.now.grammar.now) env.now.scope.now env.now.dialect.now
        env.now.depth tree.now.value.inner).bursts ≡ true }
{
    laws::equal_pieces();
    tt::laws::equal_trees();
    let made = taken.plains.as_slice();
    match find_in_text(env.scope, made, taken.hashes.as_slice(), recent, tree) {
        Some(i) => {
            let plain = made[i].clone()?;
            Ok(plain)
        }
        None => expanded(env, tree.clone()?, takes_chunks(&taken.steps)),
    }
}

/// The memo of a tree: a valid one from the cache, with its index there, or else one of this text,
/// with `None`. The third value is the hash of the tree.
///
/// `link` is the index of a memo that is known to have this tree. `taken` is what the pieces so far
/// have given.
pub(crate) fn evaluate_tree<G: FragmentGrammar>(
    env: &Environment<'_, G>,
    memory: &Cache,
    lookup: &mut MemoIndex,
    link: Option<usize>,
    tree: &Rc<HashedTree>,
    taken: &Evaluated,
) -> Result<(Rc<Memo>, Option<usize>, u64), TtFault>
    requires read { AreRead env.now.scope.now }
    requires lookup { IndexesMemos lookup.old memory.now.plains.items }
    requires link { IfSome link (λ i. slice_get (plain_tops memory.now.plains.items) i
        ≡ Some tree.now.value) }
    requires top { tree.now.value.delimiter ≡ text_top }
    requires right { IsCache (world (G.answer env.now.grammar.now) env.now.scope.now.edition
        env.now.dialect.now) env.now.depth env.now.scope.now.edition memory.now }
    ensures lookup { OnOk result (IndexesMemos lookup.new memory.now.plains.items) }
    ensures tree { IfOk result (λ r. tree_of r.0.value ≡ tree.now.value) }
    ensures hash { IfOk result (λ r. r.2 ≡ tree_hash tree.now.value) }
    ensures holds { (given : ℕ) (numbers : Forest → Option ℕ) (before : List Met) →
        AreNumbers given numbers →
        ((t : Forest) (n : ℕ) → numbers_in memory.now.by_tree t ≡ Some n → numbers t ≡ Some n) →
        All (λ q. IsRight (world (G.answer env.now.grammar.now) env.now.scope.now.edition
        env.now.dialect.now) env.now.depth numbers (rc_value q)) taken.now.plains.items →
        scope_in env.now.scope.now ≡ numbered_scope env.now.dialect.now before →
        All (IsMet (numbered_by numbers)) before →
        IfOk result (λ r. Holds r.0.value (parts_of
        (expanded_under (G.answer env.now.grammar.now) env.now.scope.now env.now.dialect.now
        env.now.depth tree.now.value.inner))) }
    ensures counted { IfOk result (λ r. is_some r.1
        ≡ list_any (matches (scope_in env.now.scope.now) tree.now.value.inner) (map
        (λ q. piece_of (world (G.answer env.now.grammar.now) env.now.scope.now.edition
        env.now.dialect.now) env.now.depth (rc_value q)) memory.now.plains.items)) }
    ensures tokens { result ≡ Err TtFault.Tokens →
        (expanded_under (G.answer env.now.grammar.now) env.now.scope.now env.now.dialect.now
        env.now.depth tree.now.value.inner).bursts ≡ true }
{
    laws::equal_pieces();
    tt::laws::equal_trees();
    let held = memory.plains.as_slice();
    let hashes = memory.hashes.as_slice();
    let found = find_valid(env.scope, held, hashes, lookup, link, tree)?;
    match found {
        Some(i) => {
            let plain = held[i].clone()?;
            Ok((plain, Some(i), hashes[i]))
        }
        None => {
            let plain = fresh_memo(env, taken, &lookup.recent, tree)?;
            Ok((plain, None, tree.as_ref().kept_hash()))
        }
    }
}

/// What the pieces of a text so far have given.
#[derive(Drop)]
pub(crate) struct Evaluated {
    /// Their definitions, with the ids.
    pub numbers: DefinitionIds,
    /// The memos of the plain pieces, in order.
    pub plains: Vec<Rc<Memo>>,
    /// The hashes of the memos' trees.
    pub hashes: Vec<u64>,
    /// The output so far.
    pub steps: Emitter,
    /// The faults so far, but for those of printed tokens, which the emitter keeps.
    pub faults: Vec<Fault>,
    /// The number of cache misses.
    pub expanded: usize,
    /// Which memo or definition each piece has.
    pub links: Vec<MemoRef>,
}

// The state between two pieces: what those so far have given, and what the next one depends on.
#[derive(Drop)]
struct Evaluation {
    scope: Scope,
    taken: Evaluated,
    // The search for valid memos in the cache.
    lookup: MemoIndex,
}

// How much room is made at first. It decides speed alone.
#[derive(Clone, Copy)]
struct Room {
    definitions: usize,
    pieces: usize,
    // Bytes of the printed text.
    bytes: usize,
}

// No definitions so far, with room for `count`. `given` ids were given for earlier texts.
fn nothing_numbered(alloc: Global, given: u32, count: usize) -> Result<DefinitionIds, AllocError>
    ensures given { IfOk result (λ n. n.given ≡ given) }
    ensures definitions { IfOk result (λ n. n.definitions.items ≡ []) }
    ensures table { IfOk result (λ n. (t : Top) → known_in n.by_tree t ≡ None) }
{
    let definitions = Vec::with_capacity(alloc, count)?;
    let by_tree = Interner::with_room(alloc, count)?;
    Ok(DefinitionIds {
        given,
        definitions,
        by_tree,
    })
}

// Before the first piece. What is kept longest is allocated last: memory that is freed before it
// then stays below it for the next text, and is not given back to the system each time.
fn nothing_evaluated(alloc: Global, memory: &Cache, room: Room) -> Result<Evaluated, AllocError>
    ensures links { IfOk result (λ taken. AreLinks taken []) }
    ensures taken { IfOk result (λ taken. (grammar : Grammar) (edition : Edition)
        (dialect : Dialect) (depth : ℕ) →
        IsCache (world grammar edition dialect) depth edition memory.now →
        IsEvaluated (world grammar edition dialect) edition depth memory.now
        (layers grammar edition dialect) [] [] taken) }
{
    let steps = no_steps(alloc, room.bytes, room.pieces)?;
    let numbers = nothing_numbered(alloc, memory.given, room.definitions)?;
    let plains = Vec::with_capacity(alloc, room.pieces)?;
    let hashes = Vec::with_capacity(alloc, room.pieces)?;
    let links = Vec::with_capacity(alloc, room.pieces)?;
    Ok(Evaluated {
        numbers,
        plains,
        hashes,
        steps,
        faults: Vec::new(alloc),
        expanded: 0,
        links,
    })
}

// The state before the first piece.
fn nothing_yet(
    alloc: Global,
    edition: Edition,
    memory: &Cache,
    room: Room,
) -> Result<Evaluation, AllocError>
    ensures links { IfOk result (λ now. AreLinks now.taken []) }
    ensures taken { IfOk result (λ now. (grammar : Grammar) (dialect : Dialect) (depth : ℕ) →
        IsCache (world grammar edition dialect) depth edition memory.now →
        IsEvaluated (world grammar edition dialect) edition depth memory.now
        (layers grammar edition dialect) [] [] now.taken) }
    ensures none { IfOk result (λ now. (dialect : Dialect) → HasMet dialect now.scope []) }
    ensures edition { IfOk result (λ now. now.scope.edition ≡ edition) }
    ensures read { IfOk result (λ now. AreRead now.scope) }
    ensures lookup { IfOk result (λ now.
        (held : List (Rc Memo GhostGlobal)) → IndexesMemos now.lookup held) }
{
    let scope = Scope::with_room(alloc, edition, room.definitions)?;
    let taken = nothing_evaluated(alloc, memory, room)?;
    Ok(Evaluation {
        scope,
        taken,
        lookup: MemoIndex::new(alloc),
    })
}

// Adds the reference of one more piece.
fn add_link(links: &mut Vec<MemoRef>, link: MemoRef) -> Result<(), AllocError>
    ensures { OnOk result (links.new.items ≡ links.old.items ++ link ∷ []) }
{
    links.push(link)?;
    Ok(())
}

// Whether conditional compilation leaves a definition of a text out.
fn leaves_out(dialect: &Dialect, known: &MacroDef) -> Result<bool, AllocError>
    ensures { IfOk result (λ out. out
        ≡ is_out dialect.now.cfg AtTop (numbered_of_known known.now).definition.piece) }
{
    is_out(dialect, Standing::Top, &known.tree.iter())
}

// Adds the fault of a definition that starts at `start`, if it is invalid and not left out.
fn tell(
    dialect: &Dialect,
    faults: &mut Vec<Fault>,
    start: u32,
    known: &MacroDef,
) -> Result<(), AllocError>
    ensures { OnOk result (faults.new.items
        ≡ faults.old.items ++ told_of dialect.now start known.now) }
{
    if leaves_out(dialect, known)? {
        return Ok(());
    }
    tell_if_broken(faults, start, known)
}

// Adds a definition that starts at `place`. Its name resolves to it if it is not left out.
fn enter_scope(
    dialect: &Dialect,
    scope: &mut Scope,
    place: Place,
    known: Rc<MacroDef>,
) -> Result<(), AllocError>
    requires rules { IsRead scope.old.edition known.value }
    requires read { AreRead scope.old }
    ensures met { (before : List Met) → HasMet dialect.now scope.old before →
        OnOk result (HasMet dialect.now scope.new
        (record { place = place; numbered = numbered_of_known known.value } ∷ before)) }
    ensures edition { OnOk result (scope.new.edition ≡ scope.old.edition) }
    ensures read { OnOk result (AreRead scope.new) }
{
    if leaves_out(dialect, known.as_ref())? {
        scope.pass(place, known.as_ref())
    } else {
        scope.define(place, known)
    }
}

// Evaluates a definition that starts at `start`: gives it an id, and if it is not left out adds its
// fault, if it is invalid, and adds it to the scope. `held` is the equal definition of the last
// text, if it is known.
fn evaluate_definition<G: FragmentGrammar>(
    context: &EvaluationContext<'_, G>,
    now: &mut Evaluation,
    start: u32,
    tree: Rc<HashedTree>,
    held: Option<&Rc<MacroDef>>,
) -> Result<(), Refusal>
    requires definition { is_some (definition_of tree.value.inner) ≡ true }
    requires top { tree.value.delimiter ≡ text_top }
    requires held { IfSome held (λ k.
        known_in context.now.memory.now.by_tree tree.value ≡ Some k.now.value) }
    requires can { CanDefine context.now.memory.now now.old }
    ensures taken { (grammar : Grammar) (depth : ℕ) (piece : Forest) →
        LooksAtNoPlace (world grammar now.old.scope.edition context.now.dialect.now) →
        HaveNumbers (numbers_in context.now.memory.now.by_tree) (trees_of context.now.memory.now) →
        own_place start ≡ first_place piece → tree.value ≡ own_top (relative piece) →
        OnOk result (Evaluates grammar now.old.scope.edition context.now.dialect.now depth
        context.now.memory.now piece now.old now.new) }
    ensures links { (trees : List Top) → AreLinks now.old.taken trees →
        OnOk result (AreLinks now.new.taken (trees ++ tree.value ∷ [])) }
    ensures grows { OnOk result (Grows now.old.taken now.new.taken) }
    ensures edition { OnOk result (now.new.scope.edition ≡ now.old.scope.edition) }
    ensures lookup { OnOk result (now.new.lookup ≡ now.old.lookup) }
    ensures expanded { OnOk result (now.new.taken.expanded ≡ now.old.taken.expanded) }
    ensures cause { (trees : List Forest) →
        HaveNumbers (numbers_in context.now.memory.now.by_tree) (trees_of context.now.memory.now) →
        HasNumbered context.now.memory.now.given context.now.memory.now.by_tree
        (trees_of context.now.memory.now) trees now.old.taken.numbers → result
        ≡ Err Refusal.Numbers →
        2 ^ 32 ≤ context.now.memory.now.given + needed (trees_of context.now.memory.now)
        (trees ++ tree.value.inner ∷ []) }
    ensures tokens { result ≢ Err Refusal.Tokens }
{
    let EvaluationContext {
        alloc,
        dialect,
        memory,
        ..
    } = *context;
    let edition = now.scope.edition;
    let index = now.taken.numbers.definitions.len();
    let known = number(
        alloc,
        edition,
        &memory.by_tree,
        &mut now.taken.numbers,
        tree,
        held,
    )?;
    tell(dialect, &mut now.taken.faults, start, known.as_ref())?;
    enter_scope(dialect, &mut now.scope, Place { text: 0, start }, known)?;
    add_link(&mut now.taken.links, MemoRef::Definition(index))?;
    Ok(())
}

// Gives a definition of another text its id, and adds it to the scope if it is not left out. If it
// is invalid, that is no fault of the text that is expanded.
fn evaluate_import<G: FragmentGrammar>(
    context: &EvaluationContext<'_, G>,
    now: &mut Evaluation,
    import: &Import,
) -> Result<(), Refusal>
    requires import { IsImport import.now }
    requires have { HaveNumbers (numbers_in context.now.memory.now.by_tree)
        (trees_of context.now.memory.now) }
    requires can { CanDefine context.now.memory.now now.old }
    ensures taken { (grammar : Grammar) (depth : ℕ) →
        OnOk result (Imports grammar now.old.scope.edition context.now.dialect.now depth
        context.now.memory.now (import_piece import.now) now.old now.new) }
    ensures links { AreLinks now.old.taken [] → OnOk result (AreLinks now.new.taken []) }
    ensures grows { OnOk result (Grows now.old.taken now.new.taken) }
    ensures edition { OnOk result (now.new.scope.edition ≡ now.old.scope.edition) }
    ensures lookup { OnOk result (now.new.lookup ≡ now.old.lookup) }
    ensures expanded { OnOk result (now.new.taken.expanded ≡ now.old.taken.expanded) }
    ensures cause { (trees : List Forest) →
        HasNumbered context.now.memory.now.given context.now.memory.now.by_tree
        (trees_of context.now.memory.now) trees now.old.taken.numbers →
        result ≡ Err Refusal.Numbers →
        2 ^ 32 ≤ context.now.memory.now.given + needed (trees_of context.now.memory.now)
        (trees ++ definition_trees (import_piece import.now ∷ [])) }
    ensures tokens { result ≢ Err Refusal.Tokens }
{
    let EvaluationContext {
        alloc,
        dialect,
        memory,
        ..
    } = *context;
    let edition = now.scope.edition;
    let tree = import.tree.clone()?;
    let numbers = &mut now.taken.numbers;
    let known = number(alloc, edition, &memory.by_tree, numbers, tree, None)?;
    enter_scope(dialect, &mut now.scope, import.place, known)?;
    Ok(())
}

// Adds the definitions of the prelude to a scope that has none, in order.
fn evaluate_imports<G: FragmentGrammar>(
    context: &EvaluationContext<'_, G>,
    edition: Edition,
    now: &mut Evaluation,
) -> Result<(), Refusal>
    requires right { IsCache
        (world (G.answer context.now.grammar.now) edition context.now.dialect.now)
        context.now.depth edition context.now.memory.now }
    requires none { HasImported (G.answer context.now.grammar.now) edition context.now.dialect.now
        context.now.depth context.now.memory.now [] now.old }
    ensures taken { OnOk result (HasImported (G.answer context.now.grammar.now) edition
        context.now.dialect.now context.now.depth context.now.memory.now context.now.prelude.now
        now.new) }
    ensures stands { OnOk result (All Stands context.now.prelude.now) }
    ensures links { AreLinks now.old.taken [] → OnOk result (AreLinks now.new.taken []) }
    ensures lookup { OnOk result (now.new.lookup ≡ now.old.lookup) }
    ensures expanded { OnOk result (now.new.taken.expanded ≡ now.old.taken.expanded) }
    ensures cause { result ≡ Err Refusal.Numbers →
        NeedsMore context.now.memory.now (definition_trees context.now.prelude.now) }
    ensures tokens { result ≢ Err Refusal.Tokens }
{
    for import in imports_of(context.prelude) {
        evaluate_import(context, now, import)?;
    }
    Ok(())
}

// Expands a tree once more, because its cached text cannot be appended here and its events are not
// cached. Emits the events, and answers a memo with them. This is no cache miss.
fn emit_anew<G: FragmentGrammar>(
    env: &Environment<'_, G>,
    steps: &mut Emitter,
    start: u32,
    tree: Rc<HashedTree>,
) -> Result<Rc<Memo>, TtFault>
    requires { AreRead env.now.scope.now }
    ensures steps { OnOk result (PutsOut steps.old steps.new
        (resolved_steps start env.now.scope.now.starts
        (expanded_under (G.answer env.now.grammar.now) env.now.scope.now env.now.dialect.now
        env.now.depth tree.value.inner).steps)) }
    ensures tree { IfOk result (λ q. tree_of q.value ≡ tree.value) }
    ensures holds { IfOk result (λ q. Holds q.value (parts_of
        (expanded_under (G.answer env.now.grammar.now) env.now.scope.now env.now.dialect.now
        env.now.depth tree.value.inner))) }
    ensures tokens { result ≡ Err TtFault.Tokens →
        (expanded_under (G.answer env.now.grammar.now) env.now.scope.now env.now.dialect.now
        env.now.depth tree.value.inner).bursts ≡ true }
{
    let alloc = env.alloc;
    let own = tree.as_ref().tree();
    let outcome = expand_piece(env, own)?;
    emit_events(alloc, steps, start, &env.scope.starts, own, &outcome.steps)?;
    let plain = Memo {
        tree,
        output: CachedOutput::Steps(outcome.steps),
        faults: outcome.faults,
        finds: outcome.finds,
    };
    let plain = shared(alloc, plain)?;
    Ok(plain)
}

// Emits the output of a memo. Answers the memo to cache: the same one, or one with events if its
// text cannot be appended here.
fn emit_output<G: FragmentGrammar>(
    env: &Environment<'_, G>,
    steps: &mut Emitter,
    start: u32,
    plain: Rc<Memo>,
) -> Result<Rc<Memo>, TtFault>
    requires { AreRead env.now.scope.now }
    ensures steps { let given = expanded_under (G.answer env.now.grammar.now) env.now.scope.now
        env.now.dialect.now env.now.depth (tree_of plain.value).inner in
        Holds plain.value (parts_of given) →
        OnOk result (PutsOut steps.old steps.new
        (resolved_steps start env.now.scope.now.starts given.steps)) }
    ensures tree { IfOk result (λ q. tree_of q.value ≡ tree_of plain.value) }
    ensures holds { let given = expanded_under (G.answer env.now.grammar.now) env.now.scope.now
        env.now.dialect.now env.now.depth (tree_of plain.value).inner in
        Holds plain.value (parts_of given) →
        IfOk result (λ q. Holds q.value (parts_of given)) }
    ensures tokens { result ≡ Err TtFault.Tokens →
        (expanded_under (G.answer env.now.grammar.now) env.now.scope.now env.now.dialect.now
        env.now.depth (tree_of plain.value).inner).bursts ≡ true }
{
    let (alloc, starts) = (env.alloc, &env.scope.starts);
    let Memo { tree, output, .. } = plain.as_ref();
    match output {
        CachedOutput::Part(part) => {
            if emit_cached(alloc, steps, start, starts, part)? {
                return Ok(plain);
            }
            emit_anew(env, steps, start, tree.clone()?)
        }
        CachedOutput::Steps(own) => {
            let tree = tree.as_ref().tree();
            emit_events(alloc, steps, start, starts, tree, own)?;
            Ok(plain)
        }
    }
}

// Emits the output of a memo and adds its faults. Answers the memo to cache.
fn emit_plain<G: FragmentGrammar>(
    env: &Environment<'_, G>,
    steps: &mut Emitter,
    faults: &mut Vec<Fault>,
    start: u32,
    plain: Rc<Memo>,
) -> Result<Rc<Memo>, TtFault>
    requires { AreRead env.now.scope.now }
    ensures steps { let given = expanded_under (G.answer env.now.grammar.now) env.now.scope.now
        env.now.dialect.now env.now.depth (tree_of plain.value).inner in
        Holds plain.value (parts_of given) →
        OnOk result (PutsOut steps.old steps.new
        (resolved_steps start env.now.scope.now.starts given.steps)) }
    ensures faults { IfOk result (λ q. faults.new.items
        ≡ faults.old.items ++ resolved_faults start env.now.scope.now.starts q.value.faults.items) }
    ensures tree { IfOk result (λ q. tree_of q.value ≡ tree_of plain.value) }
    ensures holds { let given = expanded_under (G.answer env.now.grammar.now) env.now.scope.now
        env.now.dialect.now env.now.depth (tree_of plain.value).inner in
        Holds plain.value (parts_of given) →
        IfOk result (λ q. Holds q.value (parts_of given)) }
    ensures tokens { result ≡ Err TtFault.Tokens →
        (expanded_under (G.answer env.now.grammar.now) env.now.scope.now env.now.dialect.now
        env.now.depth (tree_of plain.value).inner).bursts ≡ true }
{
    let plain = emit_output(env, steps, start, plain)?;
    let told = plain.as_ref().faults.as_slice();
    put_faults(faults, start, &env.scope.starts, told)?;
    Ok(plain)
}

// Adds a memo and the hash of its tree to those to cache, and the reference of its piece.
fn hold(
    plains: &mut Vec<Rc<Memo>>,
    hashes: &mut Vec<u64>,
    links: &mut Vec<MemoRef>,
    plain: Rc<Memo>,
    hash: u64,
) -> Result<(), AllocError>
    ensures plains { OnOk result (plains.new.items ≡ plains.old.items ++ plain ∷ []) }
    ensures hashes { OnOk result (hashes.new.items ≡ hashes.old.items ++ hash ∷ []) }
    ensures links { OnOk result (links.new.items ≡ links.old.items
        ++ as_link.Plain (length plains.old.items) ∷ []) }
{
    add_link(links, MemoRef::Plain(plains.len()))?;
    plains.push(plain)?;
    hashes.push(hash)?;
    Ok(())
}

// Counts a cache miss if no memo was valid. Otherwise notes the index after the memo, where the
// next one is looked for early.
fn count(now: &mut Evaluation, at: Option<usize>)
    requires { now.old.taken.expanded + 1 < 2 ^ 64 }
    ensures scope { now.new.scope ≡ now.old.scope }
    ensures lookup { (held : List (Rc Memo GhostGlobal)) →
        IndexesMemos now.old.lookup held → IndexesMemos now.new.lookup held }
    ensures taken { now.new.taken ≡ record now.old.taken
        { expanded = now.old.taken.expanded + (if is_some at then 0 else 1) } }
{
    match at {
        Some(i) => now.lookup.next = i.saturating_add(1),
        None => now.taken.expanded += 1,
    }
}

// Evaluates a plain piece: finds a valid memo or expands the tree, emits the output, and adds the
// memo to those to cache.
fn evaluate_plain<G: FragmentGrammar>(
    context: &EvaluationContext<'_, G>,
    now: &mut Evaluation,
    start: u32,
    tree: &Rc<HashedTree>,
    link: Option<usize>,
) -> Result<(), TtFault>
    requires plain { is_some (definition_of tree.now.value.inner) ≡ false }
    requires top { tree.now.value.delimiter ≡ text_top }
    requires read { AreRead now.old.scope }
    requires lookup { IndexesMemos now.old.lookup context.now.memory.now.plains.items }
    requires link { IfSome link (λ i. slice_get (plain_tops context.now.memory.now.plains.items) i
        ≡ Some tree.now.value) }
    requires right { IsCache (world (G.answer context.now.grammar.now) now.old.scope.edition
        context.now.dialect.now) context.now.depth now.old.scope.edition context.now.memory.now }
    requires room { now.old.taken.expanded + 1 < 2 ^ 64 }
    ensures taken { (piece : Forest) → start ≡ first_start piece → tree.now.value
        ≡ own_top (relative piece) →
        OnOk result (Evaluates (G.answer context.now.grammar.now) now.old.scope.edition
        context.now.dialect.now context.now.depth context.now.memory.now piece now.old now.new) }
    ensures links { (trees : List Top) → AreLinks now.old.taken trees →
        OnOk result (AreLinks now.new.taken (trees ++ tree.now.value ∷ [])) }
    ensures numbers { OnOk result (now.new.taken.numbers ≡ now.old.taken.numbers) }
    ensures edition { OnOk result (now.new.scope.edition ≡ now.old.scope.edition) }
    ensures lookup { OnOk result (IndexesMemos now.new.lookup context.now.memory.now.plains.items) }
    ensures expanded { OnOk result (now.new.taken.expanded ≤ now.old.taken.expanded + 1) }
    ensures tokens { result ≡ Err TtFault.Tokens →
        (expanded_under (G.answer context.now.grammar.now) now.old.scope context.now.dialect.now
        context.now.depth tree.now.value.inner).bursts ≡ true }
{
    laws::equal_pieces();
    let env = Environment {
        alloc: context.alloc,
        grammar: context.grammar,
        scope: &now.scope,
        dialect: context.dialect,
        depth: context.depth,
    };
    let (taken, lookup) = (&mut now.taken, &mut now.lookup);
    let (found, at, hash) = evaluate_tree(&env, context.memory, lookup, link, tree, taken)?;
    lookup.keep(at, hash, taken.plains.len())?;
    let plain = emit_plain(&env, &mut taken.steps, &mut taken.faults, start, found)?;
    hold(
        &mut taken.plains,
        &mut taken.hashes,
        &mut taken.links,
        plain,
        hash,
    )?;
    count(now, at);
    Ok(())
}

// Evaluates one more piece: a definition enters the scope, and a plain piece is emitted.
fn evaluate_piece<G: FragmentGrammar>(
    context: &EvaluationContext<'_, G>,
    now: &mut Evaluation,
    own: &Piece,
) -> Result<(), Refusal>
    requires right { IsCache (world (G.answer context.now.grammar.now) now.old.scope.edition
        context.now.dialect.now) context.now.depth now.old.scope.edition context.now.memory.now }
    requires can { CanDefine context.now.memory.now now.old }
    requires places { LooksAtNoPlace
        (world (G.answer context.now.grammar.now) now.old.scope.edition context.now.dialect.now) }
    requires room { now.old.taken.expanded + 1 < 2 ^ 64 }
    requires lookup { IndexesMemos now.old.lookup context.now.memory.now.plains.items }
    requires own { IsOwn (piece_at own.now) own.now }
    requires met { IsMetIn context.now.memory.now.sources own.now.met (tree_at own.now) }
    ensures taken { OnOk result (Evaluates (G.answer context.now.grammar.now) now.old.scope.edition
        context.now.dialect.now context.now.depth context.now.memory.now (piece_at own.now)
        now.old now.new) }
    ensures links { (trees : List Top) → AreLinks now.old.taken trees →
        OnOk result (AreLinks now.new.taken (trees ++ tree_at own.now ∷ [])) }
    ensures grows { OnOk result (Grows now.old.taken now.new.taken) }
    ensures edition { OnOk result (now.new.scope.edition ≡ now.old.scope.edition) }
    ensures lookup { OnOk result (IndexesMemos now.new.lookup context.now.memory.now.plains.items) }
    ensures expanded { OnOk result (now.new.taken.expanded ≤ now.old.taken.expanded + 1) }
    ensures tokens { result ≡ Err Refusal.Tokens →
        MakesTooMany (G.answer context.now.grammar.now) now.old.scope.edition
        context.now.dialect.now context.now.depth (piece_at own.now) now.old }
    ensures cause { let memory = context.now.memory.now in (trees : List Forest) →
        HasNumbered memory.given memory.by_tree (trees_of memory) trees now.old.taken.numbers →
        result ≡ Err Refusal.Numbers →
        2 ^ 32 ≤ memory.given + needed (trees_of memory) (trees
        ++ definition_trees (piece_at own.now ∷ [])) }
{
    let memory = context.memory;
    reserve(&mut now.taken.steps, memory.look_ahead(own))?;
    let tree = own.tree.get();
    let link = memory.link_of(own);
    if memory.is_definition(own, link) {
        let held = memory.definition_at(link);
        return evaluate_definition(context, now, own.start, tree.clone()?, held);
    }
    evaluate_plain(context, now, own.start, tree, plain_at(link))?;
    Ok(())
}

/// Evaluates the pieces of a text of `bytes` bytes in order, each in the scope of the prelude and
/// of the definitions before it. A plain piece is expanded only if the cache has no valid memo for
/// it.
///
/// # Errors
///
/// `Memory`. `Tokens`, only if a rule that is tried for a call puts out more than `u32::MAX`
/// tokens. `Numbers`, only if more than `u32::MAX` definitions would need an id.
pub(crate) fn evaluate_pieces<G: FragmentGrammar>(
    context: &EvaluationContext<'_, G>,
    edition: Edition,
    pieces: &[Piece],
    bytes: usize,
) -> Result<Evaluated, Refusal>
    requires right { IsCache (world (G.answer context.now.grammar.now) edition
        context.now.dialect.now)
        context.now.depth edition context.now.memory.now }
    requires own { All IsOwnPiece pieces.now }
    requires met { AreMet context.now.memory.now.sources pieces.now }
    ensures taken { let grammar = G.answer context.now.grammar.now in
        let dialect = context.now.dialect.now in let depth = context.now.depth in
        let prelude = context.now.prelude.now in
        let trees = map piece_at pieces.now in
        IfOk result (λ now. IsEvaluated (world grammar edition dialect) edition depth
        context.now.memory.now (layers grammar edition dialect)
        (definition_trees prelude ++ definition_trees trees)
        (kept_in grammar edition dialect depth (numbers_in now.numbers.by_tree) prelude trees)
        now) }
    ensures stands { IfOk result (λ now. All Stands context.now.prelude.now) }
    ensures links { IfOk result (λ now. AreLinks now (map tree_at pieces.now)) }
    ensures tokens { result ≡ Err Refusal.Tokens → list_any bursts (members_after
        (layers (G.answer context.now.grammar.now) edition context.now.dialect.now)
        context.now.depth (definitions_of context.now.prelude.now) (map piece_at pieces.now))
        ≡ true }
    ensures numbers { result ≡ Err Refusal.Numbers → NeedsMore context.now.memory.now
        (definition_trees context.now.prelude.now ++ definition_trees (map piece_at pieces.now)) }
{
    mbe_rules::laws::rules_at_other_places();
    mbe::laws::fit_at_other_places();
    mbe::laws::bursts_at_other_places();
    laws::equal_pieces();
    let most = pieces.len();
    let room = Room {
        definitions: context.memory.definitions.len().saturating_add(1),
        pieces: most,
        bytes,
    };
    let mut now = nothing_yet(context.alloc, edition, context.memory, room)?;
    evaluate_imports(context, edition, &mut now)?;
    for own in pieces {
        evaluate_piece(context, &mut now, own)?;
    }
    let Evaluation { taken, .. } = now;
    Ok(taken)
}
