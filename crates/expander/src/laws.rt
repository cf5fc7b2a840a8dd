//! Laws of the definitions, for those who read them. A call does nothing: it only states.
ghost use Rattle.std.specs.Prelude.{◌≡◌, ◌≢◌, ◌↔◌, ℕ, ◌+◌, ◌≤◌, ◌<◌, ◌^◌, false, true, All};
ghost use Rattle.std.specs.Prelude.{Contains, List, [], ◌∷◌, ◌++◌, filter, filter_map, flat_map};
ghost use Rattle.std.specs.Prelude.{length, map, IsUtf8, Option, Some, None, Ok, option_map};
ghost use Rattle.std.specs.Prelude.{unwrap_or};
ghost use Rattle.std.specs.List.Sorted.{IsPermutation, IsSortedBy};
ghost use Rattle.expander_session.specs.Agreement.{FoundIn, scope_of};
ghost use Rattle.expander_session.specs.Answers.{AreAnswers, ShowTheSame, last_text};
ghost use Rattle.expander_model.specs.Calls.{is_colons, marked, unmarked};
ghost use Rattle.expander_model.specs.CallSteps.{call_at, first_call, key_at};
ghost use Rattle.expander_model.specs.Changes.{outcome_with};
ghost use Rattle.expander_session.specs.Count.{Looked, expanded_count, finds_within, is_same};
ghost use Rattle.expander_session.specs.Count.{looked_of};
ghost use Rattle.expander_model.specs.EqualTrees.{same_forest};
ghost use Rattle.expander_model.specs.Expansion.{World, expansion, followed_by, grouped, placed};
ghost use Rattle.expander_session.specs.Expanded.{Expanded, origin_text};
ghost use Rattle.expander_model.specs.Faults.{comes_before, in_order};
ghost use Rattle.expander.specs.FixedPoint.{IsFixedPoint, RepliesWith};
ghost use Rattle.expander_model.specs.Held.{IsMet, Known, Met, TellsApart, kept_after};
ghost use Rattle.expander_model.specs.Held.{numbered_scope, numbered_world, present, unnumbered};
ghost use Rattle.expander_model.specs.DefinitionTrees.{definition_trees, trees_in};
ghost use Rattle.expander_session.specs.Laws.{AreAllPlain, ExpandsNothing, Fails, FindsAsBefore};
ghost use Rattle.expander_session.specs.Laws.{HasNoWord, IsEnded, IsParted, why_failed};
ghost use Rattle.expander_session.specs.Layered.{layers};
ghost use Rattle.expander_model.specs.Meaning.{Layers, ReadMeaning, definitions_after, faults_of};
ghost use Rattle.expander_model.specs.Meaning.{meaning, meaning_in, member_faults, members};
ghost use Rattle.expander_model.specs.Meaning.{members_after, output, output_of};
ghost use Rattle.expander_scope.specs.Numbers.{AreEntries, Numbering, number_in, number_of};
ghost use Rattle.expander_scope.specs.Numbers.{tree_of, with_trees};
ghost use Rattle.expander_scope.specs.NewNumbers.{needed};
ghost use Rattle.expander_model.specs.OtherPlaces.{CommutesWithMarker, definition_with};
ghost use Rattle.expander.specs.PieceTokens.{AreWords, placed_tokens, written_in};
ghost use Rattle.expander.specs.PieceTrees.{own_tree};
ghost use Rattle.expander.specs.SessionCalls.{IsAfter, SessionCall};
ghost use Rattle.expander_model.specs.Pieces.{cut, pieces, put_together, relative, separated};
ghost use Rattle.expander_model.specs.Printing.{left_out};
ghost use Rattle.expander_session.specs.Replies.{HasCause, IsReplyIn, IsReplyTo, NeedsNumbers};
ghost use Rattle.expander_session.specs.Replies.{Replies, definitions_in};
ghost use Rattle.expander_session.specs.Reuse.{HeldPiece, IsHeld, looked_at, looked_held, matches};
ghost use Rattle.expander_session.specs.State.{State, layers_of};
ghost use Rattle.expander_session.specs.TextTurn.{InEntries, IsNext, IsTurn, held_of, is_unmatched};
ghost use Rattle.expander_session.specs.TextTurn.{kept_entries, numbering_of, taken_after};
ghost use Rattle.expander_model.specs.declared.call.Call.{Call};
ghost use Rattle.expander_model.specs.Definitions.{Definition, definition_of};
ghost use Rattle.expander_model.specs.Scoping.{found_in};
ghost use Rattle.expander_model.specs.Limits.{expanded};
ghost use Rattle.expander_model.specs.declared.dialect.Dialect.{Dialect};
ghost use Rattle.expander_model.specs.declared.scope_rules.ScopeRules.TheVariants.{TopLevel};
ghost use Rattle.expander_model.specs.World.{world};
ghost use Rattle.expander_model.specs.declared.fault.Fault.{Fault};
ghost use Rattle.expander_model.specs.declared.fault.FaultKind.{FaultKind};
ghost use Rattle.expander_session.specs.declared.commands.Answer.{Answer};
ghost use Rattle.expander_session.specs.declared.commands.Answer.TheVariants.{Reply as Replied};
ghost use Rattle.expander_session.specs.declared.commands.Command.{Command};
ghost use Rattle.expander_session.specs.declared.commands.Command.TheVariants.{Expand};
ghost use Rattle.expander_run.specs.declared.program.Status.{Status};
ghost use Rattle.expander_scope.specs.declared.refusal.Refusal.{Refusal};
ghost use Rattle.expander_scope.specs.declared.refusal.Refusal.TheVariants.{Numbers};
ghost use Rattle.expander_session.specs.declared.session.Reply.{Reply};
ghost use Rattle.expander_session.specs.declared.session.Reply.TheVariants.{Read};
ghost use Rattle.bridge.specs.Lengths.{AreShort};
ghost use Rattle.bridge.specs.Pieces.{StandsBehindFirst, piece_of};
ghost use Rattle.bridge.specs.ReadText.{text_top};
ghost use Rattle.bridge.specs.Reading.{reading};
ghost use Rattle.bridge.specs.TokenSteps.{escaped, steps_of, text_reading};
ghost use Rattle.mbe.specs.Grammar.{Grammar};
ghost use Rattle.tt_data.specs.Forest.{Forest, empty, group, joined, leaf, map_spans};
ghost use Rattle.tt_data.specs.declared.delimiter.Delimiter.{Delimiter};
ghost use Rattle.tt_data.specs.declared.leaf.Leaf.TheVariants as as_leaf;
ghost use Rattle.tt_data.specs.declared.leaf.Punct.{Punct};
ghost use Rattle.tt_data.specs.Walk.{walk};
ghost use Rattle.tt_data.specs.declared.edition.Edition.{Edition};
ghost use Rattle.tt_data.specs.declared.span.Span.{Span};

use expander_model::fault::{Fault, FaultKind};
pub use expander_model::laws::equal_pieces;
use expander_run::program::Status;
use expander_scope::refusal::Refusal;
pub use expander_scope::textual_scope::laws::{
    expansions_depend_on_outer_lookups_alone, top_level_scope_is_as_before,
    without_keywords_both_rules_agree,
};
pub use expander_session::laws::definitions_are_no_more_than_bytes;
use fragment_grammar::FragmentGrammar;

/// Marking the calls of a forest changes nothing else: the marks taken off give the forest back.
pub fn marks_taken_off()
    ensures { (f : Forest) → unmarked (marked f) ≡ f }
{}

/// The marks of a list begin with a call exactly where the list, read from the left, begins with
/// one: a name, `!` and a visible group, with `$crate ::` if that precedes them.
pub fn calls_are_found_from_the_left()
    ensures { (f : Forest) → call_at f ≡ first_call (marked f) }
{}

/// The pieces of a list, one after another, are the list: `whole`. Each is one piece by itself:
/// `each`. A piece that another follows ends with one of the trees that end a piece: `ended`. If
/// trees that a piece begins with end so, they are the whole piece: `within`. No other nonempty
/// pieces of the list are such: `only`.
pub fn pieces_are_the_list()
    ensures whole { (f : Forest) → put_together (cut f) ≡ f }
    ensures each { (f : Forest) → All (λ p. cut p ≡ p ∷ []) (cut f) }
    ensures ended { (f p q : Forest) (front behind : List Forest) → cut f ≡ front ++ p ∷ q
        ∷ behind → IsEnded p }
    ensures within { (f : Forest) →
        All (λ p. (front behind : Forest) → p ≡ joined front behind → IsEnded front → behind
        ≡ empty) (cut f) }
    ensures only { (ps : List Forest) → All (λ p. p ≢ empty) ps →
        ((front behind : List Forest) (p q : Forest) → ps ≡ front ++ p ∷ q ∷ behind → IsEnded p) →
        All (λ p. (front behind : Forest) → p ≡ joined front behind → IsEnded front → behind
        ≡ empty) ps → cut (put_together ps) ≡ ps }
{}

/// A session has the trees that `bridge::piece` makes. The list that a text is read as is cut into
/// parts, and each may be cut out as a piece: `may`. Its trees are then the text's pieces, spans
/// piece-relative: `trees`. So are those of its plain pieces and definitions: `members`.
pub fn pieces_are_those_of_the_bridge()
    ensures may { (text : List ℕ) (f : Forest) → IsUtf8 text → text_reading text ≡ Ok f →
        All StandsBehindFirst (cut f) }
    ensures trees { (text : List ℕ) (f : Forest) → text_reading text ≡ Ok f →
        map piece_of (cut f) ≡ map (λ p. record { delimiter = text_top; inner = relative p })
        (pieces f) }
    ensures members { (layers : Layers) (depth : ℕ) (text : List ℕ) (f : Forest) →
        text_reading text ≡ Ok f →
        map own_tree (members layers depth f) ≡ map (λ p. (piece_of p).inner) (cut f) }
{
    bridge::laws::reading_is_a_relation();
    bridge::laws::tokens_follow_one_another();
}

/// A call that fails keeps its tokens, its argument unexpanded, before the expansion of what
/// follows.
pub fn a_failed_call_stays()
    ensures { (world : World Definition) (scope : List ℕ →
        Option Definition) (depth : ℕ) (outer : Option Span) (f passed : Forest) (c : Call)
        (d : Definition) →
        call_at f ≡ Some c → scope (key_at f c) ≡ Some d →
        Fails (world.broken d) depth (world.fit d c.argument) → f ≡ joined passed c.rest →
        (expansion world scope depth outer f).steps ≡ placed outer (walk passed)
        ++ (expansion world scope depth outer c.rest).steps }
{}

/// A list is parted at no call after a group, whatever follows: `groups`; and before a call, if no
/// `::` is there: `calls`.
pub fn where_lists_are_parted()
    ensures groups { (front : Forest) (d : Delimiter) (inner rest : Forest) →
        IsParted (joined front (group d inner empty)) rest }
    ensures calls { (front rest : Forest) (c : Call) → call_at rest ≡ Some c →
        ((f : Forest) (p q : Punct) → front
        ≡ joined f (leaf (as_leaf.Punct p) (leaf (as_leaf.Punct q) empty)) → is_colons p q ≡ false)
        → IsParted front rest }
{}

/// A list that is parted at no call is expanded part by part: events, faults and look-ups of the
/// front are followed by those of the rest: `lists`. A group at the front is expanded inside its
/// delimiters: `groups`.
pub fn expansions_part_by_part()
    ensures lists { (world : World Definition) (scope : List ℕ →
        Option Definition) (depth : ℕ) (outer : Option Span) (front rest : Forest) →
        IsParted front rest →
        expansion world scope depth outer (joined front rest)
        ≡ followed_by (expansion world scope depth outer front)
        (expansion world scope depth outer rest) }
    ensures groups { (world : World Definition) (scope : List ℕ →
        Option Definition) (depth : ℕ) (outer : Option Span) (d : Delimiter)
        (inner rest : Forest) →
        expansion world scope depth outer (group d inner rest)
        ≡ followed_by (grouped outer d (expansion world scope depth outer inner))
        (expansion world scope depth outer rest) }
{}

/// A call that fails keeps its tokens wherever it is in a list, between the expansions of what is
/// before and after it: `steps`. It has one fault, which says why it failed, at its name or at
/// that of the outermost call that was expanded around it: `faults`. Of the names in it only its
/// own is looked up: `finds`.
pub fn a_failed_call_stays_anywhere()
    ensures steps { (world : World Definition) (scope : List ℕ →
        Option Definition) (depth : ℕ) (outer : Option Span) (front passed : Forest) (c : Call)
        (d : Definition) →
        call_at (joined passed c.rest) ≡ Some c → scope (key_at (joined passed c.rest) c)
        ≡ Some d → Fails (world.broken d) depth (world.fit d c.argument) →
        IsParted front (joined passed c.rest) →
        (expansion world scope depth outer (joined front (joined passed c.rest))).steps
        ≡ (expansion world scope depth outer front).steps
        ++ (placed outer (walk passed) ++ (expansion world scope depth outer c.rest).steps) }
    ensures faults { (world : World Definition) (scope : List ℕ →
        Option Definition) (depth : ℕ) (outer : Option Span) (front passed : Forest) (c : Call)
        (d : Definition) →
        call_at (joined passed c.rest) ≡ Some c → scope (key_at (joined passed c.rest) c)
        ≡ Some d → Fails (world.broken d) depth (world.fit d c.argument) →
        IsParted front (joined passed c.rest) →
        (expansion world scope depth outer (joined front (joined passed c.rest))).faults
        ≡ (expansion world scope depth outer front).faults
        ++ (why_failed (world.broken d) depth, unwrap_or outer c.name.span)
        ∷ (expansion world scope depth outer c.rest).faults }
    ensures finds { (world : World Definition) (scope : List ℕ →
        Option Definition) (depth : ℕ) (outer : Option Span) (front passed : Forest) (c : Call)
        (d : Definition) →
        call_at (joined passed c.rest) ≡ Some c → scope (key_at (joined passed c.rest) c)
        ≡ Some d → Fails (world.broken d) depth (world.fit d c.argument) →
        IsParted front (joined passed c.rest) →
        (expansion world scope depth outer (joined front (joined passed c.rest))).finds
        ≡ (expansion world scope depth outer front).finds
        ++ (key_at (joined passed c.rest) c, Some d)
        ∷ (expansion world scope depth outer c.rest).finds }
{}

/// If no piece is a definition, and names find pieces of texts alone, the output is the walk of
/// the pieces, and no fault comes of expansion, whatever the layers below answer: `output`,
/// `faults`. By either scope that is so if no definition keyword is anywhere: `wordless_output`,
/// `wordless_faults`. Conditions leave nothing out.
pub fn without_definitions_nothing_changes()
    ensures output { (layers : Layers) (depth : ℕ) (f : Forest) →
        layers.world.dialect.scope ≡ TopLevel → layers.world.dialect.cfg ≡ None →
        AreAllPlain (cut f) →
        flat_map output_of (members_after layers depth [] (cut f)) ≡ placed None (walk f) }
    ensures faults { (layers : Layers) (depth : ℕ) (f : Forest) →
        layers.world.dialect.scope ≡ TopLevel → layers.world.dialect.cfg ≡ None →
        AreAllPlain (cut f) →
        flat_map (member_faults layers) (members_after layers depth [] (cut f)) ≡ [] }
    ensures wordless_output { (layers : Layers) (depth : ℕ) (f : Forest) →
        layers.world.dialect.cfg ≡ None → HasNoWord f →
        flat_map output_of (members_after layers depth [] (cut f)) ≡ placed None (walk f) }
    ensures wordless_faults { (layers : Layers) (depth : ℕ) (f : Forest) →
        layers.world.dialect.cfg ≡ None → HasNoWord f →
        flat_map (member_faults layers) (members_after layers depth [] (cut f)) ≡ [] }
{}

/// Trees without a definition keyword have no definition.
pub fn definitions_begin_with_their_keywords()
    ensures { (f : Forest) → HasNoWord f → AreAllPlain (pieces f) }
{}

/// A text that was read has no fault if it has no definition keyword, conditions leave nothing out,
/// and each of its tokens has a spelling.
pub fn quiet_texts_have_no_fault()
    ensures { (layers : Layers) (depth : ℕ) (f : Forest) →
        layers.world.dialect.cfg ≡ None → HasNoWord f →
        left_out layers.spelling (output (members layers depth f)) ≡ [] →
        faults_of layers (members layers depth f) ≡ [] }
{}

/// A text of fewer than 2^31 bytes that was read has no fault if it has no definition keyword:
/// each of its tokens has a spelling: `short`. So it is for a text of fewer than 2^32 bytes once
/// each `"` and `\` of it is escaped: `escaped_text`. A text of any length has none exactly if each
/// name and literal is displayed in fewer than 2^32 bytes: `exact`. (A longer one is in no text, so
/// it cannot be printed. The escapes of a doc comment could make one of a shorter text.) Conditions
/// leave nothing out.
pub fn no_fault_without_definition_keywords()
    ensures short { (grammar : Grammar) (edition : Edition) (dialect : Dialect) →
        dialect.cfg ≡ None → (depth : ℕ) (text : List ℕ) (f : Forest) (m : ReadMeaning) →
        IsUtf8 text → length text < 2 ^ 31 → text_reading text ≡ Ok f → HasNoWord f →
        meaning (layers grammar edition dialect) depth text ≡ Ok m → m.faults ≡ [] }
    ensures escaped_text { (grammar : Grammar) (edition : Edition) (dialect : Dialect) →
        dialect.cfg ≡ None → (depth : ℕ) (text : List ℕ) (f : Forest) (m : ReadMeaning) →
        IsUtf8 text → length (escaped text) < 2 ^ 32 → text_reading text ≡ Ok f → HasNoWord f →
        meaning (layers grammar edition dialect) depth text ≡ Ok m → m.faults ≡ [] }
    ensures exact { (grammar : Grammar) (edition : Edition) (dialect : Dialect) →
        dialect.cfg ≡ None → (depth : ℕ) (text : List ℕ) (f : Forest) (m : ReadMeaning) →
        IsUtf8 text → text_reading text ≡ Ok f → HasNoWord f →
        meaning (layers grammar edition dialect) depth text ≡ Ok m →
        (m.faults ≡ []) ↔ AreShort (walk f) }
{
    bridge::laws::reading_is_a_relation();
    bridge::laws::read_texts_are_printed_whole();
    bridge::laws::short_leaves_are_printed();
}

/// Without definitions of other texts each printed token comes from the text itself, so the
/// origin of each is in it.
pub fn printed_tokens_are_the_texts_own()
    ensures { (grammar : Grammar) (edition : Edition) (dialect : Dialect) (depth : ℕ)
        (text : List ℕ) (m : ReadMeaning) →
        IsUtf8 text → meaning (layers grammar edition dialect) depth text ≡ Ok m →
        All (λ n. n ≡ 0) (map origin_text m.tokens) }
{
    equal_pieces();
    mbe_rules::laws::rules_at_other_places();
    mbe::laws::fit_at_other_places();
    mbe::laws::bursts_at_other_places();
    bridge::laws::reading_is_a_relation();
    bridge::laws::tokens_follow_one_another();
    bridge::laws::tokens_are_written();
}

/// Faultless output is a fixed point. If a text means an expansion without a fault, after whatever
/// definitions of other texts, the printed text is read, has no definition, and by itself means
/// just the same bytes, without a fault, under every grammar, edition, dialect without `cfg` and
/// number of levels.
pub fn faultless_output_is_a_fixed_point()
    ensures { (grammar : Grammar) (edition : Edition) (dialect : Dialect) (depth : ℕ)
        (initial : List Definition) (text : List ℕ) (m : ReadMeaning) →
        meaning_in (layers grammar edition dialect) depth initial text ≡ Ok m →
        m.faults ≡ [] → IsFixedPoint m.text }
{
    bridge::laws::reading_is_a_relation();
    bridge::laws::printed_text_reads_back();
}

/// So it is for replies. Any reply to what a reply without faults printed, of a session without a
/// prelude, with any grammar, edition, dialect without `cfg`, number of levels and cache, prints the
/// same bytes without a fault. (With a prelude it need not: what a call printed may be a call together with
/// what follows it, once both are read again.)
pub fn faultless_replies_are_fixed_points()
    ensures { (grammar : Grammar) (edition : Edition) (dialect : Dialect) (depth : ℕ)
        (initial : List Definition) (text : List ℕ) (earlier : Option (List Looked))
        (e : Expanded) →
        IsReplyIn (layers grammar edition dialect) depth initial text earlier (Read e) →
        e.faults ≡ [] →
        (others : Grammar) (later : Edition) (rules : Dialect) → rules.cfg ≡ None → (levels : ℕ)
        (held : Option (List Looked)) (reply : Reply) →
        IsReplyTo (layers others later rules) levels e.printed held reply →
        RepliesWith e.printed reply }
{
    faultless_output_is_a_fixed_point();
}

/// An expansion depends on its look-ups, and on nothing else of a scope: events, faults and
/// look-ups are the same under another scope in which each finds the same. Look-ups are what the
/// scope finds, so the result is the same under the scope made of them.
pub fn expansions_depend_on_lookups_alone()
    ensures agreed { (world : World Definition) (scope others : List ℕ →
        Option Definition) (depth : ℕ) (outer : Option Span) (f : Forest) →
        FoundIn others (expansion world scope depth outer f).finds →
        expansion world others depth outer f ≡ expansion world scope depth outer f }
    ensures found { (world : World Definition) (scope : List ℕ →
        Option Definition) (depth : ℕ) (outer : Option Span) (f : Forest) →
        FoundIn scope (expansion world scope depth outer f).finds }
    ensures kept { (world : World Definition) (scope : List ℕ →
        Option Definition) (depth : ℕ) (outer : Option Span) (f : Forest) →
        expansion world (scope_of (expansion world scope depth outer f).finds) depth outer f
        ≡ expansion world scope depth outer f }
{}

/// Under a span map that commutes with the marker of templates, a definition stays one, and an
/// expansion gives the same events, faults and look-ups with mapped spans, and too many tokens
/// exactly where it did.
pub fn expansions_at_other_spans()
    ensures definitions { (f : Span → Span) (piece : Forest) → definition_of (map_spans f piece)
        ≡ option_map (definition_with f) (definition_of piece) }
    ensures expansions { (grammar : Grammar) (edition : Edition) (dialect : Dialect)
        (f : Span → Span) →
        CommutesWithMarker f →
        (scope : List ℕ → Option Definition) (depth : ℕ) (outer : Option Span) (g : Forest) →
        expansion (world grammar edition dialect)
        (λ name. option_map (definition_with f) (scope name))
        depth (option_map f outer) (map_spans f g)
        ≡ outcome_with f (definition_with f)
        (expansion (world grammar edition dialect) scope depth outer g) }
{
    mbe_rules::laws::rules_at_other_places();
    mbe::laws::fit_at_other_places();
    mbe::laws::bursts_at_other_places();
}

/// The pieces of a text that was read are those with piece-relative spans, each expanded so under
/// definitions with ids, and then shifted to the text. Equal definitions have one id, and
/// different ones different ids.
fn pieces_at_relative_spans()
    ensures { (grammar : Grammar) (edition : Edition) (dialect : Dialect) (depth : ℕ)
        (text : List ℕ) (f : Forest) (number_of : Forest → ℕ) →
        IsUtf8 text → text_reading text ≡ Ok f →
        TellsApart number_of (definition_trees (pieces f)) →
        members (layers grammar edition dialect) depth f
        ≡ map present (kept_after (world grammar edition dialect) depth number_of [] (pieces f)) }
{
    mbe_rules::laws::rules_at_other_places();
    mbe::laws::fit_at_other_places();
    mbe::laws::bursts_at_other_places();
    bridge::laws::reading_is_a_relation();
    bridge::laws::tokens_follow_one_another();
    bridge::laws::tokens_are_written();
}

/// A valid memo has the result that a new expansion has: `outcome`. It is valid exactly where the
/// count sees an equal piece: `counted`. A new expansion may be kept as a memo: `fresh`.
fn valid_memos_are_new_expansions()
    ensures outcome { (world : World Definition) (depth : ℕ) (number_of : Forest →
        ℕ) (trees : List Forest) (before : List Met) (tree : Forest) (q : HeldPiece) →
        TellsApart number_of trees → All (IsMet (Known number_of trees)) before →
        IsHeld world depth (Known number_of trees) q →
        matches (numbered_scope world.dialect before) tree q ≡ true → q.outcome
        ≡ expanded (numbered_world world) unnumbered (numbered_scope world.dialect before) depth
        tree }
    ensures counted { (world : World Definition) (depth : ℕ) (number_of : Forest →
        ℕ) (trees : List Forest) (before : List Met) (tree : Forest) (q : HeldPiece) →
        TellsApart number_of trees → All (IsMet (Known number_of trees)) before →
        IsHeld world depth (Known number_of trees) q →
        is_same (looked_at tree (expanded (numbered_world world) unnumbered
        (numbered_scope world.dialect before)
        depth tree)) (looked_held q) ≡ matches (numbered_scope world.dialect before) tree q }
    ensures fresh { (world : World Definition) (depth : ℕ) (number_of : Forest →
        ℕ) (trees : List Forest) (before : List Met) (tree : Forest) →
        All (IsMet (Known number_of trees)) before →
        IsHeld world depth (Known number_of trees) (record {
          tree = tree;
          outcome = expanded (numbered_world world) unnumbered (numbered_scope world.dialect before)
              depth tree;
        }) }
{
    equal_pieces();
}

/// Over a cache that is right, a text has its expansion, with results taken from valid memos:
/// `taken`. The count is that of plain pieces without a valid memo: `counted`. The cache after it
/// is right, and is what the next count sees: `held`, `looked`.
fn a_text_over_its_cache()
    ensures taken { (grammar : Grammar) (edition : Edition) (dialect : Dialect) (depth : ℕ)
        (text : List ℕ) (f : Forest) (number_of : Forest → ℕ) (trees : List Forest)
        (held : List HeldPiece) →
        IsTurn (world grammar edition dialect) depth text f number_of trees held →
        members (layers grammar edition dialect) depth f
        ≡ map present (taken_after (world grammar edition dialect) depth number_of held []
        (pieces f)) }
    ensures counted { (grammar : Grammar) (edition : Edition) (dialect : Dialect) (depth : ℕ)
        (text : List ℕ) (f : Forest) (number_of : Forest → ℕ) (trees : List Forest)
        (held : List HeldPiece) →
        IsTurn (world grammar edition dialect) depth text f number_of trees held →
        expanded_count (Some (map looked_held held))
        (looked_of (members (layers grammar edition dialect) depth f))
        ≡ length (filter (is_unmatched dialect held)
        (taken_after (world grammar edition dialect) depth number_of held [] (pieces f))) }
    ensures held { (grammar : Grammar) (edition : Edition) (dialect : Dialect) (depth : ℕ)
        (text : List ℕ) (f : Forest) (number_of : Forest → ℕ) (trees : List Forest)
        (held : List HeldPiece) →
        IsTurn (world grammar edition dialect) depth text f number_of trees held →
        All (IsHeld (world grammar edition dialect) depth (Known number_of trees))
        (filter_map held_of (taken_after (world grammar edition dialect) depth number_of held []
        (pieces f))) }
    ensures looked { (grammar : Grammar) (edition : Edition) (dialect : Dialect) (depth : ℕ)
        (text : List ℕ) (f : Forest) (number_of : Forest → ℕ) (trees : List Forest)
        (held : List HeldPiece) →
        IsTurn (world grammar edition dialect) depth text f number_of trees held →
        looked_of (members (layers grammar edition dialect) depth f)
        ≡ map looked_held (filter_map held_of
        (taken_after (world grammar edition dialect) depth number_of held [] (pieces f))) }
{
    mbe_rules::laws::rules_at_other_places();
    mbe::laws::fit_at_other_places();
    mbe::laws::bursts_at_other_places();
    bridge::laws::reading_is_a_relation();
    bridge::laws::tokens_follow_one_another();
    bridge::laws::tokens_are_written();
    equal_pieces();
}

/// Against its own pieces a text has no cache miss.
pub fn a_text_matches_itself()
    ensures { (ps : List Looked) → expanded_count (Some ps) ps ≡ 0 }
{
    equal_pieces();
}

/// A second reply without an edit before it shows the same as the first, and its count is 0.
pub fn a_second_reply_expands_nothing<G: FragmentGrammar>()
    ensures { (old new newer : State G) (e : Expanded) (reply : Reply) →
        Replies (layers_of G.answer old) old new (Read e) →
        Replies (layers_of G.answer new) new newer reply →
        ShowTheSame (Read e) reply × ExpandsNothing reply }
{
    equal_pieces();
}

/// A piece is no cache miss if an earlier one has the same tree and the same look-ups: each name
/// that one of them looked up was looked up by the other, and found an equal definition, or none
/// in both.
pub fn equal_lookups_are_cache_hits()
    ensures { (held ps : List Looked) (p q : Looked) → Contains held q → p.tree ≡ q.tree →
        finds_within p.finds q.finds ≡ true → finds_within q.finds p.finds ≡ true →
        expanded_count (Some held) (p ∷ ps) ≡ expanded_count (Some held) ps }
{
    equal_pieces();
}

/// A piece is no cache miss if its tree is that of a piece of the earlier text, and each look-up
/// of that one finds an equal definition, or none as it did, among the definitions that now
/// precede the piece: `piece`. So the cache misses are those before it and after it: `others`, and
/// `replied` for a session that last read the earlier text.
pub fn unchanged_lookups_are_cache_hits()
    ensures piece { (grammar : Grammar) (edition : Edition) (dialect : Dialect) (depth : ℕ)
        (text other : List ℕ) (f g p q : Forest) (ones twos more_ones more_twos : List Forest) →
        IsUtf8 text → IsUtf8 other → text_reading text ≡ Ok f → text_reading other ≡ Ok g →
        pieces f ≡ ones ++ p ∷ more_ones → pieces g ≡ twos ++ q ∷ more_twos → relative p
        ≡ relative q →
        FindsAsBefore (found_in dialect (definitions_after [] twos))
        (expanded (world grammar edition dialect) (λ d.
        d) (found_in dialect (definitions_after [] ones))
        depth p).finds →
        expanded_count (Some (looked_of (members (layers grammar edition dialect) depth f)))
        (looked_of (members_after (layers grammar edition dialect) depth
        (definitions_after [] twos) (q ∷ []))) ≡ 0 }
    ensures others { (grammar : Grammar) (edition : Edition) (dialect : Dialect) (depth : ℕ)
        (text other : List ℕ) (f g p q : Forest) (ones twos more_ones more_twos : List Forest) →
        IsUtf8 text → IsUtf8 other → text_reading text ≡ Ok f → text_reading other ≡ Ok g →
        pieces f ≡ ones ++ p ∷ more_ones → pieces g ≡ twos ++ q ∷ more_twos → relative p
        ≡ relative q →
        FindsAsBefore (found_in dialect (definitions_after [] twos))
        (expanded (world grammar edition dialect) (λ d.
        d) (found_in dialect (definitions_after [] ones))
        depth p).finds →
        expanded_count (Some (looked_of (members (layers grammar edition dialect) depth f)))
        (looked_of (members (layers grammar edition dialect) depth g))
        ≡ expanded_count (Some (looked_of (members (layers grammar edition dialect) depth f)))
        (looked_of (members_after (layers grammar edition dialect) depth [] twos))
        + expanded_count (Some (looked_of (members (layers grammar edition dialect) depth f)))
        (looked_of (members_after (layers grammar edition dialect) depth
        (definitions_after [] (twos ++ q ∷ [])) more_twos)) }
    ensures replied { (grammar : Grammar) (edition : Edition) (dialect : Dialect) (depth : ℕ)
        (text other : List ℕ) (f g p q : Forest) (ones twos more_ones more_twos : List Forest)
        (e : Expanded) →
        IsUtf8 text → IsUtf8 other → text_reading text ≡ Ok f → text_reading other ≡ Ok g →
        pieces f ≡ ones ++ p ∷ more_ones → pieces g ≡ twos ++ q ∷ more_twos → relative p
        ≡ relative q →
        FindsAsBefore (found_in dialect (definitions_after [] twos))
        (expanded (world grammar edition dialect) (λ d.
        d) (found_in dialect (definitions_after [] ones))
        depth p).finds →
        IsReplyTo (layers grammar edition dialect) depth other
        (Some (looked_of (members (layers grammar edition dialect) depth f))) (Read e) →
        e.expanded
        ≡ expanded_count (Some (looked_of (members (layers grammar edition dialect) depth f)))
        (looked_of (members_after (layers grammar edition dialect) depth [] twos))
        + expanded_count (Some (looked_of (members (layers grammar edition dialect) depth f)))
        (looked_of (members_after (layers grammar edition dialect) depth
        (definitions_after [] (twos ++ q ∷ [])) more_twos)) }
{
    mbe_rules::laws::rules_at_other_places();
    mbe::laws::fit_at_other_places();
    mbe::laws::bursts_at_other_places();
    bridge::laws::reading_is_a_relation();
    bridge::laws::tokens_follow_one_another();
    bridge::laws::tokens_are_written();
    equal_pieces();
}

/// If two texts begin with the same pieces, spans piece-relative, as before a definition that is
/// added, changed or removed, these are no cache misses: `front`. All cache misses are after them:
/// `behind`.
pub fn pieces_before_a_change_are_cache_hits()
    ensures front { (grammar : Grammar) (edition : Edition) (dialect : Dialect) (depth : ℕ)
        (text other : List ℕ) (f g : Forest) (ones twos more_ones more_twos : List Forest) →
        IsUtf8 text → IsUtf8 other → text_reading text ≡ Ok f → text_reading other ≡ Ok g →
        pieces f ≡ ones ++ more_ones → pieces g ≡ twos ++ more_twos → map relative ones
        ≡ map relative twos →
        expanded_count (Some (looked_of (members (layers grammar edition dialect) depth f)))
        (looked_of (members_after (layers grammar edition dialect) depth [] twos)) ≡ 0 }
    ensures behind { (grammar : Grammar) (edition : Edition) (dialect : Dialect) (depth : ℕ)
        (text other : List ℕ) (f g : Forest) (ones twos more_ones more_twos : List Forest) →
        IsUtf8 text → IsUtf8 other → text_reading text ≡ Ok f → text_reading other ≡ Ok g →
        pieces f ≡ ones ++ more_ones → pieces g ≡ twos ++ more_twos → map relative ones
        ≡ map relative twos →
        expanded_count (Some (looked_of (members (layers grammar edition dialect) depth f)))
        (looked_of (members (layers grammar edition dialect) depth g))
        ≡ expanded_count (Some (looked_of (members (layers grammar edition dialect) depth f)))
        (looked_of (members_after (layers grammar edition dialect) depth
        (definitions_after [] twos) more_twos)) }
{
    mbe_rules::laws::rules_at_other_places();
    mbe::laws::fit_at_other_places();
    mbe::laws::bursts_at_other_places();
    bridge::laws::reading_is_a_relation();
    bridge::laws::tokens_follow_one_another();
    bridge::laws::tokens_are_written();
    equal_pieces();
}

/// If two texts have the same pieces, spans piece-relative, as when they differ in white space and
/// comments between them, none is a cache miss: `counted`. A session that last read the one
/// expands nothing for the other: `replied`.
pub fn equal_pieces_are_cache_hits()
    ensures counted { (grammar : Grammar) (edition : Edition) (dialect : Dialect) (depth : ℕ)
        (text other : List ℕ) (f g : Forest) →
        IsUtf8 text → IsUtf8 other → text_reading text ≡ Ok f → text_reading other ≡ Ok g →
        map relative (pieces f) ≡ map relative (pieces g) →
        expanded_count (Some (looked_of (members (layers grammar edition dialect) depth f)))
        (looked_of (members (layers grammar edition dialect) depth g)) ≡ 0 }
    ensures replied { (grammar : Grammar) (edition : Edition) (dialect : Dialect) (depth : ℕ)
        (text other : List ℕ) (f g : Forest) (reply : Reply) →
        IsUtf8 text → IsUtf8 other → text_reading text ≡ Ok f → text_reading other ≡ Ok g →
        map relative (pieces f) ≡ map relative (pieces g) →
        IsReplyTo (layers grammar edition dialect) depth other
        (Some (looked_of (members (layers grammar edition dialect) depth f))) reply →
        ExpandsNothing reply }
{
    mbe_rules::laws::rules_at_other_places();
    mbe::laws::fit_at_other_places();
    mbe::laws::bursts_at_other_places();
    bridge::laws::reading_is_a_relation();
    bridge::laws::tokens_follow_one_another();
    bridge::laws::tokens_are_written();
    equal_pieces();
}

/// Each piece, spans piece-relative, is what its tokens are read as by themselves, from its first
/// to its last: `read`. So if the pieces of two texts are written in the same tokens, in order,
/// the pieces are the same: `same`. Then none is a cache miss: `counted`, `replied`.
pub fn pieces_depend_on_tokens_alone()
    ensures read { (text : List ℕ) (f : Forest) → IsUtf8 text → text_reading text ≡ Ok f →
        All (λ p. (k : Forest) × (reading (steps_of (written_in text p)) ≡ Ok k)
        × (relative p ≡ separated k)) (pieces f) }
    ensures same { (text other : List ℕ) (f g : Forest) →
        IsUtf8 text → IsUtf8 other → text_reading text ≡ Ok f → text_reading other ≡ Ok g →
        map (written_in text) (pieces f) ≡ map (written_in other) (pieces g) →
        map relative (pieces f) ≡ map relative (pieces g) }
    ensures counted { (grammar : Grammar) (edition : Edition) (dialect : Dialect) (depth : ℕ)
        (text other : List ℕ) (f g : Forest) →
        IsUtf8 text → IsUtf8 other → text_reading text ≡ Ok f → text_reading other ≡ Ok g →
        map (written_in text) (pieces f) ≡ map (written_in other) (pieces g) →
        expanded_count (Some (looked_of (members (layers grammar edition dialect) depth f)))
        (looked_of (members (layers grammar edition dialect) depth g)) ≡ 0 }
    ensures replied { (grammar : Grammar) (edition : Edition) (dialect : Dialect) (depth : ℕ)
        (text other : List ℕ) (f g : Forest) (reply : Reply) →
        IsUtf8 text → IsUtf8 other → text_reading text ≡ Ok f → text_reading other ≡ Ok g →
        map (written_in text) (pieces f) ≡ map (written_in other) (pieces g) →
        IsReplyTo (layers grammar edition dialect) depth other
        (Some (looked_of (members (layers grammar edition dialect) depth f))) reply →
        ExpandsNothing reply }
{
    bridge::laws::reading_is_a_relation();
    rustc_lexer::laws::token_lengths();
    equal_pieces_are_cache_hits();
}

/// White space and plain comments may change before, between and after pieces. The tokens of a
/// text that was read are those of its pieces in order, with only trivia around them: `own`. Any
/// other text whose tokens spell the same pieces so is read too, and has the same pieces, spans
/// piece-relative: `read`. None is a cache miss: `counted`, `replied`.
pub fn trivia_between_pieces_is_free()
    ensures own { (text : List ℕ) (f : Forest) → IsUtf8 text → text_reading text ≡ Ok f →
        AreWords (map (written_in text) (pieces f)) (placed_tokens text) }
    ensures read { (text other : List ℕ) (f : Forest) → IsUtf8 text → text_reading text ≡ Ok f →
        AreWords (map (written_in text) (pieces f)) (placed_tokens other) →
        (g : Forest) × (text_reading other ≡ Ok g)
        × (map relative (pieces f) ≡ map relative (pieces g)) }
    ensures counted { (grammar : Grammar) (edition : Edition) (dialect : Dialect) (depth : ℕ)
        (text other : List ℕ) (f g : Forest) →
        IsUtf8 text → IsUtf8 other → text_reading text ≡ Ok f → text_reading other ≡ Ok g →
        AreWords (map (written_in text) (pieces f)) (placed_tokens other) →
        expanded_count (Some (looked_of (members (layers grammar edition dialect) depth f)))
        (looked_of (members (layers grammar edition dialect) depth g)) ≡ 0 }
    ensures replied { (grammar : Grammar) (edition : Edition) (dialect : Dialect) (depth : ℕ)
        (text other : List ℕ) (f : Forest) (reply : Reply) →
        IsUtf8 text → IsUtf8 other → text_reading text ≡ Ok f →
        AreWords (map (written_in text) (pieces f)) (placed_tokens other) →
        IsReplyTo (layers grammar edition dialect) depth other
        (Some (looked_of (members (layers grammar edition dialect) depth f))) reply →
        ExpandsNothing reply }
{
    bridge::laws::reading_is_a_relation();
    bridge::laws::parts_of_a_text();
    bridge::laws::parts_at_other_places();
    rustc_lexer::laws::token_lengths();
    equal_pieces_are_cache_hits();
}

/// A reply to a text of fewer than 2^31 bytes has no fault if the text has no definition keyword:
/// `short`. So it is for a text of fewer than 2^32 bytes once each `"` and `\` of it is escaped:
/// `escaped_text`. Conditions leave nothing out.
pub fn replies_without_definition_keywords_have_no_fault()
    ensures short { (grammar : Grammar) (edition : Edition) (dialect : Dialect) →
        dialect.cfg ≡ None → (depth : ℕ) (text : List ℕ) (f : Forest)
        (earlier : Option (List Looked)) (e : Expanded) →
        IsUtf8 text → length text < 2 ^ 31 → text_reading text ≡ Ok f → HasNoWord f →
        IsReplyTo (layers grammar edition dialect) depth text earlier (Read e) → e.faults ≡ [] }
    ensures escaped_text { (grammar : Grammar) (edition : Edition) (dialect : Dialect) →
        dialect.cfg ≡ None → (depth : ℕ) (text : List ℕ) (f : Forest)
        (earlier : Option (List Looked)) (e : Expanded) →
        IsUtf8 text → length (escaped text) < 2 ^ 32 → text_reading text ≡ Ok f → HasNoWord f →
        IsReplyTo (layers grammar edition dialect) depth text earlier (Read e) → e.faults ≡ [] }
{
    no_fault_without_definition_keywords();
}

/// The definitions among a text's members, spans piece-relative, are those among its pieces.
pub fn definitions_are_pieces()
    ensures { (layers : Layers) (depth : ℕ) (f : Forest) → trees_in (members layers depth f)
        ≡ definition_trees (pieces f) }
{}

/// Ids that are given in turn tell trees apart: each entry has its own: `apart`, `entries`. Trees
/// that get ids are among the entries, those that had one keep it, and as many new ones are given
/// as are needed: `known`, `kept`, `given`.
fn ids_tell_trees_apart()
    ensures apart { (n : Numbering) → AreEntries n.given n.entries →
        TellsApart (number_of n.entries) (map tree_of n.entries) }
    ensures entries { (n : Numbering) (trees : List Forest) → AreEntries n.given n.entries →
        AreEntries (with_trees n trees).given (with_trees n trees).entries }
    ensures known { (n : Numbering) (trees : List Forest) →
        All (Contains (map tree_of (with_trees n trees).entries)) trees }
    ensures kept { (n : Numbering) (trees : List Forest) (t : Forest) (k : ℕ) →
        number_in n.entries t ≡ Some k → number_in (with_trees n trees).entries t ≡ Some k }
    ensures given { (n : Numbering) (trees : List Forest) → (with_trees n trees).given
        ≡ n.given + needed (map tree_of n.entries) trees }
{
    equal_pieces();
}

/// A session that has given no id yet, as a new one, over a prelude and a text that have fewer than
/// 2^32 definitions and bytes together, never refuses with `Numbers`.
pub fn a_first_reply_lacks_no_ids<G: FragmentGrammar>()
    ensures { (s : State G) → IsUtf8 s.text → length s.prelude + length s.text < 2 ^ 32 → s.given
        ≡ 0 → s.trees ≡ [] →
        HasCause (layers_of G.answer s) s Numbers → ⊥ }
{
    definitions_are_no_more_than_bytes();
}

/// The cache stays right from one text that was read to the next, with the ids of the present
/// text's definitions: `turn`, `held`, `entries`.
fn caches_stay_valid()
    ensures turn { (grammar : Grammar) (edition : Edition) (dialect : Dialect) (depth : ℕ)
        (n : Numbering) (held : List HeldPiece) (text : List ℕ) (f : Forest) →
        IsNext (world grammar edition dialect) depth n held text f →
        IsTurn (world grammar edition dialect) depth text f (number_of (numbering_of n f).entries)
        (map tree_of (numbering_of n f).entries) held }
    ensures held { (grammar : Grammar) (edition : Edition) (dialect : Dialect) (depth : ℕ)
        (n : Numbering) (held : List HeldPiece) (text : List ℕ) (f : Forest) →
        IsNext (world grammar edition dialect) depth n held text f →
        All (IsHeld (world grammar edition dialect) depth (InEntries (kept_entries n f)))
        (filter_map held_of (taken_after (world grammar edition dialect) depth
        (number_of (numbering_of n f).entries) held [] (pieces f))) }
    ensures entries { (grammar : Grammar) (edition : Edition) (dialect : Dialect) (depth : ℕ)
        (n : Numbering) (held : List HeldPiece) (text : List ℕ) (f : Forest) →
        IsNext (world grammar edition dialect) depth n held text f →
        AreEntries (numbering_of n f).given (kept_entries n f) }
{
    mbe_rules::laws::rules_at_other_places();
    mbe::laws::fit_at_other_places();
    mbe::laws::bursts_at_other_places();
    bridge::laws::reading_is_a_relation();
    bridge::laws::tokens_follow_one_another();
    bridge::laws::tokens_are_written();
    equal_pieces();
}

/// Sorted faults are the same faults, each as often, and none comes before the one that it
/// follows.
pub fn faults_are_put_in_order()
    ensures same { (faults : List Fault) → IsPermutation faults (in_order faults) }
    ensures sorted { (faults : List Fault) → IsSortedBy comes_before (in_order faults) }
{}

/// Only the present text decides. If two lists of commands lead to one text, whatever came before,
/// and both sessions then expand it and reply, the replies show the same printed text, faults and
/// origins, or the same reading fault.
pub fn the_text_alone_decides()
    ensures { (layers : Layers) (depth : ℕ) (one two : List ℕ) (ones twos : List Command)
        (first second : List Answer) (reply other : Reply) →
        AreAnswers layers depth one [] (ones ++ Expand ∷ []) (first ++ Replied reply ∷ []) →
        AreAnswers layers depth two [] (twos ++ Expand ∷ []) (second ++ Replied other ∷ []) →
        last_text one ones first ≡ last_text two twos second → ShowTheSame reply other }
{}

/// So it is for the calls of sessions. If two sessions answer by equal layers with as many levels,
/// after the same prelude, and have one text after any edits and replies, their replies show the
/// same.
pub fn one_text_of_two_sessions_decides<G: FragmentGrammar>()
    ensures { (one two first second after behind : State G) (calls others : List SessionCall)
        (reply other : Reply) →
        layers_of G.answer one ≡ layers_of G.answer two → one.depth ≡ two.depth → one.prelude
        ≡ two.prelude →
        IsAfter G.answer one calls first → IsAfter G.answer two others second → first.text
        ≡ second.text →
        Replies (layers_of G.answer first) first after reply →
        Replies (layers_of G.answer second) second behind other → ShowTheSame reply other }
{}

/// Two answers are equal by `==` exactly where they are the same, ranges included.
pub fn equal_answers()
    ensures fault_kinds { (a b : FaultKind) → (⟦<FaultKind as PartialEq>⟧.eq a b ≡ true) ↔ (a ≡ b) }
    ensures faults { (a b : Fault) → (⟦<Fault as PartialEq>⟧.eq a b ≡ true) ↔ (a ≡ b) }
    ensures refusals { (a b : Refusal) → (⟦<Refusal as PartialEq>⟧.eq a b ≡ true) ↔ (a ≡ b) }
    ensures statuses { (a b : Status) → (⟦<Status as PartialEq>⟧.eq a b ≡ true) ↔ (a ≡ b) }
{}

/// A clone of an answer is the same answer.
pub fn cloned_answers()
    ensures fault_kinds { (a b : FaultKind) → ⟦<FaultKind as Clone>⟧.is_clone a b → b ≡ a }
    ensures faults { (a b : Fault) → ⟦<Fault as Clone>⟧.is_clone a b → b ≡ a }
    ensures refusals { (a b : Refusal) → ⟦<Refusal as Clone>⟧.is_clone a b → b ≡ a }
    ensures statuses { (a b : Status) → ⟦<Status as Clone>⟧.is_clone a b → b ≡ a }
{}
