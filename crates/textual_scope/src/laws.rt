//! Laws of scopes. Calling a law does nothing: its contract is the statement.
ghost use Rattle.std.specs.Prelude.{◌≡◌, ℕ, ◌<◌, ◌≤◌, All, Bool, false, List, [], ◌++◌, Option};
ghost use Rattle.std.specs.Prelude.{Some, None, Ok};
ghost use Rattle.tt_data.specs.Forest.{Forest, map_spans, size};
ghost use Rattle.tt_data.specs.Literals.{LiteralParts};
ghost use Rattle.tt_data.specs.declared.span.Span.{Span};
ghost use Rattle.expander_model.specs.Changes.{Changes, ScopeChange};
ghost use Rattle.expander_model.specs.Dialects.{top_level};
ghost use Rattle.expander_model.specs.Definitions.{Definition, after_attribute, definition_of};
ghost use Rattle.expander_model.specs.Expansion.{CallSite, World, expansion, just};
ghost use Rattle.expander_model.specs.Meaning.{Layers, meaning_in};
ghost use Rattle.expander_model.specs.OtherPlaces.{definition_with};
ghost use Rattle.expander_model.specs.Pieces.{pieces};
ghost use Rattle.expander_model.specs.cfg_options.Conditions.{Options};
ghost use Rattle.expander_model.specs.WholeItems.{definition_under, is_configured_out};
ghost use Rattle.textual_scope.specs.Keywords.{AddsNoKeyword, HasNoKeyword, NestsNone};
ghost use Rattle.expander_model.specs.Limits.{Passed, noted, outermost, too_large, unnoted};
ghost use Rattle.expander_model.specs.declared.limits.Limits.{Limits};
ghost use Rattle.textual_scope.specs.ScopeChanges.{around_with, scoped_with};
ghost use Rattle.textual_scope.specs.TopLevelMeaning.{top_meaning};
ghost use Rattle.expander_model.specs.declared.scope_rules.Standing.{Standing};
ghost use Rattle.expander_model.specs.declared.scope_rules.Standing.TheVariants.{Top};
ghost use Rattle.expander_model.specs.Scoping.{Around, Expander, Scoped, Search, and_next, only};
ghost use Rattle.expander_model.specs.Scoping.{scoped, search_list, search_pieces, without_locals};
ghost use Rattle.expander_model.specs.declared.dialect.Dialect.{Dialect};
ghost use Rattle.expander_model.specs.declared.scope_rules.ScopeRules.TheVariants.{Rust};

/// Where no option is set a list is expanded as if no list had definitions, and defines nothing:
/// `lists`. A text means what it means where no list has them: `texts`.
pub fn top_level_scope_is_as_before()
    ensures lists { (world : World Definition) (local : Definition → Definition)
        (scope : List ℕ → Option Definition) (depth : ℕ) (standing : Standing)
        (outer : Option Span) (f : Forest) →
        scoped top_level world local scope depth (without_locals standing outer) f
        ≡ only (expansion world scope depth outer f) }
    ensures texts { (layers : Layers) (depth : ℕ) (initial : List Definition) (text : List ℕ) →
        layers.world.dialect ≡ top_level →
        meaning_in layers depth initial text ≡ top_meaning layers depth initial text }
{}

/// Where each `;` stays, nothing is left out and no fault is excused, trees without a definition
/// keyword are expanded by Rust's rules as if no list had definitions, and define nothing, if the
/// definitions in scope give none: `lists`. There, without limits, a text means by both rules what
/// it means where no list has definitions, if no piece of it but definitions has a keyword, and
/// they and those before it give none: `texts`.
pub fn without_keywords_both_rules_agree()
    ensures lists { (world : World Definition) (local : Definition → Definition)
        (scope : List ℕ → Option Definition) (depth : ℕ) (standing : Standing)
        (outer : Option Span) (f : Forest) →
        ((key : List ℕ) (d : Definition) → scope key ≡ Some d → AddsNoKeyword world d) →
        HasNoKeyword f →
        scoped (record { scope = Rust; items = false; cfg = None; limits = None; excuses = false })
        world local scope depth (without_locals standing outer) f
        ≡ only (expansion world scope depth outer f) }
    ensures texts { (layers : Layers) (depth : ℕ) (initial : List Definition) (text : List ℕ)
        (f : Forest) →
        layers.world.dialect.items ≡ false → layers.world.dialect.excuses ≡ false →
        layers.world.dialect.cfg ≡ None → layers.world.dialect.limits ≡ None →
        layers.read text ≡ Ok f →
        All (AddsNoKeyword layers.world) initial →
        All (λ p. NestsNone layers.world p (definition_of p)) (pieces f) →
        meaning_in layers depth initial text ≡ top_meaning layers depth initial text }
{}

/// An expansion depends on what its look-ups find outside of all lists, and on nothing else there.
pub fn expansions_depend_on_outer_lookups_alone()
    ensures { (dialect : Dialect) (world : World Definition) (local : Definition → Definition)
        (scope others : List ℕ → Option Definition) (depth : ℕ) (around : Around) (f : Forest) →
        All (λ find. others find.0 ≡ find.1)
        (scoped dialect world local scope depth around f).outcome.finds →
        scoped dialect world local others depth around f
        ≡ scoped dialect world local scope depth around f }
{}

/// A world is another with `f` applied to each span, and `h` to each definition that is looked up.
/// Then a list at spans that `f` gives is expanded as at its own, and `f` and `h` applied.
pub fn scoped_expansions_at_other_spans()
    ensures { (dialect : Dialect) (f : Span → Span) (h : Definition → Definition)
        (one two : World Definition) (local moved : Definition → Definition)
        (scope changed : List ℕ → Option Definition) (depth : ℕ) (around : Around) (g : Forest) →
        Changes f h one two → ScopeChange h scope changed →
        ((d : Definition) → moved (definition_with f d) ≡ h (local d)) →
        scoped dialect two moved changed depth (around_with f around) (map_spans f g)
        ≡ scoped_with f h (scoped dialect one local scope depth around g) }
{}

/// With more steps than a list has tokens a search of it gives the same, however many they are.
pub fn more_steps_change_nothing()
    ensures { (dialect : Dialect) (world : World Definition) (local : Definition → Definition)
        (scope : List ℕ → Option Definition) (deeper : Option (Expander Definition)) (n m : ℕ)
        (around : Around) (f : Forest) →
        size f < n → size f < m →
        search_list dialect world local scope deeper n around f
        ≡ search_list dialect world local scope deeper m around f }
{}

/// Of three results, one after another, it does not matter which two are put together first:
/// `three`. Nothing before or after a result changes it: `before`, `after`. The pieces of two
/// lists, one after another, are searched list by list: `lists`.
pub fn results_follow_one_another()
    ensures three { (a : Scoped Definition) (f g : Around → Scoped Definition) (around : Around) →
        and_next (and_next a f around) g around
        ≡ and_next a (λ here. and_next (f here) g here) around }
    ensures before { (outer : Option Span) (f : Around → Scoped Definition) (around : Around) →
        and_next (only (just outer [])) f around ≡ f around }
    ensures after { (a : Scoped Definition) (around : Around) →
        and_next a (λ here. only (just here.outer [])) around ≡ a }
    ensures lists { (dialect : Dialect) (world : World Definition)
        (local : Definition → Definition) (scope : List ℕ → Option Definition)
        (search : Search Definition) (deeper : Option (Expander Definition)) (around : Around)
        (front back : List Forest) →
        search_pieces dialect world local scope search deeper around (front ++ back)
        ≡ and_next (search_pieces dialect world local scope search deeper around front)
        (λ here. search_pieces dialect world local scope search deeper here back) around }
{}

/// A piece without an outer attribute at its beginning is not left out: `others`. A piece that is
/// not left out is the definition that it was, or none as before: `definitions`.
pub fn conditions_leave_other_pieces_alone()
    ensures others { (options : Options) (text : LiteralParts → Option (List ℕ)) (items : Bool)
        (piece : Forest) →
        after_attribute piece ≡ None → is_configured_out options text items piece ≡ false }
    ensures definitions { (options : Options) (text : LiteralParts → Option (List ℕ))
        (items : Bool) (piece : Forest) →
        is_configured_out options text items piece ≡ false →
        definition_under options text piece ≡ definition_of piece }
{}

/// With its notes left out, a noted expansion is the expansion.
pub fn notes_change_nothing()
    ensures { (dialect : Dialect) (world : World Definition) (local : Definition → Definition)
        (scope : List ℕ → Option Definition) (n : ℕ) (around : Around) (f : Forest) →
        unnoted (noted dialect world local scope n around f)
        ≡ scoped dialect world local scope n around f }
{}

/// What a call makes within limits is within larger ones.
pub fn larger_limits_refuse_less()
    ensures { (dialect : Dialect) (world : World Definition) (local : Definition → Definition)
        (scope : List ℕ → Option Definition) (less more : Limits) (n : ℕ) (d : Definition)
        (around : Around) (site : CallSite) →
        less.calls ≤ more.calls → less.tokens ≤ more.tokens →
        too_large dialect world local scope less n d around site ≡ None →
        too_large dialect world local scope more n d around site ≡ None }
{}

/// Whether a call makes too much depends on what was looked up until then, and on nothing else
/// outside of all lists.
pub fn refusals_depend_on_lookups_so_far()
    ensures { (dialect : Dialect) (world : World Definition) (local : Definition → Definition)
        (scope others : List ℕ → Option Definition) (limits : Limits) (n : ℕ) (d : Definition)
        (around : Around) (site : CallSite) (p : Passed Definition) →
        too_large dialect world local scope limits n d around site ≡ Some p →
        All (λ find. others find.0 ≡ find.1) p.finds →
        too_large dialect world local others limits n d around site ≡ Some p }
{}

/// An expansion by limits or without depends on what its look-ups find outside of all lists, those
/// of a call that makes too much until then among them, and on nothing else there: `lookups`. Each
/// of its look-ups is what the scope outside answers: `found`.
pub fn expansions_by_limits_depend_on_outer_lookups_alone()
    ensures lookups { (dialect : Dialect) (world : World Definition)
        (local : Definition → Definition) (scope others : List ℕ → Option Definition)
        (limits : Option Limits) (depth : ℕ) (around : Around) (f : Forest) →
        All (λ find. others find.0 ≡ find.1)
        (outermost dialect world local scope limits depth around f).outcome.finds →
        outermost dialect world local others limits depth around f
        ≡ outermost dialect world local scope limits depth around f }
    ensures found { (dialect : Dialect) (world : World Definition)
        (local : Definition → Definition) (scope : List ℕ → Option Definition)
        (limits : Option Limits) (depth : ℕ) (around : Around) (f : Forest) →
        All (λ find. scope find.0 ≡ find.1)
        (outermost dialect world local scope limits depth around f).outcome.finds }
{}

/// By limits or without, a list at spans that `f` gives is expanded as at its own, and `f` and `h`
/// applied.
pub fn expansions_by_limits_at_other_spans()
    ensures { (dialect : Dialect) (f : Span → Span) (h : Definition → Definition)
        (one two : World Definition) (local moved : Definition → Definition)
        (scope changed : List ℕ → Option Definition) (limits : Option Limits)
        (depth : ℕ) (around : Around) (g : Forest) →
        Changes f h one two → ScopeChange h scope changed →
        ((d : Definition) → moved (definition_with f d) ≡ h (local d)) →
        outermost dialect two moved changed limits depth (around_with f around) (map_spans f g)
        ≡ scoped_with f h (outermost dialect one local scope limits depth around g) }
{}

/// Where names find nothing outside of lists, no list has definitions and nothing is left out,
/// limits change nothing, and a list is expanded as if no list had definitions.
pub fn without_definitions_limits_change_nothing()
    ensures { (dialect : Dialect) (world : World Definition) (local : Definition → Definition)
        (limits : Option Limits) (depth : ℕ) (f : Forest) →
        dialect.cfg ≡ None → (dialect.scope ≡ Rust → HasNoKeyword f) →
        outermost dialect world local (λ key. None) limits depth (without_locals Top None) f
        ≡ only (expansion world (λ key. None) depth None f) }
{}
