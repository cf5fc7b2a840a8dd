//! A session: a text that is edited and expanded, with a cache of the last text that was read.
ghost use Rattle.std.specs.Prelude.{◌≡◌, ◌≢◌, ◌+◌, ◌-◌, ◌<◌, ◌≤◌, ◌^◌, ◌↔◌, ◌++◌, All, Err, List};
ghost use Rattle.std.specs.Prelude.{[], length, IfOk, IfErr, OnOk, OnErr, IsTrue, IsCharBoundary};
ghost use Rattle.std.specs.Prelude.{IsSome, None, Some, map, option_map, slice_get, true};
ghost use Rattle.std.specs.List.{list_any};
ghost use Rattle.rustc_lexer.specs.Edit.{edited};
ghost use Rattle.bridge.specs.ReadText.{HasTooMany};
ghost use Rattle.bridge.specs.TokenSteps.{text_steps};
ghost use Rattle.expander_sources.specs.SourceReads.{IsSourceOf};
ghost use Rattle.bridge.specs.PrintedRanges.{read_ranges};
ghost use Rattle.expander_model.specs.Dialects.{top_level};
ghost use Rattle.expander_model.specs.Expansion.{PlacedStep};
ghost use Rattle.expander_model.specs.Held.{Stands};
ghost use Rattle.expander_session.specs.Layered.{layers};
ghost use Rattle.expander_model.specs.Meaning.{members_after};
ghost use Rattle.expander_session.specs.Caches.{IsCache};
ghost use Rattle.expander_session.specs.Emitting.{HasOutput};
ghost use Rattle.expander_reparse.specs.RelativePieces.{IsOwnPiece, piece_at};
ghost use Rattle.expander_reparse.specs.Reparsing.{AreMet, AreTheirs};
ghost use Rattle.expander_session.specs.State.{State, definitions_of, layers_of};
ghost use Rattle.expander_model.specs.DefinitionTrees.{definition_trees};
ghost use Rattle.expander_session.specs.Replies.{HasCause, Replies};
ghost use Rattle.expander_session.specs.Shown.{ShowsOutput};
ghost use Rattle.expander_reparse.specs.Segments.{AreSegments};
ghost use Rattle.expander_session.specs.EvaluatedTexts.{EvaluatesText};
ghost use Rattle.expander_session.specs.Evaluating.{NeedsMore};
ghost use Rattle.expander_session.specs.TooMany.{bursts};
ghost use Rattle.expander_model.specs.World.{world};

use crate::cache::Cache;
use crate::emitter::{Emitter, finish};
use crate::evaluate::{Evaluated, EvaluationContext, evaluate_pieces};
use bridge::laws::tokens_are_where_they_are_printed;
use bridge::parts::{LazyPrinted, SpanList};
use bridge::{ReadFault, TokenRanges, token_ranges};
use expander_model::dialect::Dialect;
use expander_model::fault::{Fault, sort_faults};
use expander_model::laws;
use expander_reparse::parse::{Parsed, read_pieces};
use expander_reparse::piece::Piece;
use expander_reparse::segment::Segments;
use expander_scope::refusal::Refusal;
use expander_sources::home::Home;
use expander_sources::prelude::Prelude;
use expander_sources::source::{SourceRead, read_source};
use fragment_grammar::FragmentGrammar;
use rustc_lexer::LexedText;
use std::alloc::{AllocError, Global};
use std::marker::Model;
use tt_data::{Edition, TextRange, TtFault};

/// Where a printed token comes from.
#[derive(Clone, Copy)]
pub struct Origin {
    /// The text: 0 is the text that is expanded, and others are sources.
    pub text: u32,
    /// The bytes of that text.
    pub range: TextRange,
}

/// The expansion of a text: the printed text, the origins of its tokens, and the faults.
#[derive(Drop)]
pub struct Expansion {
    printed: String,
    faults: Vec<Fault>,
    origins: SpanList,
    expanded: usize,
}

impl Model for Expansion {
    ghost use Rattle.std.specs.Prelude.{◌≡◌, length, map, string_bytes};
    ghost use Rattle.bridge.specs.PrintedRanges.{read_ranges};
    ghost use Rattle.expander_session.specs.Expanded.{Expanded};

    ghost Value = { Expanded };

    ghost view = { λ e. record {
      printed = string_bytes e.printed;
      faults = e.faults.items;
      origins
          = map (λ s. s.range) e.origins;
      texts = map (λ s.
          s.anchor) e.origins;
      expanded = e.expanded;
    } };

    ghost invariant = { λ e. length (read_ranges (string_bytes e.printed)) ≡ length e.origins };
}

impl Expansion {
    /// The printed text.
    pub fn printed(&self) -> &str
        ensures { result.now ≡ self.now.printed }
    {
        self.printed.as_str()
    }

    /// The faults, in order of start, end and kind.
    pub fn faults(&self) -> &[Fault]
        ensures { result.now ≡ self.now.faults }
    {
        self.faults.as_slice()
    }

    /// The number of cache misses: plain pieces that the last text that was read did not have with
    /// equal look-ups. Before the first text that was read, every plain piece counts.
    pub fn expanded(&self) -> usize
        ensures { result ≡ self.now.expanded }
    {
        self.expanded
    }

    /// The number of printed tokens.
    pub fn tokens(&self) -> usize
        ensures { result ≡ length self.now.origins }
    {
        self.origins.len()
    }

    /// The origin of the printed token of this index, from 0 and below `tokens()`, in the text that
    /// is expanded: the bytes that its span names. `None` if it comes from a source, as it can only
    /// with a prelude: then `source` answers.
    ///
    /// A token that was written in the text, in a call's argument too, comes from there, through
    /// however many calls it was carried. A token of a transcriber comes from the transcriber, and
    /// what a `$` gives by itself from this `$`. A doc comment's tokens come from the comment.
    pub fn origin(&self, i: usize) -> Option<TextRange>
        requires { i < length self.now.origins }
        ensures own { slice_get self.now.texts i ≡ Some 0 → result ≡ slice_get self.now.origins i }
        ensures other { slice_get self.now.texts i ≢ Some 0 → result ≡ None }
    {
        let Origin { text, range } = self.source(i)?;
        if text == 0 { Some(range) } else { None }
    }

    /// The text and the bytes that the printed token of this index comes from. It always answers.
    pub fn source(&self, i: usize) -> Option<Origin>
        requires { i < length self.now.origins }
        ensures text { option_map (λ o. o.text) result ≡ slice_get self.now.texts i }
        ensures range { option_map (λ o. o.range) result ≡ slice_get self.now.origins i }
        ensures some { IsSome result }
    {
        let span = self.origins.get(i)?;
        Some(Origin {
            text: span.anchor,
            range: span.range,
        })
    }

    /// Where the printed tokens are in the printed text, of at most `u32::MAX` bytes, in order. The
    /// printed token of index i is spelled at range i.
    ///
    /// Nothing is kept for it: it lexes the printed text as far as it is asked, and takes no
    /// memory.
    pub fn token_ranges(&self) -> TokenRanges<'_>
        requires { length self.now.printed < 2 ^ 32 }
        ensures ranges { result ≡ read_ranges self.now.printed }
        ensures count { length result ≡ length self.now.origins }
    {
        token_ranges(self.printed.as_str())
    }

    /// An equal expansion. Refused if there is no memory for it.
    pub fn try_clone(&self, alloc: Global) -> Result<Expansion, AllocError>
        ensures { IfOk result (λ e. e ≡ self.now) }
    {
        let printed = String::from_str(alloc, self.printed())?;
        let faults = Vec::from_slice(alloc, self.faults())?;
        let origins = self.origins.try_clone(alloc)?;
        Ok(Expansion {
            printed,
            faults,
            origins,
            expanded: self.expanded,
        })
    }
}

/// What a text gives: its expansion, or its reading fault.
#[derive(Drop)]
pub enum Reply {
    /// The text was read and expanded.
    Read(Expansion),
    /// The text cannot be read as trees.
    Unread(ReadFault),
}

/// A text that may be edited and expanded, with a grammar of fragments, an edition, a dialect, and
/// a number of levels. It caches what the last text that was read gave, so an expansion does again
/// only what an edit can affect.
#[derive(Drop)]
pub struct Session<G: FragmentGrammar> {
    alloc: Global,
    text: LexedText,
    grammar: G,
    edition: Edition,
    dialect: Dialect,
    depth: u8,
    // The definitions of other texts that the text is expanded after.
    prelude: Prelude,
    // What is cached of the last text that was read.
    memory: Cache,
}

impl<G: FragmentGrammar> Model for Session<G> {
    ghost use Rattle.std.specs.Prelude.{length, ◌<◌, ◌^◌};
    ghost use Rattle.expander_session.specs.Caches.{IsCache, held_in, trees_of};
    ghost use Rattle.expander_session.specs.State.{State, state_code};
    ghost use Rattle.expander_model.specs.World.{world};

    ghost Value = { State G };

    ghost coded = { state_code G.code };

    ghost view = { λ s. record {
      text = s.text;
      grammar = s.grammar;
      edition = s.edition;
      dialect = s.dialect;
      depth = s.depth;
      prelude = s.prelude;
      held = held_in s.memory;
      trees = trees_of s.memory;
      given = s.memory.given;
    } };

    ghost invariant = { λ s. (length s.text < 2 ^ 32)
        × IsCache (world (G.answer s.grammar) s.edition s.dialect) s.depth s.edition s.memory
        × (s.memory.given < 2 ^ 32) };
}

impl<G: FragmentGrammar + Drop> Session<G> {
    /// A session over a text of at most `u32::MAX` bytes, all of whose tokens are of this edition.
    /// The grammar decides what fragments are, and `depth` how many levels of calls are expanded.
    /// No option of the dialect is set: a name finds pieces of texts alone. Nothing is expanded
    /// yet. Refused if there is no memory for a copy of the text and its tokens.
    pub fn new(
        alloc: Global,
        text: &str,
        grammar: G,
        edition: Edition,
        depth: u8,
    ) -> Result<Self, AllocError>
        requires { length text.now < 2 ^ 32 }
        ensures { IfOk result (λ s. s ≡ record {
          text = text.now;
          grammar = grammar;
          edition = edition;
          dialect = top_level;
          depth = depth;
          prelude = [];
          held = None;
          trees = [];
          given = 0;
        }) }
    {
        Session::with_dialect(alloc, text, grammar, edition, Dialect::top_level(), depth)
    }

    /// The same by a dialect, which says what a name finds.
    pub fn with_dialect(
        alloc: Global,
        text: &str,
        grammar: G,
        edition: Edition,
        dialect: Dialect,
        depth: u8,
    ) -> Result<Self, AllocError>
        requires { length text.now < 2 ^ 32 }
        ensures { IfOk result (λ s. s ≡ record {
          text = text.now;
          grammar = grammar;
          edition = edition;
          dialect = dialect;
          depth = depth;
          prelude = [];
          held = None;
          trees = [];
          given = 0;
        }) }
    {
        let text = LexedText::new(alloc, text)?;
        Ok(Session {
            alloc,
            text,
            grammar,
            edition,
            dialect,
            depth,
            prelude: Prelude::new(alloc),
            memory: Cache::new(alloc),
        })
    }

    /// From the next expansion on the text is expanded after these definitions. Its own come
    /// after them, so they are nearer. Nothing that is cached is lost: only pieces of which a
    /// look-up then resolves to another definition are expanded anew.
    pub fn set_prelude(&mut self, prelude: Prelude)
        ensures { self.new ≡ record self.old { prelude = prelude } }
    {
        self.prelude = prelude;
    }

    /// The source that the present text is: its definitions, for other texts. It has this number,
    /// from 1 on, and this home: `None` if the other texts are of the same crate. It is read over
    /// the cache, and changes nothing.
    ///
    /// # Errors
    ///
    /// `Memory`. `Tokens`, only if what is read of the text has more than `u32::MAX` tokens, which
    /// doc comments alone can bring about.
    pub fn source(&self, number: u32, home: Option<Home>) -> Result<SourceRead, TtFault>
        requires { 1 ≤ number }
        ensures read { IfOk result (IsSourceOf number home self.now.text) }
        ensures many { result ≡ Err TtFault.Tokens → HasTooMany (text_steps self.now.text) }
    {
        let (text, tokens) = (self.text.text(), self.text.tokens());
        read_source(self.alloc, text, tokens, &self.memory.sources, number, home)
    }

    /// What decides what fragments are.
    pub fn grammar(&self) -> &G
        ensures { result.now ≡ self.now.grammar }
    {
        &self.grammar
    }

    /// The edition of all tokens of the text.
    pub fn edition(&self) -> Edition
        ensures { result ≡ self.now.edition }
    {
        self.edition
    }

    /// The dialect by which the text is expanded.
    pub fn dialect(&self) -> &Dialect
        ensures { result.now ≡ self.now.dialect }
    {
        &self.dialect
    }

    /// How many levels of calls are expanded.
    pub fn depth(&self) -> u8
        ensures { result ≡ self.now.depth }
    {
        self.depth
    }

    /// The definitions of other texts that the text is expanded after.
    pub fn prelude(&self) -> &Prelude
        ensures { result.now ≡ self.now.prelude }
    {
        &self.prelude
    }

    /// The text.
    pub fn text(&self) -> &str
        ensures { result.now ≡ self.now.text }
    {
        self.text.text()
    }

    /// Whether the offset `at`, in bytes, is a character boundary of the text, its end included.
    pub fn is_boundary(&self, at: usize) -> bool
        ensures { IsTrue result ↔ IsCharBoundary self.now.text at }
    {
        self.text.is_boundary(at)
    }

    /// Whether the bytes from `start` to `end` are in the text, and it has at most `u32::MAX`
    /// bytes after `replacement_len` bytes replace them.
    pub fn fits(&self, start: usize, end: usize, replacement_len: usize) -> bool
        ensures { IsTrue result ↔ ((start ≤ «end») × («end» ≤ length self.now.text)
            × (length self.now.text - («end» - start) + replacement_len < 2 ^ 32)) }
    {
        self.text.fits(start, end, replacement_len)
    }

    /// Replaces the bytes from `start` to `end`. Both offsets are character boundaries, in order,
    /// and the edit fits. Refused if there is no memory for the text or its tokens; then nothing
    /// changes.
    pub fn edit(&mut self, start: usize, end: usize, replacement: &str) -> Result<(), AllocError>
        requires start { IsCharBoundary self.old.text start }
        requires stop { IsCharBoundary self.old.text «end» }
        requires order { start ≤ «end» }
        requires fits { length self.old.text - («end» - start) + length replacement.now < 2 ^ 32 }
        ensures ok { OnOk result (self.new
            ≡ record self.old { text = edited self.old.text start «end» replacement.now }) }
        ensures err { OnErr result (self.new ≡ self.old) }
    {
        self.text.edit(start, end, replacement)?;
        Ok(())
    }

    /// The expansion of the present text, or its reading fault. The answer is that of a new
    /// session over the same text, but for the count of cache misses. A refusal changes nothing.
    ///
    /// # Errors
    ///
    /// `Memory`. `Tokens`, only if what is read of the text has more than `u32::MAX` tokens, which
    /// doc comments alone can bring about, or if a rule that is tried for a call puts out more.
    /// `Numbers`, only if more than `u32::MAX` definitions would have got an id.
    ///
    /// At most `u32::MAX` definitions get an id in all, so a text for which they would be more has
    /// no `Read`: `numbers`.
    pub fn expansion(&mut self) -> Result<Reply, Refusal>
        ensures reply { IfOk result (λ reply.
            Replies (layers_of G.answer self.old) self.old self.new reply) }
        ensures same { OnErr result (self.new ≡ self.old) }
        ensures cause { IfErr result (HasCause (layers_of G.answer self.old) self.old) }
        ensures numbers { self.new.given < 2 ^ 32 }
    {
        mbe_rules::laws::rules_at_other_places();
        mbe::laws::fit_at_other_places();
        mbe::laws::bursts_at_other_places();
        bridge::laws::reading_is_a_relation();
        bridge::laws::tokens_follow_one_another();
        bridge::laws::tokens_are_written();
        laws::equal_pieces();
        let (alloc, text, tokens) = (self.alloc, self.text.text(), self.text.tokens());
        let (pieces, sources) = match read_pieces(alloc, text, tokens, &self.memory.sources)? {
            Parsed::Fault(fault) => return Ok(Reply::Unread(fault)),
            Parsed::Pieces(pieces, sources) => (pieces, sources),
        };
        let context = EvaluationContext {
            alloc,
            grammar: &self.grammar,
            dialect: &self.dialect,
            depth: self.depth,
            memory: &self.memory,
            prelude: &self.prelude,
        };
        let (pieces, bytes) = (pieces.as_slice(), text.len());
        let (expansion, memory) = expand_pieces(&context, self.edition, pieces, sources, bytes)?;
        self.memory = memory;
        Ok(Reply::Read(expansion))
    }
}

// The expansion of a text of `bytes` bytes with these pieces after the prelude, by the cache of the
// last text, and the new cache. `sources` is what the pieces were read from.
fn expand_pieces<G: FragmentGrammar>(
    context: &EvaluationContext<'_, G>,
    edition: Edition,
    pieces: &[Piece],
    sources: Segments,
    bytes: usize,
) -> Result<(Expansion, Cache), Refusal>
    requires right { IsCache
        (world (G.answer context.now.grammar.now) edition context.now.dialect.now)
        context.now.depth edition context.now.memory.now }
    requires own { All IsOwnPiece pieces.now }
    requires sources { AreSegments sources }
    requires theirs { AreTheirs sources pieces.now }
    requires met { AreMet context.now.memory.now.sources pieces.now }
    ensures taken { IfOk result (λ r. EvaluatesText (G.answer context.now.grammar.now) edition
        context.now.dialect.now context.now.depth context.now.memory.now context.now.prelude.now
        (map piece_at pieces.now) r.0 r.1) }
    ensures stands { IfOk result (λ r. All Stands context.now.prelude.now) }
    ensures tokens { result ≡ Err Refusal.Tokens → list_any bursts (members_after
        (layers (G.answer context.now.grammar.now) edition context.now.dialect.now)
        context.now.depth (definitions_of context.now.prelude.now) (map piece_at pieces.now))
        ≡ true }
    ensures numbers { result ≡ Err Refusal.Numbers → NeedsMore context.now.memory.now
        (definition_trees context.now.prelude.now ++ definition_trees (map piece_at pieces.now)) }
{
    laws::equal_pieces();
    let Evaluated {
        numbers,
        plains,
        hashes,
        steps,
        faults,
        expanded,
        links,
    } = evaluate_pieces(context, edition, pieces, bytes)?;
    let expansion = expansion_of(steps, faults, expanded)?;
    let memory = Cache {
        was_read: true,
        plains,
        hashes,
        definitions: numbers.definitions,
        by_tree: numbers.by_tree,
        given: numbers.given,
        sources,
        links,
    };
    Ok((expansion, memory))
}

// The expansion that this output makes: its text, the origins of its tokens, and all faults in
// order.
fn expansion_of(
    steps: Emitter,
    mut faults: Vec<Fault>,
    expanded: usize,
) -> Result<Expansion, AllocError>
    requires { (all : List PlacedStep) × HasOutput steps all }
    ensures { IfOk result (λ e. (all : List PlacedStep) → HasOutput steps all →
        ShowsOutput faults.items expanded all e) }
{
    tokens_are_where_they_are_printed();
    let LazyPrinted { text, tokens, .. } = finish(steps, &mut faults)?;
    sort_faults(&mut faults)?;
    Ok(Expansion {
        printed: text,
        faults,
        origins: tokens,
        expanded,
    })
}
