//! Transcribes an op without ops inside, as far as its metavariables have values. It goes on
//! after a fault.
use crate::recovery::messages::binding_error;
use crate::recovery::placeholders::{add_text, punct, put_missing, put_number, word};
use crate::recovery::values::{Usage, Value, Values, VarLookup, count, found, usage_in, within};
use mbe_rules::{ConcatElement, ExpandError, ExpandErrorKind, Op};
use mbe_transcriber::rustc_lexer::is_ident;
use mbe_transcriber::{PlainItems, put_in};
use std::alloc::{AllocError, Global};
use symbols::Symbol;
use tt::{Ident, IdentIsRaw, Leaf, Punct, Spacing, Span, TopSubtreeBuilder, TtFault};

// The first fault, if there is one.
pub(crate) type Told = Result<Option<ExpandError>, TtFault>;

// The most iterations that a repetition may have.
pub(crate) const MOST_ROUNDS: usize = 65_535;

const NO_PART: &str = "metavariables of `${concat(..)}` must be of type `ident`, `literal` or `tt`";

const NO_IDENTIFIER: &str = "`${concat(..)}` is not generating a valid identifier";

// Whether there is one more iteration.
pub(crate) enum Next {
    None,
    One,
    TooMany,
}

// What transcription needs.
#[derive_where(Clone, Copy)]
pub(crate) struct Filler<'f, 'a, M> {
    pub(crate) alloc: Global,
    pub(crate) values: &'f Values<'a>,
    pub(crate) marker: &'f M,
    pub(crate) call_site: Span,
}

impl<'f, 'a, M: Fn(Span) -> Span> Filler<'f, 'a, M> {
    pub(crate) fn mark(&self, span: Span) -> Span
        requires { M.IsAlwaysCallable self.now.marker.now }
    {
        let marker = self.marker;
        marker(span)
    }

    // A fault at this span.
    pub(crate) fn told(&self, span: Span, kind: ExpandErrorKind) -> Told {
        let error = ExpandError::new(self.alloc, span, kind)?;
        Ok(Some(error))
    }

    // What a name gives in these iterations.
    fn find(&self, name: &Symbol, rounds: &[usize]) -> VarLookup<'a> {
        match self.values.get(name) {
            None => VarLookup::Unbound,
            Some(Value::Missing(kind)) => VarLookup::Missing(kind),
            Some(Value::Bound(binding)) => found(binding, rounds),
        }
    }

    // How the innermost of these iterations uses a name.
    fn use_of(&self, name: &Symbol, rounds: &[usize], is_counted: bool) -> Usage {
        match self.values.get(name) {
            Some(Value::Bound(binding)) => usage_in(binding, rounds),
            Some(Value::Missing(_)) if rounds.len() != 1 => Usage::None,
            Some(Value::Missing(_)) if is_counted => Usage::Fragment,
            Some(Value::Missing(_)) => Usage::Lacking,
            None => Usage::None,
        }
    }

    // How the innermost of these iterations uses the names of an op without ops inside.
    fn usage_of(&self, op: &Op, rounds: &[usize]) -> Usage {
        match op {
            Op::Var { name, .. } | Op::Ignore { name, .. } => self.use_of(name, rounds, false),
            Op::Count { name, .. } => self.use_of(name, rounds, true),
            Op::Concat { elements, .. } => {
                let mut usage = Usage::None;
                for element in elements {
                    if let ConcatElement::Var(name) = element {
                        usage = usage.with(self.use_of(name, rounds, false));
                    }
                }
                usage
            }
            _ => Usage::None,
        }
    }

    fn usage(&self, ops: &[Op], rounds: &[usize]) -> Result<Usage, AllocError> {
        let mut walk = PlainItems::new(self.alloc, ops);
        let mut usage = Usage::None;
        while let Some(op) = walk.next()? {
            usage = usage.with(self.usage_of(op, rounds));
        }
        Ok(usage)
    }

    // Transcribes a metavariable.
    fn variable(
        &self,
        out: &mut TopSubtreeBuilder,
        rounds: &[usize],
        name: &Symbol,
        id: Span,
    ) -> Told
        requires { M.IsAlwaysCallable self.now.marker.now }
    {
        let span = self.mark(id);
        match self.find(name, rounds) {
            VarLookup::Fragment(kind, trees) => put_in(out, kind, trees, span)?,
            VarLookup::Missing(kind) => put_missing(self.alloc, out, kind, span)?,
            VarLookup::Unbound => {
                out.push(punct('$', Spacing::Alone, span))?;
                out.push(Leaf::Ident(Ident {
                    sym: name.clone()?,
                    span,
                    is_raw: IdentIsRaw::No,
                }))?;
            }
            found => return self.told_of(name, found, id),
        }
        Ok(None)
    }

    // The fault of a name that gives no fragment.
    fn told_of(&self, name: &Symbol, found: VarLookup<'a>, id: Span) -> Told {
        let alloc = self.alloc;
        let x = name.as_str();
        let text = match found {
            VarLookup::Fragment(..) | VarLookup::Missing(_) => return Ok(None),
            VarLookup::Unbound => {
                return self.told(id, ExpandErrorKind::UnresolvedBinding(name.clone()?));
            }
            VarLookup::NoMember => format!(in alloc; "could not find nested binding `{x}`")?,
            VarLookup::NothingInRound => format!(in alloc; "could not find empty binding `{x}`")?,
            VarLookup::List => {
                format!(in alloc; "expected simple binding, found nested binding `{x}`")?
            }
            VarLookup::Nothing => {
                format!(in alloc; "expected simple binding, found empty binding `{x}`")?
            }
        };
        self.told(id, binding_error(alloc, &text)?)
    }

    // Transcribes the number of values that a name has.
    fn counted(
        &self,
        out: &mut TopSubtreeBuilder,
        rounds: &[usize],
        name: &Symbol,
        depth: usize,
        id: Span,
    ) -> Told
        requires { M.IsAlwaysCallable self.now.marker.now }
    {
        let number = match self.values.get(name) {
            None => return self.told_of(name, VarLookup::Unbound, id),
            Some(Value::Missing(_)) => 1,
            Some(Value::Bound(binding)) => count(within(binding, rounds).0, depth),
        };
        put_number(self.alloc, out, number, self.mark(id))?;
        Ok(None)
    }

    // Adds a part of `${concat(..)}` to the text of its identifier.
    fn add_part(
        &self,
        text: &mut String,
        rounds: &[usize],
        part: &ConcatElement,
        id: Span,
    ) -> Told {
        let name = match part {
            ConcatElement::Var(name) => name,
            ConcatElement::Text(part) => {
                text.push_str(part.as_str())?;
                return Ok(None);
            }
        };
        let found = self.find(name, rounds);
        if add_text(text, found)? {
            return Ok(None);
        }
        let told = self.told_of(name, found, id)?;
        let no_part = self.told(id, binding_error(self.alloc, NO_PART)?)?;
        Ok(told.or(no_part))
    }

    // Transcribes the identifier that `${concat(..)}` gives.
    fn joined(
        &self,
        out: &mut TopSubtreeBuilder,
        rounds: &[usize],
        parts: &[ConcatElement],
        id: Span,
    ) -> Told
        requires { M.IsAlwaysCallable self.now.marker.now }
    {
        let mut text = String::new(self.alloc);
        let mut error = None;
        for part in parts {
            let next = self.add_part(&mut text, rounds, part, id)?;
            error = error.or(next);
        }
        let span = self.mark(id);
        if is_ident(&text) {
            out.push(word(self.alloc, &text, span)?)?;
            return Ok(error);
        }
        out.push(word(self.alloc, "__ra_concat_dummy", span)?)?;
        let told = self.told(id, binding_error(self.alloc, NO_IDENTIFIER)?)?;
        Ok(error.or(told))
    }

    fn marked_ident(&self, ident: &Ident) -> Result<Leaf, TtFault>
        requires { M.IsAlwaysCallable self.now.marker.now }
    {
        Ok(Leaf::Ident(Ident {
            sym: ident.sym.clone()?,
            span: self.mark(ident.span),
            is_raw: ident.is_raw,
        }))
    }

    // Transcribes an identifier, a literal, puncts or a lifetime.
    fn token(&self, out: &mut TopSubtreeBuilder, op: &Op) -> Result<(), TtFault>
        requires { M.IsAlwaysCallable self.now.marker.now }
    {
        match op {
            Op::Literal(literal) => {
                let span = self.mark(literal.span());
                out.push(Leaf::Literal(literal.clone()?.with_span(span)))
            }
            Op::Ident(ident) => out.push(self.marked_ident(ident)?),
            Op::Lifetime(quote, name) => {
                let span = self.mark(quote.span);
                out.push(Leaf::Punct(Punct { span, ..*quote }))?;
                out.push(self.marked_ident(name)?)
            }
            Op::Punct(puncts) => {
                for punct in puncts {
                    let span = self.mark(punct.span);
                    out.push(Leaf::Punct(Punct { span, ..*punct }))?;
                }
                Ok(())
            }
            _ => Ok(()),
        }
    }

    // Transcribes an op that is no repetition and no group.
    pub(crate) fn dollar(&self, out: &mut TopSubtreeBuilder, rounds: &[usize], op: &Op) -> Told
        requires { M.IsAlwaysCallable self.now.marker.now }
    {
        match op {
            Op::Var { name, id, .. } => self.variable(out, rounds, name, *id),
            Op::Count { name, depth, id } => self.counted(out, rounds, name, *depth, *id),
            Op::Ignore { name, id } => self.told_of(name, self.find(name, rounds), *id),
            Op::Concat { elements, id } => self.joined(out, rounds, elements, *id),
            Op::Index { depth, id } => {
                let number = rounds.iter().rev().nth(*depth).copied().unwrap_or(0);
                put_number(self.alloc, out, number, self.mark(*id))?;
                Ok(None)
            }
            Op::Len { id, .. } => {
                put_number(self.alloc, out, 0, self.mark(*id))?;
                Ok(None)
            }
            _ => {
                self.token(out, op)?;
                Ok(None)
            }
        }
    }

    // Whether the innermost of these iterations takes place. If no metavariable has a list of
    // values, the iterations have no end.
    pub(crate) fn next_round(&self, body: &[Op], rounds: &[usize]) -> Result<Next, AllocError> {
        let next = match (self.usage(body, rounds)?, rounds.last()) {
            (Usage::None | Usage::Lacking, _) => Next::None,
            (_, Some(0)) => Next::One,
            (Usage::List, Some(round)) if *round < MOST_ROUNDS => Next::One,
            _ => Next::TooMany,
        };
        Ok(next)
    }
}
