//! Parses the rules of a definition, by `mbe`.
ghost use Rattle.std.specs.Prelude.{◌≡◌, IfOk, IsOkUnless};
ghost use Rattle.tt_data.specs.fault.TtFault.TheVariants.{Memory};
ghost use Rattle.expander_model.specs.mbe.Macros.{rules_of};
ghost use Rattle.expander_model.specs.World.{rules_by, rules_in};

use expander_model::definition::Definition;
use expander_model::edition_mark::edition_in;
use expander_model::mbe::DeclarativeMacro;
use std::alloc::Global;
use tt::{TopSubtree, TtIter};
use tt_data::{Delimiter, Edition, Span, SyntaxContext, TtFault};

/// A tree of these trees. They are part of a tree, so they are not too many: its only error is out
/// of memory.
pub(crate) fn tree_of(alloc: Global, trees: &TtIter<'_>, place: Span) -> Result<TopSubtree, TtFault>
    ensures trees { IfOk result (λ t. t.inner ≡ trees.now) }
    ensures memory { IsOkUnless result Memory }
{
    let top = Delimiter::invisible_spanned(place);
    match TopSubtree::from_token_trees(alloc, top, trees.remaining()) {
        Err(_) => Err(TtFault::Memory),
        tree => tree,
    }
}

// The rules parsed from a definition, all of whose identifiers have this edition.
fn rules_by(
    alloc: Global,
    edition: Edition,
    definition: &Definition<'_>,
) -> Result<DeclarativeMacro, TtFault>
    ensures rules { IfOk result (λ m. rules_of m ≡ rules_by edition definition.now) }
    ensures memory { IsOkUnless result Memory }
{
    let place = definition.name.span;
    let words = move |_: SyntaxContext|
        ensures { result ≡ edition }
    { edition };
    let body = tree_of(alloc, &definition.body, place)?;
    if !definition.is_macro {
        return DeclarativeMacro::parse_macro_rules(alloc, &body, words);
    }
    match &definition.arguments {
        None => DeclarativeMacro::parse_macro2(alloc, None, &body, words),
        Some(arguments) => {
            let arguments = tree_of(alloc, arguments, place)?;
            DeclarativeMacro::parse_macro2(alloc, Some(&arguments), &body, words)
        }
    }
}

/// The rules parsed from a definition, all of whose identifiers have the edition of its mark, or
/// else this one. Out of memory is its only error.
pub(crate) fn rules_in(
    alloc: Global,
    edition: Edition,
    definition: &Definition<'_>,
) -> Result<DeclarativeMacro, TtFault>
    ensures rules { IfOk result (λ m. rules_of m ≡ rules_in edition definition.now) }
    ensures memory { IsOkUnless result Memory }
{
    rules_by(alloc, edition_in(edition, &definition.piece), definition)
}
