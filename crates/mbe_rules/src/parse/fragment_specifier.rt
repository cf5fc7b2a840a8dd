//! Fragment specifiers: what a metavariable of a matcher consumes.
ghost use Rattle.std.specs.Prelude.{◌≡◌};
ghost use Rattle.mbe_rules.specs.Patterns.{kind_of};
ghost use Rattle.mbe_rules.specs.Reading.{edition_in};

use crate::parse::editions::Editions;
use crate::parser::MetaVarKind;
use tt_data::Ident;

// The kind of fragment that a specifier names. `None` if it is no fragment specifier.
pub(crate) fn kind_of(word: &Ident, editions: Editions) -> Option<MetaVarKind>
    ensures { result ≡ kind_of (edition_in editions) word.now }
{
    match word.sym.as_str() {
        "path" => Some(MetaVarKind::Path),
        "ty" => Some(MetaVarKind::Ty),
        "pat" => {
            if editions.at(word.span.ctx).at_least_2021() {
                Some(MetaVarKind::Pat)
            } else {
                Some(MetaVarKind::PatParam)
            }
        }
        "pat_param" => Some(MetaVarKind::PatParam),
        "stmt" => Some(MetaVarKind::Stmt),
        "block" => Some(MetaVarKind::Block),
        "meta" => Some(MetaVarKind::Meta),
        "item" => Some(MetaVarKind::Item),
        "vis" => Some(MetaVarKind::Vis),
        "expr" => {
            if editions.at(word.span.ctx).at_least_2024() {
                Some(MetaVarKind::Expr)
            } else {
                Some(MetaVarKind::Expr2021)
            }
        }
        "expr_2021" => Some(MetaVarKind::Expr2021),
        "ident" => Some(MetaVarKind::Ident),
        "tt" => Some(MetaVarKind::Tt),
        "lifetime" => Some(MetaVarKind::Lifetime),
        "literal" => Some(MetaVarKind::Literal),
        _ => None,
    }
}
