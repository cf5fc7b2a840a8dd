//! Warnings on the conditions of a text.
ghost use Rattle.std.specs.Prelude.{◌≡◌, ◌++◌, ◌<◌, ◌^◌, IfOk, OnOk, codes, length, option_map};
ghost use Rattle.std.specs.Prelude.{string_bytes};
ghost use Rattle.cfg_options.specs.Options.{options_of};
ghost use Rattle.expander_run.specs.Lines.{line};
ghost use Rattle.program_files.specs.Shown.{shown};
ghost use Rattle.filgordd.specs.Warnings.{warned_text, warning_lines, warning_words};

use crate::warned::warned_of;
use any_grammar::AnyGrammar;
use bridge::Read;
use cfg_options::CfgOptions;
use expander::Options;
use expander_run::lines::{FIRST, Spot, push_line, spot_of};
use program_files::push_shown;
use rustc_lexer::LexedText;
use std::alloc::{AllocError, Global};
use tt_data::{Span, TtFault};

// What is wrong where a text is warned of.
fn warning_words(cfg: &Option<CfgOptions>) -> &'static str
    ensures { result.now ≡ warning_words (option_map options_of cfg.now) }
{
    match cfg {
        None => {
            "warning: this definition counts, and no earlier one of its name that is under a cfg too"
        }
        Some(_) => "warning: this condition cannot be read, so what is under it stays",
    }
}

// Adds the line that warns with these words at a position.
fn push_warning(lines: &mut String, name: &str, spot: Spot, words: &str) -> Result<(), AllocError>
    ensures { OnOk result (string_bytes lines.new ≡ string_bytes lines.old
        ++ (codes "filgordd: " ++ (shown name.now
        ++ (codes ": " ++ line spot.line spot.column words.now)))) }
{
    lines.push_str("filgordd: ")?;
    push_shown(lines, name)?;
    lines.push_str(": ")?;
    push_line(lines, spot, words)
}

// A line for each of these spans. Each position is counted on from the one before it.
fn warned(
    alloc: Global,
    cfg: &Option<CfgOptions>,
    name: &str,
    text: &str,
    spans: &[Span],
) -> Result<String, AllocError>
    requires { length text.now < 2 ^ 32 }
    ensures { IfOk result (λ lines. string_bytes lines
        ≡ warning_lines (option_map options_of cfg.now) name.now text.now spans.now) }
{
    let words = warning_words(cfg);
    let mut lines = String::new(alloc);
    let mut spot = FIRST;
    for span in spans {
        spot = spot_of(text.as_bytes(), spot, span.range.start);
        push_warning(&mut lines, name, spot, words)?;
    }
    Ok(lines)
}

/// The lines that warn of a text for its conditions: where these options are set, of the attributes
/// that are not read; where none are, of definitions of one name under a `cfg`. None if the text
/// cannot be read. `name` is its file's.
pub(crate) fn warnings(
    alloc: Global,
    cfg: &Option<CfgOptions>,
    name: &str,
    text: &str,
) -> Result<String, TtFault>
    requires { length text.now < 2 ^ 32 }
    ensures { IfOk result (λ lines. string_bytes lines
        ≡ warning_lines (option_map options_of cfg.now) name.now text.now
        (warned_text (option_map options_of cfg.now) text.now)) }
{
    bridge::laws::reading_is_a_relation();
    let held = LexedText::new(alloc, text)?;
    match bridge::read(alloc, held.text(), held.tokens())? {
        Read::Tree(tree) => {
            let spans = warned_of(alloc, cfg, &tree.token_trees().iter())?;
            Ok(warned(alloc, cfg, name, text, spans.as_slice())?)
        }
        Read::Fault(_fault) => Ok(String::new(alloc)),
    }
}

// Whether a text may have something to warn of: the letters `cfg`, and without options those of
// definitions.
fn may_warn(options: &Options<AnyGrammar>, text: &str) -> bool {
    let has_definitions = options.dialect.cfg.is_some() || text.contains("macro");
    has_definitions && text.contains("cfg")
}

/// Warns of a text for its conditions. `name` is its file's.
pub(crate) fn warn(rt: &HostRuntime, options: &Options<AnyGrammar>, name: &str, text: &[u8]) {
    let Ok(text) = std::str::from_utf8(text) else {
        return;
    };
    if text.len() > u32::MAX as usize || !may_warn(options, text) {
        return;
    }
    if let Ok(lines) = warnings(rt.alloc(), &options.dialect.cfg, name, text) {
        let _ = eprint!(rt; "{lines}");
    }
}
