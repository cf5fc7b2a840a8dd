//! The options that the program has, as a command of `clap`.
ghost use Rattle.std.specs.Prelude.{◌≡◌, IfOk, codes, false};
ghost use Rattle.clap.specs.Words.{app_of, rule_of, shape_of};
ghost use Rattle.clap.specs.declared.builder.command.Command.TheViews.{out-Command as fields_of};
ghost use Rattle.clap.specs.declared.builder.value_parser.ValueParser.{ValueParser};
ghost use Rattle.command_line.specs.Commands.{ChoosesLanguage, IsExpandSubcommand};
ghost use Rattle.command_line.specs.Commands.{IsMacrosSubcommand};
ghost use Rattle.command_line.specs.Commands.{HasOptions, IsProgram, IsServerSubcommand};
ghost use Rattle.command_line.specs.Commands.{IsJsonSubcommand, IsTextSubcommand};
ghost use Rattle.command_line.specs.Commands.{IsTraceSubcommand};
ghost use Rattle.command_line.specs.Commands.{TakesOthers};
ghost use Rattle.command_line.specs.Commands.{apart_rule, bare_program, cfg_rule, crate_rule};
ghost use Rattle.command_line.specs.Commands.{extern_rule};
ghost use Rattle.command_line.specs.Commands.{file_rule, json_rule, layout_rule, library_rule};
ghost use Rattle.command_line.specs.Commands.{option_rule, steps_rule, with_rule};

use clap::{Arg, ArgAction, Command, value_parser};
use std::alloc::{AllocError, Global};

const ABOUT: &str =
    "Expands the declarative macros of Rust, macro_rules! and macro, that a text has or is given";

const STATUSES: &str =
    "Status: 0 without a fault, 1 with one or where the program stops, 2 for wrong arguments \
    or a file that cannot be read";

static GRAMMARS: [&str; 2] = ["rust", "small"];

static EDITIONS: [&str; 4] = ["2015", "2018", "2021", "2024"];

static SCOPES: [&str; 2] = ["rust", "top"];

static DIAGNOSTICS: [&str; 3] = ["all", "likely", "none"];

fn grammar<'a>(alloc: Global) -> Arg<'a>
    ensures rule { (p : ValueParser)
        × (rule_of result ≡ option_rule (codes "grammar") (codes "rust") p) }
    ensures own { result.global ≡ false }
{
    Arg::new(alloc, "grammar")
        .long("grammar")
        .value_name("NAME")
        .value_parser(GRAMMARS.as_slice())
        .default_value("rust")
        .help("The grammar of fragments: that of Rust, or the small one")
}

fn edition<'a>(alloc: Global) -> Arg<'a>
    ensures rule { (p : ValueParser)
        × (rule_of result ≡ option_rule (codes "edition") (codes "2024") p) }
    ensures own { result.global ≡ false }
{
    Arg::new(alloc, "edition")
        .long("edition")
        .value_name("YEAR")
        .value_parser(EDITIONS.as_slice())
        .default_value("2024")
        .help("The edition of Rust")
}

fn scope<'a>(alloc: Global) -> Arg<'a>
    ensures rule { (p : ValueParser)
        × (rule_of result ≡ option_rule (codes "scope") (codes "rust") p) }
    ensures own { result.global ≡ false }
{
    Arg::new(alloc, "scope")
        .long("scope")
        .value_name("NAME")
        .value_parser(SCOPES.as_slice())
        .default_value("rust")
        .help("The scope of definitions: that of Rust, or only the top level of a text")
}

fn depth<'a>(alloc: Global) -> Arg<'a>
    ensures rule { (p : ValueParser)
        × (rule_of result ≡ option_rule (codes "depth") (codes "128") p) }
    ensures own { result.global ≡ false }
{
    Arg::new(alloc, "depth")
        .long("depth")
        .value_name("N")
        .value_parser(value_parser!(u8))
        .default_value("128")
        .help("How many levels of calls are expanded, 0 to 255")
}

fn most_calls<'a>(alloc: Global) -> Arg<'a>
    ensures rule { (p : ValueParser)
        × (rule_of result ≡ option_rule (codes "most-calls") (codes "1048576") p) }
    ensures own { result.global ≡ false }
{
    Arg::new(alloc, "most-calls")
        .long("most-calls")
        .value_name("N")
        .value_parser(value_parser!(u64))
        .default_value("1048576")
        .help("How many calls may be expanded for one call of the text, with the scope of Rust")
}

fn most_tokens<'a>(alloc: Global) -> Arg<'a>
    ensures rule { (p : ValueParser)
        × (rule_of result ≡ option_rule (codes "most-tokens") (codes "1048576") p) }
    ensures own { result.global ≡ false }
{
    Arg::new(alloc, "most-tokens")
        .long("most-tokens")
        .value_name("N")
        .value_parser(value_parser!(u64))
        .default_value("1048576")
        .help("How many tokens rules may put out for one call of the text")
}

fn diagnostics<'a>(alloc: Global) -> Arg<'a>
    ensures rule { (p : ValueParser)
        × (rule_of result ≡ option_rule (codes "diagnostics") (codes "likely") p) }
    ensures own { result.global ≡ false }
{
    Arg::new(alloc, "diagnostics")
        .long("diagnostics")
        .value_name("WHICH")
        .value_parser(DIAGNOSTICS.as_slice())
        .default_value("likely")
        .help("Which faults the editor is sent; likely are those of calls that rustc would expand")
}

fn library<'a>(alloc: Global) -> Arg<'a>
    ensures rule { rule_of result ≡ library_rule }
    ensures own { result.global ≡ false }
{
    Arg::new(alloc, "std").long("std").value_name("DIR").help(
        "The folder library of rust-src, for the macros of core, alloc and std",
    )
}

fn with<'a>(alloc: Global) -> Arg<'a>
    ensures rule { rule_of result ≡ with_rule }
    ensures own { result.global ≡ false }
{
    Arg::new(alloc, "with")
        .long("with")
        .value_name("[ROOT@EDITION=]FILE")
        .action(ArgAction::Append)
        .help("A file whose macros the text may call, of this crate or of another; may be repeated")
}

fn cfg<'a>(alloc: Global) -> Arg<'a>
    ensures rule { rule_of result ≡ cfg_rule }
    ensures own { result.global ≡ false }
{
    Arg::new(alloc, "cfg")
        .long("cfg")
        .value_name("SPEC")
        .action(ArgAction::Append)
        .help(
            "An option that is set, NAME or KEY=\"VALUE\"; may be repeated. With one, items and \
            macros whose cfg is false are left out",
        )
}

fn layout<'a>(alloc: Global) -> Arg<'a>
    ensures rule { rule_of result ≡ layout_rule }
    ensures own { result.global ≡ false }
{
    Arg::new(alloc, "layout")
        .long("layout")
        .action(ArgAction::SetTrue)
        .help("Lays the expansion out as Rust code")
}

fn json<'a>(alloc: Global) -> Arg<'a>
    ensures rule { rule_of result ≡ json_rule }
    ensures own { result.global ≡ false }
{
    Arg::new(alloc, "json")
        .long("json")
        .action(ArgAction::SetTrue)
        .help(
            "Prints lines of JSON in place of text: one for the expansion, for what explains the \
            faults, for each step, or for each answer to a script",
        )
}

fn apart<'a>(alloc: Global) -> Arg<'a>
    ensures rule { rule_of result ≡ apart_rule }
    ensures own { result.global ≡ false }
{
    Arg::new(alloc, "files")
        .long("files")
        .action(ArgAction::SetTrue)
        .help(
            "With --crate and without a FILE: prints each file of the crate by itself, behind a line \
            // FILE",
        )
}

fn steps<'a>(alloc: Global) -> Arg<'a>
    ensures rule { (p : ValueParser) × (rule_of result ≡ steps_rule p) }
    ensures own { result.global ≡ false }
{
    Arg::new(alloc, "to")
        .long("to")
        .value_name("N")
        .value_parser(value_parser!(u64))
        .default_value("10000")
        .help("How many steps are traced at most")
}

fn root<'a>(alloc: Global) -> Arg<'a>
    ensures rule { rule_of result ≡ crate_rule }
    ensures own { result.global ≡ false }
{
    Arg::new(alloc, "crate")
        .long("crate")
        .value_name("ROOT")
        .help(
            "The root file of a crate, which is walked through. Without a FILE the whole crate is \
            taken",
        )
}

fn other_crate<'a>(alloc: Global) -> Arg<'a>
    ensures rule { rule_of result ≡ extern_rule }
    ensures own { result.global ≡ false }
{
    Arg::new(alloc, "extern")
        .long("extern")
        .value_name("NAME@EDITION=ROOT")
        .action(ArgAction::Append)
        .help("The root file of another crate, whose macros the crate may call; may be repeated")
}

fn file<'a>(alloc: Global) -> Arg<'a>
    ensures rule { rule_of result ≡ file_rule }
    ensures own { result.global ≡ false }
{
    Arg::new(alloc, "file")
        .value_name("FILE")
        .action(ArgAction::Append)
        .help(
            "The text; without it, or for -, standard input. With --crate any number of files of the \
            crate",
        )
}

// A command with the options that choose the language: grammar, edition, scope.
fn language_command<'a>(
    alloc: Global,
    name: &'a str,
    about: &'a str,
) -> Result<Command<'a>, AllocError>
    ensures shape { IfOk result (λ c. ChoosesLanguage name.now (shape_of c)) }
    ensures own { IfOk result (λ c. (fields_of c).has_globals ≡ false) }
{
    Command::new(alloc, name)
        .about(about)
        .arg(grammar(alloc))?
        .arg(edition(alloc))?
        .arg(scope(alloc))
}

// A command with the options that each subcommand has.
fn options_command<'a>(
    alloc: Global,
    name: &'a str,
    about: &'a str,
) -> Result<Command<'a>, AllocError>
    ensures shape { IfOk result (λ c. HasOptions name.now (shape_of c)) }
    ensures own { IfOk result (λ c. (fields_of c).has_globals ≡ false) }
{
    language_command(alloc, name, about)?
        .arg(depth(alloc))?
        .arg(most_calls(alloc))?
        .arg(most_tokens(alloc))
}

// A command that takes definitions of other texts too, and options of `cfg`.
fn others_command<'a>(
    alloc: Global,
    name: &'a str,
    about: &'a str,
) -> Result<Command<'a>, AllocError>
    ensures shape { IfOk result (λ c. TakesOthers name.now (shape_of c)) }
    ensures own { IfOk result (λ c. (fields_of c).has_globals ≡ false) }
{
    options_command(alloc, name, about)?
        .arg(library(alloc))?
        .arg(with(alloc))?
        .arg(cfg(alloc))
}

// A subcommand on a text.
fn text_subcommand<'a>(
    alloc: Global,
    name: &'a str,
    about: &'a str,
) -> Result<Command<'a>, AllocError>
    ensures shape { IfOk result (λ c. IsTextSubcommand name.now (shape_of c)) }
    ensures own { IfOk result (λ c. (fields_of c).has_globals ≡ false) }
{
    others_command(alloc, name, about)?.arg(file(alloc))
}

// A subcommand on a text that answers as text or as JSON.
fn json_subcommand<'a>(
    alloc: Global,
    name: &'a str,
    about: &'a str,
) -> Result<Command<'a>, AllocError>
    ensures shape { IfOk result (λ c. IsJsonSubcommand name.now (shape_of c)) }
    ensures own { IfOk result (λ c. (fields_of c).has_globals ≡ false) }
{
    text_subcommand(alloc, name, about)?.arg(json(alloc))
}

// The subcommand that prints an expansion.
fn expand_subcommand<'a>(alloc: Global) -> Result<Command<'a>, AllocError>
    ensures shape { IfOk result (λ c. IsExpandSubcommand (shape_of c)) }
    ensures own { IfOk result (λ c. (fields_of c).has_globals ≡ false) }
{
    let about = "Prints the expansion of a text: FILE, or FILE:LINE:COLUMN for one call";
    text_subcommand(alloc, "expand", about)?
        .arg(layout(alloc))?
        .arg(json(alloc))?
        .arg(apart(alloc))?
        .arg(other_crate(alloc))?
        .arg(root(alloc))
}

// The subcommand that lists definitions.
fn macros_subcommand<'a>(alloc: Global) -> Result<Command<'a>, AllocError>
    ensures shape { IfOk result (λ c. IsMacrosSubcommand (shape_of c)) }
    ensures own { IfOk result (λ c. (fields_of c).has_globals ≡ false) }
{
    let about = "Lists the macros that files of a crate see, the nearest last";
    text_subcommand(alloc, "macros", about)?
        .arg(other_crate(alloc))?
        .arg(root(alloc))
}

// The subcommand that shows the steps of calls.
fn trace_subcommand<'a>(alloc: Global) -> Result<Command<'a>, AllocError>
    ensures shape { IfOk result (λ c. IsTraceSubcommand (shape_of c)) }
    ensures own { IfOk result (λ c. (fields_of c).has_globals ≡ false) }
{
    let about = "Shows the steps of calls: of FILE, FILE:LINE, or FILE:LINE:COLUMN for one call";
    json_subcommand(alloc, "trace", about)?.arg(steps(alloc))
}

// The subcommand that serves an editor.
fn server_subcommand<'a>(alloc: Global) -> Result<Command<'a>, AllocError>
    ensures shape { IfOk result (λ c. IsServerSubcommand (shape_of c)) }
    ensures own { IfOk result (λ c. (fields_of c).has_globals ≡ false) }
{
    let about = "Serves an editor by the Language Server Protocol on standard input and output";
    others_command(alloc, "lsp", about)?
        .arg(diagnostics(alloc))?
        .arg(other_crate(alloc))?
        .arg(root(alloc))
}

// The program's command without its subcommands.
fn bare_program<'a>(alloc: Global) -> Result<Command<'a>, AllocError>
    ensures { IfOk result (λ c. app_of c ≡ bare_program) }
{
    Ok(
        Command::new(alloc, "filgordd")
            .bin_name("filgordd")?
            .version("0.1.0")
            .about(ABOUT)
            .after_help(STATUSES)
            .subcommand_required(true)
            .disable_help_subcommand(true),
    )
}

/// The program's command. Its subcommands are the names of [`Action`](crate::job::Action).
pub(crate) fn program<'a>(alloc: Global) -> Result<Command<'a>, AllocError>
    ensures { IfOk result (λ c. IsProgram (app_of c)) }
{
    let explain = "Explains the faults of a text: FILE, or FILE:LINE:COLUMN for one place";
    let replay = "Answers a script of edits and expansions";
    let view = "Prints an HTML page of a text, its expansion and its faults";
    bare_program(alloc)?
        .subcommand(expand_subcommand(alloc)?)?
        .subcommand(json_subcommand(alloc, "explain", explain)?)?
        .subcommand(server_subcommand(alloc)?)?
        .subcommand(macros_subcommand(alloc)?)?
        .subcommand(json_subcommand(alloc, "replay", replay)?)?
        .subcommand(trace_subcommand(alloc)?)?
        .subcommand(text_subcommand(alloc, "view", view)?)
}
