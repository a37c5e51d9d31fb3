//! The words that the program accepts, by `clap`.

ghost use Rattle.std.specs.Prelude.{◌≡◌, ℕ, List, [], ◌∷◌, IfOk, IfErr, OnErr, MatchResult, true};
ghost use Rattle.std.specs.Prelude.{false, codes};
ghost use Rattle.clap.specs.Words.{HasMatchesOf, app_of, found_of};
ghost use Rattle.clap.specs.Words.{rows_of, rule_of, takes};
ghost use Rattle.clap.specs.declared.builder.command.Command.TheViews.{out-Command};
ghost use Rattle.command_line.specs.declared.arguments.Fault.TheVariants.{Memory};
ghost use Rattle.command_line.specs.declared.arguments.Options.TheVariants.{Steps};
ghost use Rattle.command_line.specs.CommandLine.{AreDistOptions, AreNoDistOptions, AreOptions};
ghost use Rattle.command_line.specs.CommandLine.{AreTaken, IsDefaultDist, program_app, texts_of};
ghost use Rattle.command_line.specs.Tables.{app_of_entry, rule_of_flag, with_entries};

use crate::arguments::{DistOptions, Fault, Options};
use crate::serve_words::{edge_given, number_given, serve_or_ask};
use crate::tables::{COMMANDS, Entry, Flag, Takes};
use clap::{Arg, ArgAction, ArgMatches, Command};
use metric::{MetricKind, NoMemory, Workers};
use std::alloc::Global;

/// Reads the words of the command line, of which the first is the program's name.
///
/// `--help` and `--version` come as a fault whose text goes to standard output, with status 0.
pub fn options<'a>(alloc: Global, words: &'a [&'a str]) -> Result<Options<'a>, Fault<'a>>
    ensures options { IfOk result (AreOptions (texts_of words.entry.now)) }
    ensures refused { AreTaken (texts_of words.entry.now) → IfErr result (λ fault. fault ≡ Memory) }
    ensures taken { (name : List ℕ) → texts_of words.entry.now ≡ name ∷ codes "dist" ∷ []
        → MatchResult result IsDefaultDist (λ fault. fault ≡ Memory) }
    ensures steps_taken { (name : List ℕ) → texts_of words.entry.now ≡ name ∷ codes "steps" ∷ []
        → MatchResult result (λ options. options ≡ Steps) (λ fault. fault ≡ Memory) }
{
    let matches = matches_of(alloc, words)?;
    if let Some(flags) = matches.subcommand_matches("dist") {
        return Ok(Options::Dist(dist_options(flags)?));
    }
    if matches.subcommand_matches("steps").is_some() {
        return Ok(Options::Steps);
    }
    serve_or_ask(&matches)
}

/// The flags of `dist`.
#[tactic(auto, using(crate::proofs::CommandLines::text_of_flag))]
fn dist_options<'a>(flags: &ArgMatches<'a>) -> Result<DistOptions<'a>, Fault<'a>>
    ensures options { IfOk result (AreDistOptions (rows_of (found_of flags.now))) }
    ensures refused { OnErr result (AreNoDistOptions (rows_of (found_of flags.now))) }
{
    let name = flags.get_str("metric").unwrap_or("");
    let metric = MetricKind::named(name.as_bytes()).ok_or(Fault::UnknownMetric { name })?;
    let edge = edge_given(flags)?;
    let workers = number_given(flags, "workers", 1, 16)?;
    Ok(DistOptions {
        metric,
        edge,
        nearest: flags.get_flag("nearest"),
        query: flags.get_str("query"),
        workers: Workers {
            count: workers as u8,
        },
    })
}

/// What the words say, by the program's commands and flags.
fn matches_of<'a>(alloc: Global, words: &'a [&'a str]) -> Result<ArgMatches<'a>, Fault<'a>>
    ensures found { IfOk result (HasMatchesOf program_app (texts_of words.entry.now)) }
    ensures passes { IfErr result (λ fault. takes program_app (texts_of words.entry.now) ≡ true
        → fault ≡ Memory) }
{
    let program = program(alloc)?;
    let matches = program.try_get_matches_from(words)?;
    Ok(matches)
}

/// The program's commands and flags.
fn program<'a>(alloc: Global) -> Result<Command<'a>, NoMemory>
    ensures { IfOk result (λ command. app_of command ≡ program_app) }
{
    let program = Command::new(alloc, "clearmap")
        .version("0.4.0")
        .about("Exact distances to the nearest obstacle of an occupancy grid")
        .after_help(
            "An image is PBM, plain (P1) or raw (P4), 1 to 4096 pixels a side; a black pixel is an obstacle. A robot's map\nhas unknown cells too: whoever makes the image makes each an obstacle or a free cell.\n\nOther programs are clearmap-ros (maps of robots), clearmap-view (a page), clearmap-backup, and for more\nclients and machines clearmap-gateway and clearmap-publish.\n\nAnswers and refusals go to standard output. The exit status is 0 where all was done, 1 where the\ninput or the network was refused or a standard stream failed, and 2 where the command line was.\n\nExamples:\n  clearmap dist < map.pbm\n  clearmap serve --connections 2 < map.pbm",
        )
        .subcommand_required(true);
    with_commands(alloc, program, &COMMANDS)
}

/// The program with these commands, too.
fn with_commands<'a>(
    alloc: Global,
    mut program: Command<'a>,
    entries: &[Entry<'a>],
) -> Result<Command<'a>, NoMemory>
    ensures { IfOk result (λ made. app_of made ≡ with_entries (app_of program.entry) entries.now) }
{
    for entry in entries {
        program = program.subcommand(command_of(alloc, *entry)?)?;
    }
    Ok(program)
}

/// A command and its flags.
fn command_of<'a>(alloc: Global, entry: Entry<'a>) -> Result<Command<'a>, NoMemory>
    ensures app { IfOk result (λ command. app_of command ≡ app_of_entry entry.entry) }
    ensures local { IfOk result (λ command. (out-Command command).has_globals ≡ false) }
{
    let mut command = Command::new(alloc, entry.name)
        .override_usage(entry.usage)
        .about(entry.about)
        .after_help(entry.after_help);
    for flag in entry.flags {
        command = command.arg(flag_of(alloc, *flag))?;
    }
    Ok(command)
}

/// A flag.
fn flag_of<'a>(alloc: Global, flag: Flag<'a>) -> Arg<'a>
    ensures rule { rule_of result ≡ rule_of_flag flag.entry }
    ensures local { result.global ≡ false }
{
    let arg = Arg::new(alloc, flag.name).long(flag.name).help(flag.help);
    match flag.takes {
        Takes::Nothing => arg.action(ArgAction::SetTrue),
        Takes::Value(kind) => arg.value_name(kind),
        Takes::Required(kind) => arg.value_name(kind).required(true),
        Takes::Default(kind, value) => arg.value_name(kind).default_value(value),
    }
}
