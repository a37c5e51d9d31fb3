//! The words that `serve` and `ask` accept, by `clap`.

ghost use Rattle.std.specs.Prelude.{◌≡◌, ◌≤◌, IfOk, OnErr, MatchResult, Some, None};
ghost use Rattle.std.specs.Prelude.{codes, option_and_then};
ghost use Rattle.clap.specs.Words.{found_of, rows_of};
ghost use Rattle.metric.specs.Edge.{edge_named};
ghost use Rattle.words.specs.Numbers.{number};
ghost use Rattle.command_line.specs.declared.arguments.AskOptions.{AskOptions as TheAskOptions};
ghost use Rattle.command_line.specs.declared.arguments.ServeOptions.{ServeOptions as TheServeOptions};
ghost use Rattle.command_line.specs.ServeLine.{AreAskOptions, AreMatched, AreNoMatch};
ghost use Rattle.command_line.specs.ServeLine.{AreServeOptions, flag_text, in_range};

use crate::arguments::{AskOptions, Fault, Options, ServeOptions};
use clap::ArgMatches;
use metric::Edge;
use words::read_number;

/// The options of `serve` or `ask`, if one of them is named.
pub fn serve_or_ask<'a>(matches: &ArgMatches<'a>) -> Result<Options<'a>, Fault<'a>>
    ensures options { IfOk result (AreMatched matches.now) }
    ensures refused { OnErr result (AreNoMatch matches.now) }
{
    if let Some(flags) = matches.subcommand_matches("serve") {
        return Ok(Options::Serve(serve_options(flags)?));
    }
    if let Some(flags) = matches.subcommand_matches("ask") {
        return Ok(Options::Ask(ask_options(flags)?));
    }
    Err(Fault::NoCommand)
}

/// The flags of `serve`.
fn serve_options<'a>(flags: &ArgMatches<'a>) -> Result<ServeOptions, Fault<'a>>
    ensures options { IfOk result (AreServeOptions (rows_of (found_of flags.now))) }
    ensures refused { OnErr result ((options : TheServeOptions)
        → AreServeOptions (rows_of (found_of flags.now)) options → ⊥) }
{
    Ok(ServeOptions {
        connections: number_given(flags, "connections", 1, 1_000_000)?,
        port: port_given(flags, 0)?,
        blocks: number_given(flags, "blocks", 0, u32::MAX)?,
        versions: number_given(flags, "versions", 0, u32::MAX)?,
        log: number_given(flags, "log", 0, u32::MAX)?,
        workers: number_given(flags, "workers", 1, 16)?,
        edge: edge_given(flags)?,
    })
}

/// The edge that `--edge` names.
#[tactic(auto, using(crate::proofs::CommandLines::text_of_flag))]
pub fn edge_given<'a>(flags: &ArgMatches<'a>) -> Result<Edge, Fault<'a>>
    ensures { MatchResult result
        (λ edge. option_and_then edge_named (flag_text flags.now (codes "edge"))
        ≡ Some edge) (λ _. option_and_then edge_named
        (flag_text flags.now (codes "edge")) ≡ None) }
{
    let name = flags.get_str("edge").unwrap_or("");
    Edge::named(name.as_bytes()).ok_or(Fault::UnknownEdge { name })
}

/// The flag of `ask`.
fn ask_options(flags: &ArgMatches<'_>) -> Result<AskOptions, Fault<'static>>
    ensures options { IfOk result (AreAskOptions (rows_of (found_of flags.now))) }
    ensures refused { OnErr result ((options : TheAskOptions)
        → AreAskOptions (rows_of (found_of flags.now)) options → ⊥) }
{
    Ok(AskOptions {
        port: port_given(flags, 1)?,
    })
}

/// The port that `--port` gives, at least `least`.
fn port_given(flags: &ArgMatches<'_>, least: u32) -> Result<u16, Fault<'static>>
    ensures { MatchResult result
        (λ port. in_range least 65535 (flag_text flags.now (codes "port")) ≡ Some port)
        (λ _. in_range least 65535 (flag_text flags.now (codes "port")) ≡ None) }
{
    Ok(number_given(flags, "port", least, 65535)? as u16)
}

/// The number that a flag gives, in its range.
pub fn number_given(
    flags: &ArgMatches<'_>,
    name: &'static str,
    least: u32,
    most: u32,
) -> Result<u32, Fault<'static>>
    ensures { MatchResult result
        (λ n. (in_range least most (flag_text flags.now name.now) ≡ Some n)
        × (least ≤ n) × (n ≤ most))
        (λ _. in_range least most (flag_text flags.now name.now) ≡ None) }
{
    match value_given(flags, name) {
        Some(number) if least <= number && number <= most => Ok(number),
        _ => Err(Fault::BadNumber { name, least, most }),
    }
}

/// The number that a flag gives.
#[tactic(auto, using(crate::proofs::CommandLines::text_of_flag))]
fn value_given(flags: &ArgMatches<'_>, name: &str) -> Option<u32>
    ensures { result ≡ option_and_then number (flag_text flags.now name.now) }
{
    flags
        .get_str(name)
        .and_then(|value| read_number(value.as_bytes()))
}
