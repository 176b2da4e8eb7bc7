//! The words of the command line.
ghost use Rattle.std.specs.Prelude.{◌≡◌, IfOk, OnOk, IsErrOf, map, string_bytes};
ghost use Rattle.clap.specs.Words.{app_of, subcommand_rows_of};
ghost use Rattle.nz_run.specs.Words.{AreTaken, AreUnits, AreUnitsBy, nuz_command, work_of};
ghost use Rattle.nz_run.specs.WorkedWords.{HaveMeanings};

use clap::error::ErrorKind;
use clap::{Arg, ArgMatches, Command, value_parser};
use std::alloc::{AllocError, Global};

/// How the program is called.
pub const USAGE_LINE: &str = "usage: nuz solve [--work N]";

/// The units of work that a check may use where the words don't say.
const DEFAULT_UNITS: u32 = 200_000;

/// Why the words say nothing.
#[derive(Clone, Copy, Debug, PartialEq, Eq)]
pub(crate) enum Refused {
    /// They are none that the command takes.
    Usage,
    /// There was no memory to read them.
    Memory,
}

/// The command `nuz`.
fn command<'a>(alloc: Global) -> Result<Command<'a>, AllocError>
    ensures app { IfOk result (λ command. app_of command ≡ nuz_command) }
{
    let work = Arg::new(alloc, "work")
        .long("work")
        .value_parser(value_parser!(u32).range(0..=1_000_000));
    let solve = Command::new(alloc, "solve").arg(work)?;
    Command::new(alloc, "nuz")
        .subcommand_required(true)
        .subcommand(solve)
}

/// The units of work that the words allow each check. The program's name stands first among them.
pub(crate) fn units_of(alloc: Global, words: &[String]) -> Result<u64, Refused>
    ensures taken { OnOk result (AreTaken (map string_bytes words.now)) }
    ensures units { IfOk result (AreUnits (map string_bytes words.now)) }
    ensures refused { IsErrOf result Refused.Usage → AreTaken (map string_bytes words.now) → ⊥ }
{
    let command = match command(alloc) {
        Ok(command) => command,
        Err(_) => return Err(Refused::Memory),
    };
    match command.try_get_matches_from(words) {
        Ok(matches) => Ok(units_in(&matches) as u64),
        Err(error) if error.kind() == ErrorKind::OutOfMemory => Err(Refused::Memory),
        Err(_) => Err(Refused::Usage),
    }
}

/// The units that the matches tell.
fn units_in(matches: &ArgMatches<'_>) -> u32
    ensures units { AreUnitsBy (work_of (subcommand_rows_of matches.now)) result }
{
    match matches.subcommand() {
        Some((_, solve)) => solve.get_one::<u32>("work").unwrap_or(DEFAULT_UNITS),
        None => DEFAULT_UNITS,
    }
}

/// What short command lines mean, by the definitions alone.
pub fn worked_words()
    ensures meanings { HaveMeanings }
{}
