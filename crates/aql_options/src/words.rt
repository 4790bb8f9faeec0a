//! What the words of a run ask for.

ghost use Rattle.std.specs.Prelude.{◌≡◌, ◌≢◌, map, IfOk, IsErrOf, option_and_then};
ghost use Rattle.std.specs.String.{string_bytes};
ghost use Rattle.aql_options.specs.Words.{AreInRange, HasReading, is_true_text, number_at, number_of, options_in, options_of, up_to};
ghost use Rattle.clap.specs.Words.{first_of, found_of, kind_of, one_of, rows_of};

use crate::command::{MOST_SAMPLE, command};
use crate::fault::WordFault;
use aql_value::{MOST_BUDGET, MOST_WORKERS};
use clap::error::ErrorKind;
use clap::{ArgMatches, Error};
use std::alloc::Global;

/// What a run was asked for: its threads (1 to 64), the turns that each declaration may take (1 to 50,000,000),
/// whether plans are printed, the size of the sample script (1 to 1,000,000) that stands for the input, whether lets
/// and tests are moved out of the loops of plans, and whether the array-free forms of plans are made and evaluated.
#[derive(Clone, Copy, Debug, PartialEq, Eq)]
pub struct Options {
    pub workers: u64,
    pub budget: u64,
    pub plan: bool,
    pub sample: Option<u64>,
    pub motion: bool,
    pub graph: bool,
}

/// The options that the words of a command line ask for, the first word being the program's name.
pub fn read_words(alloc: Global, words: &[String]) -> Result<Options, WordFault>
    // The words have a reading, and these are its options.
    ensures read { IfOk result (λ o. HasReading (map string_bytes words.now)
        × (o ≡ options_of (map string_bytes words.now))) }
    ensures ranges { IfOk result AreInRange }
    // The words are blamed only where they have no reading.
    ensures usage { IsErrOf result WordFault.Usage → HasReading (map string_bytes words.now) → ⊥ }
{
    let command = command(alloc)?;
    match command.try_get_matches_from(words) {
        Ok(matches) => Ok(asked_for(&matches)),
        Err(error) => Err(fault_of_error(&error)),
    }
}

// Want of memory, or the words.
fn fault_of_error(error: &Error) -> WordFault
    ensures { result ≡ WordFault.Usage → kind_of error.now ≢ ErrorKind.OutOfMemory }
{
    match error.kind() {
        ErrorKind::OutOfMemory => WordFault::Memory,
        _ => WordFault::Usage,
    }
}

// What the matches ask for.
fn asked_for<'a>(matches: &ArgMatches<'a>) -> Options
    ensures { result ≡ options_in (rows_of (found_of matches.now)) }
{
    let workers = number(matches, "workers", MOST_WORKERS).unwrap_or(1);
    let budget = number(matches, "budget", MOST_BUDGET).unwrap_or(10_000_000);
    let plan = flag(matches, "plan");
    let sample = number(matches, "sample", MOST_SAMPLE);
    let motion = flag(matches, "motion");
    let graph = flag(matches, "graph");
    Options {
        workers,
        budget,
        plan,
        sample,
        motion,
        graph,
    }
}

// The number of an option, where it was given.
fn number<'a>(matches: &ArgMatches<'a>, name: &str, most: u64) -> Option<u64>
    ensures { result ≡ number_at most name.now (rows_of (found_of matches.now)) }
{
    in_range(most, parse_number(matches, name))
}

// The number of an option as it was written.
fn parse_number<'a>(matches: &ArgMatches<'a>, name: &str) -> Option<u64>
    ensures { result ≡ option_and_then number_of
        (one_of name.now (rows_of (found_of matches.now))) }
{
    matches.get_one::<u64>(name)
}

fn in_range(most: u64, number: Option<u64>) -> Option<u64>
    ensures { result ≡ up_to most number }
{
    match number {
        Some(n) if 1 <= n && n <= most => Some(n),
        _ => None,
    }
}

// Whether an option was given.
fn flag<'a>(matches: &ArgMatches<'a>, name: &str) -> bool
    ensures { result ≡ is_true_text (first_of name.now (rows_of (found_of matches.now))) }
{
    match matches.get_str(name) {
        Some(text) => text == "true",
        None => false,
    }
}
