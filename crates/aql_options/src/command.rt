//! The command that reads the words.

ghost use Rattle.std.specs.Prelude.{◌≡◌, false, IfOk};
ghost use Rattle.aql_options.specs.Words.{aql, flag_rule, number_rule};
ghost use Rattle.clap.specs.Words.{app_of, rule_of};

use aql_value::{MOST_BUDGET, MOST_WORKERS};
use clap::builder::ValueParser;
use clap::{Arg, ArgAction, Command};
use std::alloc::{AllocError, Global};

/// The greatest size of a sample script. Each option takes 1 as its least number.
pub const MOST_SAMPLE: u64 = 1_000_000;

/// The command, which has the six options and no subcommand.
pub(crate) fn command<'a>(alloc: Global) -> Result<Command<'a>, AllocError>
    ensures { IfOk result (λ c. app_of c ≡ aql) }
{
    let workers = number_option(alloc, "workers", MOST_WORKERS);
    let budget = number_option(alloc, "budget", MOST_BUDGET);
    let plan = flag_option(alloc, "plan");
    let sample = number_option(alloc, "sample", MOST_SAMPLE);
    let motion = flag_option(alloc, "motion");
    let graph = flag_option(alloc, "graph");
    let start = Command::new(alloc, "aql");
    let one = start.arg(workers)?;
    let two = one.arg(budget)?;
    let three = two.arg(plan)?;
    let four = three.arg(sample)?;
    let five = four.arg(motion)?;
    let six = five.arg(graph)?;
    Ok(six)
}

// An option that takes a number from 1 on.
fn number_option<'a>(alloc: Global, name: &'a str, most: u64) -> Arg<'a>
    ensures rule { rule_of result ≡ number_rule name.entry.now most }
    ensures local { result.global ≡ false }
{
    Arg::new(alloc, name)
        .long(name)
        .action(ArgAction::Set)
        .value_parser(ValueParser::Unsigned(1, most))
}

// An option that is given or not.
fn flag_option<'a>(alloc: Global, name: &'a str) -> Arg<'a>
    ensures rule { rule_of result ≡ flag_rule name.entry.now }
    ensures local { result.global ≡ false }
{
    Arg::new(alloc, name).long(name).action(ArgAction::SetTrue)
}
