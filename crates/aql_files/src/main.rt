//! The program once more, run by the gate on a netCDF file and a file of records, with a budget that the last query passes.
#![tactic(auto)]

use aql_run::start;
use std::process::ExitCode;

fn main(rt: HostRuntime) -> ExitCode {
    start(&rt, rt.stdin(), rt.stdout())
}
