//! Whole runs of the program over devices in memory, as tests: no code of its own.
//!
//! `tests/running` runs a script and `tests/texts` makes one of parts; the other modules have a test each: `scripts` alone,
//! `words` of the command line, `netcdf` files, `tables`, `devices` that fail, `gates`. What must come of each run was worked
//! out by hand. Further scripts stand in `checks/scripts`, which `checks/run` runs over the built program.
#![tactic(auto)]

#[cfg(test)]
mod tests;
