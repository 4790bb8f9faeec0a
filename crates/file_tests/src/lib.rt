//! Tests of files: headers and hyperslabs of small netCDF files, and files of records.
#![tactic(auto)]

#[cfg(test)]
mod tests;
