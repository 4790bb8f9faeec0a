//! Tests of values, types, devices in memory, the system's devices, and words.
#![tactic(auto)]

#[cfg(test)]
mod tests;
