//! The limits of a run, as `specs/Limits` has them.

/// The most threads that a run may have.
pub const MOST_WORKERS: u64 = 64;

/// The most turns that a declaration may take.
pub const MOST_BUDGET: u64 = 50_000_000;
