//! What an evaluation hands on unchanged, and where its loops run.

use aql_outside::Gate;
use nrca_loops::Globals;
use std::alloc::Global;
use std::thread::Threads;

/// The threads in which the pieces of a loop run, and the gate that each piece passes first.
#[derive(Drop)]
pub(crate) struct Pool<'a, R, G> {
    pub(crate) rt: &'a R,
    pub(crate) workers: u64,
    pub(crate) gate: &'a G,
}

/// Where the loops of a term run: here, or in pieces, each in a thread of its own.
#[derive(Drop)]
pub(crate) enum Mode<'a, R, G> {
    Here,
    Pieces(Pool<'a, R, G>),
}

/// What stays the same in the whole of an evaluation, but that a piece's loops run here.
#[derive(Drop)]
pub(crate) struct Machine<'a, R, G> {
    pub(crate) alloc: Global,
    pub(crate) globals: &'a Globals,
    pub(crate) mode: Mode<'a, R, G>,
}
