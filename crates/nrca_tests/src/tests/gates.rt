//! That two pieces of each kind of loop run beside each other, and how often pieces pass the gate.

ghost use Rattle.std.specs.Prelude.{◌≤◌};
ghost use Rattle.aql_value.specs.Limits.{most_workers};

use crate::tests::evaluation::outcome_of_row;
use crate::tests::outcomes::{Outcome, Row, wanted_outcome};
use crate::tests::same::assert_same;
use aql_outside::Gate;
use std::alloc::Global;
use std::process::Abort;
use std::sync::atomic::{AtomicBool, AtomicU64, Ordering};
use std::thread::Threads;

/// Holds the pieces 0 and 1 until each has seen that the other came, or has looked often enough.
#[derive(Drop)]
struct Meeting {
    first: AtomicBool,
    second: AtomicBool,
    first_saw: AtomicBool,
    second_saw: AtomicBool,
}

const LOADS: u64 = 100_000_000;

fn meet(mine: &AtomicBool, other: &AtomicBool, saw: &AtomicBool) {
    mine.store(true, Ordering::SeqCst);
    for _ in 0..LOADS {
        if other.load(Ordering::SeqCst) {
            saw.store(true, Ordering::SeqCst);
            return;
        }
    }
}

impl Gate for Meeting {
    fn pass(&self, piece: u64) {
        if piece == 0 {
            meet(&self.first, &self.second, &self.first_saw);
        } else if piece == 1 {
            meet(&self.second, &self.first, &self.second_saw);
        }
    }
}

// The pairs here have truth values, so that they are not packed.
const LOOPS: &[Row] = &[
    ("2 v0 tab1", "2 0 1 arr1.2", 2),
    ("2 gen v0 S", "1", 4),
    ("2 gen v0 1 + one U", "1 2 set2", 4),
    (
        "0 T tup2 one 1 F tup2 one u idx1",
        "2 T set1 F set1 arr1.2",
        4,
    ),
];

// The outcome of a loop of two pieces, and whether the first piece saw the second, and the second the first.
fn pieces<R: Threads + Sync>(rt: &R, alloc: Global, row: &Row) -> (Outcome, bool, bool) {
    let gate = Meeting {
        first: AtomicBool::new(false),
        second: AtomicBool::new(false),
        first_saw: AtomicBool::new(false),
        second_saw: AtomicBool::new(false),
    };
    let outcome = outcome_of_row(rt, alloc, row, 100, 2, &gate);
    let first = gate.first_saw.load(Ordering::SeqCst);
    (outcome, first, gate.second_saw.load(Ordering::SeqCst))
}

#[test]
fn two_pieces_run_beside_each_other(rt: HostRuntime) {
    for row in LOOPS {
        let found = pieces(&rt, rt.alloc(), row);
        let wanted = (wanted_outcome(row, 100), true, true);
        assert_same(&rt, (row.0, found), (row.0, wanted));
    }
}

/// Counts how often each of the pieces 0 to 2 passes, and how often any other does.
#[derive(Drop)]
struct Counting {
    first: AtomicU64,
    second: AtomicU64,
    third: AtomicU64,
    others: AtomicU64,
}

impl Gate for Counting {
    fn pass(&self, piece: u64) {
        let count = match piece {
            0 => &self.first,
            1 => &self.second,
            2 => &self.third,
            _ => &self.others,
        };
        count.fetch_add(1, Ordering::SeqCst);
    }
}

// The outcome of a loop by so many workers, and how often the pieces 0, 1, 2 and any other passed the gate.
fn passes<R: Threads + Sync>(rt: &R, alloc: Global, row: &Row, workers: u64) -> (Outcome, [u64; 4])
    requires { (1 ≤ workers) × (workers ≤ most_workers) }
{
    let gate = Counting {
        first: AtomicU64::new(0),
        second: AtomicU64::new(0),
        third: AtomicU64::new(0),
        others: AtomicU64::new(0),
    };
    let outcome = outcome_of_row(rt, alloc, row, 100, workers, &gate);
    let counts = [
        gate.first.load(Ordering::SeqCst),
        gate.second.load(Ordering::SeqCst),
        gate.third.load(Ordering::SeqCst),
        gate.others.load(Ordering::SeqCst),
    ];
    (outcome, counts)
}

// A loop of each kind, of three members or more, and then ones with another loop in their body.
const LOOPS_OF_THREE_PIECES: &[Row] = &[
    ("3 v0 tab1", "3 0 1 2 arr1.3", 3),
    ("5 gen v0 S", "10", 10),
    ("5 gen v0 one U", "0 1 2 3 4 set5", 10),
    (
        "0 T tup2 one 1 F tup2 one u 2 T tup2 one u idx1",
        "3 T set1 F set1 T set1 arr1.3",
        6,
    ),
    ("3 2 gen v0 S v0 + tab1", "3 1 2 3 arr1.3", 15),
    ("5 gen 4 gen v1 v0 * S S", "60", 50),
    ("3 gen 2 gen v1 v0 + one U U", "0 1 2 3 set4", 18),
];

// How often the pieces pass in each of the loops by so many workers.
fn assert_passes<R: Threads + Sync + Abort>(
    rt: &R,
    alloc: Global,
    rows: &[Row],
    workers: u64,
    counts: [u64; 4],
)
    requires { (1 ≤ workers) × (workers ≤ most_workers) }
{
    for row in rows {
        let found = passes(rt, alloc, row, workers);
        assert_same(
            rt,
            (row.0, found),
            (row.0, (wanted_outcome(row, 100), counts)),
        );
    }
}

// Each piece of a loop passes the gate once, and a loop in the body of another not at all. Refused here: pieces that pass twice, as
// by `gate.pass(number); gate.pass(number);` in `map_pieces` of nrca_par.
#[test]
fn each_piece_passes_the_gate_once(rt: HostRuntime) {
    assert_passes(&rt, rt.alloc(), LOOPS_OF_THREE_PIECES, 3, [1, 1, 1, 0]);
    assert_passes(&rt, rt.alloc(), LOOPS, 3, [1, 1, 0, 0]);
}

// Two pairs of numbers, which are packed, and none.
const PACKED_PAIRS: &[Row] = &[(
    "0 5 tup2 one 1 7 tup2 one u idx1",
    "2 5 set1 7 set1 arr1.2",
    4,
)];

const NO_PAIRS: &[Row] = &[("{} idx1", "0 arr1.0", 0)];

#[test]
fn one_worker_has_one_piece(rt: HostRuntime) {
    assert_passes(&rt, rt.alloc(), LOOPS_OF_THREE_PIECES, 1, [1, 0, 0, 0]);
    assert_passes(&rt, rt.alloc(), PACKED_PAIRS, 1, [1, 0, 0, 0]);
    assert_passes(&rt, rt.alloc(), PACKED_PAIRS, 2, [1, 1, 0, 0]);
    assert_passes(&rt, rt.alloc(), NO_PAIRS, 1, [0, 0, 0, 0]);
}
