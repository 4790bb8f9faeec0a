// Pieces that run beside each other, held at a gate.
use crate::tests::running::{SURE, assert_ran, run_over};
use aql_outside::Gate;
use std::alloc::Global;
use std::collections::BTreeMap;
use std::process::Abort;
use std::sync::atomic::{AtomicBool, Ordering};
use std::thread::Threads;

/// Holds the pieces 0 and 1 until each has seen that the other came, or has looked often enough.
#[derive(Drop)]
struct Meeting {
    first: AtomicBool,
    second: AtomicBool,
    first_saw: AtomicBool,
    second_saw: AtomicBool,
}

const LOADS: u64 = 100_000_000;

fn meet(mine: &AtomicBool, other: &AtomicBool, saw: &AtomicBool) {
    mine.store(true, Ordering::SeqCst);
    for _ in 0..LOADS {
        if other.load(Ordering::SeqCst) {
            saw.store(true, Ordering::SeqCst);
            return;
        }
    }
}

impl Gate for Meeting {
    fn pass(&self, piece: u64) {
        if piece == 0 {
            meet(&self.first, &self.second, &self.first_saw);
        } else if piece == 1 {
            meet(&self.second, &self.first, &self.second_saw);
        }
    }
}

fn no_meeting() -> Meeting {
    Meeting {
        first: AtomicBool::new(false),
        second: AtomicBool::new(false),
        first_saw: AtomicBool::new(false),
        second_saw: AtomicBool::new(false),
    }
}

fn has_met(gate: &Meeting) -> bool {
    gate.first_saw.load(Ordering::SeqCst) && gate.second_saw.load(Ordering::SeqCst)
}

fn assert_meets<R: Threads + Sync + Abort>(rt: &R, alloc: Global, script: &str, output: &str) {
    let gate = no_meeting();
    let ran = run_over(
        rt,
        alloc,
        &["--workers", "2"],
        script.as_bytes(),
        Ok(BTreeMap::new(alloc)),
        &SURE,
        &gate,
    );
    assert!(rt; has_met(&gate), "{script}");
    drop(gate);
    assert_ran(rt, ran, 0, output.as_bytes());
}

const LOOPS: &[(&str, &str)] = &[
    (
        "[[i | \\i<2]];",
        "typ it : [[nat]]_1\nval it = [[2; 0, 1]]\n",
    ),
    ("summap(fn \\x => x)!(gen!2);", "typ it : nat\nval it = 1\n"),
    ("{x+1 | \\x <- gen!2};", "typ it : {nat}\nval it = {1, 2}\n"),
    (
        "index_1!({(0,5),(1,7)});",
        "typ it : [[{nat}]]_1\nval it = [[2; {5}, {7}]]\n",
    ),
];

// With two workers the two pieces of each kind of loop run beside each other.
#[test]
fn two_pieces_meet(rt: HostRuntime) {
    for (script, output) in LOOPS {
        assert_meets(&rt, rt.alloc(), script, output);
    }
}
