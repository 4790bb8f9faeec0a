ghost use Rattle.std.specs.Prelude.{◌≡◌, ℕ, ◌+◌, ◌/◌, ◌^◌, ◌<◌, ◌≤◌, min, map, IfOk, IfErr, vec_len};
ghost use Rattle.std.specs.List.{Contains};
ghost use Rattle.aql_value.specs.Limits.{most_workers};
ghost use Rattle.nrca_par.specs.declared.fault.EvalFault.TheVariants.{Spent};
ghost use Rattle.nrca_par.specs.Pieces.{piece_start, IsPieceAnswer, Joins, GivesPieces, SpentSomewhere, SpentOnRun};

use crate::fault::EvalFault;
use aql_outside::Gate;
use std::alloc::Global;
use std::thread;
use std::thread::Threads;

/// The members of piece j of n members, from the first number up to the second. There are as
/// many pieces as workers, or as members where these are fewer; their sizes differ by at most one.
/// It takes no memory.
pub fn piece(n: u64, workers: u64, j: u64) -> (u64, u64)
    requires workers { (1 ≤ workers) × (workers ≤ most_workers) }
    requires length { n ≤ 2 ^ 32 }
    requires number { j < min n workers }
    ensures from { result.0 ≡ piece_start n (min n workers) j }
    ensures to { result.1 ≡ piece_start n (min n workers) (j + 1) }
    ensures first { j ≡ 0 → result.0 ≡ 0 }
    ensures last { j + 1 ≡ min n workers → result.1 ≡ n }
    ensures some { result.0 < result.1 }
    ensures within { result.1 ≤ n }
    ensures least { result.0 + n / min n workers ≤ result.1 }
    ensures most { result.1 ≤ result.0 + n / min n workers + 1 }
{
    let count = n.min(workers);
    (j * n / count, (j + 1) * n / count)
}

/// The answers that `work` gives on the pieces of n members, in their order. Each piece runs in a
/// thread of its own and passes the gate first. Spent comes only where `work` gives it on a piece.
pub fn map_pieces<
    R: Threads + Sync,
    G: Gate,
    T: Send + Drop,
    F: Fn(u64, u64) -> Result<T, EvalFault> + Sync,
>(rt: &R, alloc: Global, n: u64, workers: u64, gate: &G, work: F) -> Result<Vec<T>, EvalFault>
    requires workers { (1 ≤ workers) × (workers ≤ most_workers) }
    requires length { n ≤ 2 ^ 32 }
    requires accepts { (a b : ℕ) → a < b → b ≤ n → F.pre work a b }
    ensures count { IfOk result (λ v. vec_len v ≡ min n workers) }
    ensures each { IfOk result (λ v. GivesPieces F.Fn work n (min n workers) v.items) }
    ensures joined { IfOk result (λ v. Joins (λ a b x. IsPieceAnswer F.Fn work a b (Ok x)) 0 n
        v.items) }
    ensures spent { IfErr result (λ e. e ≡ Spent → SpentSomewhere F.Fn work n (min n workers)) }
    ensures ran { IfErr result (λ e. e ≡ Spent → SpentOnRun F.Fn work n) }
{
    let work = &work;
    let run = move |j: usize| -> Result<T, EvalFault>
        requires { (1 ≤ workers) × (workers ≤ most_workers) × (n ≤ 2 ^ 32) × (j < min n workers)
            × ((a b : ℕ) → a < b → b ≤ n → F.pre work.now a b) }
        ensures { F.post work.entry.now (piece_start n (min n workers) j)
            (piece_start n (min n workers) (j + 1)) result }
    {
        let number = j as u64;
        gate.pass(number);
        let (from, to) = piece(n, workers, number);
        work(from, to)
    };
    let answers = thread::map_indices(rt, alloc, n.min(workers) as usize, &run)?;
    gather(alloc, answers)
}

// The values, in order, or the first fault.
fn gather<T: Drop>(alloc: Global, answers: Vec<Result<T, EvalFault>>) -> Result<Vec<T>, EvalFault>
    ensures values { IfOk result (λ v. answers.items ≡ map Ok v.items) }
    ensures spent { IfErr result (λ e. e ≡ Spent → Contains answers.items (Err Spent)) }
{
    let mut all = Vec::new(alloc);
    for answer in answers {
        match answer {
            Ok(value) => all.push(value)?,
            Err(fault) => return Err(fault),
        }
    }
    Ok(all)
}
