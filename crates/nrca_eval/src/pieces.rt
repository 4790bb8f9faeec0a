//! Loops in pieces.

ghost use Rattle.std.specs.Prelude.{◌≡◌, ℕ, ◌<◌, ◌≤◌, IfOk, IfErr};
ghost use Rattle.nrca_par.specs.declared.fault.EvalFault.TheVariants.{Spent};
ghost use Rattle.nrca_par.specs.Pieces.{IsPieceAnswer, Joins, SpentOnRun};

use crate::machine::Pool;
use aql_outside::Gate;
use aql_value::MOST_WORKERS;
use nrca_par::{EvalFault, map_pieces};
use std::alloc::Global;
use std::thread::Threads;

/// The answers that `work` gives on pieces of n members, in their order: in at most `MOST_WORKERS` threads, and
/// in one piece where the members are more than 2^32.
pub(crate) fn in_pieces<
    R: Threads + Sync,
    G: Gate,
    T: Send + Drop,
    F: Fn(u64, u64) -> Result<T, EvalFault> + Sync,
>(pool: &Pool<R, G>, alloc: Global, n: u64, work: F) -> Result<Vec<T>, EvalFault>
    requires { (a b : ℕ) → a < b → b ≤ n → F.pre work a b }
    ensures joined { IfOk result (λ v. Joins (λ a b x. IsPieceAnswer F.Fn work a b (Ok x)) 0 n
        v.items) }
    ensures ran { IfErr result (λ e. e ≡ Spent → SpentOnRun F.Fn work n) }
{
    if n <= 4294967296 {
        return map_pieces(
            pool.rt,
            alloc,
            n,
            pool.workers.max(1).min(MOST_WORKERS),
            pool.gate,
            work,
        );
    }
    let mut whole = Vec::new(alloc);
    whole.push(work(0, n)?)?;
    Ok(whole)
}
