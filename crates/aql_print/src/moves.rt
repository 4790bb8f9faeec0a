ghost use Rattle.std.specs.Prelude.{◌≡◌, ◌++◌, OnOk};
ghost use Rattle.aql_print.specs.Appends.{AppendsPrefix};
ghost use Rattle.aql_print.specs.MovesText.{move_text, moves_text};

use crate::bytes::{put, put_before};
use aql_value::Memory;
use nrca_motion::{MoveRule, Moves};
use std::alloc::Global;

/// Appends the names of the moves' rules, with single spaces, or `none`. Where memory runs out, the old bytes and then
/// a prefix of the text are left.
pub fn print_moves(_alloc: Global, moves: &Moves, out: &mut Vec<u8>) -> Result<(), Memory>
    ensures ok { OnOk result (out.new.items ≡ out.old.items ++ moves_text moves.now) }
    ensures prefix { AppendsPrefix out.old.items out.new.items (moves_text moves.now) }
{
    if moves.0.is_empty() {
        return put(b"none", out);
    }
    for (i, made) in moves.0.iter().enumerate() {
        put_before(i, b" ", out)?;
        put(move_name(made.rule), out)?;
    }
    Ok(())
}

fn move_name(rule: MoveRule) -> &'static [u8]
    ensures { result.now ≡ move_text rule }
{
    match rule {
        MoveRule::M1 => b"M1",
        MoveRule::M2 => b"M2",
        MoveRule::M3 => b"M3",
        MoveRule::M4 => b"M4",
    }
}
