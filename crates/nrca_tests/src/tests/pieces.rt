use crate::tests::same::assert_same;
use crate::tests::values::numbers;
use aql_outside::FreeGate;
use aql_value::{Items, Value};
use nrca_par::{EvalFault, canon_wide, map_pieces, piece};
use std::test::Fail;

// Ten members in three pieces: 0 to 2, 3 to 5 and 6 to 9.
#[test]
fn each_piece_answers_in_its_place(rt: HostRuntime) -> Result<(), Fail> {
    assert_same(&rt, piece(10, 3, 1), (3, 6));
    let ends = |_from: u64, to: u64| -> Result<u64, EvalFault> { Ok(to) };
    let all = map_pieces(&rt, rt.alloc(), 10, 3, &FreeGate, ends)?;
    assert_eq!(rt; all.as_slice(), [3, 6, 10].as_slice());
    Ok(())
}

// Whether the items are these numbers in this order.
fn are(items: &Items, numbers: &[u128]) -> bool {
    if items.items.len() != numbers.len() {
        return false;
    }
    for (item, number) in items.items.iter().zip(numbers.iter()) {
        match item {
            Value::Nat(n) if n == number => (),
            _ => return false,
        }
    }
    true
}

#[test]
fn a_set_holds_each_member_once(rt: HostRuntime) -> Result<(), Fail> {
    let alloc = rt.alloc();
    let set = canon_wide(&rt, alloc, numbers(alloc, &[3, 1, 3])?)?.into_items();
    let found = are(&set, &[1, 3]);
    drop(set);
    assert_same(&rt, found, true);
    Ok(())
}
