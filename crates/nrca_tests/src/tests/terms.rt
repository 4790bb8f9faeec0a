use crate::tests::same::assert_same;
use crate::tests::words;
use aql_value::Memory;
use nrca_term::{Core, Path, place, weight};
use std::alloc::Global;

// The part at the end of these steps: none where there is no such part, and else its variable, if it is one.
fn variable_at(alloc: Global, term: &Core, steps: &[u32]) -> Result<Option<Option<u64>>, Memory> {
    let path = Path(Vec::from_slice(alloc, steps)?);
    let found = place(term, &path);
    drop(path);
    Ok(match found {
        Some(part) => Some(part.variable()),
        None => None,
    })
}

fn weight_of(alloc: Global, words: &str) -> Result<u128, Memory> {
    let term = words::term(alloc, words)?;
    let found = weight(&term);
    drop(term);
    Ok(found)
}

fn copy_of(alloc: Global, words: &str) -> Result<Core, Memory> {
    let term = words::term(alloc, words)?;
    let copied = term.copy(alloc);
    drop(term);
    copied
}

fn weight_of_copy(alloc: Global, words: &str) -> Result<u128, Memory> {
    let copied = copy_of(alloc, words)?;
    let found = weight(&copied);
    drop(copied);
    Ok(found)
}

fn variable_in_copy(
    alloc: Global,
    words: &str,
    steps: &[u32],
) -> Result<Option<Option<u64>>, Memory> {
    let copied = copy_of(alloc, words)?;
    let found = variable_at(alloc, &copied, steps);
    drop(copied);
    found
}

// [[ (i, "a") | i < 2, j < 3 ]] at 0 and 1
#[test]
fn weights_places_and_copies(rt: HostRuntime) {
    let alloc = rt.alloc();
    let words = "2 3 v1 'a tup2 tab2 0 1 sub2";
    // a tabulation of rank 2 weighs 18; two bounds, a tuple of two, the subscript and two indices
    assert_same(&rt, weight_of(alloc, words), Ok(26));
    assert_same(&rt, weight_of_copy(alloc, words), Ok(26));
    // part 0 of the subscript, its body (part 2), and part 0 of that
    let inner = variable_in_copy(alloc, words, &[0, 2, 0]);
    assert_same(&rt, inner, Ok(Some(Some(1))));
    assert_same(&rt, variable_in_copy(alloc, words, &[0, 3]), Ok(None));
}

#[test]
fn the_dimensions_of_a_rank_weigh_more(rt: HostRuntime) {
    assert_same(&rt, weight_of(rt.alloc(), "v0 dim8"), Ok(19));
    assert_same(&rt, weight_of(rt.alloc(), "1 v0 dim8 +"), Ok(21));
}
