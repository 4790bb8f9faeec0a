//! Stacks of what is made of words.

use aql_value::Memory;

/// The last of the stack, taken off.
pub fn last<T: Drop>(stack: &mut Vec<T>) -> Result<T, Memory> {
    stack.pop().ok_or(Memory)
}

/// The last ones, as many as are wanted, taken off.
pub fn lasts<T: Drop>(stack: &mut Vec<T>, count: usize) -> Result<Vec<T>, Memory> {
    if stack.len() < count {
        return Err(Memory);
    }
    Ok(stack.split_off(stack.len() - count)?)
}

/// Puts what was made behind the others.
pub fn push_made<T: Drop>(stack: &mut Vec<T>, made: Result<T, Memory>) -> Result<(), Memory> {
    stack.push(made?)?;
    Ok(())
}
