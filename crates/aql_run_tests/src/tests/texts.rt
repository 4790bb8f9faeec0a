// Texts of parts.
use aql_value::Memory;
use std::alloc::Global;

/// A text so many times.
#[derive(Clone, Copy)]
pub(crate) struct Part<'a>(pub &'a str, pub usize);

/// Puts a text behind another.
pub(crate) fn push(text: &mut Vec<u8>, part: &str) -> Result<(), Memory> {
    text.extend_from_slice(part.as_bytes())?;
    Ok(())
}

fn push_part(text: &mut Vec<u8>, part: &Part<'_>) -> Result<(), Memory> {
    for _ in 0..part.1 {
        push(text, part.0)?;
    }
    Ok(())
}

fn push_parts(text: &mut Vec<u8>, parts: &[Part<'_>]) -> Result<(), Memory> {
    for part in parts {
        push_part(text, part)?;
    }
    Ok(())
}

/// The text of these parts.
pub(crate) fn text_of(alloc: Global, parts: &[Part<'_>]) -> Result<Vec<u8>, Memory> {
    let mut text = Vec::new(alloc);
    push_parts(&mut text, parts)?;
    Ok(text)
}
