//! The built-in script.
ghost use Rattle.std.specs.Prelude.{◌≡◌, ◌++◌, decimal, IfOk, OnOk};
ghost use Rattle.aql_run.specs.Sample.{sample_text};

use aql_value::Memory;
use itoa::Buffer;
use std::alloc::Global;

/// The script of `--sample n`: a tabulation of n cells and a comprehension over it, a sum over n
/// numbers, and an array made of n pairs.
pub fn sample_script(alloc: Global, n: u64) -> Result<Vec<u8>, Memory>
    ensures { IfOk result (λ text. text.items ≡ sample_text n) }
{
    let mut text = Vec::new(alloc);
    text.extend_from_slice(b"let val \\A = [[i*i%97 | \\i<")?;
    push_number(n, &mut text)?;
    text.extend_from_slice(b"]] in {x | [_:\\x] <- A, x<5} end;\nsummap(fn \\x => x)!(gen!")?;
    push_number(n, &mut text)?;
    text.extend_from_slice(b");\nlen!(index_1!({(i%10,i) | \\i <- gen!")?;
    push_number(n, &mut text)?;
    text.extend_from_slice(b"}));\n")?;
    Ok(text)
}

/// Appends a number in decimal.
pub(crate) fn push_number(n: u64, text: &mut Vec<u8>) -> Result<(), Memory>
    ensures { OnOk result (text.new.items ≡ text.old.items ++ decimal n) }
{
    let mut buffer = Buffer::new();
    text.extend_from_slice(buffer.format(n).as_bytes())?;
    Ok(())
}
