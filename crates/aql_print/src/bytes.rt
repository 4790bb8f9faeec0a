//! What texts are made of.

ghost use Rattle.std.specs.Prelude.{◌≡◌, ◌<◌, ◌++◌, codes, decimal, OnOk};
ghost use Rattle.std.specs.List.{flat_map};
ghost use Rattle.aql_print.specs.Appends.{AppendsPrefix};
ghost use Rattle.aql_print.specs.Joined.{before};
ghost use Rattle.aql_print.specs.ValueText.{byte_text, hex_digit};

use aql_value::Memory;
use itoa::Buffer;

/// Appends bytes.
pub fn put(text: &[u8], out: &mut Vec<u8>) -> Result<(), Memory>
    ensures ok { OnOk result (out.new.items ≡ out.old.items ++ text.now) }
    ensures prefix { AppendsPrefix out.old.items out.new.items text.now }
{
    out.extend_from_slice(text)?;
    Ok(())
}

/// Appends what stands before text `i` of several: nothing before the first, and else the separator.
pub(crate) fn put_before(i: usize, separator: &[u8], out: &mut Vec<u8>) -> Result<(), Memory>
    ensures ok { OnOk result (out.new.items ≡ out.old.items ++ before i separator.now) }
    ensures prefix { AppendsPrefix out.old.items out.new.items (before i separator.now) }
{
    if i == 0 { Ok(()) } else { put(separator, out) }
}

/// Appends a natural in decimal.
pub fn put_number(n: u128, out: &mut Vec<u8>) -> Result<(), Memory>
    ensures ok { OnOk result (out.new.items ≡ out.old.items ++ decimal n) }
    ensures prefix { AppendsPrefix out.old.items out.new.items (decimal n) }
{
    let mut buffer = Buffer::new();
    put(buffer.format(n).as_bytes(), out)
}

/// Appends a string, escaped and between quotes.
pub(crate) fn put_quoted(bytes: &[u8], out: &mut Vec<u8>) -> Result<(), Memory>
    ensures ok { OnOk result (out.new.items ≡ out.old.items
        ++ (codes "\"" ++ (flat_map byte_text bytes.now ++ codes "\""))) }
    ensures prefix { AppendsPrefix out.old.items out.new.items
        (codes "\"" ++ (flat_map byte_text bytes.now ++ codes "\"")) }
{
    put(b"\"", out)?;
    put_escaped(bytes, out)?;
    put(b"\"", out)
}

fn put_escaped(bytes: &[u8], out: &mut Vec<u8>) -> Result<(), Memory>
    ensures ok { OnOk result (out.new.items ≡ out.old.items ++ flat_map byte_text bytes.now) }
    ensures prefix { AppendsPrefix out.old.items out.new.items (flat_map byte_text bytes.now) }
{
    for b in bytes {
        put_byte(*b, out)?;
    }
    Ok(())
}

fn put_byte(b: u8, out: &mut Vec<u8>) -> Result<(), Memory>
    ensures ok { OnOk result (out.new.items ≡ out.old.items ++ byte_text b) }
    ensures prefix { AppendsPrefix out.old.items out.new.items (byte_text b) }
{
    match b {
        b'"' => put(b"\\\"", out),
        b'\\' => put(b"\\\\", out),
        0x20..=0x7e => put(&[b], out),
        _ => put(&[b'\\', b'x', hex_digit(b / 16), hex_digit(b % 16)], out),
    }
}

fn hex_digit(d: u8) -> u8
    requires { d < 16 }
    ensures { result ≡ hex_digit d }
{
    if d < 10 { b'0' + d } else { b'a' + (d - 10) }
}
