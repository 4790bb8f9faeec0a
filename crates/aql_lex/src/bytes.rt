//! Kinds of bytes.

ghost use Rattle.std.specs.Prelude.{◌≡◌};
ghost use Rattle.aql_syntax.specs.Lexis.{is_letter, is_digit, is_name_byte, is_hex, is_plain, is_space};

/// A letter of ASCII.
pub fn letter(b: u8) -> bool
    ensures { result ≡ is_letter b }
{
    b.is_ascii_alphabetic()
}

/// A decimal digit.
pub fn digit(b: u8) -> bool
    ensures { result ≡ is_digit b }
{
    b.is_ascii_digit()
}

/// A hexadecimal digit of either case.
pub fn hex_digit(b: u8) -> bool
    ensures { result ≡ is_hex b }
{
    b.is_ascii_hexdigit()
}

/// What may follow in a name.
pub(crate) fn name_byte(b: u8) -> bool
    ensures { result ≡ is_name_byte b }
{
    letter(b) || digit(b) || b == b'_' || b == b'\''
}

/// A byte that stands for itself in a string.
pub fn plain(b: u8) -> bool
    ensures { result ≡ is_plain b }
{
    (b >= 0x20 && b <= 0x7e || b >= 0x80) && b != b'"' && b != b'\\'
}

/// Space, tab, carriage return, line feed.
pub(crate) fn space(b: u8) -> bool
    ensures { result ≡ is_space b }
{
    b == b' ' || b == b'\t' || b == b'\r' || b == b'\n'
}
