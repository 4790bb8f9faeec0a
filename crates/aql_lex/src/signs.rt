//! How reserved words and signs are spelled, and which one stands somewhere.

ghost use Rattle.std.specs.Prelude.{◌≡◌, ◌≢◌, MatchOption, Some, None};
ghost use Rattle.aql_syntax.specs.declared.sign.Sign.{Sign};
ghost use Rattle.aql_syntax.specs.Signs as table;
ghost use Rattle.aql_lex.specs.Lexing.{first_spelled, sign_from};

use aql_syntax::sign::Sign;
use aql_syntax::token::strip_front;

/// The reserved word or sign that these bytes spell.
pub fn sign_of(text: &[u8]) -> Option<Sign>
    ensures { MatchOption result ((g : Sign) → table.spelling g ≢ text.now)
        (λ g. table.spelling g ≡ text.now) }
{
    find_spelling(&ALL, text)
}

/// The reserved word that these bytes spell.
pub fn word_of(text: &[u8]) -> Option<Sign>
    ensures { MatchOption result (first_spelled WORDS text.now ≡ None)
        (λ g. first_spelled WORDS text.now ≡ Some g) }
{
    find_spelling(&WORDS, text)
}

/// The longest sign at the front, other than an open parenthesis, and what follows it.
pub(crate) fn sign_at(bytes: &[u8]) -> Option<(Sign, &[u8])>
    ensures { MatchOption result (sign_from SIGNS bytes.now ≡ None) (λ x. sign_from SIGNS bytes.now
        ≡ Some (x.0, x.1.now)) }
{
    first_at(&SIGNS, bytes)
}

// The first of these that the bytes spell.
fn find_spelling(signs: &[Sign], text: &[u8]) -> Option<Sign>
    ensures { MatchOption result (first_spelled signs.now text.now ≡ None)
        (λ g. first_spelled signs.now text.now ≡ Some g) }
{
    let mut left = signs;
    while let Some((first, later)) = left.split_first() {
        if text == spelling(*first) {
            return Some(*first);
        }
        left = later;
    }
    None
}

// The first of these that stands at the front, and what follows it.
fn first_at<'a>(signs: &[Sign], bytes: &'a [u8]) -> Option<(Sign, &'a [u8])>
    ensures { MatchOption result (sign_from signs.now bytes.now ≡ None)
        (λ x. sign_from signs.now bytes.now ≡ Some (x.0, x.1.now)) }
{
    let mut left = signs;
    while let Some((first, later)) = left.split_first() {
        if let Some(rest) = strip_front(spelling(*first), bytes) {
            return Some((*first, rest));
        }
        left = later;
    }
    None
}

/// The reserved words.
pub const WORDS: [Sign; 39] = [
    Sign::Val,
    Sign::Macro,
    Sign::Readval,
    Sign::Using,
    Sign::At,
    Sign::Fn,
    Sign::Let,
    Sign::In,
    Sign::End,
    Sign::If,
    Sign::Then,
    Sign::Else,
    Sign::True,
    Sign::False,
    Sign::And,
    Sign::Or,
    Sign::Not,
    Sign::Union,
    Sign::Gen,
    Sign::Get,
    Sign::Len,
    Sign::Summap,
    Sign::Default,
    Sign::Dim1,
    Sign::Dim2,
    Sign::Dim3,
    Sign::Dim4,
    Sign::Dim5,
    Sign::Dim6,
    Sign::Dim7,
    Sign::Dim8,
    Sign::Index1,
    Sign::Index2,
    Sign::Index3,
    Sign::Index4,
    Sign::Index5,
    Sign::Index6,
    Sign::Index7,
    Sign::Index8,
];

/// The signs, the longer ones first.
pub const SIGNS: [Sign; 26] = [
    Sign::DoubleEqual,
    Sign::FatArrow,
    Sign::Arrow,
    Sign::LessEqual,
    Sign::Unequal,
    Sign::GreaterEqual,
    Sign::Close,
    Sign::OpenBrace,
    Sign::CloseBrace,
    Sign::OpenBracket,
    Sign::CloseBracket,
    Sign::Comma,
    Sign::Semicolon,
    Sign::Colon,
    Sign::Bar,
    Sign::Bang,
    Sign::Backslash,
    Sign::Underscore,
    Sign::Equal,
    Sign::Less,
    Sign::Greater,
    Sign::Plus,
    Sign::Minus,
    Sign::Star,
    Sign::Slash,
    Sign::Percent,
];

/// Reserved words and signs together; those that a script has most come first.
pub const ALL: [Sign; 66] = [
    Sign::Comma,
    Sign::Semicolon,
    Sign::Backslash,
    Sign::Open,
    Sign::Close,
    Sign::OpenBrace,
    Sign::CloseBrace,
    Sign::OpenBracket,
    Sign::CloseBracket,
    Sign::Bar,
    Sign::Bang,
    Sign::Plus,
    Sign::Minus,
    Sign::Colon,
    Sign::Underscore,
    Sign::Equal,
    Sign::DoubleEqual,
    Sign::FatArrow,
    Sign::Arrow,
    Sign::Less,
    Sign::LessEqual,
    Sign::Greater,
    Sign::GreaterEqual,
    Sign::Unequal,
    Sign::Star,
    Sign::Slash,
    Sign::Percent,
    Sign::Val,
    Sign::Macro,
    Sign::Readval,
    Sign::Using,
    Sign::At,
    Sign::Fn,
    Sign::Let,
    Sign::In,
    Sign::End,
    Sign::If,
    Sign::Then,
    Sign::Else,
    Sign::True,
    Sign::False,
    Sign::And,
    Sign::Or,
    Sign::Not,
    Sign::Union,
    Sign::Gen,
    Sign::Get,
    Sign::Len,
    Sign::Summap,
    Sign::Default,
    Sign::Dim1,
    Sign::Dim2,
    Sign::Dim3,
    Sign::Dim4,
    Sign::Dim5,
    Sign::Dim6,
    Sign::Dim7,
    Sign::Dim8,
    Sign::Index1,
    Sign::Index2,
    Sign::Index3,
    Sign::Index4,
    Sign::Index5,
    Sign::Index6,
    Sign::Index7,
    Sign::Index8,
];

fn spelling(sign: Sign) -> &'static [u8]
    ensures { result.now ≡ table.spelling sign }
{
    match sign {
        Sign::Val => b"val",
        Sign::Macro => b"macro",
        Sign::Readval => b"readval",
        Sign::Using => b"using",
        Sign::At => b"at",
        Sign::Fn => b"fn",
        Sign::Let => b"let",
        Sign::In => b"in",
        Sign::End => b"end",
        Sign::If => b"if",
        Sign::Then => b"then",
        Sign::Else => b"else",
        Sign::True => b"true",
        Sign::False => b"false",
        Sign::And => b"and",
        Sign::Or => b"or",
        Sign::Not => b"not",
        Sign::Union => b"union",
        Sign::Gen => b"gen",
        Sign::Get => b"get",
        Sign::Len => b"len",
        Sign::Summap => b"summap",
        Sign::Default => b"default",
        Sign::Dim1 => b"dim_1",
        Sign::Dim2 => b"dim_2",
        Sign::Dim3 => b"dim_3",
        Sign::Dim4 => b"dim_4",
        Sign::Dim5 => b"dim_5",
        Sign::Dim6 => b"dim_6",
        Sign::Dim7 => b"dim_7",
        Sign::Dim8 => b"dim_8",
        Sign::Index1 => b"index_1",
        Sign::Index2 => b"index_2",
        Sign::Index3 => b"index_3",
        Sign::Index4 => b"index_4",
        Sign::Index5 => b"index_5",
        Sign::Index6 => b"index_6",
        Sign::Index7 => b"index_7",
        Sign::Index8 => b"index_8",
        Sign::Open => b"(",
        Sign::Close => b")",
        Sign::OpenBrace => b"{",
        Sign::CloseBrace => b"}",
        Sign::OpenBracket => b"[",
        Sign::CloseBracket => b"]",
        Sign::Comma => b",",
        Sign::Semicolon => b";",
        Sign::Colon => b":",
        Sign::Bar => b"|",
        Sign::Bang => b"!",
        Sign::Backslash => b"\\",
        Sign::Underscore => b"_",
        Sign::Equal => b"=",
        Sign::DoubleEqual => b"==",
        Sign::FatArrow => b"=>",
        Sign::Arrow => b"<-",
        Sign::Less => b"<",
        Sign::LessEqual => b"<=",
        Sign::Greater => b">",
        Sign::GreaterEqual => b">=",
        Sign::Unequal => b"<>",
        Sign::Plus => b"+",
        Sign::Minus => b"-",
        Sign::Star => b"*",
        Sign::Slash => b"/",
        Sign::Percent => b"%",
    }
}
