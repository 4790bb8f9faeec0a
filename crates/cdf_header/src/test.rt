//! What a number in a header has to be.
ghost use Rattle.std.specs.Prelude.{◌≡◌};
ghost use Rattle.cdf_header.specs.Format.{flaw};

use crate::fault::FieldFault;

/// What the number of a field is held against.
#[derive(Clone, Copy, Debug, PartialEq, Eq)]
pub enum Test {
    Any,
    /// 0 or the list's own.
    Tag {
        own: u64,
    },
    /// The tag before it, the list, and the most of it.
    Count {
        before: u64,
        list: u8,
        most: u64,
    },
    /// Whether a record dimension stands before it.
    Extent {
        has: bool,
    },
    /// How many dimensions there are, which of them is the record dimension, and whether it is the
    /// first of a shape.
    Id {
        dims: u64,
        unlimited: Option<u64>,
        first: bool,
    },
    NcType {
        version: u8,
    },
}

// What is wrong with a number.
pub(crate) fn flaw_of(test: Test, at: usize, n: u64) -> Option<FieldFault>
    ensures { result ≡ flaw test at n }
{
    let wrong = match test {
        Test::Any => false,
        Test::Tag { own } => n != 0 && n != own,
        Test::Count { before, list, most } => {
            if n > most {
                return Some(FieldFault::TooMany { list });
            }
            before == 0 && n != 0
        }
        Test::Extent { has } => has && n == 0,
        Test::Id {
            dims,
            unlimited,
            first,
        } => n >= dims || (!first && unlimited == Some(n)),
        Test::NcType { version } => n == 0 || n > (if version == 5 { 11 } else { 6 }),
    };
    if wrong {
        Some(FieldFault::Malformed { at })
    } else {
        None
    }
}
