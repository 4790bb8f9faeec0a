//! The numbers of a variable out of their bytes.

ghost use Rattle.std.specs.Prelude.{◌≡◌};
ghost use Rattle.cdf_slab.specs.Numbers.{number_of, twos};
ghost use Rattle.cdf_slab.specs.Run.{lowest};
ghost use Rattle.nrca_array.specs.Runs.{IsWidth};

/// The least that the bytes of a number below 0 spell, where the type has a sign.
pub(crate) fn lowest_below(kind: u32) -> Option<u64>
    ensures { result ≡ lowest kind }
{
    match kind {
        1 => Some(0x80),
        3 => Some(0x8000),
        4 => Some(0x8000_0000),
        10 => Some(0x8000_0000_0000_0000),
        _ => None,
    }
}

/// Whether a number is below 0, and how far it is from 0, by the type of its variable.
pub(crate) fn number(kind: u32, x: u64) -> (bool, u64)
    ensures { result ≡ number_of kind x }
{
    match kind {
        1 => signed_number(1, x),
        3 => signed_number(2, x),
        4 => signed_number(4, x),
        10 => signed_number(8, x),
        _ => (false, x),
    }
}

// The number that so many bytes are as two's complement.
fn signed_number(size: u64, x: u64) -> (bool, u64)
    requires { IsWidth size }
    ensures { result ≡ twos size x }
{
    match size {
        1 => {
            if x < 0x80 {
                (false, x)
            } else {
                (true, 0x100u64.saturating_sub(x))
            }
        }
        2 => {
            if x < 0x8000 {
                (false, x)
            } else {
                (true, 0x1_0000u64.saturating_sub(x))
            }
        }
        4 => {
            if x < 0x8000_0000 {
                (false, x)
            } else {
                (true, 0x1_0000_0000u64.saturating_sub(x))
            }
        }
        _ => {
            if x < 0x8000_0000_0000_0000 {
                (false, x)
            } else {
                (true, u64::MAX - x + 1)
            }
        }
    }
}
