// Numbers in fields.
ghost use Rattle.std.specs.Prelude.{◌≡◌};
ghost use Rattle.aql_csv.specs.Number.{number_of};

/// The number that a field spells, `None` where it is not one or more decimal digits of a number of
/// 128 bits.
#[tactic(auto, using(crate::proofs::Digits::decimal_grows))]
pub(crate) fn number(field: &[u8]) -> Option<u128>
    ensures { result ≡ number_of field.now }
{
    if field.is_empty() {
        return None;
    }
    let mut value: u128 = 0;
    let mut rest = field;
    while let Some((first, behind)) = rest.split_first() {
        if !first.is_ascii_digit() {
            return None;
        }
        value = value.checked_mul(10)?.checked_add((*first - b'0') as u128)?;
        rest = behind;
    }
    Some(value)
}
