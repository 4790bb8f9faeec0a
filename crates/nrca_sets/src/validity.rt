//! That members are values of the language.

ghost use Rattle.std.specs.Prelude.{◌<◌, ◌^◌, map};
ghost use Rattle.std.specs.List.{All};
ghost use Rattle.aql_value.specs.Datum.{data_of, natural};
ghost use Rattle.aql_value.specs.Valid.{AreValues, IsValue};
ghost use Rattle.nrca_sets.specs.Pairs.{pair_value};
ghost use Rattle.nrca_sets.specs.Rows.{row_data};

use crate::rows::Rows;
use aql_value::all_valid;

/// Shows that the values of rows are values of the language.
pub(crate) fn valid_rows(rows: &Rows)
    ensures { AreValues (data_of (row_data rows.now)) }
{
    match rows {
        Rows::Plain(items) => all_valid(items),
        Rows::Ones(numbers) => valid_numbers(numbers),
        Rows::Twos(pairs) => valid_pairs(pairs),
    }
}

#[tactic(auto, using(crate::specs::Laws::Valid::numbers_valid))]
fn valid_numbers(numbers: &[u64])
    ensures { AreValues (data_of (map natural numbers.now)) }
{
    numbers_fit(numbers);
}

/// Shows what the type of the numbers says of them.
pub fn numbers_fit(numbers: &[u64])
    ensures { All (λ n. n < 2 ^ 64) numbers.now }
{
    let _len = numbers.len();
}

fn valid_pairs(pairs: &[(u64, u64)])
    ensures { AreValues (data_of (map pair_value pairs.now)) }
{
    for pair in pairs {
        valid_pair(pair.0, pair.1);
    }
}

fn valid_pair(m: u64, n: u64)
    ensures { IsValue (pair_value (m, n)) }
{}
