//! The causes of the lines that tell a fault.

use aql_csv::CsvFault;
use aql_script::ScriptFault;
use cdf_header::CdfFault;

/// What the line of a fault tells. Declarations are those of the script, counted from 1.
#[derive(Clone, Copy, Debug)]
pub enum Cause {
    /// The script has a fault.
    Script { fault: ScriptFault },
    /// The turns of a query passed the budget.
    Turns { declaration: u64 },
    /// The cells that a readval asks for passed the budget, or the bytes of its file of records did.
    Cells { declaration: u64, cells: u128 },
    /// A netCDF file could not be read as it was asked for.
    File { declaration: u64, fault: CdfFault },
    /// A file of records could not be read as it was asked for.
    Table { declaration: u64, fault: CsvFault },
    /// A call on the files failed.
    Device { declaration: u64 },
}
