//! Lines and columns.
ghost use Rattle.std.specs.Prelude.{◌≡◌, ◌≤◌, length, IfSome};
ghost use Rattle.aql_explain.specs.Place.{line_behind, column_behind, IsPlaceIn};

/// A place in a script: its bytes from `from` up to `to`, and the line and the column of the first, counted
/// from 1. A column is a byte.
#[derive(Clone, Copy, Debug)]
pub struct Place {
    pub from: u64,
    pub to: u64,
    pub line: u64,
    pub column: u64,
}

// A line and a column.
#[derive(Clone, Copy)]
struct LineColumn {
    line: u64,
    column: u64,
}

/// These bytes of a script as a place, where they lie in it.
pub(crate) fn place_at(script: &[u8], from: u64, to: u64) -> Option<Place>
    ensures { IfSome result (IsPlaceIn script.now) }
{
    if from > to || to > script.len() as u64 {
        return None;
    }
    let at = position(&script[..from as usize])?;
    Some(Place {
        from,
        to,
        line: at.line,
        column: at.column,
    })
}

// The line and the column of the byte behind these.
fn position(front: &[u8]) -> Option<LineColumn>
    ensures line { IfSome result (λ p. p.line ≡ line_behind 1 front.now) }
    ensures column { IfSome result (λ p. p.column ≡ column_behind 1 front.now) }
{
    let mut line: u64 = 1;
    let mut column: u64 = 1;
    let mut rest = front;
    while let Some((first, behind)) = rest.split_first() {
        if *first == b'\n' {
            line = line.checked_add(1)?;
            column = 1;
        } else {
            column = column.checked_add(1)?;
        }
        rest = behind;
    }
    Some(LineColumn { line, column })
}

/// Where the line ends in which this byte stands: at its line feed, or at the end of the script.
pub(crate) fn line_end(script: &[u8], from: u64) -> u64
    requires { from ≤ length script.now }
    ensures from { from ≤ result }
    ensures within { result ≤ length script.now }
{
    let mut rest = &script[from as usize..];
    while let Some((first, behind)) = rest.split_first() {
        if *first == b'\n' {
            return (script.len() - rest.len()) as u64;
        }
        rest = behind;
    }
    script.len() as u64
}
