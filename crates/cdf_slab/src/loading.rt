//! Reading a piece of a file where its numbers are asked for.

ghost use Rattle.std.specs.Prelude.{◌≡◌, ◌+◌, ◌-◌, ◌^◌, ◌≤◌, ◌<◌, length, IfOk, IfErr};
ghost use Rattle.aql_outside.specs.Contents.{WhereTold};
ghost use Rattle.aql_outside.specs.Frames.{Leaves};
ghost use Rattle.cdf_header.specs.File.{IsDevice, IsOutside};
ghost use Rattle.cdf_slab.specs.Run.{HoldsRun};
ghost use Rattle.cdf_slab.specs.Window.{HasBytes, IsRead, IsLoaded, StaysPiece, IsOfPiece};
ghost use Rattle.nrca_array.specs.Runs.{IsWidth};

use crate::format::CellFormat;
use crate::window::Window;
use aql_outside::Files;
use cdf_header::CdfFault;

/// The most bytes that one read asks for.
const PIECE: u64 = 65536;

/// The most bytes from one cell to the next where both are read at once.
pub(crate) const REACH: u64 = 4096;

// Reads so many bytes from an offset on.
fn load<F: Files>(
    files: &mut F,
    name: &str,
    window: &mut Window,
    at: u64,
    room: usize,
) -> Result<(), CdfFault>
    ensures frame { Leaves F.holds F.faults F.quiet (IsDevice result) files.old files.new }
    ensures causes { IfErr result IsOutside }
    ensures told { WhereTold (F.holds files.old) name.now
        (λ bytes. IsLoaded bytes at room window.new result) }
{
    if window.make_room(room).is_err() {
        return Err(CdfFault::Memory);
    }
    let count = read_front(files, name, at, &mut window.memory, room)?;
    window.at = at;
    window.count = count;
    window.short = count < room;
    Ok(())
}

// Reads so many bytes from an offset on over the first of a memory, and answers how many came.
fn read_front<F: Files>(
    files: &mut F,
    name: &str,
    at: u64,
    memory: &mut [u8],
    room: usize,
) -> Result<usize, CdfFault>
    requires { room ≤ length memory.old }
    ensures frame { Leaves F.holds F.faults F.quiet (IsDevice result) files.old files.new }
    ensures causes { IfErr result IsOutside }
    ensures most { IfOk result (λ count. count ≤ room) }
    ensures told { WhereTold (F.holds files.old) name.now
        (λ bytes. IsRead bytes at room memory.new result) }
{
    match files.read_at(name, at, &mut memory[..room]) {
        Ok(count) => Ok(count),
        Err(_) => Err(CdfFault::Device),
    }
}

// Makes the piece one in which a number of so many bytes at an offset stands. Reads on where it
// does not stand in it yet, and never past the end. A read that gives fewer bytes than asked is the
// end of the file: `Cut`.
fn hold<F: Files>(
    files: &mut F,
    name: &str,
    window: &mut Window,
    end: u64,
    place: u64,
    size: u64,
) -> Result<(), CdfFault>
    requires size { IsWidth size }
    requires within { place + size ≤ end }
    ensures frame { Leaves F.holds F.faults F.quiet (IsDevice result) files.old files.new }
    ensures late { IfErr result IsOfPiece }
    ensures holds { IfOk result (λ _. HasBytes window.new place size) }
    ensures told { WhereTold (F.holds files.old) name.now
        (λ bytes. StaysPiece bytes end window.old window.new result) }
{
    if window.has(place, size) {
        return Ok(());
    }
    if window.short {
        return Err(CdfFault::Cut {
            at: u128::from(place),
        });
    }
    let room = (end - place).min(PIECE);
    load(files, name, window, place, room as usize)?;
    if window.has(place, size) {
        Ok(())
    } else {
        Err(CdfFault::Cut {
            at: u128::from(place),
        })
    }
}

// How far a piece from an offset on may reach: where the next number is far away, to the end of the
// first.
fn reach(format: CellFormat, place: u64, step: u64, most: u64) -> u64
    requires { place + format.size ≤ format.end }
    ensures some { place + format.size ≤ result }
    ensures within { result ≤ format.end }
{
    if most > 1 && step > REACH {
        place + format.size
    } else {
        format.end
    }
}

/// How many numbers of so many bytes, a step apart from an offset on, stand in one piece: one at
/// least, and at most so many.
pub(crate) fn run_in<F: Files>(
    files: &mut F,
    name: &str,
    window: &mut Window,
    format: CellFormat,
    place: u64,
    step: u64,
    most: u64,
) -> Result<u64, CdfFault>
    requires size { IsWidth format.size }
    requires within { place + format.size ≤ format.end }
    requires some { 1 ≤ most }
    ensures frame { Leaves F.holds F.faults F.quiet (IsDevice result) files.old files.new }
    ensures late { IfErr result IsOfPiece }
    ensures some { IfOk result (λ n. 1 ≤ n) }
    ensures most { IfOk result (λ n. n ≤ most) }
    ensures near { IfOk result (λ n. 2 ≤ n → step < 2 ^ 64 - 1) }
    ensures run { IfOk result (HoldsRun window.new place format.size step) }
    ensures told { WhereTold (F.holds files.old) name.now
        (λ bytes. StaysPiece bytes format.end window.old window.new result) }
{
    let end = reach(format, place, step, most);
    match hold(files, name, window, end, place, format.size) {
        Ok(()) => Ok(window.many(place, format.size, step, most)),
        Err(fault) => Err(fault),
    }
}
