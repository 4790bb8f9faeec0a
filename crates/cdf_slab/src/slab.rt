//! Reading a hyperslab.

ghost use Rattle.std.specs.Prelude.{◌≡◌, ◌≢◌, ◌≤◌, ◌<◌, Bool, Some, None, Err, length, IfOk, IfErr};
ghost use Rattle.std.specs.Str.{IsUtf8};
ghost use Rattle.aql_outside.specs.Contents.{WhereTold};
ghost use Rattle.aql_outside.specs.Frames.{Leaves};
ghost use Rattle.aql_value.specs.Indices.{product};
ghost use Rattle.aql_value.specs.Lists.{Every};
ghost use Rattle.cdf_header.specs.File.{IsDevice};
ghost use Rattle.cdf_header.specs.Places.{variable_at};
ghost use Rattle.cdf_slab.specs.Numbers.{IsCell};
ghost use Rattle.cdf_slab.specs.Request.{early_of, cut_of, IsOfAsked};
ghost use Rattle.cdf_slab.specs.Slab.{most_cells, index_fault, early_fault, first_zero, AnswersSlab, AnswersRead, AnswersEarly, IsShaped, IsLate, IsLateOf, IsOfRequest, NeedsNoCell, AsksNothing};

use crate::axes::axes_of;
use crate::cells::read_cells;
use crate::faults::{cut_from, last_end, outside_dimension, variable_fault, zero_stride};
use crate::format::CellFormat;
use crate::request::Request;
use crate::window::Window;
use aql_outside::Files;
use aql_value::{Dims, Index, Memory, Str, saturating_product};
use cdf_header::{CdfFault, Header};
use nrca_array::{Builder, Flat};
use std::alloc::Global;
use std::str;

/// The cells of a variable at start + i * stride for each index i below the counts, as an array of
/// the counts as dimensions: naturals, or with `signed` pairs of whether a number is below 0 and
/// how far it is from 0.
///
/// The faults are tested in this order: `Rank`, `FloatVariable`, `Stride`, `Outside`, `Cut`,
/// `Negative`; the file's size is the header's. With a count of 0 no cell is read. The file is read
/// in pieces of at most 64 KiB, and never past the last cell. Where the files do not tell their
/// bytes, a read that gives fewer bytes than asked is the end of the file: `Cut`.
pub fn read_slab<F: Files>(
    alloc: Global,
    files: &mut F,
    name: &Str,
    header: &Header,
    v: u64,
    start: &Index,
    count: &Index,
    stride: &Index,
    signed: bool,
) -> Result<Flat, CdfFault>
    requires variable { v < length header.now.vars }
    requires some { 1 ≤ length start.now.items }
    requires few { length start.now.items ≤ 8 }
    requires counts { length count.now.items ≡ length start.now.items }
    requires strides { length stride.now.items ≡ length start.now.items }
    requires cells { product count.now.items ≤ most_cells }
    // The files hold what they held. Where `Device` is answered the count of faults rose; of quiet
    // files it is greater only there.
    ensures frame { Leaves F.holds F.faults F.quiet (IsDevice result) files.old files.new }
    // An array has the counts as dimensions and a cell for each index, whatever the files tell.
    ensures shaped { IfOk result (IsShaped count.now.items signed) }
    // A fault that the header tells is answered, whatever the files tell.
    ensures early { IsUtf8 name.now
        → AnswersEarly (early_fault header.now (variable_at header.now v)
        start.now.items count.now.items stride.now.items) result }
    // Where the variable, the strides and the indices are right, no other fault comes than these.
    ensures late { IsUtf8 name.now → IsLateOf header.now (variable_at header.now v)
        start.now.items count.now.items stride.now.items signed result }
    // Where the file is told, the hyperslab is answered, or the first fault.
    ensures told { IsUtf8 name.now → WhereTold (F.holds files.old) name.now
        (λ bytes. AnswersSlab bytes header.now (variable_at header.now v)
        start.now.items count.now.items stride.now.items signed result) }
    // What a fault says of the request, and that an array has no stride 0, whatever the files tell.
    ensures request { IfErr result
        (IsOfRequest start.now.items count.now.items stride.now.items signed) }
    ensures strides { IfOk result (λ _. first_zero 1 stride.now.items ≡ None) }
    // Where the name is not UTF-8, no cell is asked for or the header tells a fault, no call is
    // made on the files.
    ensures untouched { AsksNothing name.now header.now (variable_at header.now v)
        start.now.items count.now.items stride.now.items → files.new ≡ files.old }
    // A name that is not UTF-8 names no file.
    ensures unnamed { ¬ (IsUtf8 name.now) → result ≡ Err CdfFault.Absent }
{
    let asked = Request {
        start,
        count,
        stride,
        signed,
    };
    match str::from_utf8(&name.bytes) {
        Ok(text) => read_named(alloc, files, text, header, v, &asked),
        Err(_) => Err(CdfFault::Absent),
    }
}

// The same of a file by its name as text.
fn read_named<F: Files>(
    alloc: Global,
    files: &mut F,
    name: &str,
    header: &Header,
    v: u64,
    asked: &Request,
) -> Result<Flat, CdfFault>
    requires variable { v < length header.now.vars }
    ensures frame { Leaves F.holds F.faults F.quiet (IsDevice result) files.old files.new }
    ensures shaped { IfOk result (IsShaped asked.now.count.now asked.now.signed) }
    ensures early { AnswersEarly (early_of header.now v asked.now) result }
    ensures late { IsLateOf header.now (variable_at header.now v)
        asked.now.start.now asked.now.count.now asked.now.stride.now asked.now.signed result }
    ensures request { IfErr result (IsOfAsked asked.now) }
    ensures strides { IfOk result (λ _. first_zero 1 asked.now.stride.now ≡ None) }
    ensures untouched { NeedsNoCell header.now (variable_at header.now v)
        asked.now.start.now asked.now.count.now asked.now.stride.now → files.new ≡ files.old }
    ensures told { WhereTold (F.holds files.old) name.now
        (λ bytes. AnswersSlab bytes header.now (variable_at header.now v)
        asked.now.start.now asked.now.count.now asked.now.stride.now asked.now.signed result) }
{
    if let Some(fault) = first_fault(header, v, asked.start, asked.count, asked.stride) {
        return Err(fault);
    }
    if saturating_product(asked.count) == 0 {
        return Ok(array_of(alloc, Builder::new(alloc), asked.count)?);
    }
    read_some(alloc, files, name, header, v, asked)
}

// The hyperslab, where the indices are the variable's and no count is 0.
fn read_some<F: Files>(
    alloc: Global,
    files: &mut F,
    name: &str,
    header: &Header,
    v: u64,
    asked: &Request,
) -> Result<Flat, CdfFault>
    requires variable { v < length header.now.vars }
    requires rank { length (variable_at header.now v).ids ≡ length asked.now.start.now }
    requires full { product asked.now.count.now ≢ 0 }
    ensures frame { Leaves F.holds F.faults F.quiet (IsDevice result) files.old files.new }
    ensures shaped { IfOk result (IsShaped asked.now.count.now asked.now.signed) }
    ensures early { AnswersEarly (cut_of header.now v asked.now) result }
    ensures late { IfErr result (IsLate asked.now.signed (product asked.now.count.now)) }
    ensures untouched { (f : CdfFault) → cut_of header.now v asked.now ≡ Some f
        → files.new ≡ files.old }
    ensures told { WhereTold (F.holds files.old) name.now
        (λ bytes. AnswersRead bytes header.now (variable_at header.now v)
        asked.now.start.now asked.now.count.now asked.now.stride.now asked.now.signed result) }
{
    let axes = axes_of(alloc, header, v, asked.start, asked.count, asked.stride)?;
    let size = header.width(v);
    let end = header.bytes();
    let base = u128::from(header.begin(v));
    if let Some(at) = cut_from(end, size, &axes, base) {
        return Err(CdfFault::Cut { at });
    }
    let format = CellFormat {
        kind: header.kind(v),
        size,
        signed: asked.signed,
        end: last_end(end, size, &axes, base),
    };
    let mut window = Window::new(alloc);
    let none = Builder::new(alloc);
    match read_cells(files, name, &mut window, format, &axes, base, none) {
        Ok(cells) => Ok(array_of(alloc, cells, asked.count)?),
        Err(fault) => Err(fault),
    }
}

// The array of these dimensions and cells.
fn array_of(alloc: Global, cells: Builder, count: &[u128]) -> Result<Flat, Memory>
    requires some { 1 ≤ length count.now }
    requires few { length count.now ≤ 8 }
    requires many { product count.now ≡ length cells }
    ensures made { IfOk result (λ found. found ≡ record { dims = count.now; cells = cells }) }
    ensures shaped { (signed : Bool) → Every (IsCell signed) cells
        → IfOk result (IsShaped count.now signed) }
{
    let dims = dims_of(alloc, count)?;
    match cells.finish(dims)? {
        Some(found) => Ok(found),
        None => unreachable!(),
    }
}

// The first fault of the variable, the strides and the dimensions.
fn first_fault(
    header: &Header,
    v: u64,
    start: &[u128],
    count: &[u128],
    stride: &[u128],
) -> Option<CdfFault>
    requires variable { v < length header.now.vars }
    requires counts { length count.now ≡ length start.now }
    requires strides { length stride.now ≡ length start.now }
    ensures which { result ≡ index_fault header.now (variable_at header.now v)
        start.now count.now stride.now }
    ensures rank { result ≡ None → length (variable_at header.now v).ids ≡ length start.now }
{
    if let Some(fault) = variable_fault(header, v, start.len() as u64) {
        return Some(fault);
    }
    if let Some(dimension) = zero_stride(stride) {
        return Some(CdfFault::Stride { dimension });
    }
    match outside_dimension(header, v, start, count, stride) {
        Some(dimension) => Some(CdfFault::Outside { dimension }),
        None => None,
    }
}

fn dims_of(alloc: Global, count: &[u128]) -> Result<Dims, Memory>
    ensures { IfOk result (λ dims. dims ≡ count.now) }
{
    let mut dims = Vec::new(alloc);
    dims.extend_from_slice(count)?;
    Ok(Dims { dims })
}
