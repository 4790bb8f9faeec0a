//! What is asked of a variable of a small file, and what is answered.
ghost use Rattle.std.specs.Prelude.{◌≡◌, ◌≤◌, ◌<◌, length, IfOk, IfSome, IsTrue};
ghost use Rattle.aql_value.specs.Indices.{product};
ghost use Rattle.cdf_slab.specs.Slab.{most_cells};

use crate::tests::devices::name_of;
use crate::tests::netcdf_files::index_of;
use aql_outside::{Files, SureFiles};
use aql_value::made::both;
use aql_value::{Memory, saturating_product};
use cdf_header::{CdfFault, Header};
use cdf_slab::read_slab;
use nrca_array::Flat;
use std::alloc::Global;

/// The start, the count and the stride of what is read of a variable, as naturals or as pairs of whether it is below 0
/// and a natural.
#[derive(Clone, Copy)]
pub enum Asked<'a> {
    Naturals(&'a [u128], &'a [u128], &'a [u128]),
    Pairs(&'a [u128], &'a [u128], &'a [u128]),
}

/// The hyperslab of a variable of the file with this header, read over the files.
pub(crate) fn read_over<F: Files>(
    alloc: Global,
    files: &mut F,
    header: Result<Header, CdfFault>,
    variable: &[u8],
    request: Asked,
) -> Result<Flat, CdfFault> {
    let header = header?;
    let found = read_found(alloc, files, &header, variable, request);
    drop(header);
    found
}

/// The same, where the files are sure.
pub(crate) fn read_sure(
    alloc: Global,
    files: Result<SureFiles, Memory>,
    header: Result<Header, CdfFault>,
    variable: &[u8],
    request: Asked,
) -> Result<Flat, CdfFault> {
    let mut files = files?;
    read_over(alloc, &mut files, header, variable, request)
}

fn read_found<F: Files>(
    alloc: Global,
    files: &mut F,
    header: &Header,
    variable: &[u8],
    request: Asked,
) -> Result<Flat, CdfFault> {
    match find(alloc, header, variable)? {
        Some(v) => read_asked(alloc, files, header, v, request),
        None => Err(CdfFault::NoVariable),
    }
}

fn find(alloc: Global, header: &Header, variable: &[u8]) -> Result<Option<u64>, Memory>
    ensures { IfOk result (λ found. IfSome found (λ v. v < length header.now.vars)) }
{
    let name = name_of(alloc, variable)?;
    Ok(header.find(&name))
}

fn read_asked<F: Files>(
    alloc: Global,
    files: &mut F,
    header: &Header,
    v: u64,
    request: Asked,
) -> Result<Flat, CdfFault>
    requires { v < length header.now.vars }
{
    match request {
        Asked::Naturals(start, count, stride) => {
            read(alloc, files, header, v, start, count, stride, false)
        }
        Asked::Pairs(start, count, stride) => {
            read(alloc, files, header, v, start, count, stride, true)
        }
    }
}

fn is_asked(start: &[u128], count: &[u128], stride: &[u128]) -> bool
    ensures some { IsTrue result → 1 ≤ length start.now }
    ensures few { IsTrue result → length start.now ≤ 8 }
    ensures counts { IsTrue result → length count.now ≡ length start.now }
    ensures strides { IsTrue result → length stride.now ≡ length start.now }
    ensures cells { IsTrue result → product count.now ≤ most_cells }
{
    let rank = start.len();
    if rank == 0 || rank > 8 || count.len() != rank || stride.len() != rank {
        return false;
    }
    saturating_product(count) <= 50000000
}

fn read<F: Files>(
    alloc: Global,
    files: &mut F,
    header: &Header,
    v: u64,
    start: &[u128],
    count: &[u128],
    stride: &[u128],
    signed: bool,
) -> Result<Flat, CdfFault>
    requires { v < length header.now.vars }
{
    if !is_asked(start, count, stride) {
        return Err(CdfFault::Memory);
    }
    let steps = both(index_of(alloc, count), index_of(alloc, stride));
    let lists = both(index_of(alloc, start), steps);
    let (name, (start, (count, stride))) = both(name_of(alloc, b"s"), lists)?;
    read_slab(
        alloc, files, &name, header, v, &start, &count, &stride, signed,
    )
}

/// What is answered: the width and the bytes of the packed cells, 0 and none where there is no cell; or the fault.
pub type Answer<'a> = Result<(u64, &'a [u8]), CdfFault>;

/// What was read is what is expected.
pub(crate) fn agrees(found: &Result<Flat, CdfFault>, expected: Answer) -> bool {
    match (found, expected) {
        (Ok(flat), Ok((w, cells))) => match flat.packed() {
            Some((width, bytes)) => width == w && bytes == cells,
            None => w == 0 && cells.is_empty(),
        },
        (Err(fault), Err(e)) => *fault == e,
        _ => false,
    }
}

/// Every cell of the variable `v` of one record variable's file, or of two.
pub const ALL: Asked = Asked::Naturals(&[0, 0], &[2, 3], &[1, 1]);

/// Its cells, packed.
pub const CELLS: &[u8] = &[1, 2, 3, 4, 5, 6];
