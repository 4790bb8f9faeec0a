//! Readvals: what a reader's argument asks for, and the reading of files.
ghost use Rattle.std.specs.Prelude.{◌≡◌, ◌<◌, ◌≤◌, ◌∷◌, [], Some, map, length, vec_len, IfOk, IsOkAnd, IfErr, IsErrOf, replicate};
ghost use Rattle.std.specs.Option.{option_map};
ghost use Rattle.aql_syntax.specs.Typing.{argument_type, reader_type};
ghost use Rattle.aql_syntax.specs.View.{reader_of};
ghost use Rattle.aql_ty.specs.Types.{IsWithin};
ghost use Rattle.aql_ty.specs.ValueTypes.{HasType};
ghost use Rattle.aql_value.specs.Meaning.{datum};
ghost use Rattle.aql_value.specs.Operations.{as_natural, as_text, as_tuple, index_numbers};
ghost use Rattle.aql_value.specs.Partial.{each};
ghost use Rattle.aql_value.specs.Limits.{most_budget};
ghost use Rattle.nrca_array.specs.Held.{held_datum};
ghost use Rattle.nrca_loops.specs.Parts.{numbers_with};
ghost use Rattle.aql_session.specs.Asked.{asked_of, hyperslab, unstrided_of, strided_of, cells};
ghost use Rattle.aql_session.specs.Device.{BlamesFiles};
ghost use Rattle.aql_session.specs.Executions.{slab_asked, table_asked, request_asked, asked_by, items_of, single_index, handed_on, table_handed_on, HasRank, IsProper, IsRequestOf, IsOpened, IsSlabOf, IsReadOf, Requests, RequestsSlab, ArgumentFits, AsksNoFile, ReadsBy, ArgumentFails, ReadvalFails, FileFails};
ghost use Rattle.aql_session.specs.Step.{CallsNoFile};

use crate::answer::StepFault;
use crate::packing::packed;
use aql_csv::{Csv, CsvFault, read_csv};
use aql_outside::Files;
use aql_syntax::ast::{CsvReader, Reader};
use aql_value::made::both;
use aql_value::{Index, Items, Memory, Str, Value, saturating_product};
use cdf_header::{CdfFault, Header, read_header};
use cdf_slab::read_slab;
use nrca_array::{Flat, Held, valid_held};
use std::alloc::Global;

/// What a readval asks for.
#[derive(Drop)]
pub(crate) enum Request<'a> {
    /// A hyperslab of a netCDF file.
    Slab(SlabRequest),
    /// The records of a file.
    Table { file: Str, reader: &'a CsvReader },
}

/// A hyperslab: as many numbers in each index as the variable has dimensions.
#[derive(Drop)]
pub(crate) struct SlabRequest {
    pub(crate) file: Str,
    pub(crate) variable: Str,
    pub(crate) start: Index,
    pub(crate) count: Index,
    pub(crate) stride: Index,
    pub(crate) signed: bool,
}

/// What a readval came to by its argument: its value, and the cells or bytes that were read.
#[derive(Drop)]
pub(crate) struct Read {
    pub(crate) value: Option<Held>,
    pub(crate) turns: u128,
}

/// Reads what the value of a reader's argument asks for; nothing where it is undefined.
pub(crate) fn read_argument<F: Files>(
    alloc: Global,
    files: &mut F,
    reader: &Reader,
    argument: Option<Held>,
    budget: u64,
) -> Result<Read, StepFault>
    requires within { IsWithin (reader_type (reader_of reader.now)) }
    requires typed { ArgumentFits reader.now argument }
    requires budget { budget ≤ most_budget }
    ensures read { IfOk result (ReadsBy reader.now argument budget (F.holds files.old)) }
    ensures cause { IfErr result
        (ArgumentFails reader.now argument budget F.Files files.old files.new) }
    ensures kept { F.holds files.new ≡ F.holds files.old }
    ensures blamed { BlamesFiles F.Files files.old files.new (IsErrOf result StepFault.Device) }
    ensures untouched { AsksNoFile reader.now argument budget → files.new ≡ files.old }
{
    match argument {
        Some(argument) => read_value(alloc, files, reader, argument, budget),
        None => Ok(Read {
            value: None,
            turns: 0,
        }),
    }
}

// The same where the argument has a value.
fn read_value<F: Files>(
    alloc: Global,
    files: &mut F,
    reader: &Reader,
    argument: Held,
    budget: u64,
) -> Result<Read, StepFault>
    requires within { IsWithin (reader_type (reader_of reader.now)) }
    requires typed { HasType (argument_type (reader_of reader.now)) (held_datum argument) }
    requires budget { budget ≤ most_budget }
    ensures read { IfOk result (ReadsBy reader.now (Some argument) budget (F.holds files.old)) }
    ensures cause { IfErr result
        (ArgumentFails reader.now (Some argument) budget F.Files files.old files.new) }
    ensures kept { F.holds files.new ≡ F.holds files.old }
    ensures blamed { BlamesFiles F.Files files.old files.new (IsErrOf result StepFault.Device) }
    ensures untouched { AsksNoFile reader.now (Some argument) budget → files.new ≡ files.old }
{
    let request = typed_request(alloc, reader, argument)?;
    read_request(alloc, files, &request, budget)
}

// What an argument that has its type asks for.
fn typed_request<'a>(
    alloc: Global,
    reader: &'a Reader,
    argument: Held,
) -> Result<Request<'a>, Memory>
    requires within { IsWithin (reader_type (reader_of reader.now)) }
    requires typed { HasType (argument_type (reader_of reader.now)) (held_datum argument) }
    ensures { IfOk result (IsRequestOf (reader_of reader.now) (held_datum argument)) }
{
    match request_of(alloc, reader, argument)? {
        Some(request) => Ok(request),
        None => unreachable!(),
    }
}

// Reads what is asked for, where it takes no more than the budget.
fn read_request<F: Files>(
    alloc: Global,
    files: &mut F,
    request: &Request,
    budget: u64,
) -> Result<Read, StepFault>
    requires proper { IsProper (request_asked request.now) }
    requires budget { budget ≤ most_budget }
    ensures read { IfOk result (IsReadOf (request_asked request.now) budget (F.holds files.old)) }
    ensures cause { IfErr result
        (ReadvalFails (request_asked request.now) budget F.Files files.old files.new) }
    ensures kept { F.holds files.new ≡ F.holds files.old }
    ensures blamed { BlamesFiles F.Files files.old files.new (IsErrOf result StepFault.Device) }
    ensures untouched { CallsNoFile budget (request_asked request.now) → files.new ≡ files.old }
{
    match request {
        Request::Slab(slab) => read_hyperslab(alloc, files, slab, budget),
        Request::Table { file, reader } => read_table(alloc, files, file, reader, budget),
    }
}

// Reads the records of a file, where its bytes are within the budget.
fn read_table<F: Files>(
    alloc: Global,
    files: &mut F,
    file: &Str,
    reader: &CsvReader,
    budget: u64,
) -> Result<Read, StepFault>
    requires some { 1 ≤ length reader.now.kinds.items.items }
    ensures read { IfOk result
        (IsReadOf (table_asked file.now reader.now) budget (F.holds files.old)) }
    ensures cause { IfErr result
        (ReadvalFails (table_asked file.now reader.now) budget F.Files files.old files.new) }
    ensures kept { F.holds files.new ≡ F.holds files.old }
    ensures blamed { BlamesFiles F.Files files.old files.new (IsErrOf result StepFault.Device) }
    ensures untouched { CallsNoFile budget (table_asked file.now reader.now)
        → files.new ≡ files.old }
{
    match read_csv(alloc, files, file, reader, budget) {
        Ok(Csv { value, bytes }) => {
            let value = packed(alloc, value)?;
            valid_held(&value);
            Ok(Read {
                value: Some(value),
                turns: u128::from(bytes),
            })
        }
        Err(fault) => Err(hand_on_table(fault)),
    }
}

// The fault of a step for one of a file of records.
fn hand_on_table(fault: CsvFault) -> StepFault
    ensures { result ≡ table_handed_on fault }
{
    match fault {
        CsvFault::Long { bytes } => StepFault::Cells {
            cells: u128::from(bytes),
        },
        CsvFault::Device => StepFault::Device,
        CsvFault::Memory => StepFault::Memory,
        fault => StepFault::Csv { fault },
    }
}

// Reads a hyperslab, where its cells are within the budget.
//
// The cells are counted before any call on the files. Then the header is read, the variable sought
// and the hyperslab read.
fn read_hyperslab<F: Files>(
    alloc: Global,
    files: &mut F,
    slab: &SlabRequest,
    budget: u64,
) -> Result<Read, StepFault>
    requires rank { HasRank (slab_asked slab.now) }
    requires budget { budget ≤ most_budget }
    ensures read { IfOk result
        (IsReadOf (hyperslab (slab_asked slab.now)) budget (F.holds files.old)) }
    ensures cause { IfErr result
        (ReadvalFails (hyperslab (slab_asked slab.now)) budget F.Files files.old files.new) }
    ensures kept { F.holds files.new ≡ F.holds files.old }
    ensures blamed { BlamesFiles F.Files files.old files.new (IsErrOf result StepFault.Device) }
    ensures untouched { budget < cells (slab_asked slab.now) → files.new ≡ files.old }
{
    let cells = saturating_product(&slab.count);
    if cells > u128::from(budget) {
        return Err(StepFault::Cells { cells });
    }
    match read_flat(alloc, files, slab) {
        Ok(flat) => {
            let value = Held::Flat(flat);
            valid_held(&value);
            Ok(Read {
                value: Some(value),
                turns: cells,
            })
        }
        Err(fault) => Err(fault),
    }
}

// The cells of a hyperslab.
fn read_flat<F: Files>(alloc: Global, files: &mut F, slab: &SlabRequest) -> Result<Flat, StepFault>
    requires rank { HasRank (slab_asked slab.now) }
    requires cells { cells (slab_asked slab.now) ≤ most_budget }
    ensures read { IfOk result (IsSlabOf (slab_asked slab.now) (F.holds files.old)) }
    ensures cause { IfErr result
        (FileFails (slab_asked slab.now) F.Files files.old files.new) }
    ensures kept { F.holds files.new ≡ F.holds files.old }
    ensures blamed { BlamesFiles F.Files files.old files.new (IsErrOf result StepFault.Device) }
{
    match open(alloc, files, slab) {
        Ok(found) => read_found(alloc, files, slab, &found),
        Err(fault) => Err(fault),
    }
}

/// The header of a file, and the number of a variable of it.
#[derive(Drop)]
pub(crate) struct Found {
    pub(crate) header: Header,
    pub(crate) variable: u64,
}

// The header of the file, and the variable of the name.
fn open<F: Files>(alloc: Global, files: &mut F, slab: &SlabRequest) -> Result<Found, StepFault>
    ensures opened { IfOk result (IsOpened (slab_asked slab.now) (F.holds files.old)) }
    ensures cause { IfErr result
        (FileFails (slab_asked slab.now) F.Files files.old files.new) }
    ensures kept { F.holds files.new ≡ F.holds files.old }
    ensures blamed { BlamesFiles F.Files files.old files.new (IsErrOf result StepFault.Device) }
{
    match read_header(alloc, files, &slab.file) {
        Ok(header) => match header.find(&slab.variable) {
            Some(variable) => Ok(Found { header, variable }),
            None => Err(StepFault::File {
                fault: CdfFault::NoVariable,
            }),
        },
        Err(fault) => Err(hand_on(fault)),
    }
}

// The hyperslab of the variable.
fn read_found<F: Files>(
    alloc: Global,
    files: &mut F,
    slab: &SlabRequest,
    found: &Found,
) -> Result<Flat, StepFault>
    requires rank { HasRank (slab_asked slab.now) }
    requires cells { cells (slab_asked slab.now) ≤ most_budget }
    requires opened { IsOpened (slab_asked slab.now) (F.holds files.old) found.now }
    ensures read { IfOk result (IsSlabOf (slab_asked slab.now) (F.holds files.old)) }
    ensures cause { IfErr result
        (FileFails (slab_asked slab.now) F.Files files.old files.new) }
    ensures kept { F.holds files.new ≡ F.holds files.old }
    ensures blamed { BlamesFiles F.Files files.old files.new (IsErrOf result StepFault.Device) }
{
    match read_slab(
        alloc,
        files,
        &slab.file,
        &found.header,
        found.variable,
        &slab.start,
        &slab.count,
        &slab.stride,
        slab.signed,
    ) {
        Ok(flat) => Ok(flat),
        Err(fault) => Err(hand_on(fault)),
    }
}

// The fault of a step for one of a file.
fn hand_on(fault: CdfFault) -> StepFault
    ensures { result ≡ handed_on fault }
{
    match fault {
        CdfFault::Device => StepFault::Device,
        CdfFault::Memory => StepFault::Memory,
        fault => StepFault::File { fault },
    }
}

// What the argument of a reader asks for: nothing where it is no such value.
fn request_of<'a>(
    alloc: Global,
    reader: &'a Reader,
    argument: Held,
) -> Result<Option<Request<'a>>, Memory>
    ensures { IfOk result (Requests (asked_of (reader_of reader.now) (held_datum argument))) }
{
    match reader {
        Reader::Plain { rank } => {
            let slab = request_unstrided(alloc, *rank, false, argument)?;
            Ok(request_slab(slab))
        }
        Reader::Signed { rank } => {
            let slab = request_unstrided(alloc, *rank, true, argument)?;
            Ok(request_slab(slab))
        }
        Reader::Strided { rank } => {
            let slab = request_strided(alloc, *rank, argument)?;
            Ok(request_slab(slab))
        }
        Reader::Csv(reader) => Ok(request_table(reader, argument)),
    }
}

// The request of a hyperslab, where there is one.
fn request_slab<'a>(slab: Option<SlabRequest>) -> Option<Request<'a>>
    ensures { Requests (option_map hyperslab (option_map slab_asked slab)) result }
{
    match slab {
        Some(slab) => Some(Request::Slab(slab)),
        None => None,
    }
}

// The request of the records of a file, where the value is its name.
fn request_table<'a>(reader: &'a CsvReader, name: Held) -> Option<Request<'a>>
    ensures { Requests (asked_of (reader_of (Reader.Csv reader.now)) (held_datum name)) result }
{
    match name {
        Held::Value(Value::Text(file)) => Some(Request::Table { file, reader }),
        _ => None,
    }
}

// The parts of the tuple that a value is.
#[tactic(auto, using(aql_value::specs::Laws::Datum::data_lists))]
fn parts_of(value: Held) -> Option<Items>
    ensures { result ≡ as_tuple (held_datum value) }
{
    match value {
        Held::Value(Value::Row(parts)) => Some(parts.into_items()),
        _ => None,
    }
}

// What file, variable, start and count ask for.
fn request_unstrided(
    alloc: Global,
    rank: u64,
    signed: bool,
    argument: Held,
) -> Result<Option<SlabRequest>, Memory>
    ensures { IfOk result
        (RequestsSlab (unstrided_of rank signed (held_datum argument))) }
{
    let Some(parts) = parts_of(argument) else {
        return Ok(None);
    };
    if parts.items.len() != 4 {
        return Ok(None);
    }
    let stride = ones(alloc, rank)?;
    make_request(alloc, rank, signed, four(parts.items), Ok(Some(stride)))
}

// What file, variable, start, count and stride ask for.
fn request_strided(alloc: Global, rank: u64, argument: Held) -> Result<Option<SlabRequest>, Memory>
    ensures { IfOk result (RequestsSlab (strided_of rank (held_datum argument))) }
{
    let Some(parts) = parts_of(argument) else {
        return Ok(None);
    };
    if parts.items.len() != 5 {
        return Ok(None);
    }
    let (file, variable, start, count, stride) = five(parts.items);
    let stride = index(alloc, rank, stride);
    make_request(alloc, rank, false, (file, variable, start, count), stride)
}

// The request of a file, a variable, a start and a count, where each is of its kind.
fn make_request(
    alloc: Global,
    rank: u64,
    signed: bool,
    parts: (Value, Value, Value, Value),
    stride: Result<Option<Index>, Memory>,
) -> Result<Option<SlabRequest>, Memory>
    ensures { IfOk result (λ r. IsOkAnd stride (λ st.
        RequestsSlab (asked_by rank signed parts (option_map (λ i. i.items) st)) r)) }
{
    let (file, variable, start, count) = parts;
    let names = text(file).zip(text(variable));
    let corner = both(index(alloc, rank, start), index(alloc, rank, count));
    let (names, ((start, count), stride)) = both(Ok(names), both(corner, stride))?;
    match names.zip(start.zip(count).zip(stride)) {
        Some(((file, variable), ((start, count), stride))) => Ok(Some(SlabRequest {
            file,
            variable,
            start,
            count,
            stride,
            signed,
        })),
        None => Ok(None),
    }
}

// The string that a value is.
fn text(value: Value) -> Option<Str>
    ensures { result ≡ as_text (datum value) }
{
    match value {
        Value::Text(text) => Some(text),
        _ => None,
    }
}

// The index of a rank that a value is: a number, or from rank 2 a tuple of numbers.
fn index(alloc: Global, rank: u64, value: Value) -> Result<Option<Index>, Memory>
    ensures { IfOk result (λ i.
        option_map (λ is. is.items) i ≡ index_numbers rank (datum value)) }
{
    if rank == 1 {
        return single(alloc, value);
    }
    let Some(parts) = parts_of(Held::Value(value)) else {
        return Ok(None);
    };
    let Some(numbers) = naturals(alloc, parts)? else {
        return Ok(None);
    };
    if numbers.len() as u64 != rank {
        return Ok(None);
    }
    Ok(Some(Index::from_slice(alloc, numbers.as_slice())?))
}

// The index of one number.
fn single(alloc: Global, value: Value) -> Result<Option<Index>, Memory>
    ensures { IfOk result (λ i. option_map (λ is. is.items) i ≡ single_index (datum value)) }
{
    match value {
        Value::Nat(n) => Ok(Some(Index::from_slice(alloc, [n].as_slice())?)),
        _ => Ok(None),
    }
}

// The numbers that values are.
#[tactic(auto, using(crate::proofs::Asking::numbers_push))]
fn naturals(alloc: Global, parts: Items) -> Result<Option<Vec<u128>>, Memory>
    ensures { IfOk result (λ ns. items_of ns ≡ each as_natural parts) }
{
    let mut numbers = Some(Vec::new(alloc));
    for part in parts.items {
        numbers = numbers_and(numbers, part)?;
    }
    Ok(numbers)
}

// Numbers and one more, where the value is one.
fn numbers_and(numbers: Option<Vec<u128>>, part: Value) -> Result<Option<Vec<u128>>, Memory>
    ensures { IfOk result (λ ns. items_of ns ≡ numbers_with (items_of numbers) (datum part)) }
{
    match (numbers, part) {
        (Some(mut numbers), Value::Nat(n)) => {
            numbers.push(n)?;
            Ok(Some(numbers))
        }
        _ => Ok(None),
    }
}

// A stride of 1 for each dimension.
fn ones(alloc: Global, rank: u64) -> Result<Index, Memory>
    ensures { IfOk result (λ i. i.items ≡ replicate rank 1) }
{
    let ones = vec![in alloc; 1u128; rank as usize]?;
    Ok(Index::from_slice(alloc, ones.as_slice())?)
}

// The one value.
fn one(values: Vec<Value>) -> Value
    requires { vec_len values ≡ 1 }
    ensures { map datum values.items ≡ datum result ∷ [] }
{
    let mut values = values;
    match values.pop() {
        Some(v) => v,
        None => unreachable!(),
    }
}

// The two values.
fn two(values: Vec<Value>) -> (Value, Value)
    requires { vec_len values ≡ 2 }
    ensures { map datum values.items ≡ datum result.0 ∷ datum result.1 ∷ [] }
{
    let mut values = values;
    match values.pop() {
        Some(w) => (one(values), w),
        None => unreachable!(),
    }
}

// The four values.
fn four(values: Vec<Value>) -> (Value, Value, Value, Value)
    requires { vec_len values ≡ 4 }
    ensures { map datum values.items
        ≡ datum result.0 ∷ datum result.1 ∷ datum result.2 ∷ datum result.3 ∷ [] }
{
    let mut values = values;
    match (values.pop(), values.pop()) {
        (Some(d), Some(c)) => {
            let (a, b) = two(values);
            (a, b, c, d)
        }
        _ => unreachable!(),
    }
}

// The five values.
fn five(values: Vec<Value>) -> (Value, Value, Value, Value, Value)
    requires { vec_len values ≡ 5 }
    ensures { map datum values.items ≡ datum result.0 ∷ datum result.1 ∷ datum result.2
        ∷ datum result.3 ∷ datum result.4 ∷ [] }
{
    let mut values = values;
    match values.pop() {
        Some(e) => {
            let (a, b, c, d) = four(values);
            (a, b, c, d, e)
        }
        None => unreachable!(),
    }
}
