// Where a cell stands, with the greatest number for every larger place.
ghost use Rattle.std.specs.Prelude.{◌+◌, drop, ◌≡◌, ◌≤◌, ◌<◌, ◌*◌, ◌^◌, ◌-◌, ℕ, List, length, map, min, get_or, nat_eq, IfSome, IsTrue};
ghost use Rattle.cdf_header.specs.Places.{len_at, lens, is_record, inner, slab_size, recsize, place_of, place, var_in, variable_at, shape, nearer, with_begin, least, whole_records, all_bits, records, extent, pitches, find_in};
ghost use Rattle.aql_value.specs.Indices.{product, offset};
ghost use Rattle.aql_value.specs.Limits.{saturate};
ghost use Rattle.cdf_header.specs.Header.{var};
ghost use Rattle.cdf_header.specs.Format.{type_size, padded_size};

use crate::header::{Header, Variable};
use crate::lists::size_of;
use aql_value::{Index, Str};

fn len_of(dims: &[u64], i: u64) -> u64
    ensures { result ≡ len_at dims.now i }
{
    let i = i as usize;
    if i < dims.len() { dims[i] } else { 0 }
}

fn product_of(dims: &[u64], ids: &[u64]) -> u128
    ensures { result ≡ saturate (product (lens dims.now ids.now)) }
{
    let mut all = 1u128;
    'ids: for k in 0..ids.len() {
        let len = u128::from(len_of(dims, ids[k]));
        all = all.saturating_mul(len);
    }
    all
}

fn offset_of(dims: &[u64], ids: &[u64], at: &[u128]) -> u128
    requires { length ids.now ≡ length at.now }
    ensures { result ≡ saturate (offset (lens dims.now ids.now) at.now) }
{
    let mut all = 0u128;
    'ids: for k in 0..ids.len() {
        let len = u128::from(len_of(dims, ids[k]));
        all = all.saturating_mul(len).saturating_add(at[k]);
    }
    all
}

fn over_records(dims: &[u64], v: &Variable) -> bool
    ensures { result ≡ is_record dims.now (var v.now) }
{
    match v.ids.as_slice() {
        [] => false,
        [first, ..] => len_of(dims, *first) == 0,
    }
}

fn padded_to(n: u128) -> u128
    ensures { result ≡ saturate (padded_size n) }
{
    if n > u128::MAX - 3 {
        u128::MAX
    } else {
        (n + 3) / 4 * 4
    }
}

fn slab_of(dims: &[u64], v: &Variable) -> u128
    ensures { result ≡ saturate (slab_size dims.now (var v.now)) }
{
    let all = match v.ids.as_slice() {
        [] => 1,
        [_, rest @ ..] => product_of(dims, rest),
    };
    all.saturating_mul(u128::from(size_of(v.kind)))
}

fn record_bytes(dims: &[u64], vars: &[Variable]) -> u128
    ensures { result ≡ saturate (recsize dims.now (map var vars.now)) }
{
    let mut count = 0usize;
    let mut plain = 0u128;
    let mut all = 0u128;
    'vars: for v in vars {
        if over_records(dims, v) {
            let own = slab_of(dims, v);
            count = count.saturating_add(1);
            plain = plain.saturating_add(own);
            all = all.saturating_add(padded_to(own));
        }
    }
    if count == 1 { plain } else { all }
}

// The offset of the first byte of a cell.
pub(crate) fn place_in(dims: &[u64], vars: &[Variable], v: &Variable, at: &[u128]) -> u128
    requires { length v.now.ids.items ≡ length at.now }
    ensures { result ≡ saturate
        (place_of dims.now (map var vars.now) (var v.now) at.now) }
{
    let begin = u128::from(v.begin);
    let size = u128::from(size_of(v.kind));
    match at {
        [] => begin,
        [r, rest @ ..] => {
            if over_records(dims, v) {
                let cells = offset_of(dims, &v.ids[1..], rest);
                let here = r
                    .saturating_mul(record_bytes(dims, vars))
                    .saturating_add(begin);
                here.saturating_add(cells.saturating_mul(size))
            } else {
                offset_of(dims, &v.ids, at)
                    .saturating_mul(size)
                    .saturating_add(begin)
            }
        }
    }
}

// The variable with this number.
fn variable_in(vars: &[Variable], v: u64) -> &Variable
    requires { v < length vars.now }
    ensures { var result.now ≡ var_in (map var vars.now) v }
{
    &vars[v as usize]
}

// The smaller of a number and one that may be absent.
fn nearer_to(begin: u64, found: Option<u64>) -> u64
    ensures { result ≡ nearer begin found }
{
    match found {
        Some(other) => begin.min(other),
        None => begin,
    }
}

// The least begin found so far, with that of one variable more.
fn nearest(dims: &[u64], v: &Variable, found: Option<u64>) -> Option<u64>
    ensures { result ≡ with_begin dims.now (var v.now) found }
{
    if over_records(dims, v) {
        Some(nearer_to(v.begin, found))
    } else {
        found
    }
}

fn least_begin(dims: &[u64], vars: &[Variable]) -> Option<u64>
    ensures { result ≡ least dims.now (map var vars.now) }
{
    let mut found = None;
    'vars: for v in vars {
        found = nearest(dims, v, found);
    }
    found
}

// The whole records of so many bytes between the least begin and the end of the file.
fn streamed_in(bytes: u64, size: u128, begin: Option<u64>) -> u64
    ensures { result ≡ whole_records bytes size begin }
{
    match begin {
        None => 0,
        Some(begin) => {
            if size == 0 {
                0
            } else {
                (u128::from(bytes.saturating_sub(begin)) / size) as u64
            }
        }
    }
}

// Whether a field has all bits set.
fn is_streaming(version: u8, numrecs: u64) -> bool
    ensures { result ≡ nat_eq numrecs (all_bits version) }
{
    if version == 5 {
        numrecs == u64::MAX
    } else {
        numrecs == 4_294_967_295
    }
}

// The number of records.
fn records_in(bytes: u64, version: u8, numrecs: u64, dims: &[u64], vars: &[Variable]) -> u64
    ensures { result ≡ records (record {
      bytes = bytes;
      version = version;
      numrecs = numrecs;
      dims = dims.now;
      vars = map var vars.now;
    }) }
{
    if is_streaming(version, numrecs) {
        streamed_in(bytes, record_bytes(dims, vars), least_begin(dims, vars))
    } else {
        numrecs
    }
}

// The number of the first variable of a name.
fn first_named(vars: &[Variable], name: &[u8]) -> Option<u64>
    ensures which { result ≡ find_in (map var vars.now) name.now }
    ensures within { IfSome result (λ i. i < length vars.now) }
{
    'vars: for i in 0..vars.len() {
        if vars[i].name.as_slice() == name {
            return Some(i as u64);
        }
    }
    None
}

// The bytes from one index of a dimension to the next, where the cells stand in row-major order.
fn row_pitch(dims: &[u64], v: &Variable, j: usize) -> u128
    requires { j < length v.now.ids.items }
    ensures { result ≡ saturate
        (product (lens dims.now (drop (j + 1) v.now.ids.items)) * type_size v.now.kind) }
{
    product_of(dims, &v.ids[j + 1..]).saturating_mul(u128::from(size_of(v.kind)))
}

// The bytes from one index of a dimension to the next.
fn pitch_in(dims: &[u64], vars: &[Variable], v: &Variable, j: usize) -> u128
    requires { j < length v.now.ids.items }
    ensures { result ≡ saturate
        (get_or (pitches dims.now (map var vars.now) (var v.now)) j 0) }
{
    if j > 0 {
        return row_pitch(dims, v, j);
    }
    if over_records(dims, v) {
        record_bytes(dims, vars)
    } else {
        row_pitch(dims, v, j)
    }
}

impl Header {
    /// The size of the file in bytes when its header was read.
    pub fn bytes(&self) -> u64
        ensures { result ≡ self.now.bytes }
    {
        self.bytes
    }

    /// The number of the first variable of a name.
    pub fn find(&self, name: &Str) -> Option<u64>
        ensures which { result ≡ find_in self.now.vars name.now }
        ensures within { IfSome result (λ i. i < length self.now.vars) }
    {
        first_named(&self.vars, &name.bytes)
    }

    /// How many dimensions a variable has.
    pub fn rank(&self, v: u64) -> u64
        requires { v < length self.now.vars }
        ensures { result ≡ length (variable_at self.now v).ids }
    {
        variable_in(&self.vars, v).ids.len() as u64
    }

    /// The number of a variable's type in the format, `nc_type`: 1 byte, 2 char, 3 short, 4 int,
    /// 5 float, 6 double, 7 ubyte, 8 ushort, 9 uint, 10 int64, 11 uint64.
    pub fn kind(&self, v: u64) -> u32
        requires { v < length self.now.vars }
        ensures { result ≡ (variable_at self.now v).kind }
    {
        variable_in(&self.vars, v).kind
    }

    /// The length of a variable's dimension: for the record dimension the number of records.
    #[tactic(auto, using(crate::proofs::Least::get_or_mapped))]
    pub fn length(&self, v: u64, j: u64) -> u128
        requires variable { v < length self.now.vars }
        requires dimension { j < length (variable_at self.now v).ids }
        ensures { result ≡ get_or (shape self.now (variable_at self.now v)) j 0 }
    {
        u128::from(self.extent(variable_in(&self.vars, v).ids[j as usize]))
    }

    /// The offset of the first byte of a variable's cell, or 2^128-1 where it is larger.
    pub fn place(&self, v: u64, at: &Index) -> u128
        requires variable { v < length self.now.vars }
        requires rank { length (variable_at self.now v).ids ≡ length at.now.items }
        ensures { result ≡ saturate (place self.now (variable_at self.now v) at.now.items) }
    {
        place_in(&self.dims, &self.vars, variable_in(&self.vars, v), at)
    }

    /// The offset of a variable's first byte.
    pub fn begin(&self, v: u64) -> u64
        requires { v < length self.now.vars }
        ensures { result ≡ (variable_at self.now v).begin }
    {
        variable_in(&self.vars, v).begin
    }

    /// The bytes of each of a variable's numbers.
    pub fn width(&self, v: u64) -> u64
        requires { v < length self.now.vars }
        ensures is { result ≡ type_size (variable_at self.now v).kind }
        ensures within { (1 ≤ result) × (result ≤ 8) }
    {
        size_of(variable_in(&self.vars, v).kind)
    }

    /// The bytes from one index of a variable's dimension to the next, or 2^128-1 where there are
    /// more.
    pub fn pitch(&self, v: u64, j: u64) -> u128
        requires variable { v < length self.now.vars }
        requires dimension { j < length (variable_at self.now v).ids }
        ensures { result ≡ saturate
            (get_or (pitches self.now.dims self.now.vars (variable_at self.now v)) j 0) }
    {
        pitch_in(
            &self.dims,
            &self.vars,
            variable_in(&self.vars, v),
            j as usize,
        )
    }

    // The number of records.
    fn records(&self) -> u64
        ensures { result ≡ records self.now }
    {
        records_in(
            self.bytes,
            self.version,
            self.numrecs,
            &self.dims,
            &self.vars,
        )
    }

    // The length of a dimension by its number.
    fn extent(&self, i: u64) -> u64
        ensures { result ≡ extent self.now i }
    {
        let len = len_of(&self.dims, i);
        if len == 0 { self.records() } else { len }
    }
}
