// The lists of a header.
ghost use Rattle.std.specs.Prelude.{◌≡◌, ◌≤◌, [], length, map, IfOk};
ghost use Rattle.cdf_header.specs.Format.{many, times, dimension, dims, id, ids, attribute, attributes, variable, vars, header, type_size};
ghost use Rattle.cdf_header.specs.Header.{var, vars_in};
ghost use Rattle.cdf_header.specs.Gives.{GivesPart};
ghost use Rattle.cdf_header.specs.Limits.{most_dimensions};

use crate::dimensions::{Dimensions, record_in};
use crate::fault::{FieldFault, ReadError};
use crate::fields::{list_of, name_of, number, skip_over, type_of};
use crate::front::Front;
use crate::header::{Header, Variable};
use crate::limits::{MOST_ATTRIBUTES, MOST_DIMENSIONS, MOST_RANK, MOST_VARIABLES};
use crate::test::Test;
use std::alloc::Global;

#[tactic(auto, unfolding(crate::specs::Format::dimension))]
fn dimension_of(front: &Front, at: usize, before: &[u64]) -> Result<(u64, usize), ReadError>
    requires at { at ≤ length front.now.bytes.now }
    requires few { length before.now ≤ most_dimensions }
    ensures { GivesPart (λ x. x) (dimension front.now.version before.now)
        front.now.bytes.now at result }
{
    let (len, at) = number(front, at, front.wide(), Test::Any)?;
    let (_, at) = skip_over(front, at, len, 1)?;
    let has = record_in(before).is_some();
    number(front, at, front.wide(), Test::Extent { has })
}

fn dimensions(
    alloc: Global,
    front: &Front,
    at: usize,
    count: u64,
) -> Result<(Vec<u64>, usize), ReadError>
    requires at { at ≤ length front.now.bytes.now }
    requires few { count ≤ most_dimensions }
    ensures read { GivesPart (λ x. x.items) (many (dimension front.now.version) count [])
        front.now.bytes.now at result }
    ensures few { IfOk result (λ x. length x.0.items ≤ most_dimensions) }
{
    let mut found = Vec::new(alloc);
    let mut place = at;
    'items: for _ in 0..count {
        let (item, after) = dimension_of(front, place, &found)?;
        found.push(item)?;
        place = after;
    }
    Ok((found, place))
}

#[tactic(auto, unfolding(crate::specs::Format::dims))]
fn dims_of(alloc: Global, front: &Front, at: usize) -> Result<(Vec<u64>, usize), ReadError>
    requires at { at ≤ length front.now.bytes.now }
    ensures read { GivesPart (λ x. x.items) (dims front.now.version) front.now.bytes.now at result }
    ensures few { IfOk result (λ x. length x.0.items ≤ most_dimensions) }
{
    let (count, at) = list_of(front, at, 10, 1, MOST_DIMENSIONS)?;
    dimensions(alloc, front, at, count)
}

/// The bytes of a value of a type.
pub(crate) fn size_of(kind: u32) -> u64
    ensures is { result ≡ type_size kind }
    ensures within { (1 ≤ result) × (result ≤ 8) }
{
    match kind {
        0..=2 => 1,
        3 => 2,
        4..=5 => 4,
        6 => 8,
        7 => 1,
        8 => 2,
        9 => 4,
        _ => 8,
    }
}

#[tactic(auto, unfolding(crate::specs::Format::attribute))]
fn attribute_of(front: &Front, at: usize) -> Result<((), usize), ReadError>
    requires at { at ≤ length front.now.bytes.now }
    ensures { GivesPart (λ _. tt) (attribute front.now.version) front.now.bytes.now at result }
{
    let (len, at) = number(front, at, front.wide(), Test::Any)?;
    let (_, at) = skip_over(front, at, len, 1)?;
    let (kind, at) = type_of(front, at)?;
    let (count, at) = number(front, at, front.wide(), Test::Any)?;
    skip_over(front, at, count, size_of(kind))
}

fn attribute_list(front: &Front, at: usize, count: u64) -> Result<((), usize), ReadError>
    requires at { at ≤ length front.now.bytes.now }
    ensures { GivesPart (λ _. tt) (times (attribute front.now.version) count)
        front.now.bytes.now at result }
{
    let mut place = at;
    'items: for _ in 0..count {
        let (_, after) = attribute_of(front, place)?;
        place = after;
    }
    Ok(((), place))
}

#[tactic(auto, unfolding(crate::specs::Format::attributes))]
fn attributes_of(front: &Front, at: usize) -> Result<((), usize), ReadError>
    requires at { at ≤ length front.now.bytes.now }
    ensures { GivesPart (λ _. tt) (attributes front.now.version) front.now.bytes.now at result }
{
    let (count, at) = list_of(front, at, 12, 2, MOST_ATTRIBUTES)?;
    attribute_list(front, at, count)
}

#[tactic(auto, unfolding(crate::specs::Format::id))]
fn id_of(
    front: &Front,
    at: usize,
    dims: &Dimensions,
    before: &[u64],
) -> Result<(u64, usize), ReadError>
    requires at { at ≤ length front.now.bytes.now }
    ensures { GivesPart (λ x. x) (id front.now.version dims.now.lengths.now before.now)
        front.now.bytes.now at result }
{
    let test = Test::Id {
        dims: dims.lengths.len() as u64,
        unlimited: dims.unlimited,
        first: before.is_empty(),
    };
    number(front, at, front.wide(), test)
}

fn id_list(
    alloc: Global,
    front: &Front,
    at: usize,
    dims: &Dimensions,
    count: u64,
) -> Result<(Vec<u64>, usize), ReadError>
    requires at { at ≤ length front.now.bytes.now }
    ensures { GivesPart (λ x. x.items) (many (id front.now.version dims.now.lengths.now) count [])
        front.now.bytes.now at result }
{
    let mut found = Vec::new(alloc);
    let mut place = at;
    'items: for _ in 0..count {
        let (item, after) = id_of(front, place, dims, &found)?;
        found.push(item)?;
        place = after;
    }
    Ok((found, place))
}

#[tactic(auto, unfolding(crate::specs::Format::ids))]
fn ids_of(
    alloc: Global,
    front: &Front,
    at: usize,
    dims: &Dimensions,
) -> Result<(Vec<u64>, usize), ReadError>
    requires at { at ≤ length front.now.bytes.now }
    ensures { GivesPart (λ x. x.items) (ids front.now.version dims.now.lengths.now)
        front.now.bytes.now at result }
{
    let (rank, at) = number(
        front,
        at,
        front.wide(),
        Test::Count {
            before: 1,
            list: 4,
            most: MOST_RANK,
        },
    )?;
    id_list(alloc, front, at, dims, rank)
}

#[tactic(auto, unfolding(crate::specs::Format::variable))]
fn variable_of(
    alloc: Global,
    front: &Front,
    at: usize,
    dims: &Dimensions,
    before: &[Variable],
) -> Result<(Variable, usize), ReadError>
    requires at { at ≤ length front.now.bytes.now }
    ensures { GivesPart var (variable front.now.version dims.now.lengths.now (map var before.now))
        front.now.bytes.now at result }
{
    let (name, at) = name_of(alloc, front, at)?;
    let (ids, at) = ids_of(alloc, front, at, dims)?;
    let (_, at) = attributes_of(front, at)?;
    let (kind, at) = type_of(front, at)?;
    let (_, at) = number(front, at, front.wide(), Test::Any)?;
    let far = if front.version == 1 { 4 } else { 8 };
    let (begin, at) = number(front, at, far, Test::Any)?;
    Ok((
        Variable {
            name,
            ids,
            kind,
            begin,
        },
        at,
    ))
}

fn variable_list(
    alloc: Global,
    front: &Front,
    at: usize,
    dims: &Dimensions,
    count: u64,
) -> Result<(Vec<Variable>, usize), ReadError>
    requires at { at ≤ length front.now.bytes.now }
    ensures { GivesPart vars_in (many (variable front.now.version dims.now.lengths.now) count [])
        front.now.bytes.now at result }
{
    let mut found = Vec::new(alloc);
    let mut place = at;
    'items: for _ in 0..count {
        let (item, after) = variable_of(alloc, front, place, dims, &found)?;
        found.push(item)?;
        place = after;
    }
    Ok((found, place))
}

#[tactic(auto, unfolding(crate::specs::Format::vars))]
fn vars_of(
    alloc: Global,
    front: &Front,
    at: usize,
    dims: &Dimensions,
) -> Result<(Vec<Variable>, usize), ReadError>
    requires at { at ≤ length front.now.bytes.now }
    ensures { GivesPart vars_in (vars front.now.version dims.now.lengths.now)
        front.now.bytes.now at result }
{
    let (count, at) = list_of(front, at, 11, 3, MOST_VARIABLES)?;
    variable_list(alloc, front, at, dims, count)
}

#[tactic(auto, unfolding(crate::specs::Format::header))]
pub(crate) fn header_of(
    alloc: Global,
    front: &Front,
    size: u64,
) -> Result<(Header, usize), ReadError>
    requires magic { 4 ≤ length front.now.bytes.now }
    ensures { GivesPart (λ x. x) (header size front.now.version) front.now.bytes.now 4 result }
{
    let (numrecs, at) = number(front, 4, front.wide(), Test::Any)?;
    let (dims, at) = dims_of(alloc, front, at)?;
    let (_, at) = attributes_of(front, at)?;
    let (vars, at) = vars_of(alloc, front, at, &Dimensions::new(&dims))?;
    Ok((
        Header {
            bytes: size,
            version: front.version,
            numrecs,
            dims,
            vars,
        },
        at,
    ))
}
