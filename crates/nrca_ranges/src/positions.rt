//! The shapes of the values that positions hold.

ghost use Rattle.std.specs.Prelude.{◌≡◌, ◌-◌, [], length, map, take, IfOk, OnOk, OnErr};
ghost use Rattle.aql_value.specs.Datum.{Data, array};
ghost use Rattle.aql_value.specs.Meaning.{datum};
ghost use Rattle.nrca_ranges.specs.Bounds.{HasShape, grid, unknown};
ghost use Rattle.nrca_ranges.specs.Entered.{is_shaped, position_bounds};
ghost use Rattle.nrca_ranges.specs.Exact.{only, exact_bounds};
ghost use Rattle.nrca_ranges.specs.Shapes.{bounds_of, bounds_there, shapes_in, PushesShape};

use crate::interval::{Interval, Intervals};
use crate::shape::Shape;
use aql_value::{Dims, Memory, Value};
use std::alloc::Global;

/// For each position, counted from 1, the shape of its value, or none where it has no value.
#[derive(Drop)]
pub struct GlobalShapes {
    pub(crate) shapes: Vec<Option<Shape>>,
}

impl GlobalShapes {
    /// No position. It takes no memory.
    pub fn new(alloc: Global) -> GlobalShapes
        ensures { shapes_in result ≡ [] }
    {
        GlobalShapes {
            shapes: Vec::new(alloc),
        }
    }

    /// Whether position n, counted from 1, is there and has a shape. It takes no memory.
    pub fn has(&self, n: u64) -> bool
        ensures { result ≡ is_shaped (shapes_in self.now) n }
    {
        if n >= 1 && n <= self.shapes.len() as u64 {
            self.shapes[(n - 1) as usize].is_some()
        } else {
            false
        }
    }

    /// The shape of the value of position n, counted from 1, and nothing known where it has none.
    pub fn shape(&self, alloc: Global, n: u64) -> Result<Shape, Memory>
        ensures { IfOk result (λ s. bounds_of s ≡ position_bounds (shapes_in self.now) n) }
    {
        if n >= 1 && n <= self.shapes.len() as u64 {
            match &self.shapes[(n - 1) as usize] {
                Some(shape) => shape.copy(alloc),
                None => Ok(Shape::Unknown),
            }
        } else {
            Ok(Shape::Unknown)
        }
    }

    /// One position more, behind the others. Where memory is wanting, the list is as it was.
    pub fn push(&mut self, shape: Option<Shape>) -> Result<(), Memory>
        ensures pushed { OnOk result (PushesShape self.old shape self.new) }
        ensures kept { OnErr result (shapes_in self.new ≡ shapes_in self.old) }
    {
        self.shapes.push(shape)?;
        Ok(())
    }

    /// All positions but the last. It takes no memory.
    pub fn pop(&mut self)
        ensures { shapes_in self.new ≡ take (length (shapes_in self.old) - 1) (shapes_in self.old) }
    {
        drop(self.shapes.pop());
    }

    /// An equal list.
    pub fn copy(&self, alloc: Global) -> Result<GlobalShapes, Memory>
        ensures { IfOk result (λ g. shapes_in g ≡ shapes_in self.now) }
    {
        let mut shapes = Vec::new(alloc);
        for shape in self.shapes.iter() {
            let copied = copy_shape(alloc, shape)?;
            shapes.push(copied)?;
        }
        Ok(GlobalShapes { shapes })
    }
}

// An equal shape, where there is one.
fn copy_shape(alloc: Global, shape: &Option<Shape>) -> Result<Option<Shape>, Memory>
    ensures { IfOk result (λ s. bounds_there s ≡ bounds_there shape.now) }
{
    match shape {
        Some(shape) => Ok(Some(shape.copy(alloc)?)),
        None => Ok(None),
    }
}

/// A shape that the value has: of a number that number, of a set the number of its members, of an
/// array its dimensions. Of members, cells and the parts of tuples it says nothing.
pub fn shape_of_value(alloc: Global, v: &Value) -> Result<Shape, Memory>
    ensures holds { IfOk result (λ s. HasShape (bounds_of s) (datum v.now)) }
    ensures exact { IfOk result (λ s. bounds_of s ≡ exact_bounds (datum v.now)) }
{
    match v {
        Value::Nat(n) => Ok(Shape::Number(Interval { low: *n, high: *n })),
        Value::Members(m) => {
            let members = m.items();
            let count = members.items.len() as u128;
            let member = Box::new(alloc, Shape::Unknown)?;
            Ok(Shape::Members {
                count: Interval {
                    low: count,
                    high: count,
                },
                member,
            })
        }
        Value::Grid(c) => {
            let shape = shape_of_dims(alloc, c.dims())?;
            Ok(shape)
        }
        _ => Ok(Shape::Unknown),
    }
}

/// The shape of each array of these dimensions. Of its cells it says nothing.
pub fn shape_of_dims(alloc: Global, dims: &Dims) -> Result<Shape, Memory>
    ensures holds { IfOk result
        (λ s. (cells : Data) → HasShape (bounds_of s) (array dims.now cells)) }
    ensures exact { IfOk result (λ s. bounds_of s ≡ grid (map only dims.now) unknown) }
{
    let cell = Box::new(alloc, Shape::Unknown)?;
    let exact = exact_dimensions(alloc, dims)?;
    Ok(Shape::Grid { dims: exact, cell })
}

// The interval of each dimension alone.
fn exact_dimensions(alloc: Global, dims: &Dims) -> Result<Intervals, Memory>
    ensures { IfOk result (λ s. s ≡ map only dims.now) }
{
    let mut items = Vec::new(alloc);
    for d in dims.dims.iter() {
        items.push(Interval { low: *d, high: *d })?;
    }
    Ok(Intervals { items })
}
