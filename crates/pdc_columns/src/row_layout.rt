//! The layout under which rows close.
ghost use Rattle.std.specs.Prelude.{◌≡◌, ◌≤◌, IfSome, Some, length, map};
ghost use Rattle.std.specs.Option.{ForSome};

use crate::{MAX_COLUMNS, copy_items};
use arrayvec::ArrayVec;
use pdc_row::{CopyFrom, Shape, Shapes};

/// The layout under which rows close: its stamp, and a shape or nothing for each column.
#[derive(Debug, Drop)]
pub struct RowLayout {
    /// The start number of the stamp.
    pub start: u32,
    /// The change number of the stamp.
    pub change: u32,
    /// The shape of each column's blocks, at most 16; a column without one has no block in a row.
    pub shapes: ArrayVec<Option<Shape>, MAX_COLUMNS>,
    /// The shapes of all columns, where each has one.
    pub all: Option<Shapes>,
    pub ghost told: { ForSome all (λ all. shapes.items ≡ map Some all) },
}

impl RowLayout {
    /// The layout of this stamp, with a shape or nothing for each column.
    pub fn new(start: u32, change: u32, shapes: ArrayVec<Option<Shape>, MAX_COLUMNS>) -> RowLayout
        ensures stamp { (result.start ≡ start) × (result.change ≡ change) }
        ensures shapes { result.shapes.items ≡ shapes.items }
    {
        RowLayout {
            start,
            change,
            all: all_shapes(shapes.as_slice()),
            shapes,
        }
    }
}

/// The shapes of all columns, where each has one.
fn all_shapes(shapes: &[Option<Shape>]) -> Option<Shapes>
    requires { length shapes.now ≤ MAX_COLUMNS }
    ensures { IfSome result (λ all. shapes.now ≡ map Some all) }
{
    let mut all = Shapes::new();
    for shape in shapes {
        let Some(shape) = shape else {
            return None;
        };
        all.push(*shape);
    }
    Some(all)
}

impl CopyFrom for RowLayout {
    fn copy_from(&mut self, other: &RowLayout) {
        self.start = other.start;
        self.change = other.change;
        copy_items(&mut self.shapes, other.shapes.as_slice());
        self.all = Shapes::copy_of(&other.all);
    }
}
