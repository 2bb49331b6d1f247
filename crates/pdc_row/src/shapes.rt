//! Shapes that are compared all at once.
ghost use Rattle.std.specs.Prelude.{◌≡◌, ◌++◌, ◌∷◌, ◌<◌, [], false, length, true};
ghost use Rattle.pdc_row.specs.declared.limits.TheConstants.{MAX_PMUS};

use crate::limits::MAX_PMUS;
use pdc_block::Shape;
use std::fmt;
use std::fmt::{Debug, Formatter};
use std::marker::Model;

/// The shapes of blocks that lie one after the other, at most 16: those of a layout, with which the shapes of a row are compared all at
/// once.
#[derive(Drop)]
pub struct Shapes {
    /// How many there are.
    pub(crate) count: usize,
    /// They stand in front.
    pub(crate) each: [Shape; MAX_PMUS],
}

impl Model for Shapes {
    ghost use Rattle.std.specs.Prelude.{◌≡◌, ◌≤◌, List, length, take};
    ghost use Rattle.pdc_block.specs.pdc_cfg.declared.shape.Shape.{Shape as ShapeData};
    ghost use Rattle.pdc_row.specs.declared.limits.TheConstants.{MAX_PMUS};

    ghost Value = { List ShapeData };

    ghost view = { λ shapes. take shapes.count shapes.each };

    ghost invariant = { λ shapes. record {
      places : length shapes.each ≡ MAX_PMUS;
      few : shapes.count ≤ MAX_PMUS;
    } };
}

impl Shapes {
    /// No shape.
    pub fn new() -> Shapes
        ensures { result ≡ [] }
    {
        Shapes {
            count: 0,
            each: [Shape::default(); MAX_PMUS],
        }
    }

    /// Appends a shape.
    pub fn push(&mut self, shape: Shape)
        requires { length self.old < MAX_PMUS }
        ensures { self.new ≡ self.old ++ shape ∷ [] }
    {
        self.each[self.count] = shape;
        self.count += 1;
    }

    /// The shapes.
    pub fn as_slice(&self) -> &[Shape]
        ensures { result.now ≡ self.now }
    {
        &self.each[..self.count]
    }

    /// The same shapes again.
    fn copy(&self) -> Shapes
        ensures { result ≡ self.now }
    {
        Shapes {
            count: self.count,
            each: self.each,
        }
    }

    /// The same shapes again, or none.
    pub fn copy_of(shapes: &Option<Shapes>) -> Option<Shapes>
        ensures { result ≡ shapes.now }
    {
        match shapes {
            Some(shapes) => Some(shapes.copy()),
            None => None,
        }
    }
}

/// The shapes.
impl Debug for Shapes {
    fn fmt<W: fmt::Write>(&self, f: &mut Formatter<W>) -> fmt::Result {
        self.as_slice().fmt(f)
    }
}

/// Whether two lists of shapes are the same, one after the other. A call of its own, since it is seldom.
#[inline(never)]
pub(crate) fn are_each_same(some: &[Shape], others: &[Shape]) -> bool
    ensures same { result ≡ true → some.now ≡ others.now }
    ensures other { result ≡ false → some.now ≡ others.now → ⊥ }
{
    some == others
}

/// Whether two lists of sixteen shapes are the same. It looks at all, so that the processor compares many at once.
#[inline(always)]
pub(crate) fn are_same(some: &[Shape; MAX_PMUS], others: &[Shape; MAX_PMUS]) -> bool
    ensures { result ≡ true → some.now ≡ others.now }
{
    let mut differ = false;
    for place in 0..MAX_PMUS {
        let (one, other) = (some[place], others[place]);
        differ |= one.phasors != other.phasors;
        differ |= one.analogs != other.analogs;
        differ |= one.digitals != other.digitals;
    }
    !differ
}
