//! Parts of a payload that are one for each column, in the order of the columns.
ghost use Rattle.std.specs.Prelude.{◌≡◌, ◌+◌, ◌≤◌, length, map};
ghost use Rattle.pdc_open_row.specs.pdc_columns.Parts.{are_laid_out, laid_out};

use crate::MAX_COLUMNS;
use pdc_open_row::{Part, Shape, Shapes};

/// Whether these parts are one for each column from this one on, in their order, each of the shape that stands here for its column.
fn are_laid_out<P: Part>(parts: &[P], shapes: &[Shape], column: usize) -> bool
    requires { column + length shapes.now ≤ MAX_COLUMNS }
    ensures { result ≡ are_laid_out P.column_of P.shape_of parts.now shapes.now column }
{
    let Some((part, parts)) = parts.split_first() else {
        return shapes.is_empty();
    };
    let Some((shape, shapes)) = shapes.split_first() else {
        return false;
    };
    part.column() == column && part.shape() == *shape && are_laid_out(parts, shapes, column + 1)
}

/// The shapes of these parts.
fn shapes_of<P: Part>(parts: &[P]) -> Shapes
    requires { length parts.now ≤ MAX_COLUMNS }
    ensures { result ≡ map P.shape_of parts.now }
{
    let mut shapes = Shapes::new();
    for part in parts {
        shapes.push(part.shape());
    }
    shapes
}

/// The shapes of these parts, where they are one for each column from the first one on, in the order of the columns.
pub fn laid_out<P: Part>(parts: &[P]) -> Option<Shapes>
    requires { length parts.now ≤ MAX_COLUMNS }
    ensures { result ≡ laid_out P.column_of P.shape_of parts.now }
{
    let shapes = shapes_of(parts);
    if are_laid_out(parts, shapes.as_slice(), 0) {
        Some(shapes)
    } else {
        None
    }
}
