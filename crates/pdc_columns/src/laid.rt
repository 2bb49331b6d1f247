//! Whether the parts of a payload fit the blocks of a row.
ghost use Rattle.std.specs.Prelude.{◌≡◌, option_map, true};
ghost use Rattle.pdc_row.specs.KeptBlocks.{shapes_of};
ghost use Rattle.pdc_columns.specs.Parts.{are_laid_out, laid_out};

use crate::parts::Part;
use pdc_row::{RowBlocks, Shapes};

/// Whether these parts are one for each of the blocks, each of its shape: told by a look at the shapes in which they are laid out.
#[inline(always)]
pub(crate) fn fits<P: Part>(parts: &[P], laid: Option<&Shapes>, blocks: &RowBlocks) -> bool
    requires { option_map (λ shapes. shapes.now) laid ≡
        laid_out P.column_of P.shape_of parts.now }
    ensures { result ≡ true →
        are_laid_out P.column_of P.shape_of parts.now (shapes_of blocks.now) 0 ≡ true }
{
    match laid {
        Some(shapes) => blocks.has_shapes(shapes),
        None => false,
    }
}
