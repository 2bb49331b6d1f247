//! A phasor of a block.
ghost use Rattle.std.specs.Prelude.{◌≤◌};
ghost use Rattle.pdc_values.specs.declared.quantity.TheConstants.{MAX_FACTOR};

use crate::quantity::MAX_FACTOR;

/// A phasor of a block.
#[derive(Clone, Copy)]
pub struct Phasor {
    /// Where its first word stands in the block; the second stands behind it.
    pub place: u8,
    /// Hundred-thousandths of a volt or an ampere a count.
    pub factor: u32,
    /// Its words are magnitude and angle, not real and imaginary part.
    pub polar: bool,
    pub ghost factor_fits: { factor ≤ MAX_FACTOR },
}
