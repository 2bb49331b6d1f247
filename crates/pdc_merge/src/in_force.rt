//! Of which nodes the held layout is in force.
ghost use Rattle.std.specs.Prelude.{◌≡◌, length, option_map};
ghost use Rattle.pdc_merge.specs.Cells.{is_at, is_in_force, layouts_in_force, none_in_force};
ghost use Rattle.pdc_merge.specs.Held.{AreAllInPlace, MayBeInPlace};

use crate::cells::are_in_force;
use crate::held_layout::HeldLayout;
use crate::layouts::HeldLayouts;
use pdc_align::Alignment;
use pdc_table::Table;

/// For each node whether the count of each section of its held layout is in force. Then a frame of it brings a block for each section,
/// and no count is looked at.
#[derive(Clone, Copy, Debug)]
pub struct InForce {
    pub first: bool,
    pub second: bool,
}

impl InForce {
    /// Of no node.
    pub(crate) fn none() -> InForce
        ensures { result ≡ none_in_force }
    {
        InForce {
            first: false,
            second: false,
        }
    }

    /// Whether it is in force of the node of this stream.
    #[inline(always)]
    pub(crate) fn of(self, stream: usize) -> bool
        ensures { result ≡ is_at self stream }
    {
        if stream == 0 { self.first } else { self.second }
    }
}

/// Whether a layout is held, and the count of each of its sections is in force.
fn is_in_force<T: Table>(alignment: &Alignment<T>, layout: Option<&HeldLayout>) -> bool
    requires { MayBeInPlace (length alignment.now.state.columns)
        (option_map (λ layout. layout.now) layout) }
    ensures { result ≡ is_in_force alignment.now.state
        (option_map (λ layout. layout.now) layout.entry) }
{
    match layout {
        Some(layout) => are_in_force(alignment, layout.sections()),
        None => false,
    }
}

/// Of which nodes the held layout is in force.
#[inline(never)]
pub fn layouts_in_force<T: Table>(alignment: &Alignment<T>, layouts: &HeldLayouts) -> InForce
    requires { AreAllInPlace (length alignment.now.state.columns) layouts.now }
    ensures { result ≡ layouts_in_force alignment.now.state layouts.now }
{
    InForce {
        first: is_in_force(alignment, layouts.of(0)),
        second: is_in_force(alignment, layouts.of(1)),
    }
}
