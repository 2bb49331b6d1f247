//! The frame of the layout in force.
ghost use Rattle.std.specs.Prelude.{◌≡◌, ◌+◌, ◌≤◌, ◌++◌, IsOk, List, OnErr, OnOk, length};
ghost use Rattle.pdc_table.specs.pdc_memory.Asking.{ForSome};
ghost use Rattle.pdc_align.specs.Align.{StandsFor};
ghost use Rattle.pdc_arrival.specs.pdc_life.Given.{Given};
ghost use Rattle.pdc_arrival.specs.pdc_life.Life.{Entry};
ghost use Rattle.pdc_arrival.specs.pdc_life.Published.{layout_wire};

use crate::Alignment;
use crate::in_force::sections_in_force;
use pdc_arrival::{Buffer, MAX_PMUS, Output, append_layout};
use pdc_table::Table;
use std::alloc::AllocError;

/// Appends the frame of the layout in force: the concentrator's own section, and those in force. `start` is the number of the start,
/// `columns` how many columns there are, and `soc` the second that the frame is dated with.
///
/// # Errors
///
/// [`AllocError`] where `out` has no room and gets none.
pub fn append_layout_frame<T: Table, B: Buffer>(
    alignment: &Alignment<T>,
    output: &Output,
    start: u32,
    columns: usize,
    soc: u32,
    out: &mut B,
) -> Result<(), AllocError>
    requires few { columns ≤ MAX_PMUS }
    requires columns { length alignment.now.state.columns ≡ columns }
    ensures ok { (g : Given) (E : List Entry) → StandsFor g E alignment.now.state →
        output.now ≡ g.output → start ≡ g.start → columns ≡ g.columns →
        OnOk result (B.content out.new ≡ B.content out.old ++ layout_wire g E soc) }
    // It fails only where there was no room, and then nothing is appended.
    ensures err { OnErr result ((B.content out.new ≡ B.content out.old)
        × (B.capacity out.new ≡ B.capacity out.old)) }
    ensures room { (g : Given) (E : List Entry) → StandsFor g E alignment.now.state →
        output.now ≡ g.output → start ≡ g.start → columns ≡ g.columns →
        length (B.content out.old) + length (layout_wire g E soc) ≤ B.capacity out.old →
        IsOk result }
    // A request for the whole frame was refused.
    ensures refused { OnErr result (ForSome (B.refused out.new)) }
    // Where there was room, it takes no memory.
    ensures in_place { (g : Given) (E : List Entry) → StandsFor g E alignment.now.state →
        output.now ≡ g.output → start ≡ g.start → columns ≡ g.columns →
        length (B.content out.old) + length (layout_wire g E soc) ≤ B.capacity out.old →
        B.capacity out.new ≡ B.capacity out.old }
    ensures capacity { B.capacity out.old ≤ B.capacity out.new }
{
    let sections = sections_in_force(alignment, columns);
    append_layout(
        output,
        start,
        alignment.change(),
        sections.as_slice(),
        soc,
        out,
    )
}
