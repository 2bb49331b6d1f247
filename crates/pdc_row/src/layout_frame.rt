//! The configuration frame of a layout (C37.118.2-2011, 6.4).
ghost use Rattle.std.specs.Prelude.{◌≡◌, ◌+◌, ◌≤◌, ◌++◌, ◌∷◌, map, length, IsOk, OnOk, OnErr};
ghost use Rattle.std.specs.Int.{w16, cast_unsigned};
ghost use Rattle.pdc_row.specs.pdc_frame.Frame.{IsFrame};
ghost use Rattle.pdc_row.specs.pdc_frame.declared.limits.TheConstants.{OVERHEAD};
ghost use Rattle.pdc_row.specs.pdc_cfg.Section.{fields_of_view, fields_of_section};
ghost use Rattle.pdc_row.specs.Layout.{IsLayout, layout_fields_of, layout_payload_of};
ghost use Rattle.pdc_row.specs.Layout.{layout_wire_of};

use crate::limits::MAX_PMUS;
use crate::output::Output;
use crate::section::own_section;
use arrayvec::ArrayVec;
use pdc_block::{Buffer, ConfigView, Kind, Section, SectionView, write_config};
use std::alloc::AllocError;

/// The same section, lent for as long as the view of it is.
fn lent<'a>(section: &'a SectionView) -> SectionView<'a>
    ensures { fields_of_view result ≡ fields_of_view section.now }
{
    SectionView {
        bytes: section.bytes,
        shape: section.shape,
        source: section.source,
        count: section.count,
        polar: section.polar,
    }
}

/// The configuration that the own section and these make.
fn config_of<'a>(output: &Output, own: &'a Section, sections: &'a [SectionView]) -> ConfigView<'a>
    requires { length sections.now ≤ MAX_PMUS }
    ensures flags { result.flags ≡ 0 }
    ensures time_base { result.time_base ≡ output.now.time_base }
    ensures sections { map fields_of_view result.sections.items ≡ fields_of_section own.now ∷
        map fields_of_view sections.now }
    ensures rate { cast_unsigned w16 result.rate ≡ output.now.rate }
{
    let mut all = ArrayVec::new();
    all.push(own.view());
    for section in sections {
        all.push(lent(section));
    }
    ConfigView {
        flags: 0,
        time_base: output.time_base,
        sections: all,
        rate: output.rate.cast_signed(),
    }
}

/// Appends the CFG-2 frame of a layout: the own section first, and then the sections in force, at most 16, in the
/// order of the columns. `soc` is the second that it is dated with; its time quality and count are 0.
///
/// # Errors
///
/// [`AllocError`] where `out` has no room and gets none.
pub fn append_layout<B: Buffer>(
    output: &Output,
    start: u32,
    change: u32,
    sections: &[SectionView],
    soc: u32,
    out: &mut B,
) -> Result<(), AllocError>
    requires { length sections.now ≤ MAX_PMUS }
    // What is appended is the frame,
    ensures ok { OnOk result (B.content out.new ≡ B.content out.old ++
        layout_wire_of output.now start change (map fields_of_view sections.now) soc) }
    // which is read back with these fields.
    ensures frame { IsFrame (layout_wire_of output.now start change
        (map fields_of_view sections.now) soc) (layout_fields_of output.now start change
        (map fields_of_view sections.now) soc) }
    // Its payload is a configuration: the own section, and then these.
    ensures config { OnOk result (IsLayout output.now start change
        (map fields_of_view sections.now) (layout_payload_of output.now start change
        (map fields_of_view sections.now))) }
    // It fails only where there was no room, and then nothing is appended.
    ensures err { OnErr result ((B.content out.new ≡ B.content out.old)
        × (B.capacity out.new ≡ B.capacity out.old)) }
    ensures room { length (B.content out.old) +
        length (layout_wire_of output.now start change (map fields_of_view sections.now) soc) ≤
        B.capacity out.old → IsOk result }
    // A request for the whole frame was refused.
    ensures refused { OnErr result (B.refused out.new
        (length (layout_payload_of output.now start change (map fields_of_view sections.now)) +
        OVERHEAD)) }
    // Where there was room, it takes no memory.
    ensures in_place { length (B.content out.old) +
        length (layout_wire_of output.now start change (map fields_of_view sections.now) soc) ≤
        B.capacity out.old
        → B.capacity out.new ≡ B.capacity out.old }
    ensures capacity { B.capacity out.old ≤ B.capacity out.new }
{
    let own = own_section(output, start, change);
    let config = config_of(output, &own, sections);
    write_config(&config, Kind::Cfg2, output.id, soc, out)
}
