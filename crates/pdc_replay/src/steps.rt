//! Steps of a core, each compared with what is recorded of it.
ghost use Rattle.std.specs.Prelude.{◌≡◌, ◌<◌, ◌*◌, ◌∷◌, ℕ, IfOk, IfSome, List, OnOk, None, Some};
ghost use Rattle.pdc_life.specs.Answer.{ToPop, ToTick, answered, tick_answer};
ghost use Rattle.pdc_life.specs.Given.{Given};
ghost use Rattle.pdc_life.specs.Life.{Entry, changes};
ghost use Rattle.pdc_life.specs.Published.{layout_wire};
ghost use Rattle.pdc_align.specs.Align.{ticked_of};
ghost use Rattle.pdc_core.specs.Core.{Hears};
ghost use Rattle.pdc_row.specs.Layout.{wire_of};
ghost use Rattle.pdc_row.specs.RowView.{row_view};
ghost use Rattle.pdc_row.specs.pdc_frame.declared.tag_limits.TheConstants.{SECONDS};
ghost use Rattle.pdc_replay.specs.Passed.{IsFrameOf, IsPop, soc_in};
ghost use Rattle.pdc_replay.specs.Unkept.{IsNoFrame};

use crate::begins::Begins;
use crate::halt::{Difference, Halt};
use pdc_core::Ticked;
use pdc_frame::{SECONDS, read_long};
use pdc_life::{MAX_PMUS, Outcome, Refusal};
use pdc_row::{Output, append_row};
use pdc_table::{DueRow, HeldBox};
use std::alloc::{AllocError, Global};

/// The place of SOC in a frame, in bytes, and where it ends.
const SOC_PLACE: usize = 6;

const SOC_END: usize = 10;

/// The bytes, kept.
fn kept(alloc: Global, bytes: &[u8]) -> Result<Vec<u8>, AllocError> {
    let mut copy = Vec::new(alloc);
    copy.extend_from_slice(bytes)?;
    Ok(copy)
}

/// The second that a frame is dated with; 0 where it is too short to be dated.
fn soc_of(frame: &[u8]) -> u32
    ensures { result ≡ soc_in frame.now }
{
    if frame.len() < SOC_END {
        return 0;
    }
    read_long(frame, SOC_PLACE)
}

/// A datagram is answered.
pub fn arrive<C: Begins>(
    core: &mut C,
    stream: u16,
    recorded: Outcome,
    datagram: &[u8],
) -> Result<(), Difference>
    // It is answered as recorded, as the life is that takes it.
    ensures as_recorded { IfOk result (λ _. Hears (C.Settings.says (C.settings_of core.old)) C.rules
        (C.stands_for core.old) (C.stands_for core.new) stream datagram.now recorded) }
    ensures settings { C.settings_of core.new ≡ C.settings_of core.old }
{
    let place = usize::from(stream);
    if place >= core.streams() {
        return Err(Difference::NoStream { stream });
    }
    let replayed = core.put_datagram(place, datagram);
    if replayed != recorded {
        return Err(Difference::Answer {
            stream,
            recorded,
            replayed,
        });
    }
    Ok(())
}

/// A datagram that was not kept whole: what is no frame is refused as recorded, and leaves the core as it is.
pub fn pass<C: Begins>(core: &C, stream: u16, recorded: Outcome) -> Result<(), Difference>
    ensures as_recorded { OnOk result (IsNoFrame recorded) }
{
    if usize::from(stream) >= core.streams() {
        return Err(Difference::NoStream { stream });
    }
    if !matches!(recorded, Outcome::Refused(Refusal::NoFrame(_))) {
        return Err(Difference::NotKept { stream, recorded });
    }
    Ok(())
}

/// A tick.
pub fn tick<C: Begins>(
    core: &mut C,
    now: u64,
    counts: &[u16; MAX_PMUS],
    recorded: Ticked,
) -> Result<(), Difference>
    ensures as_recorded { IfOk result (λ _. (g : Given) (E : List Entry) →
        C.stands_for core.old g E →
        recorded ≡ ticked_of (changes E) (tick_answer g E now counts.now)) }
    ensures stands { (g : Given) (E : List Entry) → C.stands_for core.old g E →
        C.stands_for core.new g (answered C.rules g E (ToTick now counts.now) ∷ E) }
    ensures settings { C.settings_of core.new ≡ C.settings_of core.old }
{
    let replayed = core.tick(now, counts);
    if replayed != recorded {
        return Err(Difference::Tick {
            now,
            recorded,
            replayed,
        });
    }
    Ok(())
}

/// A row is popped in place of this one, or none.
pub fn pop<C: Begins>(
    core: &mut C,
    row: &mut HeldBox<DueRow>,
    recorded: Option<u64>,
) -> Result<(), Difference>
    // It is the one of the instant that is recorded,
    ensures as_recorded { (g : Given) (E : List Entry) → C.stands_for core.old g E →
        OnOk result (IsPop E recorded (row_view row.new.value)) }
    // which can be tagged.
    ensures tagged { (g : Given) (E : List Entry) → C.stands_for core.old g E →
        OnOk result (IfSome recorded
        (λ _. row.new.value.instant < SECONDS * g.output.rate)) }
    ensures stands { (g : Given) (E : List Entry) → C.stands_for core.old g E →
        C.stands_for core.new g (answered C.rules g E ToPop ∷ E) }
    ensures settings { C.settings_of core.new ≡ C.settings_of core.old }
{
    let replayed = if core.pop_into(row) {
        Some(row.get().instant)
    } else {
        None
    };
    if replayed != recorded {
        return Err(Difference::Row { recorded, replayed });
    }
    Ok(())
}

/// The frame of the row that was popped.
pub fn compare_frame(
    alloc: Global,
    step: u64,
    output: &Output,
    row: &DueRow,
    recorded: &[u8],
    wire: &mut Vec<u8>,
) -> Result<(), Halt>
    // The one that is recorded is the one that is published.
    ensures as_recorded { row.now.instant < SECONDS * output.now.rate →
        OnOk result (recorded.now ≡ wire_of output.now (row_view row.now)) }
{
    wire.clear();
    if row.instant < SECONDS * u64::from(output.rate) {
        append_row(output, row, wire)?;
    }
    if wire.as_slice() != recorded {
        let what = Difference::Frame {
            instant: row.instant,
            recorded: kept(alloc, recorded)?,
            replayed: kept(alloc, wire)?,
        };
        return Err(Halt::Differs { step, what });
    }
    Ok(())
}

/// The frame of the row that was popped, where one is recorded.
pub fn compare_popped<C: Begins>(
    alloc: Global,
    step: u64,
    core: &C,
    row: &HeldBox<DueRow>,
    recorded: Option<&[u8]>,
    wire: &mut Vec<u8>,
) -> Result<(), Halt>
    ensures as_recorded { (g : Given) (E : List Entry) → C.stands_for core.now g E →
        row.now.value.instant < SECONDS * g.output.rate →
        OnOk result (IsFrameOf recorded.entry (wire_of g.output (row_view row.now.value))) }
{
    match recorded {
        Some(frame) => compare_frame(alloc, step, &core.output(), row.get(), frame, wire),
        None => Ok(()),
    }
}

/// Makes the bytes the frame of the layout in force, dated with this second.
///
/// # Errors
///
/// No memory was left.
pub fn write_layout<C: Begins>(core: &C, soc: u32, wire: &mut Vec<u8>) -> Result<(), AllocError>
    ensures layout { (g : Given) (E : List Entry) → C.stands_for core.now g E →
        OnOk result (wire.new.items ≡ layout_wire g E soc) }
{
    wire.clear();
    core.layout_frame(soc, wire)
}

/// Whether a layout that is recorded is this one.
fn compare_wire(alloc: Global, step: u64, recorded: &[u8], wire: &[u8]) -> Result<(), Halt>
    ensures { OnOk result (recorded.now ≡ wire.now) }
{
    if wire != recorded {
        let what = Difference::Layout {
            recorded: kept(alloc, recorded)?,
            replayed: kept(alloc, wire)?,
        };
        return Err(Halt::Differs { step, what });
    }
    Ok(())
}

/// The frame of the layout in force, dated as the recorded one.
pub fn compare_layout<C: Begins>(
    alloc: Global,
    step: u64,
    core: &C,
    recorded: &[u8],
    wire: &mut Vec<u8>,
) -> Result<(), Halt>
    ensures as_recorded { (g : Given) (E : List Entry) → C.stands_for core.now g E →
        OnOk result (recorded.now ≡ layout_wire g E (soc_in recorded.now)) }
{
    write_layout(core, soc_of(recorded), wire)?;
    compare_wire(alloc, step, recorded, wire)
}
