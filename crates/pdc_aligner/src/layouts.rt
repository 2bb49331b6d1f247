//! Layouts are put on the channel.
ghost use Rattle.std.specs.Prelude.{◌≡◌, IfErr, IfOk, OnErr, OnOk, true};
ghost use Rattle.pdc_aligner.specs.Device.{IsOfLayout};
ghost use Rattle.pdc_aligner.specs.Laid.{HasPutLayout, second_at};
ghost use Rattle.pdc_aligner.specs.Sequence.{instants_of};
ghost use Rattle.pdc_aligner.specs.Turns.{GivesNone};
ghost use Rattle.pdc_hub.specs.Pops.{HasAllTurns, OnlyLooks};
ghost use Rattle.pdc_life.specs.Published.{layout_wire};
ghost use Rattle.pdc_log.specs.Log.{InTheLife};
ghost use Rattle.pdc_pipe.specs.Writing.{GoesOn, IsOpen, put_by};

use crate::pace::Pace;
use pdc_core::Core;
use pdc_hub::{Hub, HubFault, Naming, Pops};
use pdc_pipe::{LayoutFrame, Message, Writer, put};
use pdc_ports::{Did, Ticker};
use std::alloc::Global;
use std::sync::Wait;

/// A layout that may be put.
#[derive(Clone, Copy, Debug)]
pub struct LayoutRequest {
    /// The number of the step that it is put after.
    pub step: u64,
    /// The second that it is dated with.
    pub soc: u32,
    /// Whether it is to be put.
    pub is_wanted: bool,
}

/// The second of an instant.
pub fn second_of(pace: &Pace, now: u64) -> u32
    ensures { result ≡ second_at pace.now.rate now }
{
    (now / u64::from(pace.rate)).min(u64::from(u32::MAX)) as u32
}

/// The frame of the layout in force, dated with this second.
fn layout_of<C: Core + Drop, N: Naming<C::Settings>, M, R: Wait>(
    rt: &R,
    alloc: Global,
    hub: &Hub<C, N>,
    pops: &mut Pops<N, M>,
    soc: u32,
) -> Result<LayoutFrame, HubFault>
    requires { HasAllTurns pops.old N.turns }
    ensures looked { OnlyLooks pops.old pops.new }
    ensures layout { IfOk result (λ frame. InTheLife C.rules N.given pops.new.front
        (λ g E. frame.bytes.items ≡ layout_wire g E soc)) }
    ensures causes { IfErr result IsOfLayout }
{
    let mut bytes = Vec::new(alloc);
    if let Err(fault) = hub.layout(rt, pops, soc, &mut bytes) {
        return Err(fault);
    }
    Ok(LayoutFrame { bytes })
}

/// Puts the frame of the layout in force on the channel. The ticker is told of it.
fn put_layout<C: Core + Drop, N: Naming<C::Settings>, M, K: Ticker, R: Wait>(
    rt: &R,
    alloc: Global,
    hub: &Hub<C, N>,
    pops: &mut Pops<N, M>,
    ticker: &mut K,
    writer: &mut Writer,
    asked: LayoutRequest,
) -> Result<(), HubFault>
    requires turns { HasAllTurns pops.old N.turns }
    requires open { IsOpen writer.old }
    ensures looked { OnlyLooks pops.old pops.new }
    ensures on { GoesOn writer.old writer.new }
    ensures layout { OnOk result (HasPutLayout C.rules N.given pops.new.front asked.soc true
        (put_by writer.old) (put_by writer.new)) }
    ensures err { OnErr result (put_by writer.new ≡ put_by writer.old) }
    ensures instants { instants_of (put_by writer.new) ≡ instants_of (put_by writer.old) }
    ensures causes { IfErr result IsOfLayout }
    ensures gave { GivesNone K.gave ticker.old ticker.new }
{
    let frame = match layout_of(rt, alloc, hub, pops, asked.soc) {
        Ok(frame) => frame,
        Err(fault) => return Err(fault),
    };
    ticker.note(asked.step, &Did::Laid(frame.bytes.as_slice()));
    if !put(rt, writer, Message::Layout(frame)) {
        return Err(HubFault::Stuck);
    }
    Ok(())
}

/// Puts the frame of the layout in force on the channel, where it is wanted. The ticker is told of it.
pub fn put_layout_where<C: Core + Drop, N: Naming<C::Settings>, M, K: Ticker, R: Wait>(
    rt: &R,
    alloc: Global,
    hub: &Hub<C, N>,
    pops: &mut Pops<N, M>,
    ticker: &mut K,
    writer: &mut Writer,
    asked: LayoutRequest,
) -> Result<(), HubFault>
    requires turns { HasAllTurns pops.old N.turns }
    requires open { IsOpen writer.old }
    ensures looked { OnlyLooks pops.old pops.new }
    ensures on { GoesOn writer.old writer.new }
    ensures layout { OnOk result (HasPutLayout C.rules N.given pops.new.front asked.soc
        asked.is_wanted
        (put_by writer.old) (put_by writer.new)) }
    ensures err { OnErr result (put_by writer.new ≡ put_by writer.old) }
    ensures instants { instants_of (put_by writer.new) ≡ instants_of (put_by writer.old) }
    ensures causes { IfErr result IsOfLayout }
    ensures gave { GivesNone K.gave ticker.old ticker.new }
{
    if !asked.is_wanted {
        return Ok(());
    }
    put_layout(rt, alloc, hub, pops, ticker, writer, asked)
}
