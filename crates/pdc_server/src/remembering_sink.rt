//! A sink that keeps what it sent.
ghost use Rattle.std.specs.Prelude.{◌≡◌, IfSome, List, true, ℕ};
ghost use Rattle.pdc_cfg.specs.Config.{config_fields_of};
ghost use Rattle.pdc_pipe.specs.pdc_publisher.PublishedRow.{row_of};
ghost use Rattle.pdc_server.specs.Stream.{IsLayout, TellsStamp, stream_of};

use crate::laws::rows_are_data;
use crate::naming::Naming;
use crate::own_stamp::own_stamp;
use crate::recent::Recent;
use crate::stamp::Stamp;
use pdc_cfg::{ConfigView, read_config};
use pdc_frame::{Kind, read_frame};
use pdc_pipe::{LayoutFrame, Outlet, PublishedRow, Sink, SinkFault};
use pdc_row::Output;
use std::alloc::{AllocError, Global};
use std::sync::Wait;
use std::sync::atomic::{AtomicU64, Ordering};

/// Sends each frame by another sink, and then keeps it, whether or not it was sent: a data frame under its instant, a layout frame in place
/// of the one before. What cannot be kept for want of memory is counted, and lost for the readers of what is kept alone.
///
/// A data frame says itself of which instant it is, of which stream and of which layout; it is kept if that layout is, and counted else. A
/// layout frame is read before it is kept. Bytes that do not say what they are ([`Sink::send`]) are sent and not kept.
#[derive(Drop)]
pub struct RememberingSink<'a, N: Naming, K: Sink + Drop, R: Wait> {
    rt: &'a R,
    alloc: Global,
    recent: &'a Recent<N>,
    output: Output,
    unkept: &'a AtomicU64,
    pub inner: K,
    pub ghost of_stream: { N.stream ≡ stream_of output },
}

/// Whether both are of one stream: the same id, TIME_BASE and rate.
fn are_of_one_stream(one: &Output, other: &Output) -> bool
    ensures { result ≡ true → stream_of one.now ≡ stream_of other.now }
{
    one.id.value == other.id.value && one.time_base == other.time_base && one.rate == other.rate
}

/// The stamp of a layout of this concentrator, as its own section, the first one, tells it.
fn stamp_of(output: &Output, config: &ConfigView<'_>) -> Option<Stamp>
    ensures { IfSome result (TellsStamp output.now.id.value (config_fields_of config.now).sections) }
{
    let sections = config.sections.as_slice();
    if sections.is_empty() {
        return None;
    }
    own_stamp(output, sections[0].bytes)
}

/// The stamp of the layout that these bytes are the frame of, where they can be read, and tell the concentrator's id, TIME_BASE and rate.
fn layout_in(output: &Output, bytes: &[u8]) -> Option<Stamp>
    ensures { IfSome result (λ stamp. IsLayout (stream_of output.now) stamp bytes.now) }
{
    let frame = read_frame(bytes).ok()?;
    if frame.id.value != output.id.value || frame.kind != Kind::Cfg2 {
        return None;
    }
    let config = read_config(&frame).ok()?;
    let rate = config.rate.cast_unsigned();
    if config.time_base != output.time_base || rate != output.rate {
        return None;
    }
    stamp_of(output, &config)
}

impl<'a, N: Naming, K: Sink + Drop, R: Wait> RememberingSink<'a, N, K, R> {
    /// A sink that sends by `inner` the frames of a concentrator with this output, keeps them in `recent`, and counts in `unkept` those
    /// that it cannot keep.
    pub fn new(
        rt: &'a R,
        alloc: Global,
        recent: &'a Recent<N>,
        output: Output,
        unkept: &'a AtomicU64,
        inner: K,
    ) -> RememberingSink<'a, N, K, R>
        requires { N.stream ≡ stream_of output }
        ensures { result.inner ≡ inner }
    {
        RememberingSink {
            rt,
            alloc,
            recent,
            output,
            unkept,
            inner,
        }
    }

    /// Keeps the data frame of a row under its instant; one of another stream is passed over. Whether it is of the layout that is kept.
    fn keep_data(&self, row: &mut PublishedRow) -> Result<bool, AllocError>
        ensures { (row.new.output ≡ row.old.output) × (row_of row.new ≡ row_of row.old) }
    {
        rows_are_data();
        if !are_of_one_stream(&row.output, &self.output) {
            return Ok(true);
        }
        let stamp = Stamp {
            start: row.start(),
            change: row.change(),
        };
        let instant = row.instant();
        row.show(&mut (), |bytes, _| {
            self.recent.push(self.rt, self.alloc, stamp, instant, bytes)
        })
    }

    /// Keeps a layout frame of the stream; another is passed over.
    fn keep_layout(&self, bytes: &[u8]) -> Result<(), AllocError> {
        let Some(stamp) = layout_in(&self.output, bytes) else {
            return Ok(());
        };
        let copy = Vec::from_slice(self.alloc, bytes)?;
        self.recent.keep_layout(self.rt, self.alloc, stamp, copy)
    }

    /// Counts one that could not be kept.
    fn count(&self, is_kept: bool) {
        if !is_kept {
            self.unkept.fetch_add(1, Ordering::Relaxed);
        }
    }
}

/// It takes what the other sink takes.
impl<'a, N: Naming, K: Sink + Drop, R: Wait> Sink for RememberingSink<'a, N, K, R> {
    ghost took = { λ before now given. K.took before.inner now.inner given };

    ghost nothing = { λ s. K.nothing s.inner };

    ghost failures_of = { λ s. K.failures_of s.inner };

    fn send(&mut self, bytes: &[u8]) -> Result<(), SinkFault> {
        self.inner.send(bytes)
    }

    fn failures(&self) -> u64 {
        self.inner.failures()
    }
}

impl<'a, N: Naming, K: Sink + Drop, R: Wait> Outlet for RememberingSink<'a, N, K, R> {
    fn send_data(&mut self, row: &mut PublishedRow) -> Result<(), SinkFault> {
        let sent = row.show(&mut self.inner, |bytes, inner| inner.send(bytes));
        self.count(matches!(self.keep_data(row), Ok(true)));
        sent
    }

    fn send_layout(&mut self, frame: &LayoutFrame) -> Result<(), SinkFault> {
        let sent = self.inner.send(frame.bytes.as_slice());
        self.count(self.keep_layout(frame.bytes.as_slice()).is_ok());
        sent
    }
}
