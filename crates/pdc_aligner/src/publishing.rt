//! What is due is published, and put on the channel.
ghost use Rattle.std.specs.Prelude.{◌≡◌, ◌<◌, ◌*◌, Err, IfErr, OnErr, OnOk, false, true};
ghost use Rattle.pdc_aligner.specs.Aligning.{KeepsAsked, KeepsAt, LaysBut, LaysUpToLayout};
ghost use Rattle.pdc_aligner.specs.Aligning.{MayPublish, PutsAll, PutsRising};
ghost use Rattle.pdc_aligner.specs.Device.{IsOfAligner};
ghost use Rattle.pdc_aligner.specs.Keeping.{HasDeviceOf, KeepsOutput, counts_in};
ghost use Rattle.pdc_aligner.specs.Laid.{AreDone, IsDone};
ghost use Rattle.pdc_aligner.specs.Rate.{IsAtRate};
ghost use Rattle.pdc_aligner.specs.Sequence.{HasPutRow, RisesOn};
ghost use Rattle.pdc_aligner.specs.Turns.{GivesNone};
ghost use Rattle.pdc_frame.specs.declared.tag_limits.TheConstants.{SECONDS};
ghost use Rattle.pdc_hub.specs.Adding.{AddsPop};
ghost use Rattle.pdc_hub.specs.Pops.{HasAllTop, HasAllTurns, HasPoppedNone, HasPoppedOne};
ghost use Rattle.pdc_hub.specs.Pops.{HasSameShares};
ghost use Rattle.pdc_log.specs.Log.{ticks_of};
ghost use Rattle.pdc_pipe.specs.Writing.{GoesOn, IsOpen, put_by};
ghost use Rattle.pdc_publisher.specs.PublishedRow.{row_of};
ghost use Rattle.pdc_publisher.specs.Publisher.{last_in, output_in};
ghost use Rattle.pdc_row.specs.RowView.{row_view};

use crate::aligner::Aligner;
use pdc_core::Core;
use pdc_hub::{Hub, HubFault, Naming, Pops};
use pdc_mark::Mark;
use pdc_pipe::{HeldBox, Message, PublishedRow, Writer, put};
use pdc_ports::{Did, Numbered, Ticker};
use pdc_publisher::Publisher;
use pdc_row::DueRow;
use std::mem::replace;
use std::sync::Wait;

/// Puts a row that was popped by this step and published on the channel, where its data frame goes out from. The ticker is told of it.
fn put_row<K: Ticker, R: Wait>(
    rt: &R,
    ticker: &mut K,
    step: u64,
    row: PublishedRow,
    writer: &mut Writer,
) -> Result<(), HubFault>
    requires { IsOpen writer.old }
    ensures on { GoesOn writer.old writer.new }
    // Where it is Ok, it was put, and else nothing was.
    ensures frame { OnOk result (HasPutRow row.output (row_of row)
        (put_by writer.old) (put_by writer.new)) }
    ensures none { OnErr result (put_by writer.new ≡ put_by writer.old) }
    ensures causes { IfErr result IsOfAligner }
    ensures stuck { OnErr result (result ≡ Err HubFault.Stuck) }
    ensures gave { GivesNone K.gave ticker.old ticker.new }
{
    let mut row = row;
    let instant = row.instant();
    row.show(ticker, |frame, ticker| {
        ticker.note(
            step,
            &Did::Popped {
                instant,
                frame: Some(frame),
            },
        )
    });
    if !put(rt, writer, Message::Data(row)) {
        return Err(HubFault::Stuck);
    }
    Ok(())
}

/// Publishes a row that was popped by this step, and puts it on the channel. Another one, that was sent, takes its place. The ticker is told of
/// it.
fn publish_one<M: Mark, K: Ticker, R: Wait>(
    rt: &R,
    publisher: &mut Publisher<M>,
    ticker: &mut K,
    step: u64,
    row: &mut HeldBox<DueRow>,
    writer: &mut Writer,
) -> Result<(), HubFault>
    requires above { last_in publisher.old < row.old.value.instant }
    requires tagged { row.old.value.instant < SECONDS * (output_in publisher.old).rate }
    requires open { IsOpen writer.old }
    ensures on { GoesOn writer.old writer.new }
    ensures rising { RisesOn (put_by writer.old) (last_in publisher.old) (put_by writer.new)
        (last_in publisher.new) }
    // Where it is Ok, it was put, and else nothing was.
    ensures frame { OnOk result (HasPutRow (output_in publisher.old) (row_view row.old.value)
        (put_by writer.old) (put_by writer.new)) }
    ensures none { OnErr result (put_by writer.new ≡ put_by writer.old) }
    ensures out { OnOk result (last_in publisher.new ≡ row.old.value.instant) }
    ensures causes { IfErr result IsOfAligner }
    ensures device { HasDeviceOf publisher.old publisher.new result }
    ensures counts { counts_in publisher.new ≡ counts_in publisher.old }
    ensures kept { KeepsOutput publisher.old publisher.new }
    ensures gave { GivesNone K.gave ticker.old ticker.new }
{
    let instant = row.get().instant;
    let Some(spare) = writer.spares.take(rt) else {
        return Err(HubFault::Stuck);
    };
    let popped = replace(row, spare);
    match publisher.publish_row(popped) {
        Ok(published) => put_row(rt, ticker, step, published, writer),
        Err(_) => {
            ticker.note(
                step,
                &Did::Popped {
                    instant,
                    frame: None,
                },
            );
            Err(HubFault::Device)
        }
    }
}

/// Pops the lowest row that closed and was not popped. It lies above all that were popped, and can be tagged at the publisher's rate.
fn next_row<C: Core + Drop, N: Naming<C::Settings>, M: Mark, R: Wait>(
    rt: &R,
    hub: &Hub<C, N>,
    pops: &mut Pops<N, M>,
    publisher: &Publisher<M>,
) -> Numbered<bool>
    requires top { HasAllTop pops.old N.top }
    requires turns { HasAllTurns pops.old N.turns }
    requires rate { IsAtRate N.given (output_in publisher.now).rate }
    ensures row { result.answer ≡ true → HasPoppedOne pops.old pops.new }
    ensures turned { AddsPop C.rules N.given pops.old pops.new result }
    ensures tagged { result.answer ≡ true →
        pops.new.row.value.instant < SECONDS * (output_in publisher.now).rate }
    ensures none { result.answer ≡ false → HasPoppedNone pops.old pops.new }
    ensures parts { HasSameShares pops.old pops.new }
    ensures ticks { ticks_of pops.new.front ≡ ticks_of pops.old.front }
{
    hub.pop(rt, pops)
}

/// Pops and publishes all due rows, and puts each on the channel. The ticker is told of each. It answers the number of the step that found
/// none.
pub fn publish_due<C: Core + Drop, N: Naming<C::Settings>, M: Mark, K: Ticker, R: Wait>(
    rt: &R,
    hub: &Hub<C, N>,
    aligner: &mut Aligner<N, M, K>,
) -> Result<u64, HubFault>
    requires { MayPublish N.given N.top N.turns aligner.old }
    ensures on { GoesOn aligner.old.writer aligner.new.writer }
    ensures rising { PutsRising aligner.old aligner.new }
    // Each row that was popped was published and put, but the last one where it failed.
    ensures all { PutsAll (put_by aligner.old.writer) aligner.old aligner.new result }
    ensures out { OnOk result (last_in aligner.new.publisher ≡ aligner.new.pops.top.amount) }
    // Where what was put were the frames of the life, so it is, up to the layout; and where it failed, but for one at most.
    ensures laid { OnOk result (LaysUpToLayout C.rules N.given aligner.old aligner.new) }
    ensures but { LaysBut C.rules N.given aligner.old aligner.new }
    ensures asked { KeepsAsked C.rules N.given aligner.old.pops.front aligner.new.pops.front }
    ensures at { KeepsAt C.rules N.given aligner.old.pops.front aligner.new.pops.front }
    ensures parts { HasSameShares aligner.old.pops aligner.new.pops }
    ensures ticks { ticks_of aligner.new.pops.front ≡ ticks_of aligner.old.pops.front }
    // It is Ok only behind a pop that found none.
    ensures done { AreDone C.rules N.given aligner.old.pops.front →
        OnOk result (IsDone C.rules N.given aligner.new.pops.front) }
    ensures are_done { AreDone C.rules N.given aligner.old.pops.front →
        AreDone C.rules N.given aligner.new.pops.front }
    ensures causes { IfErr result IsOfAligner }
    ensures device { HasDeviceOf aligner.old.publisher aligner.new.publisher result }
    ensures counts { counts_in aligner.new.publisher ≡ counts_in aligner.old.publisher }
    ensures kept { KeepsOutput aligner.old.publisher aligner.new.publisher }
    ensures gave { GivesNone K.gave aligner.old.ticker aligner.new.ticker }
{
    let Aligner {
        publisher,
        pops,
        ticker,
        writer,
    } = aligner;
    for _ in rt.forever() {
        let Numbered { step, answer } = next_row(rt, hub, pops, publisher);
        if !answer {
            ticker.note(step, &Did::FoundNone);
            return Ok(step);
        }
        if let Err(fault) = publish_one(rt, publisher, ticker, step, &mut pops.row, writer) {
            return Err(fault);
        }
    }
    unreachable!()
}
