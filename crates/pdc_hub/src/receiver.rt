//! One receiver: what it reads of its source, outside the lock, it delivers.
ghost use Rattle.std.specs.Prelude.{◌≡◌, ◌<◌, ◌≤◌, ◌^◌, IfErr, IfOk, IfSome, IsSome, List, OnErr};
ghost use Rattle.std.specs.Prelude.{Some};
ghost use Rattle.pdc_hub.specs.Closing.{closing_of};
ghost use Rattle.pdc_hub.specs.Counted.{AreAsBefore, AreOnePart, AreSomeParts, HasSameParts};
ghost use Rattle.pdc_hub.specs.Counted.{HaveCountedNone, HaveCountedOne};
ghost use Rattle.pdc_hub.specs.Faults.{IsOfDelivery, IsOfReceiver};
ghost use Rattle.pdc_hub.specs.Received.{AreBrought, HasReceived, WasBrought};
ghost use Rattle.pdc_ports.specs.Failures.{HasRisen};
ghost use Rattle.pdc_ports.specs.Heard.{HasTold, Heard};

use crate::fault::HubFault;
use crate::hub::Hub;
use crate::intake::{Inlet, Intake};
use crate::ledgers::Ledgers;
use crate::naming::Naming;
use crate::shares::Shares;
use pdc_core::{Core, KeptArrival, Reads};
use pdc_life::Outcome;
use pdc_log::Front;
use pdc_ports::{Next, Numbered, Source};
use std::alloc::Global;
use std::sync::{OnceToken, Wait};

/// What a receiver hands back: its shares, what they count, and why it ended, if by a fault.
#[derive(Drop)]
pub struct Received<'h, N: Ledgers> {
    /// Its shares, of one part each.
    pub shares: Shares<N>,
    /// How many of its datagrams were taken.
    pub taken: u64,
    /// How many were refused.
    pub refused: u64,
    /// Why it ended, if not with its source or at the close.
    pub fault: Option<HubFault>,
    /// What shows that the hub was closed, where it ended at the close.
    pub closed: Option<OnceToken<'h, ()>>,
    pub ghost one_part: { (shares.taken.parts ≡ 1) × (shares.refused.parts ≡ 1)
        × (shares.configured.parts ≡ 1) },
    pub ghost same: { (shares.taken.amount ≡ taken) × (shares.refused.amount ≡ refused) },
}

/// Reads a datagram, outside the lock, and delivers it: data as it is lent, and all else as it is kept here.
fn hand_in<C: Core + Drop, N: Naming<C::Settings>, R: Wait>(
    rt: &R,
    alloc: Global,
    intake: &Intake<'_, C, N>,
    stream: usize,
    bytes: &[u8],
    kept: &mut KeptArrival,
    shares: &mut Shares<N>,
) -> Result<Numbered<Outcome>, HubFault>
    requires settings { N.settings ≡ Some intake.now.settings.now }
    requires stream { stream < C.Settings.streams intake.now.settings.now }
    requires parts { AreSomeParts shares.old }
    ensures answer { IfOk result (λ numbered. WasBrought C.rules N.given stream bytes.now
        shares.old.front shares.new.front numbered.answer) }
    ensures counted { IfOk result (λ numbered. HaveCountedOne shares.old shares.new
        numbered.answer) }
    ensures most { IfOk result (λ _. (shares.new.taken.amount < 2 ^ 64)
        × (shares.new.refused.amount < 2 ^ 64)) }
    ensures parts { HasSameParts shares.old shares.new }
    ensures causes { IfErr result IsOfDelivery }
    ensures err { OnErr result (AreAsBefore shares.old shares.new) }
{
    match intake.settings.lend(alloc, stream, bytes, kept) {
        Ok(lent) => intake.hub.deliver(rt, stream, bytes, &lent, kept, shares),
        Err(_) => Err(HubFault::NoMemory),
    }
}

/// Reads a source to its end, or to the first idle turn after the close, and delivers each datagram whole, for the stream. It is read and
/// checked outside the lock, but for data of a node, whose check word mostly follows from what the other one sent.
pub fn receive<'h, C: Core + Drop, N: Naming<C::Settings>, S: Source, R: Wait>(
    rt: &R,
    alloc: Global,
    intake: &Intake<'h, C, N>,
    source: &mut S,
    inlet: Inlet<N>,
) -> Received<'h, N>
    requires settings { N.settings ≡ Some intake.now.settings.now }
    requires stream { inlet.stream < C.Settings.streams intake.now.settings.now }
    requires parts { AreOnePart inlet.shares }
    requires amounts { HaveCountedNone inlet.shares }
    // Each datagram that the source gave was delivered whole, for this stream, and answered, but for one by which it ended; it ended by the
    // last thing that it heard, and by a pause only where it hands back what shows that the hub was closed.
    ensures received { HasReceived (HasTold S.told source.old source.new)
        (AreBrought C.rules N.given inlet.stream result.shares.front)
        (IsSome result.closed) result.taken result.refused result.shares.configured.amount
        result.fault }
    ensures closed { IfSome result.closed (λ token. token.of ≡ closing_of intake.now.hub.now) }
    ensures causes { IfSome result.fault IsOfReceiver }
    ensures fault { result.fault ≡ Some HubFault.SourceFault →
        HasRisen (S.failures_of source.old) (S.failures_of source.new) }
{
    let Inlet {
        stream,
        buffer,
        shares,
    } = inlet;
    let hub = intake.hub;
    let mut shares = shares;
    let mut buffer = buffer;
    let mut kept = KeptArrival::blank();
    let mut taken = 0u64;
    let mut refused = 0u64;
    for _ in rt.forever() {
        match source.next(buffer.as_mut_slice()) {
            Next::Datagram(len) => {
                let bytes = &buffer[..len];
                match hand_in(rt, alloc, intake, stream, bytes, &mut kept, &mut shares) {
                    Ok(answer) => {
                        match answer.answer {
                            Outcome::Taken => taken += 1,
                            Outcome::Refused(_) => refused += 1,
                            Outcome::Candidate | Outcome::Known => {}
                        }
                        source.answered(Some(answer));
                        tell_whole(rt, hub, &shares.front, source);
                    }
                    Err(fault) => {
                        source.answered(None);
                        return handed_back(shares, taken, refused, Some(fault), None);
                    }
                }
            }
            Next::Idle => {
                if let Some(token) = hub.closed() {
                    return handed_back(shares, taken, refused, None, Some(token));
                }
            }
            Next::End => return handed_back(shares, taken, refused, None, None),
            Next::Fault => {
                return handed_back(shares, taken, refused, Some(HubFault::SourceFault), None);
            }
            Next::Stuck => return handed_back(shares, taken, refused, Some(HubFault::Stuck), None),
        }
    }
    unreachable!()
}

/// Tells a source that the lowest open row is whole, where it wants to be told, and it is.
fn tell_whole<C: Core + Drop, N: Naming<C::Settings>, S: Source, R: Wait>(
    rt: &R,
    hub: &Hub<C, N>,
    front: &Front<N>,
    source: &mut S,
)
    ensures tells { (heard : List Heard) → S.told source.old heard → S.told source.new heard }
    ensures failures { S.failures_of source.old ≤ S.failures_of source.new }
    ensures row { S.row_left source.new ≤ S.row_left source.old }
{
    if source.wants_whole() {
        let mut seen = front.again();
        if hub.is_whole(rt, &mut seen) {
            source.whole();
        }
    }
}

/// What is handed back.
fn handed_back<'h, N: Ledgers>(
    shares: Shares<N>,
    taken: u64,
    refused: u64,
    fault: Option<HubFault>,
    closed: Option<OnceToken<'h, ()>>,
) -> Received<'h, N>
    requires parts { AreOnePart shares }
    requires amounts { (shares.taken.amount ≡ taken) × (shares.refused.amount ≡ refused) }
    ensures { (result.fault ≡ fault) × (result.taken ≡ taken) × (result.refused ≡ refused)
        × (result.closed ≡ closed.entry)
        × (result.shares ≡ shares) }
{
    Received {
        shares,
        taken,
        refused,
        fault,
        closed,
    }
}
