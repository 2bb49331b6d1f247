//! Settings by which bytes are read.
ghost use Rattle.std.specs.Prelude.{◌≡◌, ◌*◌, ◌<◌, ℕ, Bool, IfOk, IfSome, IsOk, List, OnErr, OnOk, length, true};
ghost use Rattle.pdc_core.specs.Fits.{fits_merger, fits_node};
ghost use Rattle.pdc_align.specs.pdc_arrival.Heard.{HearsForMerger};
ghost use Rattle.pdc_core.specs.KeptArrival.{CopyWasRefused, IsMadeInPlace, taken_view};
ghost use Rattle.pdc_core.specs.Lent.{HasRoomFor, brought_view, has_room, lent_view};
ghost use Rattle.pdc_align.specs.pdc_life.Arrival.{Arrival};
ghost use Rattle.pdc_align.specs.pdc_life.CoreKind.{OfMerger, OfNode, Says};
ghost use Rattle.pdc_align.specs.pdc_arrival.Views.{arrival_view};
ghost use Rattle.pdc_align.specs.pdc_arrival.declared.from_node.TheConstants.{NODES};

use crate::{KeptArrival, LentData};
use pdc_align::{
    Arrival, Frame, MergerSettings, Reading, Settings, arrival_from_node, claim_from_node,
    hear_from_node, hear_from_pmu, read_from_node, read_from_pmu,
};
use std::alloc::{AllocError, Global};

/// Settings by which the bytes of a datagram are read, whatever came before. It takes no memory.
pub trait Reads {
    // so many streams arrive;
    ghost streams: { Self → ℕ };

    // this is what bytes may say that come for a stream,
    ghost says: { Self → ℕ → List ℕ → Arrival → Type 0 };

    // and all that they say passes this test.
    ghost fits: { Self → ℕ → Arrival → Bool };

    ghost said_fits: { (settings : Self) (s : ℕ) (bytes : List ℕ) (arrival : Arrival) →
        says settings s bytes arrival → fits settings s arrival ≡ true };

    /// What the bytes say that came for the stream with this number.
    fn read<'a>(&self, stream: usize, bytes: &'a [u8]) -> Arrival<'a>
        requires { stream < streams self.now }
        ensures { says self.now stream bytes.now (arrival_view result) };

    /// Data that the bytes say which came for the stream with this number, lent from them; what is kept here has room for a copy of it then.
    /// Where it is none, what they say is written over what is kept, with what it needs of them.
    ///
    /// # Errors
    ///
    /// [`AllocError`] where there is no memory; [`KeptArrival::keep`] tells what takes none. What is kept stays then.
    fn lend<'a>(
        &self,
        alloc: Global,
        stream: usize,
        bytes: &'a [u8],
        kept: &mut KeptArrival,
    ) -> Result<Option<LentData<'a>>, AllocError>
        requires { stream < streams self.now }
        ensures says { IfOk result (λ lent. says self.now stream bytes.now
            (brought_view lent kept.new)) }
        ensures fits { IfOk result (λ lent. fits self.now stream (brought_view lent kept.new) ≡
            true) }
        ensures room { IfOk result (HasRoomFor kept.new) }
        ensures refused { OnErr result (CopyWasRefused (says self.now stream bytes.now)) }
        ensures in_place { IsMadeInPlace (says self.now stream bytes.now) (IsOk result) }
        ensures err { OnErr result (kept.new ≡ kept.old) };

    /// What the bytes say that came for the stream with this number, with what it needs of them kept.
    ///
    /// # Errors
    ///
    /// [`AllocError`] where there is no memory; [`KeptArrival::keep`] tells what takes none.
    fn read_kept(
        &self,
        alloc: Global,
        stream: usize,
        bytes: &[u8],
    ) -> Result<KeptArrival, AllocError>
        requires { stream < streams self.now }
        ensures says { IfOk result (λ taken. says self.now stream bytes.now (taken_view taken)) }
        ensures fits { IfOk result (λ taken. fits self.now stream (taken_view taken) ≡ true) }
        ensures refused { OnErr result (CopyWasRefused (says self.now stream bytes.now)) }
        ensures in_place { IsMadeInPlace (says self.now stream bytes.now) (IsOk result) }
    {
        let arrival = self.read(stream, bytes);
        KeptArrival::keep(alloc, &arrival)
    }
}

/// A node's: a stream comes from each PMU.
impl Reads for Settings {
    ghost use Rattle.pdc_core.specs.Said.{said_fits_node};

    ghost streams = { λ settings. length settings.pmus.items };

    ghost says = { λ settings. Says (OfNode settings) };

    ghost fits = { fits_node };

    ghost said_fits = { said_fits_node };

    fn read<'a>(&self, stream: usize, bytes: &'a [u8]) -> Arrival<'a> {
        read_from_pmu(self, stream, bytes)
    }

    #[inline(always)]
    fn lend<'a>(
        &self,
        alloc: Global,
        stream: usize,
        bytes: &'a [u8],
        kept: &mut KeptArrival,
    ) -> Result<Option<LentData<'a>>, AllocError> {
        match hear_from_pmu(self, stream, bytes) {
            Reading::Data {
                instant,
                quality,
                payload,
            } => {
                kept.make_room(alloc, payload)?;
                Ok(Some(LentData {
                    instant,
                    quality,
                    payload,
                    claim: None,
                }))
            }
            // Each of the others is made anew: so what was read of data needs no place in memory.
            Reading::BytesRefused(refusal) => {
                kept.set_reading(alloc, stream, &Reading::BytesRefused(refusal))?;
                Ok(None)
            }
            Reading::Configuration(section) => {
                kept.set_reading(alloc, stream, &Reading::Configuration(section))?;
                Ok(None)
            }
        }
    }
}

/// The merger's: a stream comes from each of two nodes.
impl Reads for MergerSettings {
    ghost use Rattle.pdc_core.specs.Said.{said_fits_merger};
    ghost use Rattle.pdc_align.specs.pdc_arrival.declared.from_node.TheConstants.{NODES};

    ghost streams = { λ _. NODES };

    ghost says = { λ settings. Says (OfMerger settings) };

    ghost fits = { fits_merger };

    ghost said_fits = { said_fits_merger };

    fn read<'a>(&self, stream: usize, bytes: &'a [u8]) -> Arrival<'a> {
        read_from_node(self, stream, bytes)
    }

    #[inline(always)]
    fn lend<'a>(
        &self,
        alloc: Global,
        stream: usize,
        bytes: &'a [u8],
        kept: &mut KeptArrival,
    ) -> Result<Option<LentData<'a>>, AllocError> {
        if let Some(data) = lend_claimed(self, stream, bytes, kept) {
            return Ok(Some(data));
        }
        lend_checked(self, alloc, stream, bytes, kept)
    }
}

/// What the bytes say that came from a node, lent or kept. Their check word is computed.
#[inline(always)]
fn lend_checked<'a>(
    settings: &MergerSettings,
    alloc: Global,
    stream: usize,
    bytes: &'a [u8],
    kept: &mut KeptArrival,
) -> Result<Option<LentData<'a>>, AllocError>
    requires { stream < NODES }
    ensures says { IfOk result (λ lent. Says (OfMerger settings.now) stream bytes.now
        (brought_view lent kept.new)) }
    ensures room { IfOk result (HasRoomFor kept.new) }
    ensures refused { OnErr result (CopyWasRefused (Says (OfMerger settings.now) stream
        bytes.now)) }
    ensures in_place { IsMadeInPlace (Says (OfMerger settings.now) stream bytes.now)
        (IsOk result) }
    ensures err { OnErr result (kept.new ≡ kept.old) }
{
    match hear_from_node(settings, stream, bytes) {
        Reading::Data {
            instant,
            quality,
            payload,
        } => {
            kept.make_room(alloc, payload)?;
            Ok(Some(LentData {
                instant,
                quality,
                payload,
                claim: None,
            }))
        }
        // Each of the others is made anew: so what was heard of data needs no place in memory.
        Reading::BytesRefused(refusal) => {
            keep_heard(
                settings,
                alloc,
                stream,
                Reading::BytesRefused(refusal),
                kept,
            )?;
            Ok(None)
        }
        Reading::Configuration(frame) => {
            keep_heard(settings, alloc, stream, Reading::Configuration(frame), kept)?;
            Ok(None)
        }
    }
}

/// Data of a node, lent, if what is kept has room for it. Its check word is not computed: mostly it follows from that of the other node's frame,
/// if that brought the same blocks before.
#[inline(always)]
fn lend_claimed<'a>(
    settings: &MergerSettings,
    stream: usize,
    bytes: &'a [u8],
    kept: &KeptArrival,
) -> Option<LentData<'a>>
    requires { stream < NODES }
    ensures says { IfSome result (λ lent. Says (OfMerger settings.now) stream bytes.now
        (lent_view lent)) }
    ensures room { IfSome result (λ lent. has_room kept.now lent.payload.now ≡ true) }
{
    let claimed = claim_from_node(settings, stream, bytes)?;
    if !kept.has_room(claimed.payload) {
        return None;
    }
    Some(LentData {
        instant: claimed.instant,
        quality: claimed.quality,
        payload: claimed.payload,
        claim: Some(claimed.claim),
    })
}

/// What was heard of a node, kept here. It stands apart, so that data wants no room for what a configuration says.
#[inline(never)]
fn keep_heard(
    settings: &MergerSettings,
    alloc: Global,
    stream: usize,
    heard: Reading<'_, Frame<'_>>,
    kept: &mut KeptArrival,
) -> Result<(), AllocError>
    requires { stream < NODES }
    ensures says { (bytes : List ℕ) → HearsForMerger settings.now stream bytes heard.entry →
        OnOk result (Says (OfMerger settings.now) stream bytes (taken_view kept.new)) }
    ensures refused { (bytes : List ℕ) → HearsForMerger settings.now stream bytes heard.entry →
        OnErr result (CopyWasRefused (Says (OfMerger settings.now) stream bytes)) }
    ensures in_place { (bytes : List ℕ) → HearsForMerger settings.now stream bytes heard.entry →
        IsMadeInPlace (Says (OfMerger settings.now) stream bytes) (IsOk result) }
    ensures err { OnErr result (kept.new ≡ kept.old) }
{
    let arrival = arrival_from_node(settings, stream, heard);
    kept.set(alloc, &arrival)
}
