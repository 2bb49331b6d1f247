//! What arrived, with its bytes kept: it can be handed on where what was read would not live.
ghost use Rattle.std.specs.Prelude.{◌≡◌, ◌≤◌, [], ◌∷◌, IfOk, IsOk, None, OnErr, OnOk, false, length};
ghost use Rattle.std.specs.Prelude.{map, option_map, true};
ghost use Rattle.pdc_align.specs.pdc_frame.Claim.{claim_of};
ghost use Rattle.pdc_core.specs.KeptArrival.{data_view, kept_part, taken_view, takes_no_memory};
ghost use Rattle.pdc_core.specs.KeptArrival.{wanted_of};
ghost use Rattle.pdc_core.specs.Lent.{can_take, has_room, lent_view};
ghost use Rattle.pdc_align.specs.pdc_memory.Asking.{WasRefused};
ghost use Rattle.pdc_align.specs.pdc_arrival.Views.{arrival_view, section_part};
ghost use Rattle.pdc_align.specs.pdc_life.Arrival.{Data, Layout};
ghost use Rattle.pdc_align.specs.pdc_cfg.Section.{fields_of_view};
ghost use Rattle.pdc_align.specs.pdc_life.Views.{arrival_view as reading_view};

use crate::{KeptLayout, KeptSection, LentData, Payload, SHORT_PAYLOAD, ShortPayload};
use arrayvec::ArrayVec;
use pdc_align::{
    Arrival, Claim, ColumnSection, FrameFault, Held, LentClaim, MAX_PMUS, Reading, Refusal,
    SectionView,
};
use std::alloc::{AllocError, Global};

/// What bytes said that arrived for a stream.
#[derive(Debug, Drop)]
pub enum KeptArrival {
    /// They are refused.
    BytesRefused(Refusal),
    /// A data frame of the stream.
    Data {
        /// The instant of its tag.
        instant: u64,
        /// Its time quality byte.
        quality: u8,
        /// What stands between FRACSEC and CHK.
        payload: Payload,
        /// What tells whether the check word is right, where it is not computed yet: where it is not, these are bytes that are refused for it.
        claim: Option<Claim>,
    },
    /// A configuration of the stream.
    Layout(KeptLayout),
}

/// Copies of the sections.
fn kept(alloc: Global, sections: &[ColumnSection<'_>]) -> Result<Held<KeptSection>, AllocError>
    ensures refused { OnErr result (WasRefused (length sections.now)) }
    ensures copies { IfOk result (λ copies. map kept_part copies.items ≡
        map section_part sections.now) }
{
    let mut copies = Held::with_capacity(alloc, sections.len())?;
    for part in sections {
        copies.push(KeptSection {
            column: part.column,
            section: part.section.to_section(),
        });
    }
    Ok(copies)
}

/// A copy of this section alone.
fn alone(
    alloc: Global,
    column: usize,
    section: &SectionView<'_>,
) -> Result<Held<KeptSection>, AllocError>
    ensures refused { OnErr result (WasRefused 1) }
    ensures copies { IfOk result (λ copies. map kept_part copies.items ≡
        (column, fields_of_view section.now) ∷ []) }
{
    let mut copies = Held::with_capacity(alloc, 1)?;
    copies.push(KeptSection {
        column,
        section: section.to_section(),
    });
    Ok(copies)
}

/// A copy of a PMU's configuration: a layout of one section, with no stamp.
#[inline(never)]
fn keep_configuration(
    alloc: Global,
    column: usize,
    section: &SectionView<'_>,
) -> Result<KeptArrival, AllocError>
    ensures refused { OnErr result (WasRefused 1) }
    ensures same { IfOk result (λ taken. taken_view taken ≡
        Layout None ((column, fields_of_view section.now) ∷ [])) }
{
    Ok(KeptArrival::Layout(KeptLayout {
        stamp: None,
        sections: alone(alloc, column, section)?,
    }))
}

/// The sections as they were read.
fn lent(sections: &[KeptSection]) -> ArrayVec<ColumnSection<'_>, MAX_PMUS>
    requires { length sections.now ≤ MAX_PMUS }
    ensures { map section_part result.items ≡ map kept_part sections.now }
{
    let mut parts = ArrayVec::new();
    for kept in sections {
        parts.push(ColumnSection {
            column: kept.column,
            section: kept.section.view(),
        });
    }
    parts
}

/// Data, or bytes that are refused, where a check word that is not computed yet is wrong.
fn data_view<'a>(instant: u64, quality: u8, payload: &'a [u8], claim: &Option<Claim>) -> Arrival<'a>
    ensures { arrival_view result ≡ data_view instant quality payload.now claim.now }
{
    if let Some(claim) = claim {
        if !claim.is_right(payload) {
            return Arrival::BytesRefused(Refusal::NoFrame(FrameFault::BadCheck));
        }
    }
    Arrival::Data {
        instant,
        quality,
        payload,
    }
}

/// Keeps what tells whether the check word is right, where it is not computed yet. Each arm writes to where it is kept: a value between would be
/// read back before it is written.
#[inline(always)]
fn keep_claim(kept: &mut Option<Claim>, lent: &Option<LentClaim<'_>>)
    ensures { kept.new ≡ option_map claim_of lent.now }
{
    match lent {
        Some(claim) => *kept = Some(claim.to_claim()),
        None => *kept = None,
    }
}

impl LentData<'_> {
    /// What arrived.
    pub fn view(&self) -> Arrival<'_>
        ensures { arrival_view result ≡ lent_view self.now }
    {
        data_view(self.instant, self.quality, self.payload, &self.kept_claim())
    }

    /// A copy of what tells whether the check word is right, where it is not computed yet.
    #[inline(always)]
    fn kept_claim(&self) -> Option<Claim>
        ensures { result ≡ option_map claim_of self.now.claim }
    {
        match &self.claim {
            Some(claim) => Some(claim.to_claim()),
            None => None,
        }
    }
}

impl KeptArrival {
    /// A copy of what arrived.
    ///
    /// # Errors
    ///
    /// [`AllocError`] where there is no memory. Refused bytes and data of at most 214 bytes take none.
    pub fn keep(alloc: Global, arrival: &Arrival<'_>) -> Result<KeptArrival, AllocError>
        ensures same { IfOk result (λ taken. taken_view taken ≡ arrival_view arrival.now) }
        ensures refused { OnErr result (WasRefused (wanted_of (arrival_view arrival.now))) }
        ensures in_place { takes_no_memory (arrival_view arrival.now) ≡ true → IsOk result }
    {
        match arrival {
            Arrival::BytesRefused(refusal) => Ok(KeptArrival::BytesRefused(*refusal)),
            Arrival::Data {
                instant,
                quality,
                payload,
            } => KeptArrival::keep_data(alloc, *instant, *quality, payload),
            Arrival::Layout { stamp, sections } => Ok(KeptArrival::Layout(KeptLayout {
                stamp: *stamp,
                sections: kept(alloc, sections.as_slice())?,
            })),
        }
    }

    /// Makes this a copy of what arrived.
    ///
    /// # Errors
    ///
    /// As [`KeptArrival::keep`]. Then it stays as it was.
    pub fn set(&mut self, alloc: Global, arrival: &Arrival<'_>) -> Result<(), AllocError>
        ensures same { OnOk result (taken_view self.new ≡ arrival_view arrival.now) }
        ensures refused { OnErr result (WasRefused (wanted_of (arrival_view arrival.now))) }
        ensures in_place { takes_no_memory (arrival_view arrival.now) ≡ true → IsOk result }
        ensures err { OnErr result (self.new ≡ self.old) }
    {
        *self = KeptArrival::keep(alloc, arrival)?;
        Ok(())
    }

    /// Data of this instant, with this time quality byte and a copy of this payload.
    ///
    /// # Errors
    ///
    /// [`AllocError`] where the payload has more than 214 bytes, and there is no memory.
    #[inline(always)]
    pub fn keep_data(
        alloc: Global,
        instant: u64,
        quality: u8,
        payload: &[u8],
    ) -> Result<KeptArrival, AllocError>
        ensures same { IfOk result (λ taken. taken_view taken ≡ Data instant quality payload.now) }
        ensures refused { OnErr result (WasRefused (length payload.now)) }
        ensures in_place { takes_no_memory (Data instant quality payload.now) ≡ true →
            IsOk result }
    {
        Ok(KeptArrival::Data {
            instant,
            quality,
            payload: Payload::of(alloc, payload)?,
            claim: None,
        })
    }

    /// Data of instant 0 without bytes: a place that is written over.
    #[inline(always)]
    pub fn blank() -> KeptArrival
        ensures { taken_view result ≡ Data 0 0 [] }
    {
        KeptArrival::Data {
            instant: 0,
            quality: 0,
            payload: Payload::Short(ShortPayload::new()),
            claim: None,
        }
    }

    /// Makes this a copy of data that is lent, where it can be written over what is here with no memory. Whether it did; else it stays as it
    /// was.
    #[inline(always)]
    pub fn take(&mut self, lent: &LentData<'_>) -> bool
        ensures when { result ≡ can_take self.old lent.now.payload.now }
        ensures same { result ≡ true → taken_view self.new ≡ lent_view lent.now }
        ensures none { result ≡ false → self.new ≡ self.old }
    {
        if let KeptArrival::Data {
            instant,
            quality,
            payload,
            claim,
        } = self
        {
            if payload.set(lent.payload) {
                *instant = lent.instant;
                *quality = lent.quality;
                keep_claim(claim, &lent.claim);
                return true;
            }
        }
        false
    }

    /// A copy of data that is lent, in place: of at most 214 bytes.
    #[inline(never)]
    pub fn of_short(lent: &LentData<'_>) -> KeptArrival
        requires { length lent.now.payload.now ≤ SHORT_PAYLOAD }
        ensures { taken_view result ≡ lent_view lent.now }
    {
        KeptArrival::Data {
            instant: lent.instant,
            quality: lent.quality,
            payload: Payload::in_place(lent.payload),
            claim: lent.kept_claim(),
        }
    }

    /// Whether a copy of data with this payload takes no memory: of at most 214 bytes it lies in place, and others may be written over what
    /// is here.
    #[inline(always)]
    pub fn has_room(&self, payload: &[u8]) -> bool
        ensures { result ≡ has_room self.now payload.now }
    {
        payload.len() <= SHORT_PAYLOAD || self.can_take(payload)
    }

    /// Whether data with this payload can be written over what is here.
    #[inline(always)]
    fn can_take(&self, payload: &[u8]) -> bool
        ensures { result ≡ can_take self.now payload.now }
    {
        match self {
            KeptArrival::Data { payload: own, .. } => own.can_hold(payload),
            _ => false,
        }
    }

    /// Makes room here for a copy of data with this payload.
    ///
    /// # Errors
    ///
    /// [`AllocError`] where the payload has more than 214 bytes, and there is no memory. Then it stays as it was.
    #[inline(always)]
    pub fn make_room(&mut self, alloc: Global, payload: &[u8]) -> Result<(), AllocError>
        ensures room { OnOk result (has_room self.new payload.now ≡ true) }
        ensures refused { OnErr result (WasRefused (length payload.now)) }
        ensures in_place { length payload.now ≤ SHORT_PAYLOAD → IsOk result }
        ensures err { OnErr result (self.new ≡ self.old) }
    {
        if self.has_room(payload) {
            return Ok(());
        }
        self.take_room(alloc, payload)
    }

    /// The same where there is none yet, which is seldom: a copy is as long.
    #[inline(never)]
    fn take_room(&mut self, alloc: Global, payload: &[u8]) -> Result<(), AllocError>
        ensures room { OnOk result (has_room self.new payload.now ≡ true) }
        ensures refused { OnErr result (WasRefused (length payload.now)) }
        ensures in_place { length payload.now ≤ SHORT_PAYLOAD → IsOk result }
        ensures err { OnErr result (self.new ≡ self.old) }
    {
        *self = KeptArrival::Data {
            instant: 0,
            quality: 0,
            payload: Payload::of(alloc, payload)?,
            claim: None,
        };
        Ok(())
    }

    /// Makes this a copy of what is read of a PMU, whose configuration is of this column.
    ///
    /// # Errors
    ///
    /// [`AllocError`] where there is no memory. Refused bytes and data of at most 214 bytes take none. Then it stays as it was.
    #[inline(never)]
    pub fn set_reading(
        &mut self,
        alloc: Global,
        column: usize,
        reading: &Reading<'_, SectionView<'_>>,
    ) -> Result<(), AllocError>
        ensures same { OnOk result (taken_view self.new ≡ reading_view column reading.now) }
        ensures refused { OnErr result (WasRefused (wanted_of (reading_view column reading.now))) }
        ensures in_place { takes_no_memory (reading_view column reading.now) ≡ true → IsOk result }
        ensures err { OnErr result (self.new ≡ self.old) }
    {
        // What lies in place is written at once: a result of it would be moved several times.
        match reading {
            Reading::BytesRefused(refusal) => *self = KeptArrival::BytesRefused(*refusal),
            Reading::Data {
                instant,
                quality,
                payload,
            } if payload.len() <= SHORT_PAYLOAD => {
                *self = KeptArrival::Data {
                    instant: *instant,
                    quality: *quality,
                    payload: Payload::in_place(payload),
                    claim: None,
                };
            }
            _ => *self = KeptArrival::keep_reading(alloc, column, reading)?,
        }
        Ok(())
    }

    /// A copy of what is read of a PMU, whose configuration is of this column.
    ///
    /// # Errors
    ///
    /// [`AllocError`] where there is no memory. Refused bytes and data of at most 214 bytes take none.
    pub fn keep_reading(
        alloc: Global,
        column: usize,
        reading: &Reading<'_, SectionView<'_>>,
    ) -> Result<KeptArrival, AllocError>
        ensures same { IfOk result (λ taken. taken_view taken ≡ reading_view column reading.now) }
        ensures refused { OnErr result (WasRefused (wanted_of (reading_view column reading.now))) }
        ensures in_place { takes_no_memory (reading_view column reading.now) ≡ true → IsOk result }
    {
        match reading {
            Reading::BytesRefused(refusal) => Ok(KeptArrival::BytesRefused(*refusal)),
            Reading::Data {
                instant,
                quality,
                payload,
            } => KeptArrival::keep_data(alloc, *instant, *quality, payload),
            Reading::Configuration(section) => keep_configuration(alloc, column, section),
        }
    }

    /// What arrived.
    pub fn view(&self) -> Arrival<'_>
        ensures { arrival_view result ≡ taken_view self.now }
    {
        match self {
            KeptArrival::BytesRefused(refusal) => Arrival::BytesRefused(*refusal),
            KeptArrival::Data {
                instant,
                quality,
                payload,
                claim,
            } => data_view(*instant, *quality, payload.as_slice(), claim),
            KeptArrival::Layout(layout) => Arrival::Layout {
                stamp: layout.stamp,
                sections: lent(layout.sections.as_slice()),
            },
        }
    }
}
