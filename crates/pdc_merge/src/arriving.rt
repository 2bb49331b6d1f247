//! How the merger answers what comes of a node.
ghost use Rattle.std.specs.Prelude.{◌≡◌, ◌<◌, ◌∷◌, ◌++◌, ℕ, List, drop, option_map, true};
ghost use Rattle.pdc_table.specs.Placing.{row_at};
ghost use Rattle.pdc_table.specs.pdc_columns.Twin.{twin_of};
ghost use Rattle.pdc_table.specs.pdc_open_row.Twin.{IsTwinIn};
ghost use Rattle.std.specs.Option.{ForSome};
ghost use Rattle.pdc_frame.specs.CheckWord.{check_word_of};
ghost use Rattle.pdc_frame.specs.Fronts.{front_of};
ghost use Rattle.pdc_frame.specs.Claim.{claim_of, is_right};
ghost use Rattle.pdc_core.specs.KeptArrival.{data_view};
ghost use Rattle.pdc_arrival.specs.Claimed.{claimed_data};
ghost use Rattle.pdc_arrival.specs.Counts.{after_answer};
ghost use Rattle.pdc_life.specs.Answer.{ToArrive, answered};
ghost use Rattle.pdc_life.specs.Arrival.{BytesRefused, Data};
ghost use Rattle.pdc_life.specs.CoreKind.{OfMerger, Says};
ghost use Rattle.pdc_life.specs.Given.{Given};
ghost use Rattle.pdc_life.specs.Life.{Entry};
ghost use Rattle.pdc_life.specs.Merger.{merged_answer};
ghost use Rattle.pdc_merge.specs.Merger.{StandsFor};

use crate::{Merger, answering};
use pdc_align::others_are_left;
use pdc_frame::{FrameFault, LentClaim, LentFront};
use pdc_life::{Outcome, Refusal, lives_are_runs};
use pdc_row::{Beside, check_beside};
use pdc_table::Table;

impl<T: Table> Merger<T> {
    /// Answers data of a node, and takes it where it is to be taken. It may be known that its blocks are those that the other node's frame brought
    /// for the instant.
    #[inline(always)]
    pub(crate) fn arrive_data(
        &mut self,
        stream: usize,
        instant: u64,
        quality: u8,
        payload: &[u8],
        sent: Option<&LentFront<'_>>,
        is_twin: bool,
    ) -> Outcome
        requires stream { stream < 2 }
        requires sent { ForSome sent (λ known. (front_of known.now).check ≡
            check_word_of ((front_of known.now).bytes ++ drop 14 payload.now)) }
        requires twin { IsTwinIn (twin_of is_twin (drop 14 payload.now))
            (row_at instant self.old.state.content.open_rows) }
        ensures answer { (g : Given) (E : List Entry) → StandsFor g E self.old →
            result ≡ (merged_answer g E stream (Data instant quality payload.now)).outcome }
        ensures stands { (g : Given) (E : List Entry) (bytes : List ℕ) →
            Says (OfMerger self.old.settings) stream bytes (Data instant quality payload.now) →
            StandsFor g E self.old →
            StandsFor g (answered merged_answer g E
            (ToArrive stream bytes (Data instant quality payload.now)) ∷ E) self.new }
        ensures counts { self.new.counts ≡ after_answer result self.old.counts }
        ensures popped { self.new.popped ≡ self.old.popped }
        ensures settings { self.new.settings ≡ self.old.settings }
        ensures memory { self.new.memory ≡ self.old.memory }
    {
        lives_are_runs();
        let outcome = answering::answer_data(
            &mut self.alignment,
            &self.layouts,
            self.in_force,
            stream,
            instant,
            quality,
            payload,
            sent,
            is_twin,
        );
        self.counts.count(outcome);
        outcome
    }

    /// Answers refused bytes, of whatever stream: they are counted, and nothing else changes.
    pub(crate) fn arrive_refused(&mut self, refusal: Refusal) -> Outcome
        ensures answer { (g : Given) (E : List Entry) (stream : ℕ) → StandsFor g E self.old →
            result ≡ (merged_answer g E stream (BytesRefused refusal)).outcome }
        ensures stands { (g : Given) (E : List Entry) (stream : ℕ) (bytes : List ℕ) →
            Says (OfMerger self.old.settings) stream bytes (BytesRefused refusal) →
            StandsFor g E self.old →
            StandsFor g (answered merged_answer g E
            (ToArrive stream bytes (BytesRefused refusal)) ∷ E) self.new }
        ensures counts { self.new.counts ≡ after_answer result self.old.counts }
        ensures popped { self.new.popped ≡ self.old.popped }
        ensures settings { self.new.settings ≡ self.old.settings }
        ensures memory { self.new.memory ≡ self.old.memory }
    {
        lives_are_runs();
        others_are_left();
        let outcome = Outcome::Refused(refusal);
        self.counts.count(outcome);
        outcome
    }

    /// Whether the check word is right of a frame with this payload. It follows by a sum where the frame of the other node brought the same blocks
    /// for the instant.
    #[inline(always)]
    fn check(&mut self, instant: u64, payload: &[u8], claim: &LentClaim<'_>) -> Beside
        ensures right { result.is_right ≡ is_right (claim_of claim.now) payload.now }
        ensures twin { IsTwinIn (twin_of result.is_same (drop 14 payload.now))
            (row_at instant self.old.state.content.open_rows) }
        ensures same { self.new ≡ self.old }
    {
        match self.alignment.lowest_blocks(instant) {
            Some(blocks) => check_beside(claim, payload, blocks, &mut self.difference),
            None => Beside {
                is_right: claim.is_right(payload),
                is_same: false,
            },
        }
    }

    /// Answers data of a node whose check word is not computed yet, or bytes that are refused where it is wrong.
    #[inline(always)]
    fn arrive_claimed(
        &mut self,
        stream: usize,
        instant: u64,
        quality: u8,
        payload: &[u8],
        claim: &LentClaim<'_>,
    ) -> Outcome
        requires stream { stream < 2 }
        ensures answer { (g : Given) (E : List Entry) → StandsFor g E self.old →
            result ≡ (merged_answer g E stream
            (claimed_data instant quality payload.now (claim_of claim.now))).outcome }
        ensures stands { (g : Given) (E : List Entry) (bytes : List ℕ) →
            Says (OfMerger self.old.settings) stream bytes
            (claimed_data instant quality payload.now (claim_of claim.now)) → StandsFor g E self.old →
            StandsFor g (answered merged_answer g E (ToArrive stream bytes
            (claimed_data instant quality payload.now (claim_of claim.now))) ∷ E) self.new }
        ensures counts { self.new.counts ≡ after_answer result self.old.counts }
        ensures popped { self.new.popped ≡ self.old.popped }
        ensures settings { self.new.settings ≡ self.old.settings }
        ensures memory { self.new.memory ≡ self.old.memory }
    {
        let seen = self.check(instant, payload, claim);
        if seen.is_right {
            let sent = front_of_other(claim, payload, seen.is_same);
            self.arrive_data(
                stream,
                instant,
                quality,
                payload,
                sent.as_ref(),
                seen.is_same,
            )
        } else {
            self.arrive_refused(Refusal::NoFrame(FrameFault::BadCheck))
        }
    }

    /// Answers data of a node, as it was read.
    #[inline(always)]
    pub(crate) fn arrive_read(
        &mut self,
        stream: usize,
        instant: u64,
        quality: u8,
        payload: &[u8],
        claim: &Option<LentClaim<'_>>,
    ) -> Outcome
        requires stream { stream < 2 }
        ensures answer { (g : Given) (E : List Entry) → StandsFor g E self.old →
            result ≡ (merged_answer g E stream
            (data_view instant quality payload.now
            (option_map claim_of claim.now))).outcome }
        ensures stands { (g : Given) (E : List Entry) (bytes : List ℕ) →
            Says (OfMerger self.old.settings) stream bytes
            (data_view instant quality payload.now
            (option_map claim_of claim.now)) → StandsFor g E self.old →
            StandsFor g (answered merged_answer g E (ToArrive stream bytes
            (data_view instant quality payload.now
            (option_map claim_of claim.now))) ∷ E) self.new }
        ensures counts { self.new.counts ≡ after_answer result self.old.counts }
        ensures popped { self.new.popped ≡ self.old.popped }
        ensures settings { self.new.settings ≡ self.old.settings }
        ensures memory { self.new.memory ≡ self.old.memory }
    {
        match claim {
            None => self.arrive_data(stream, instant, quality, payload, None, false),
            Some(claim) => self.arrive_claimed(stream, instant, quality, payload, claim),
        }
    }
}

/// The front and the check word of a frame whose check word is right, unless its blocks are those of the other node's frame: then what goes out
/// follows from that one.
#[inline(always)]
fn front_of_other<'a>(
    claim: &LentClaim<'a>,
    payload: &'a [u8],
    is_same: bool,
) -> Option<LentFront<'a>>
    requires { is_right (claim_of claim.now) payload.now ≡ true }
    ensures { ForSome result (λ known. (front_of known).check ≡
        check_word_of ((front_of known).bytes ++ drop 14 payload.now)) }
{
    if is_same { None } else { claim.front(payload) }
}
