//! The front of a frame that was read without its check word.
ghost use Rattle.std.specs.Prelude.{◌≡◌, ◌-◌, ◌<◌, ◌++◌, IfNone, IfSome, drop, length};
ghost use Rattle.std.specs.Prelude.{take, true};
ghost use Rattle.pdc_words.specs.CheckWord.{check_word_of};
ghost use Rattle.pdc_words.specs.Fronts.{front_of};
ghost use Rattle.pdc_words.specs.declared.fronts.TheConstants.{PART_LEN};
ghost use Rattle.pdc_frame.specs.Claim.{claim_of, is_right};

use crate::claim::LentClaim;
use pdc_words::{LentFront, PART_LEN};

impl<'a> LentClaim<'a> {
    /// What stands before the payload with the first 14 bytes of that, and the check word, if the payload has as many.
    #[inline(always)]
    pub fn front(&self, payload: &'a [u8]) -> Option<LentFront<'a>>
        // It is of this very frame, whether the check word is right or not,
        ensures own { IfSome result (λ known. ((front_of known).bytes ≡
            (claim_of self.now).header ++ take PART_LEN payload.now)
            × ((front_of known).check ≡ (claim_of self.now).check)) }
        // and where that is right, it is that of the front and what stands behind it in the payload.
        ensures front { is_right (claim_of self.now) payload.now ≡ true → IfSome result (λ known.
            (front_of known).check ≡
            check_word_of ((front_of known).bytes ++ drop PART_LEN payload.now)) }
        ensures none { IfNone result (length payload.now < PART_LEN) }
    {
        let own = payload.first_chunk::<PART_LEN>()?;
        Some(LentFront {
            header: self.header,
            own,
            check: self.check(),
        })
    }
}
