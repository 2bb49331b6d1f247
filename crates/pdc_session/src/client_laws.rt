//! What the limits of an answer are.
ghost use Rattle.std.specs.Prelude.{◌≡◌};
ghost use Rattle.pdc_session.specs.declared.search.TheConstants.{MAX_FRAMES, MAX_READS};

/// A call looks through at most a thousand frames, and makes at most a million reads.
pub fn an_answer_is_bounded()
    ensures frames { MAX_FRAMES ≡ 1000 }
    ensures reads { MAX_READS ≡ 1000000 }
{}
