//! The front and the check word of a frame, where they are known.
ghost use Rattle.std.specs.Prelude.{◌≡◌, None, option_map};
ghost use Rattle.std.specs.Option.{option_copied};
ghost use Rattle.pdc_row.specs.KnownFront.{known_of};
ghost use Rattle.pdc_row.specs.pdc_frame.Fronts.{front_of};

use pdc_block::{CheckedFront, FRONT_LEN, LentFront};

/// The front and the check word of a frame, if they are known. That they are not is written as one byte: what stood here before stays behind it.
#[derive(Clone, Copy, Debug)]
pub struct KnownFront {
    /// Whether they are known.
    pub is_known: bool,
    /// They, if they are known, else of no meaning.
    pub front: CheckedFront,
}

impl KnownFront {
    /// Those of no frame.
    #[inline(always)]
    pub fn unknown() -> KnownFront
        ensures { known_of result ≡ None }
    {
        KnownFront {
            is_known: false,
            front: CheckedFront {
                bytes: [0; FRONT_LEN],
                check: 0,
            },
        }
    }

    /// Makes them these.
    #[inline(always)]
    pub fn set(&mut self, front: Option<&CheckedFront>)
        ensures { known_of self.new ≡ option_copied front.entry }
    {
        match front {
            Some(front) => {
                self.is_known = true;
                self.front = *front;
            }
            None => self.is_known = false,
        }
    }

    /// Makes them these, which are lent from the frame.
    #[inline(always)]
    pub fn set_lent(&mut self, front: Option<&LentFront<'_>>)
        ensures { known_of self.new ≡ option_map (λ lent. front_of lent.now) front.entry }
    {
        match front {
            Some(front) => {
                self.is_known = true;
                self.front.set(front);
            }
            None => self.is_known = false,
        }
    }

    /// They, lent, if they are known.
    #[inline(always)]
    pub fn as_ref(&self) -> Option<&CheckedFront>
        ensures { option_copied result ≡ known_of self.now }
    {
        if self.is_known {
            Some(&self.front)
        } else {
            None
        }
    }
}
