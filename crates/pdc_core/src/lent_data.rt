//! Data as it was read, lent from the bytes of its frame.

use pdc_align::LentClaim;

/// Data as it was read, lent from the bytes of its frame: none of it is copied yet.
#[derive(Clone, Copy, Debug)]
pub struct LentData<'a> {
    /// The instant of its tag.
    pub instant: u64,
    /// Its time quality byte.
    pub quality: u8,
    /// What stands between FRACSEC and CHK.
    pub payload: &'a [u8],
    /// What tells whether the check word is right, where it is not computed yet: where it is not, these are bytes that are refused for it.
    pub claim: Option<LentClaim<'a>>,
}
