//! A frame whose check word is not computed yet: it may follow from that of another frame.
ghost use Rattle.std.specs.Prelude.{◌≡◌, ◌==◌, ◌++◌, ◌⊎◌, IfNone, IfSome};
ghost use Rattle.pdc_words.specs.Bytes.{word_at};
ghost use Rattle.pdc_words.specs.CheckWord.{check_word_of};
ghost use Rattle.pdc_frame.specs.Claim.{Claims, claim_of, is_right};
ghost use Rattle.pdc_frame.specs.Frame.{IsSized, fields_of};

use crate::frame::Frame;
use crate::limits::{CHECK_LEN, HEADER_LEN, ID_PLACE, MAX_ID, OVERHEAD, SIZE_PLACE};
use crate::reading::{fields_in_places, read_sync};
use pdc_words::{check_word_of_parts, read_word};

/// What stands before the payload of a frame, and in the place of its check word.
#[derive(Clone, Copy, Debug, PartialEq, Eq)]
pub struct Claim {
    /// SYNC, FRAMESIZE, IDCODE, SOC and FRACSEC.
    pub header: [u8; HEADER_LEN],
    /// The number in the place of CHK.
    pub check: u16,
}

impl Claim {
    /// Whether that is the check word, with this payload between them: it is computed over all bytes.
    #[inline(always)]
    pub fn is_right(&self, payload: &[u8]) -> bool
        ensures { result ≡ is_right self.now payload.now }
    {
        is_check_word(self.check, &self.header, payload)
    }
}

/// The same, lent from the bytes of the frame. The number in the place of CHK is read where it is asked for, after what stands before it: a
/// processor fetches ahead what is read from front to end, and not where the end is read first.
#[derive(Clone, Copy, Debug)]
pub struct LentClaim<'a> {
    /// SYNC, FRAMESIZE, IDCODE, SOC and FRACSEC.
    pub header: &'a [u8; HEADER_LEN],
    /// The bytes in the place of CHK.
    pub check: &'a [u8; CHECK_LEN],
}

impl LentClaim<'_> {
    /// The number in the place of CHK.
    #[inline(always)]
    pub fn check(&self) -> u16
        ensures { result ≡ (claim_of self.now).check }
    {
        let bytes = self.check;
        read_word(bytes, 0)
    }

    /// A copy.
    #[inline(always)]
    pub fn to_claim(&self) -> Claim
        ensures { result ≡ claim_of self.now }
    {
        Claim {
            header: *self.header,
            check: self.check(),
        }
    }

    /// Whether that is the check word, with this payload between them: it is computed over all bytes.
    #[inline(always)]
    pub fn is_right(&self, payload: &[u8]) -> bool
        ensures { result ≡ is_right (claim_of self.now) payload.now }
    {
        is_check_word(self.check(), self.header, payload)
    }
}

/// Whether this is the check word of a header and a payload. A call of its own, which is handed what it reads and no claim: so a claim need not
/// lie in memory.
#[inline(never)]
fn is_check_word(check: u16, header: &[u8; HEADER_LEN], payload: &[u8]) -> bool
    ensures { result ≡ (check_word_of (header.now ++ payload.now) == check) }
{
    check_word_of_parts(header, payload) == check
}

/// The fields of bytes that are a frame if the check word is right, which is neither computed nor read here, with what tells whether it is. None
/// where they are no frame whatever it is. It takes no memory.
#[inline]
pub fn read_claimed(bytes: &[u8]) -> Option<(Frame<'_>, LentClaim<'_>)>
    ensures claims { IfSome result (λ x. Claims bytes.now (fields_of x.0)
        (claim_of x.1)) }
    ensures none { IfNone result (IsSized bytes.now →
        (word_at bytes.now 4 ≡ 0) ⊎ (word_at bytes.now 4 ≡ 65535)) }
{
    if bytes.len() < OVERHEAD {
        return None;
    }
    let (kind, version) = read_sync(bytes[0], bytes[1])?;
    if usize::from(read_word(bytes, SIZE_PLACE)) != bytes.len() {
        return None;
    }
    let id = read_word(bytes, ID_PLACE);
    if id == 0 || id > MAX_ID {
        return None;
    }
    let header = bytes.first_chunk::<HEADER_LEN>()?;
    let check = bytes.last_chunk::<CHECK_LEN>()?;
    let frame = fields_in_places(bytes, kind, version);
    Some((frame, LentClaim { header, check }))
}
