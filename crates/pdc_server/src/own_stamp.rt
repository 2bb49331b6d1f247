//! The stamp that an own section tells.
ghost use Rattle.std.specs.Prelude.{◌≡◌, ◌+◌, ◌≤◌, IfSome, length, true};
ghost use Rattle.pdc_row.specs.Layout.{own_bytes};

use crate::stamp::Stamp;
use pdc_row::{Output, own_section, read_word};

/// Where the masks of the digital words stand in an own section: behind the 26 bytes from STN to DGNMR and the 64 names of 16 bytes. Each
/// takes four bytes, of which the first two are its normal status, which is the word.
const MASKS_PLACE: usize = 1050;

/// The bytes of an own section.
const OWN_SECTION_LEN: usize = 1070;

/// The number whose high half stands at a place and whose low half stands four bytes behind it.
fn number_at(bytes: &[u8], place: usize) -> u32
    requires { place + 6 ≤ length bytes.now }
{
    u32::from(read_word(bytes, place)) << 16 | u32::from(read_word(bytes, place + 4))
}

/// Whether the bytes are the own section of a concentrator with this stamp.
fn is_own(output: &Output, stamp: Stamp, bytes: &[u8]) -> bool
    ensures { result ≡ true → bytes.now ≡ own_bytes output.now.id.value output.now.nominal
        stamp.start stamp.change }
{
    let own = own_section(output, stamp.start, stamp.change);
    bytes == own.bytes.as_slice()
}

/// The stamp of a layout of this concentrator, where these bytes are its own section.
pub fn own_stamp(output: &Output, bytes: &[u8]) -> Option<Stamp>
    ensures { IfSome result (λ stamp. bytes.now ≡
        own_bytes output.now.id.value output.now.nominal stamp.start stamp.change) }
{
    if bytes.len() != OWN_SECTION_LEN {
        return None;
    }
    let stamp = Stamp {
        start: number_at(bytes, MASKS_PLACE),
        change: number_at(bytes, MASKS_PLACE + 8),
    };
    if !is_own(output, stamp, bytes) {
        return None;
    }
    Some(stamp)
}
