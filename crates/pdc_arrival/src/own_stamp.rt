//! The own section of a node, which tells the stamp of its layout.
ghost use Rattle.std.specs.Prelude.{◌≡◌, ◌+◌, ◌*◌, ◌↔◌, ◌⊎◌, IsTrue, MatchOption, drop, length};
ghost use Rattle.pdc_life.specs.pdc_frame.Bytes.{word_at};
ghost use Rattle.pdc_life.specs.pdc_row.Layout.{own_bytes};
ghost use Rattle.pdc_life.specs.Arrival.{Stamp as StampFields};
ghost use Rattle.pdc_life.specs.MergerReading.{IsOwn};
ghost use Rattle.pdc_arrival.specs.Views.{stamp_view};

use crate::arrival::Stamp;
use pdc_life::{MergedNode, MergerSettings, Nominal, Output, own_section, read_word};

/// Where the masks of the digital words stand in an own section: behind the 26 bytes from STN to DGNMR and the 64 names of 16 bytes.
const MASKS_PLACE: usize = 1050;

/// The bytes of an own section.
const OWN_SECTION_LEN: usize = 1070;

/// How many words of 16 bits there are.
const WORDS: u32 = 65536;

/// The number whose high and low half these are.
fn long_of(high: u16, low: u16) -> u32
    ensures { result ≡ WORDS * high + low }
{
    WORDS * u32::from(high) + u32::from(low)
}

/// The stamp that the masks of an own section say: the normal status of each digital word is the word.
fn stamp_in(bytes: &[u8]) -> Stamp
    requires { length bytes.now ≡ OWN_SECTION_LEN }
    ensures start { result.start ≡ WORDS * word_at (drop MASKS_PLACE bytes.now) 0 +
        word_at (drop MASKS_PLACE bytes.now) 4 }
    ensures change { result.change ≡ WORDS * word_at (drop MASKS_PLACE bytes.now) 8 +
        word_at (drop MASKS_PLACE bytes.now) 12 }
{
    let masks = &bytes[MASKS_PLACE..];
    Stamp {
        start: long_of(read_word(masks, 0), read_word(masks, 4)),
        change: long_of(read_word(masks, 8), read_word(masks, 12)),
    }
}

/// Whether the bytes are the own section of the node, under this nominal frequency and with this stamp.
fn is_spelled(
    settings: &MergerSettings,
    node: &MergedNode,
    nominal: Nominal,
    stamp: Stamp,
    bytes: &[u8],
) -> bool
    ensures { IsTrue result ↔ (bytes.now ≡
        own_bytes node.now.id.value nominal stamp.start stamp.change) }
{
    let output = Output {
        id: node.id,
        rate: settings.output.rate,
        nominal,
        time_base: settings.output.time_base,
    };
    let own = own_section(&output, stamp.start, stamp.change);
    bytes == own.bytes.as_slice()
}

/// Whether the bytes are the own section of the node with this stamp, under either nominal frequency.
fn is_own(settings: &MergerSettings, node: &MergedNode, stamp: Stamp, bytes: &[u8]) -> bool
    ensures { IsTrue result ↔ ((bytes.now ≡
        own_bytes node.now.id.value Nominal.Hz50 stamp.start stamp.change)
        ⊎ (bytes.now ≡ own_bytes node.now.id.value Nominal.Hz60 stamp.start stamp.change)) }
{
    is_spelled(settings, node, Nominal::Hz50, stamp, bytes)
        || is_spelled(settings, node, Nominal::Hz60, stamp, bytes)
}

/// The stamp of a layout, where these bytes are the own section of the node, under either nominal frequency.
pub fn own_stamp(settings: &MergerSettings, node: &MergedNode, bytes: &[u8]) -> Option<Stamp>
    ensures { MatchOption result ((stamp : StampFields) → IsOwn node.now.id.value bytes.now stamp →
        ⊥)
        (λ stamp. IsOwn node.now.id.value bytes.now (stamp_view stamp)) }
{
    if bytes.len() != OWN_SECTION_LEN {
        return None;
    }
    let stamp = stamp_in(bytes);
    if is_own(settings, node, stamp, bytes) {
        Some(stamp)
    } else {
        None
    }
}
