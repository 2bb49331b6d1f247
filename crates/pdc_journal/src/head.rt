//! What the front of a datagram says.
ghost use Rattle.std.specs.Prelude.{◌≡◌};
ghost use Rattle.pdc_journal.specs.Head.{change_in, is_data};

use pdc_frame::{HEADER_LEN, read_word};

/// The first byte of SYNC (C37.118.2-2011, table 2).
const SYNC: u8 = 0xAA;

/// The bits of SYNC's second byte that tell the kind of a frame, 6 to 4: how many lie below them, and how many values they have.
const KIND_SHIFT: u32 = 4;

const KINDS: u8 = 8;

/// The bit of STAT that says that the configuration changes (C37.118.2-2011, table 7).
const CHANGE_BIT: u32 = 10;

/// Whether these bytes begin with the SYNC of a data frame: AA, and a byte in which bits 6 to 4 are 0 (C37.118.2-2011, table 2).
pub fn is_data(bytes: &[u8]) -> bool
    ensures { result ≡ is_data bytes.now }
{
    bytes.len() >= 2 && bytes[0] == SYNC && (bytes[1] >> KIND_SHIFT) % KINDS == 0
}

/// Whether the configuration changes, as bit 10 of STAT says in a data frame's first block; none where the bytes are no data frame with a
/// STAT (C37.118.2-2011, tables 5 and 7).
pub fn change_in(bytes: &[u8]) -> Option<bool>
    ensures { result ≡ change_in bytes.now }
{
    if !is_data(bytes) || bytes.len() < HEADER_LEN + 2 {
        return None;
    }
    let stat = read_word(bytes, HEADER_LEN);
    Some((stat >> CHANGE_BIT) % 2 == 1)
}
