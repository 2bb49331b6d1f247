//! The worked data frame cut short at each byte and with each of its bits changed, and the longest datagram of one byte throughout.

use super::same::is;
use super::vectors::DATA_11;
use pdc_frame::{FrameFault, read_frame};
use std::test::Fail;

/// The bits of a byte.
const BITS: [u8; 8] = [0x80, 0x40, 0x20, 0x10, 0x08, 0x04, 0x02, 0x01];

/// The most bytes that a UDP datagram over IPv4 has.
const MAX_DATAGRAM: usize = 65_507;

#[test]
fn cut_at_each_byte(rt: HostRuntime) {
    for len in 0..DATA_11.len() {
        let wanted = if len < 16 {
            FrameFault::Short
        } else {
            FrameFault::SizeMismatch
        };
        is!(&rt; read_frame(&DATA_11[..len]).err(), Some(wanted));
    }
}

/// How often each fault came.
#[derive(Default, PartialEq, Debug, Drop)]
struct Faults {
    bad_sync: u32,
    size_mismatch: u32,
    bad_check: u32,
    other: u32,
}

impl Faults {
    /// One more of these.
    fn count(&mut self, fault: Option<FrameFault>) {
        let count = match fault {
            Some(FrameFault::BadSync) => &mut self.bad_sync,
            Some(FrameFault::SizeMismatch) => &mut self.size_mismatch,
            Some(FrameFault::BadCheck) => &mut self.bad_check,
            _ => &mut self.other,
        };
        *count = count.saturating_add(1);
    }
}

/// Of the bits of SYNC those of the first byte, the reserved one and those of the version tell of no frame, and the kinds that come of data by
/// one bit are kinds; each bit of FRAMESIZE tells of another length; all other bits are told by the check word.
#[test]
fn each_bit_changed(rt: HostRuntime) {
    let mut faults = Faults::default();
    for place in 0..DATA_11.len() {
        for bit in BITS {
            let mut off = DATA_11;
            off[place] ^= bit;
            faults.count(read_frame(&off).err());
        }
    }
    let wanted = Faults {
        bad_sync: 13,
        size_mismatch: 16,
        bad_check: 179,
        other: 0,
    };
    is!(&rt; faults, wanted);
}

#[test]
fn longest_datagram_of_sync_bytes(rt: HostRuntime) -> Result<(), Fail> {
    let bytes = vec![in rt.alloc(); 0xAAu8; MAX_DATAGRAM]?;
    is!(&rt; read_frame(&bytes).err(), Some(FrameFault::BadSync));
    Ok(())
}
