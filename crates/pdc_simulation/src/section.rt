//! The one section of a simulated PMU (C37.118.2-2011, table 9).

use pdc_cfg::{ConfigView, read_config};
use pdc_frame::{Frame, Kind, MAX_PAYLOAD, StreamId};

/// The bytes of a configuration payload with one section of one phasor.
pub const PAYLOAD_LEN: usize = 58;

/// The place of the five digits of the station's name.
const DIGITS_AT: usize = 10;

/// TIME_BASE 1000000; one PMU: its name, IDCODE, FORMAT 0 (words of 16 bits, rectangular), one phasor and nothing else, its name, PHUNIT
/// (a voltage, of 1 V a count), FNOM (50 Hz), CFGCNT; and DATA_RATE.
const PAYLOAD: [u8; PAYLOAD_LEN] =
    *b"\x00\x0F\x42\x40\x00\x01PMU 00000       \x00\x01\x00\x00\x00\x01\x00\x00\x00\x00V               \x00\x01\x86\xA0\x00\x01\x00\x01\x00\x32";

/// The payload, with the id in the station's name.
pub fn payload_of(id: u16) -> [u8; PAYLOAD_LEN] {
    let mut payload = PAYLOAD;
    let mut rest = id;
    for digit in payload[DIGITS_AT..DIGITS_AT + 5].iter_mut().rev() {
        *digit = b'0' + (rest % 10) as u8;
        rest /= 10;
    }
    payload
}

/// The configuration of which the payload is; none where it is no configuration, or too long for a frame.
pub fn config_of(payload: &[u8]) -> Option<ConfigView<'_>> {
    if payload.len() > MAX_PAYLOAD {
        return None;
    }
    read_config(&Frame {
        kind: Kind::Cfg2,
        version: 2,
        id: StreamId { value: 1 },
        soc: 0,
        quality: 0,
        frac: 0,
        payload,
    })
    .ok()
}
