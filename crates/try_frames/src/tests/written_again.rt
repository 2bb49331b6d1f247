//! Written again: frames, a configuration and a payload, read and written byte for byte as they were.

use super::same::is;
use super::vectors::{CONFIG_11, DATA_11, DATA_ON};
use arrayvec::ArrayVec;
use pdc_block::{cut, join};
use pdc_cfg::{Shape, read_config, write_config};
use pdc_frame::{Buffer, Kind, read_frame, write_frame};
use std::alloc::Global;
use std::process::Abort;
use std::test::Fail;

const ONE_PHASOR: Shape = Shape {
    phasors: 1,
    analogs: 0,
    digitals: 0,
};

/// Whether the frame of these bytes was read and written.
fn write_again<B: Buffer>(bytes: &[u8], out: &mut B) -> bool {
    match read_frame(bytes) {
        Ok(frame) => write_frame(&frame, out).is_ok(),
        Err(_) => false,
    }
}

/// The frame of these bytes is written as it was.
fn is_written_again(rt: &impl Abort, alloc: Global, bytes: &[u8]) {
    let mut out = Vec::new(alloc);
    is!(rt; write_again(bytes, &mut out), true);
    is!(rt; out.as_slice(), bytes);
}

#[test]
fn frames_written_again(rt: HostRuntime) {
    is_written_again(&rt, rt.alloc(), &CONFIG_11);
    is_written_again(&rt, rt.alloc(), &DATA_11);
    is_written_again(&rt, rt.alloc(), &DATA_ON);
}

/// Whether the configuration of these bytes was read and written.
pub fn write_config_again<B: Buffer>(bytes: &[u8], out: &mut B) -> bool {
    let Ok(frame) = read_frame(bytes) else {
        return false;
    };
    match read_config(&frame) {
        Ok(config) => write_config(&config, Kind::Cfg2, frame.id, frame.soc, out).is_ok(),
        Err(_) => false,
    }
}

/// A configuration, read and written again byte for byte, behind what stands in `out` already.
#[test]
fn configuration_written_again(rt: HostRuntime) -> Result<(), Fail> {
    let mut out = vec![in rt.alloc(); 7u8]?;
    is!(&rt; write_config_again(&CONFIG_11, &mut out), true);
    is!(&rt; out.split_first(), Some((&7, CONFIG_11.as_slice())));
    Ok(())
}

/// The same into bytes whose room is fixed.
#[test]
fn configuration_written_where_the_room_is_fixed(rt: HostRuntime) {
    let mut out = ArrayVec::<u8, 74>::new();
    is!(&rt; write_config_again(&CONFIG_11, &mut out), true);
    is!(&rt; out.as_slice(), CONFIG_11.as_slice());
}

/// Whether the words of this payload were cut and joined.
fn join_again<B: Buffer>(payload: &[u8], out: &mut B) -> bool {
    match cut(&[ONE_PHASOR], payload) {
        Ok(blocks) => join(blocks.as_slice(), out).is_ok(),
        Err(_) => false,
    }
}

/// The words of a data frame, joined again.
#[test]
fn payload_written_again(rt: HostRuntime) {
    let payload = &DATA_11[14..24];
    let mut out = Vec::new(rt.alloc());
    is!(&rt; join_again(payload, &mut out), true);
    is!(&rt; out.as_slice(), payload);
    is!(&rt; join_again(payload, &mut ArrayVec::<u8, 9>::new()), false);
}
