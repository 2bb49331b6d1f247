//! The largest configuration, and those a step beyond it.

use super::same::is;
use pdc_cfg::{CfgFault, SectionView, read_config};
use pdc_frame::{Frame, Kind, MAX_PAYLOAD, StreamId, read_frame};
use std::alloc::{AllocError, Global};
use std::process::Abort;

/// A configuration of one PMU, 11, whose names and factors are zeros: TIME_BASE 1000000, 50 frames a second, count 1.
fn payload(alloc: Global, format: u8, phasors: u8, rest: usize) -> Result<Vec<u8>, AllocError> {
    let mut bytes = Vec::from_slice(alloc, &[0x00, 0x0F, 0x42, 0x40, 0, 1])?;
    bytes.resize(22, 0)?;
    bytes.extend_from_slice(&[0, 11, 0, format, 0, phasors, 0, 32, 0, 8])?;
    bytes.resize(bytes.len().saturating_add(rest), 0)?;
    bytes.extend_from_slice(&[0, 1, 0, 1, 0, 50])?;
    Ok(bytes)
}

/// 16 bytes for each of 32 + 32 + 128 names, and 4 for each of 32 + 32 + 8 factors.
const LARGEST_REST: usize = 3360;

/// Its frame.
fn largest_frame(alloc: Global) -> Result<Vec<u8>, AllocError> {
    let payload = payload(alloc, 0, 32, LARGEST_REST)?;
    let mut bytes = Vec::from_slice(
        alloc,
        &[0xAA, 0x32, 0x0D, 0x56, 0, 11, 0, 0, 0, 0, 0, 0, 0, 0],
    )?;
    bytes.extend_from_slice(&payload)?;
    bytes.extend_from_slice(&[0x5E, 0x83])?;
    Ok(bytes)
}

/// Its section.
fn is_largest_section(rt: &impl Abort, view: &SectionView) {
    is!(rt; (view.source, view.count, view.polar), (11, 1, false));
    let shape = view.shape;
    is!(rt; (shape.phasors, shape.analogs, shape.digitals), (32, 32, 8));
    is!(rt; (shape.section_len(), shape.word_count()), (3390, 107));
}

/// The configuration of this frame.
fn is_largest(rt: &impl Abort, frame: &Frame) {
    let config = read_config(frame).expect(rt, "a configuration");
    is!(rt; (config.flags, config.time_base, config.rate), (0, 1_000_000, 50));
    is!(rt; config.sections.len(), 1);
    let section = config.sections.as_slice()[0].to_section();
    is_largest_section(rt, &section.view());
    is!(rt; section.clone().expect(rt, "memory").bytes.len(), 3390);
}

#[test]
fn largest_configuration(rt: HostRuntime) {
    let bytes = largest_frame(rt.alloc()).expect(&rt, "memory");
    is!(&rt; bytes.len(), 3414);
    is_largest(&rt, &read_frame(&bytes).expect(&rt, "a frame"));
}

/// The configuration is refused for this cause, if for any.
fn is_refused(
    rt: &(impl Abort + AllocGlobal),
    format: u8,
    phasors: u8,
    rest: usize,
    wanted: Option<CfgFault>,
) {
    let payload = payload(rt.alloc(), format, phasors, rest).expect(rt, "memory");
    assert!(rt; payload.len() <= MAX_PAYLOAD);
    let frame = Frame {
        kind: Kind::Cfg2,
        version: 2,
        id: StreamId { value: 11 },
        soc: 0,
        quality: 0,
        frac: 0,
        payload: &payload,
    };
    is!(rt; read_config(&frame).err(), wanted);
}

#[test]
fn a_step_beyond(rt: HostRuntime) {
    let wide = LARGEST_REST + 20;
    is_refused(&rt, 0, 32, LARGEST_REST, None);
    is_refused(&rt, 0, 33, wide, Some(CfgFault::TooMany));
    is_refused(&rt, 2, 32, LARGEST_REST, Some(CfgFault::FloatFormat));
    is_refused(&rt, 2, 33, wide, Some(CfgFault::TooMany));
    is_refused(&rt, 0, 32, LARGEST_REST - 1, Some(CfgFault::Cut));
    is_refused(&rt, 0, 32, LARGEST_REST + 1, Some(CfgFault::Cut));
}
