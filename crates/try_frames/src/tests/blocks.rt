//! Blocks of worked frames.

use super::same::is;
use pdc_block::{BodyFault, cut, read_body};
use pdc_cfg::{MAX_SECTIONS, Shape};
use std::process::Abort;

const ONE_PHASOR: Shape = Shape {
    phasors: 1,
    analogs: 0,
    digitals: 0,
};

/// Data of PMU 11: phasor 14635, 0 and FREQ 2500 mHz above nominal.
const BODY_11: [u8; 10] = [0x00, 0x00, 0x39, 0x2B, 0x00, 0x00, 0x09, 0xC4, 0x00, 0x00];

const WORDS_11: [u16; 5] = [0, 14635, 0, 2500, 0];

#[test]
fn one_body(rt: HostRuntime) {
    let block = read_body(ONE_PHASOR, &BODY_11).expect(&rt, "a block");
    is!(&rt; block.words(), WORDS_11.as_slice());
    is!(&rt; block.shape, ONE_PHASOR);
    is!(&rt; block.clone().expect(&rt, "a block").words(), WORDS_11.as_slice());
    for len in 0..10 {
        is!(&rt; read_body(ONE_PHASOR, &BODY_11[..len]).err(), Some(BodyFault::WrongLength));
    }
}

/// Two blocks, of five words and of three.
const TWO_BLOCKS: [u8; 16] = [
    0x00, 0x00, 0x39, 0x2B, 0x00, 0x00, 0x09, 0xC4, 0x00, 0x00, 0xA1, 0xF0, 0x80, 0x00, 0x7F, 0xFF,
];

/// The words of each block into which the shapes cut the payload.
fn are_cut(rt: &impl Abort, shapes: &[Shape], payload: &[u8], wanted: &[&[u16]]) {
    assert!(rt; shapes.len() <= MAX_SECTIONS);
    let blocks = cut(shapes, payload).expect(rt, "the shapes cut it");
    is!(rt; blocks.len(), wanted.len());
    for (block, words) in blocks.iter().zip(wanted) {
        is!(rt; block.words(), *words);
    }
}

#[test]
fn two_blocks(rt: HostRuntime) {
    let later = [0xA1F0, 0x8000, 0x7FFF];
    are_cut(
        &rt,
        &[ONE_PHASOR, Shape::default()],
        &TWO_BLOCKS,
        &[WORDS_11.as_slice(), later.as_slice()],
    );
    let (first, second) = ([0, 14635, 0], [2500, 0, 0xA1F0, 0x8000, 0x7FFF]);
    are_cut(
        &rt,
        &[Shape::default(), ONE_PHASOR],
        &TWO_BLOCKS,
        &[first.as_slice(), second.as_slice()],
    );
    are_cut(&rt, &[], &[], &[]);
}

#[test]
fn payloads_of_another_length(rt: HostRuntime) {
    is!(&rt; cut(&[ONE_PHASOR], &TWO_BLOCKS).err(), Some(BodyFault::WrongLength));
    is!(&rt; cut(&[], &TWO_BLOCKS).err(), Some(BodyFault::WrongLength));
}
