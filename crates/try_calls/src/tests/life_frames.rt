//! Worked frames of node 201, byte for byte.

ghost use Rattle.std.specs.Prelude.{◌≡◌, ◌≤◌, length};

use super::same::is;
use super::vectors::{BOTH, ONE_ABSENT, OWN_END, OWN_HEAD, SECTIONS};
use arrayvec::ArrayVec;
use pdc_block::Block;
use pdc_cfg::{SectionView, Shape, read_config};
use pdc_frame::{Frame, Kind, StreamId, read_frame};
use pdc_row::{
    DueRow, MAX_PMUS, Nominal, Output, RowBlocks, append_layout, append_row, own_section,
};
use std::process::Abort;

const ONE_PHASOR: Shape = Shape {
    phasors: 1,
    analogs: 0,
    digitals: 0,
};

/// Data of PMU 11: phasor 14635, 0 and FREQ 2500 mHz above nominal.
const WORDS_11: [u16; 5] = [0x0000, 0x392B, 0x0000, 0x09C4, 0x0000];

/// Data of PMU 12: phasor 5000, -5000 and FREQ 2 mHz below nominal.
const WORDS_12: [u16; 5] = [0x0000, 0x1388, 0xEC78, 0xFFFE, 0x0000];

const ABSENT: [u16; 5] = [0xA1F0, 0x8000, 0x8000, 0x8000, 0x8000];

/// Node 201: 50 Hz, 50 frames a second and TIME_BASE 1000000.
const NODE_201: Output = Output {
    id: StreamId { value: 201 },
    rate: 50,
    nominal: Nominal::Hz50,
    time_base: 1_000_000,
};

/// The row of 57478860001 with the stamp (1, 1), and these words in its blocks.
fn row(first: [u16; 5], second: [u16; 5]) -> DueRow
    ensures { result.instant ≡ 57478860001 }
{
    let mut blocks: ArrayVec<Block, 2> = ArrayVec::new();
    blocks.push(Block::from_words(ONE_PHASOR, &first));
    blocks.push(Block::from_words(ONE_PHASOR, &second));
    DueRow {
        instant: 57_478_860_001,
        start: 1,
        change: 1,
        quality: 0,
        blocks: RowBlocks::from_blocks(blocks.as_slice()),
    }
}

#[test]
fn rows_on_the_wire(rt: HostRuntime) {
    let mut out = Vec::from_slice(rt.alloc(), &[7]).expect(&rt, "memory");
    append_row(&NODE_201, &row(WORDS_11, WORDS_12), &mut out).expect(&rt, "memory");
    is!(&rt; out.split_first(), Some((&7, BOTH.as_slice())));

    let mut out = ArrayVec::<u8, 50>::new();
    append_row(&NODE_201, &row(WORDS_11, ABSENT), &mut out).expect(&rt, "room");
    is!(&rt; out.as_slice(), ONE_ABSENT.as_slice());
}

/// The bytes are those of this own section: the head, spaces and the end.
fn is_own_section(rt: &impl Abort, bytes: &[u8]) {
    is!(rt; bytes.len(), 1070);
    is!(rt; bytes.get(..26), Some(OWN_HEAD.as_slice()));
    is!(rt; bytes.get(26..1050), Some([b' '; 1024].as_slice()));
    is!(rt; bytes.get(1050..), Some(OWN_END.as_slice()));
}

#[test]
fn own_section_of_node_201(rt: HostRuntime) {
    let section = own_section(&NODE_201, 1, 65538);
    is_own_section(&rt, section.bytes.as_slice());
    is!(&rt; (section.source, section.count, section.polar), (201, 2, false));
    is!(&rt; section.shape.section_len(), 1070);
}

/// The layout of node 201 with these sections, of this stamp and second.
fn layout(
    rt: &(impl Abort + AllocGlobal),
    change: u32,
    sections: &[SectionView],
    soc: u32,
) -> Vec<u8>
    requires { length sections.now ≤ MAX_PMUS }
{
    let mut out = Vec::new(rt.alloc());
    append_layout(&NODE_201, 1, change, sections, soc, &mut out).expect(rt, "memory");
    out
}

#[test]
fn layout_of_no_pmu(rt: HostRuntime) {
    let out = layout(&rt, 65538, &[], 1_149_577_200);
    is!(&rt; out.len(), 1094);
    let frame = read_frame(&out).expect(&rt, "a frame");
    is!(&rt; (frame.kind, frame.version, frame.id.value), (Kind::Cfg2, 2, 201));
    is!(&rt; (frame.soc, frame.quality, frame.frac), (1_149_577_200, 0, 0));
    let config = read_config(&frame).expect(&rt, "a configuration");
    is!(&rt; config.sections.len(), 1);
    let own = config.sections.as_slice()[0];
    is!(&rt; own.count, 2);
}

/// The layout of these sections of two PMUs has them behind the own one.
fn has_both(rt: &impl Abort, layout: &[u8]) {
    let frame = read_frame(layout).expect(rt, "a frame");
    let config = read_config(&frame).expect(rt, "a configuration");
    is!(rt; (config.flags, config.time_base, config.rate), (0, 1_000_000, 50));
    let [own, one, two] = config.sections.as_slice() else {
        panic!(rt; "there are three sections");
    };
    is!(rt; (own.source, own.count), (201, 1));
    is!(rt; one.bytes, &SECTIONS[6..56]);
    is!(rt; two.bytes, &SECTIONS[56..106]);
}

#[test]
fn layout_of_two_pmus(rt: HostRuntime) {
    let frame = Frame {
        kind: Kind::Cfg2,
        version: 2,
        id: StreamId { value: 1 },
        soc: 0,
        quality: 0,
        frac: 0,
        payload: &SECTIONS,
    };
    let Ok(sent) = read_config(&frame) else {
        panic!(&rt; "a configuration");
    };
    is!(&rt; sent.sections.len(), 2);
    let out = layout(&rt, 1, sent.sections.as_slice(), 0);
    is!(&rt; out.len(), 1194);
    has_both(&rt, &out);
}
