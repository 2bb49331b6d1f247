//! The blocks of a script, each by its name.
use pdc_block::Block;
use pdc_cfg::Shape;

/// The shape of the columns: one phasor.
pub const ONE_PHASOR: Shape = Shape {
    phasors: 1,
    analogs: 0,
    digitals: 0,
};

/// A shape with as many words: two analog values.
const TWO_ANALOGS: Shape = Shape {
    phasors: 0,
    analogs: 2,
    digitals: 0,
};

/// The words of a data frame of the PMU with one phasor; the same with another phasor, and in test mode; and the words of a PMU
/// that is absent.
const SENT: [u16; 5] = [0x0000, 0x392B, 0x0000, 0x09C4, 0x0000];

const OTHER: [u16; 5] = [0x0000, 0x392C, 0x0000, 0x09C4, 0x0000];

const TEST: [u16; 5] = [0x8000, 0x392B, 0x0000, 0x09C4, 0x0000];

const ABSENT: [u16; 5] = [0xA1F0, 0x8000, 0x8000, 0x8000, 0x8000];

/// The blocks of one phasor, each by its name. `analogs` is the words of `sent` as those of two analog values.
const NAMED: [(&str, [u16; 5]); 4] = [
    ("sent", SENT),
    ("other", OTHER),
    ("test", TEST),
    ("absent", ABSENT),
];

/// The block of the name.
pub fn named(name: &str) -> Option<Block> {
    match name {
        "sent" => Some(Block::from_words(ONE_PHASOR, &SENT)),
        "other" => Some(Block::from_words(ONE_PHASOR, &OTHER)),
        "test" => Some(Block::from_words(ONE_PHASOR, &TEST)),
        "absent" => Some(Block::from_words(ONE_PHASOR, &ABSENT)),
        "analogs" => Some(Block::from_words(TWO_ANALOGS, &SENT)),
        _ => None,
    }
}

/// The name of the block, or `unknown`.
pub fn name_of(block: &Block) -> &'static str {
    for (name, words) in NAMED {
        if block.shape == ONE_PHASOR && block.words() == words.as_slice() {
            return name;
        }
    }
    "unknown"
}
