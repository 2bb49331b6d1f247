//! The blocks of data, and the own block of a node, which stands first and bears its stamp.
ghost use Rattle.std.specs.Prelude.{◌≡◌, ◌*◌, drop, length, nat_eq};
ghost use Rattle.std.specs.Cmp.Lexicographic.{pointwise};
ghost use Rattle.pdc_life.specs.pdc_block.Block.{words_in, words_of};
ghost use Rattle.pdc_life.specs.pdc_cfg.Shape.{word_count_of};
ghost use Rattle.pdc_life.specs.pdc_row.Layout.{stamp_words};
ghost use Rattle.pdc_life.specs.pdc_row.declared.row_frame.TheConstants.{OWN_BLOCK_LEN};

use crate::arrival::Stamp;
use pdc_life::{Block, Body, OWN_BLOCK_LEN, Shape, bodies_are_their_words, read_body};

/// The shape of the own block: the stamp is its digital words.
const OWN_SHAPE: Shape = Shape {
    phasors: 0,
    analogs: 0,
    digitals: 4,
};

/// The block of this shape that the bytes are. It takes no memory.
pub fn body(shape: Shape, bytes: &[u8]) -> Block
    requires { length bytes.now ≡ 2 * word_count_of shape }
    ensures shape { result.shape ≡ shape }
    ensures words { words_of result ≡ words_in bytes.now }
{
    bodies_are_their_words();
    read_body(shape, bytes).unwrap()
}

/// Whether the own block bears the stamp, behind STAT, FREQ and DFREQ.
pub fn bears(own: &[u8], stamp: Stamp) -> bool
    requires { length own.now ≡ OWN_BLOCK_LEN }
    ensures { result ≡ pointwise nat_eq (drop 3 (words_in own.now))
        (stamp_words stamp.start stamp.change) }
{
    let own = Body {
        shape: OWN_SHAPE,
        bytes: own,
    };
    [own.word(3), own.word(4), own.word(5), own.word(6)] == stamp.words()
}
