//! Blocks, read from the payload of a data frame.
ghost use Rattle.std.specs.Prelude.{◌≡◌, ◌*◌, ◌≤◌, ℕ, List, IfOk, IfErr, IsOkAnd, length, map};
ghost use Rattle.std.specs.Prelude.{sum_by};
ghost use Rattle.pdc_block.specs.Block.{IsBody, IsCut, words_of, shape_of, body_len_of};

use crate::block::Block;
use crate::fault::BodyFault;
use crate::in_place::new_words;
use arrayvec::ArrayVec;
use pdc_cfg::{MAX_SECTIONS, Shape, parts_keep_their_words, words_are_their_bytes};

/// The block that the bytes are, where there are as many as the shape takes.
fn body_of(shape: Shape, bytes: &[u8]) -> Block
    requires { length bytes.now ≡ body_len_of shape }
    ensures shape { shape_of result ≡ shape }
    ensures found { IsBody shape bytes.now (words_of result) }
{
    words_are_their_bytes();
    let words = new_words(shape.word_count(), bytes);
    Block { shape, words }
}

/// The block of this shape that the bytes are. It takes no memory.
///
/// # Errors
///
/// `WrongLength` where no block of this shape has these bytes.
pub fn read_body(shape: Shape, bytes: &[u8]) -> Result<Block, BodyFault>
    ensures shape { IfOk result (λ block. shape_of block ≡ shape) }
    // What is read is spelled so.
    ensures found { IfOk result (λ block. IsBody shape bytes.now (words_of block)) }
    // What is spelled so is read, with these words.
    ensures only { (words : List ℕ) → IsBody shape bytes.now words →
        IsOkAnd result (λ block. words_of block ≡ words) }
    // Else nothing is spelled so.
    ensures refused { IfErr result (λ _. (words : List ℕ) → IsBody shape bytes.now words → ⊥) }
{
    words_are_their_bytes();
    if bytes.len() != 2 * shape.word_count() {
        return Err(BodyFault::WrongLength);
    }
    Ok(body_of(shape, bytes))
}

/// The bytes that blocks of these shapes take, one after the other.
fn payload_len(shapes: &[Shape]) -> usize
    requires { length shapes.now ≤ MAX_SECTIONS }
    ensures { result ≡ sum_by body_len_of shapes.now }
{
    let mut len = 0;
    for shape in shapes {
        len += 2 * shape.word_count();
    }
    len
}

/// The blocks of these shapes that the payload is, all of it, in the order of the shapes. It takes no memory.
///
/// # Errors
///
/// `WrongLength` where no blocks of these shapes have these bytes.
pub fn cut(shapes: &[Shape], payload: &[u8]) -> Result<ArrayVec<Block, MAX_SECTIONS>, BodyFault>
    requires { length shapes.now ≤ MAX_SECTIONS }
    ensures shapes { IfOk result (λ blocks. map shape_of blocks.items ≡ shapes.now) }
    // What is read is spelled so.
    ensures found { IfOk result (λ blocks. IsCut shapes.now payload.now
        (map words_of blocks.items)) }
    // What is spelled so is read, with these words.
    ensures only { (blocks : List (List ℕ)) → IsCut shapes.now payload.now blocks
        → IsOkAnd result (λ found. map words_of found.items ≡ blocks) }
    // Else nothing is spelled so.
    ensures refused { IfErr result (λ _. (blocks : List (List ℕ)) →
        IsCut shapes.now payload.now blocks → ⊥) }
{
    words_are_their_bytes();
    parts_keep_their_words();
    if payload.len() != payload_len(shapes) {
        return Err(BodyFault::WrongLength);
    }
    let mut blocks = ArrayVec::new();
    let mut place = 0;
    for shape in shapes {
        let end = place + 2 * shape.word_count();
        blocks.push(body_of(*shape, &payload[place..end]));
        place = end;
    }
    Ok(blocks)
}
