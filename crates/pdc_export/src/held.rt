//! What is kept of a configuration, to write data by it.

use pdc_block::{Block, Body, BodyFault, absent};
use pdc_cfg::ConfigView;
use pdc_frame::StreamId;
use pdc_values::Template;
use std::alloc::{AllocError, Global};

/// What is kept of the CFG-2 frame that was read last.
#[derive(Drop)]
pub struct Held {
    /// The stream's id.
    pub id: StreamId,
    /// The counts of FRACSEC in a second.
    pub time_base: u32,
    /// The bytes of the configuration.
    pub payload: Vec<u8>,
    /// A block for each of its sections, in order: those of the data frame that was read last.
    pub blocks: Vec<Block>,
    /// The words of the block that was read last.
    pub words: Vec<u16>,
    /// What is written of a block of each section.
    pub templates: Vec<Template>,
}

/// A block for each section of a configuration, in order.
///
/// # Errors
///
/// [`AllocError`] where there is no room and none is got.
pub fn blocks_for(alloc: Global, config: &ConfigView) -> Result<Vec<Block>, AllocError> {
    let mut blocks = Vec::new(alloc);
    for section in config.sections.as_slice() {
        blocks.push(absent(section.shape)).map_err(|_| AllocError)?;
    }
    Ok(blocks)
}

/// Makes this the block that the bytes are.
fn read_block(block: &mut Block, words: &mut Vec<u16>, body: &Body) -> Result<(), AllocError> {
    words.resize(body.shape.word_count(), 0)?;
    body.write_words(words.as_mut_slice());
    *block = Block::from_words(body.shape, words.as_slice());
    Ok(())
}

/// Reads the blocks that a payload is over others of their shapes, in place. Where it is none such, what they then are is not said.
///
/// # Errors
///
/// [`AllocError`] where there is no room and none is got.
pub fn read_blocks(
    blocks: &mut [Block],
    words: &mut Vec<u16>,
    payload: &[u8],
) -> Result<Result<(), BodyFault>, AllocError> {
    let mut rest = payload;
    for block in blocks {
        let shape = block.shape;
        let Some((bytes, behind)) = rest.split_at_checked(2 * shape.word_count()) else {
            return Ok(Err(BodyFault::WrongLength));
        };
        match Body::new(shape, bytes) {
            Ok(body) => read_block(block, words, &body)?,
            Err(fault) => return Ok(Err(fault)),
        }
        rest = behind;
    }
    if rest.is_empty() {
        Ok(Ok(()))
    } else {
        Ok(Err(BodyFault::WrongLength))
    }
}
