//! Blocks that data gave.
ghost use Rattle.std.specs.Prelude.{◌≡◌};
ghost use Rattle.pdc_row.specs.CellView.{block_view};

use pdc_block::Block;

/// The same block again. It takes no memory.
pub fn copy_of(block: &Block) -> Block
    ensures { block_view result ≡ block_view block.now }
{
    Block::from_words(block.shape, block.words())
}
