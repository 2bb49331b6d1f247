//! What a node published of one instant.
ghost use Rattle.std.specs.Prelude.{◌≡◌, ◌↔◌, All, IsTrue};
ghost use Rattle.pdc_watch.specs.Agreement.{Agrees, AllAgree};

/// A block that was present in a published frame.
#[derive(Drop)]
pub struct PresentBlock {
    /// The id of the data's source.
    pub source: u16,
    /// CFGCNT of its configuration.
    pub count: u16,
    /// The words of the block.
    pub words: Vec<u16>,
}

/// Whether the two have the same words, or are not of one PMU under one count.
fn agrees(first: &PresentBlock, second: &PresentBlock) -> bool
    ensures { IsTrue result ↔ Agrees first.now second.now }
{
    first.source != second.source
        || first.count != second.count
        || first.words.as_slice() == second.words.as_slice()
}

/// Whether a block agrees with each of these.
fn agrees_with_all(block: &PresentBlock, others: &[PresentBlock]) -> bool
    ensures { IsTrue result ↔ All (λ other. Agrees block.now other) others.now }
{
    others.iter().all(|other| agrees(block, other))
}

/// Whether all blocks that are present in both, of one PMU and under one count, have the same words.
pub fn all_agree(first: &[PresentBlock], second: &[PresentBlock]) -> bool
    ensures { IsTrue result ↔ AllAgree first.now second.now }
{
    first.iter().all(|block| agrees_with_all(block, second))
}
