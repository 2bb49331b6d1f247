//! Whether a frame is right whose blocks may be those of a row.
ghost use Rattle.std.specs.Prelude.{◌≡◌, ◌++◌, IfSome, drop, length, true};
ghost use Rattle.pdc_row.specs.KeptBlocks.{blocks_in, shapes_of};
ghost use Rattle.pdc_row.specs.pdc_frame.CheckWord.{check_word_of};
ghost use Rattle.pdc_row.specs.pdc_frame.Claim.{claim_of, is_right};
ghost use Rattle.pdc_row.specs.declared.row_frame.TheConstants.{OWN_BLOCK_LEN};

use crate::RowBlocks;
use crate::row_frame::OWN_BLOCK_LEN;
use pdc_block::{FrontDifference, HEADER_LEN, LentClaim};

/// What a look at a frame beside the blocks of a row found.
#[derive(Clone, Copy, Debug, PartialEq, Eq)]
pub struct Beside {
    /// Whether the check word of the frame is right.
    pub is_right: bool,
    /// Whether it was seen that its blocks are those of the row.
    pub is_same: bool,
}

/// Whether the check word of a frame is right, with this payload, and whether its blocks, behind an own block, are those of a row. Where they
/// are, and it is known in which frame those came, it follows from the check word of that frame, and from what the fronts of both differ in:
/// `difference` is kept from frame to frame. Else it is computed.
#[inline(always)]
pub fn check_beside(
    claim: &LentClaim<'_>,
    payload: &[u8],
    blocks: &RowBlocks,
    difference: &mut FrontDifference,
) -> Beside
    ensures right { result.is_right ≡ is_right (claim_of claim.now) payload.now }
    ensures same { result.is_same ≡ true →
        blocks_in (shapes_of blocks.now) (drop OWN_BLOCK_LEN payload.now) ≡ blocks.now }
{
    match check_of_same(claim.header, payload, blocks, difference) {
        Some(check) => Beside {
            is_right: check == claim.check(),
            is_same: true,
        },
        None => Beside {
            is_right: claim.is_right(payload),
            is_same: false,
        },
    }
}

/// The check word of a header and a payload, where its blocks are those of a row, and it is known in which frame those came.
#[inline(always)]
fn check_of_same(
    header: &[u8; HEADER_LEN],
    payload: &[u8],
    blocks: &RowBlocks,
    difference: &mut FrontDifference,
) -> Option<u16>
    ensures check { IfSome result (λ check. check ≡ check_word_of (header.now ++ payload.now)) }
    ensures same { IfSome result (λ _.
        blocks_in (shapes_of blocks.now) (drop OWN_BLOCK_LEN payload.now) ≡ blocks.now) }
{
    let known = blocks.sent()?;
    let own = payload.first_chunk::<OWN_BLOCK_LEN>()?;
    let rest = &payload[OWN_BLOCK_LEN..];
    if !blocks.has_bytes(rest) {
        return None;
    }
    Some(difference.check_behind_parts(known, header, own, rest))
}
