//! Data of a node whose check word is not computed yet.
ghost use Rattle.std.specs.Prelude.{◌≡◌, ◌<◌, IfSome};
ghost use Rattle.pdc_life.specs.CoreKind.{OfMerger, Says};
ghost use Rattle.pdc_life.specs.MergerReading.{ReadsFrom};
ghost use Rattle.pdc_arrival.specs.Claimed.{claimed_view};
ghost use Rattle.pdc_arrival.specs.declared.from_node.TheConstants.{NODES};

use crate::from_node::node_of;
use pdc_life::{Kind, LentClaim, MergedNode, MergerSettings, instant, read_claimed};

/// Data of a node, if the check word of its frame is right; else bytes that are refused for it.
#[derive(Clone, Copy, Debug)]
pub struct ClaimedData<'a> {
    /// The instant of its tag.
    pub instant: u64,
    /// Its time quality byte.
    pub quality: u8,
    /// What stands between FRACSEC and CHK.
    pub payload: &'a [u8],
    /// What tells whether the check word is right.
    pub claim: LentClaim<'a>,
}

/// What bytes say that arrived for the stream with this number, where they are data of its node, if the check word is right. It is not computed
/// here; other bytes say nothing here, and are to be read with it. It takes no memory.
#[inline]
pub fn claim_from_node<'a>(
    settings: &MergerSettings,
    stream: usize,
    bytes: &'a [u8],
) -> Option<ClaimedData<'a>>
    requires { stream < NODES }
    ensures { IfSome result (λ claimed. Says (OfMerger settings.now) stream bytes.now
        (claimed_view claimed)) }
{
    claim_of(settings, node_of(settings, stream), bytes)
}

/// What they say, where they came from this node.
#[inline(always)]
fn claim_of<'a>(
    settings: &MergerSettings,
    node: &MergedNode,
    bytes: &'a [u8],
) -> Option<ClaimedData<'a>>
    ensures { IfSome result (λ claimed. ReadsFrom settings.now node.now bytes.now
        (claimed_view claimed)) }
{
    let (frame, claim) = read_claimed(bytes)?;
    if frame.id.value != node.id.value {
        return None;
    }
    let Kind::DataFrame = frame.kind else {
        return None;
    };
    let rate = u32::from(settings.output.rate);
    let instant = instant(frame.soc, frame.frac, node.time_base, rate)?;
    Some(ClaimedData {
        instant,
        quality: frame.quality,
        payload: frame.payload,
        claim,
    })
}
