//! Laws of every history: each is the contract of a function that does nothing but call the laws that it stands on.
ghost use Rattle.pdc_history.specs.Asked.{AskedIsReadOnce, CausesAreOne, FaultsMayNotHappen};
ghost use Rattle.pdc_history.specs.Asked.{SentMayCome};
ghost use Rattle.pdc_history.specs.Genuine.{FramesAgree, HeldLayoutsWereSent, LayoutsAreOne};
ghost use Rattle.pdc_history.specs.Genuine.{MergedBlocksAreGenuine, NodeBlocksAreGenuine};
ghost use Rattle.pdc_history.specs.Genuine.{PublishedAgree, PublishedWereSent};
ghost use Rattle.pdc_history.specs.History.{EventsMakeHistories};
ghost use Rattle.pdc_history.specs.Lives.{LivesAreLives, PublishedRowsAreThose, RowsAreOfLives};
ghost use Rattle.pdc_history.specs.Marks.{AdoptedCountsNeverFall, InstantsRise, MarksBound};
ghost use Rattle.pdc_history.specs.Marks.{WaitingIsWhole};
ghost use Rattle.pdc_history.specs.Play.{PlaysAreHistories, PlaysAreOne, StepsAreOne};
ghost use Rattle.pdc_history.specs.Pmus.{PmusSendOneBody, PmusSendOneSection, PmusSendTheirOwn};
ghost use Rattle.pdc_history.specs.Seen.{OfHistories};

use crate::known::{blocks_are_known, frames_are_known, lives_are_known};
use pdc_life::bytes_are_read_in_one_way;

/// What a world is asked reads as one event, or is a fault for one cause; never both, where the event may happen. A frame that was
/// sent may always come.
pub fn asked_is_event_or_fault()
    ensures one_event { AskedIsReadOnce }
    ensures one_cause { CausesAreOne }
    ensures apart { FaultsMayNotHappen }
    ensures sent { SentMayCome }
{
    frames_are_known();
    bytes_are_read_in_one_way();
}

/// Events that may happen, each after those before it, make a history. So does what is asked, and there is one such history: what a
/// world is asked determines all that happens in it.
pub fn events_make_histories()
    ensures events { EventsMakeHistories }
    ensures asked { PlaysAreHistories }
    ensures one_step { StepsAreOne }
    ensures one_history { PlaysAreOne }
{
    frames_are_known();
    bytes_are_read_in_one_way();
}

/// In every history lives are lives, the present ones and those that ended; and what a core published are the rows that its lives
/// gave, each the row of its instant in the life of an earlier moment.
pub fn lives_are_lives()
    ensures lives { LivesAreLives }
    ensures rows { RowsAreOfLives }
    ensures moments { PublishedRowsAreThose }
{
    lives_are_known();
}

/// Marks bound what was published and adopted. So no life adopts a count below one that an earlier life of the same owner adopted.
pub fn marks_bound_lives()
    ensures bound { MarksBound }
    ensures counts { AdoptedCountsNeverFall }
{
    lives_are_known();
}

/// As many counts wait as a mark has: 16.
pub fn waiting_is_whole()
    ensures { WaitingIsWhole }
{}

/// Over all lives of one owner the instants published strictly rise.
pub fn instants_rise()
    ensures { InstantsRise }
{
    lives_are_known();
}

/// Frames of a PMU are sent by it alone; it sent one body for one instant, and one section under one count.
pub fn pmus_send_one()
    ensures own { PmusSendTheirOwn }
    ensures body { OfHistories PmusSendOneBody }
    ensures section { OfHistories PmusSendOneSection }
{
    lives_are_known();
    frames_are_known();
}

/// What a reader of the streams may rest on: what was published was sent, as data of the row's instant, and under a stamp there is
/// one layout, whatever restarts came between.
pub fn stamps_have_one_layout()
    ensures published { PublishedWereSent }
    ensures layouts { LayoutsAreOne }
{
    lives_are_known();
    frames_are_known();
}

/// Each section of a node's layouts is that of a valid configuration of its PMU that was sent; each data frame of a node that was
/// ever sent is cut, under the layout of its stamp, into the own block and blocks that are absent or were sent by that PMU for that
/// instant.
pub fn node_blocks_are_genuine()
    ensures { NodeBlocksAreGenuine }
{
    lives_are_known();
    frames_are_known();
    blocks_are_known();
}

/// The same of the merger, whatever its restarts and those of the nodes forgot: the layouts that it holds of the nodes are those under
/// their stamps.
pub fn merged_blocks_are_genuine()
    ensures held { HeldLayoutsWereSent }
    ensures genuine { MergedBlocksAreGenuine }
{
    lives_are_known();
    frames_are_known();
    blocks_are_known();
}

/// Any two frames for one instant that were sent, of a node or the merger and of whatever lives, agree on each PMU that is present in
/// both under one configuration count: the words are equal, and so are the sections, byte for byte. So do published frames.
pub fn frames_agree()
    ensures sent { OfHistories FramesAgree }
    ensures published { PublishedAgree }
{
    lives_are_known();
    frames_are_known();
    blocks_are_known();
}
