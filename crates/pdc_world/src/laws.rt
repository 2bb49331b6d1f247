//! Laws of every world: each is the contract of a function that does nothing but call the laws that it stands on.
ghost use Rattle.std.specs.Prelude.{◌≡◌, List};
ghost use Rattle.std.specs.List.{AllByRecursion};
ghost use Rattle.pdc_world.specs.Agree.{PublishedAgree};
ghost use Rattle.pdc_world.specs.Frames.{LayoutsAreOne};
ghost use Rattle.pdc_world.specs.Published.{InstantsRise, RowsAreSentData};
ghost use Rattle.pdc_world.specs.Seen.{rows_of, seen_of};
ghost use Rattle.pdc_history.specs.Genuine.{FramesAgree, HasGenuineFrames, IsPublishedData};
ghost use Rattle.pdc_history.specs.Pmus.{PmusSendOneBody, PmusSendOneSection};
ghost use Rattle.pdc_history.specs.Lives.{IsRowAt};
ghost use Rattle.pdc_history.specs.World.{A, B, Happened, M, World as Fixed, published};
ghost use Rattle.pdc_world.specs.Holds.{Holds};

use crate::world::World;
use pdc_block::payloads_are_cut_in_one_way;
use pdc_cfg::configurations_are_read_in_one_way;
use pdc_frame::{instant_is_nearest, parts_keep_their_words};
use pdc_mark::Store;

/// Over all lives of one owner the instants of the rows in `published` strictly rise; and the frame of each row, the one with its number
/// among those that were sent, is data of its owner for its instant.
pub fn instants_rise<S: Store>(world: &World<S>)
    ensures rise { InstantsRise (rows_of world.now) }
    ensures sent { RowsAreSentData (seen_of world.now) (rows_of world.now) }
{
    world.holds_some_history();
    pdc_history::instants_rise();
    pdc_history::stamps_have_one_layout();
    instant_is_nearest();
}

/// A PMU sent one body for one instant, and one section under one count.
pub fn pmus_send_one<S: Store>(world: &World<S>)
    ensures body { PmusSendOneBody (seen_of world.now) }
    ensures section { PmusSendOneSection (seen_of world.now) }
{
    world.holds_some_history();
    pdc_history::pmus_send_one();
}

/// Under a stamp there is one layout, byte for byte, whatever restarts came between.
pub fn stamps_have_one_layout<S: Store>(world: &World<S>)
    ensures { LayoutsAreOne (seen_of world.now) }
{
    world.holds_some_history();
    pdc_history::stamps_have_one_layout();
}

/// Each section of a node's layouts is that of a valid configuration of its PMU that was sent; each data frame of a node that was ever
/// sent is cut, under the layout of its stamp, into the own block and blocks that are absent or were sent by that PMU for that instant;
/// and so is every cut of it.
pub fn node_blocks_are_genuine<S: Store>(world: &World<S>)
    ensures { HasGenuineFrames (seen_of world.now) A × HasGenuineFrames (seen_of world.now) B }
{
    world.holds_some_history();
    pdc_history::node_blocks_are_genuine();
    instant_is_nearest();
    parts_keep_their_words();
    configurations_are_read_in_one_way();
    payloads_are_cut_in_one_way();
}

/// The same of the merger.
pub fn merged_blocks_are_genuine<S: Store>(world: &World<S>)
    ensures { HasGenuineFrames (seen_of world.now) M }
{
    world.holds_some_history();
    pdc_history::merged_blocks_are_genuine();
    instant_is_nearest();
    parts_keep_their_words();
    configurations_are_read_in_one_way();
    payloads_are_cut_in_one_way();
}

/// Any two frames for one instant that were sent, of a node or the merger and of whatever lives, agree on each PMU that is present in
/// both under one configuration count: the words are equal, and so are the sections, byte for byte. So do the frames of published rows.
pub fn frames_agree<S: Store>(world: &World<S>)
    ensures sent { FramesAgree (seen_of world.now) }
    ensures published { PublishedAgree (seen_of world.now) (rows_of world.now) }
{
    world.holds_some_history();
    pdc_history::frames_agree();
}

/// In whichever history the world holds, the frame of each row that was published was sent, and is the row's; and a tick closed the row,
/// which shows at the place of each column the present block that its stream gave by then, since the column was adopted, and the absent one
/// where it gave none.
pub fn blocks_are_present_exactly_where_given<S: Store>(world: &World<S>)
    ensures sent { (W : Fixed) (H : List Happened) → Holds W H world.now →
        AllByRecursion (IsPublishedData W H) (published H) }
    ensures exact { (W : Fixed) (H : List Happened) → Holds W H world.now →
        AllByRecursion (IsRowAt W H) (published H) }
{
    pdc_history::stamps_have_one_layout();
    pdc_history::lives_are_lives();
}
