//! Laws of sessions: each is the contract of a function that does nothing but call the laws that it stands on.
ghost use Rattle.pdc_session.specs.Served.{MemoryCutsShort, PiecesAreTheStream};
ghost use Rattle.pdc_session.specs.Served.{StreamsAreAnsweredInOneWay};

use pdc_frame::{
    commands_are_read_in_one_way, frames_are_read_in_one_way, streams_split_in_one_way,
};

/// For every way to cut a stream into pieces, a new session that is fed them with [`feed`](crate::Session::feed) has the stream's
/// commands answered, in order, up to the first fault of the stream or the first want of memory; so two ways to cut it give the
/// same replies.
pub fn pieces_do_not_matter()
    ensures stream { PiecesAreTheStream }
    ensures same { StreamsAreAnsweredInOneWay }
    ensures memory { MemoryCutsShort }
{
    commands_are_read_in_one_way();
    frames_are_read_in_one_way();
    streams_split_in_one_way();
}
