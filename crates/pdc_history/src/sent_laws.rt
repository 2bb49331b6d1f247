//! Laws of the frames of a history: each is the contract of a function that does nothing but call the laws that it stands on.
ghost use Rattle.pdc_history.specs.Histories.{NoneIsAdded, OneIsAdded, OthersSendNone};

use crate::laws::pmus_send_one;

/// In every history what a node or the merger sends is a frame of no PMU of the table: so there may be room for it, and
/// [`Sent::push_reserved`](crate::Sent::push_reserved) takes it.
pub fn others_send_frames_of_none()
    ensures { OthersSendNone }
{
    pmus_send_one();
}

/// The frames of a history are those before the last thing that happened, and behind them the one that it sent, if it sent one.
pub fn frames_follow_histories()
    ensures one { OneIsAdded }
    ensures none { NoneIsAdded }
{}
