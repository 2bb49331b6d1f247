//! The aligner's end of the channel.
ghost use Rattle.std.specs.Prelude.{◌≡◌, [], false, true};
ghost use Rattle.crossbeam_channel.specs.Claims.{IsSeatAt, view};
ghost use Rattle.crossbeam_channel.specs.Ends.{sends_on};
ghost use Rattle.pdc_pipe.specs.Pipe.{log};

use crate::message::Message;
use crate::pipe::{Log, Sender};
use crate::spares::Spares;
use crossbeam_channel::Pass;

/// The aligner's end of the channel, with the pass by which it alone puts.
#[derive(Drop)]
pub struct Writer {
    /// The end.
    pub to: Sender,
    /// By which it puts.
    pub pass: Pass<Message, Log>,
    /// Where it takes the row that the next one is popped into.
    pub spares: Spares,
    pub ghost seated: { IsSeatAt (sends_on to) pass },
    pub ghost puts: { view pass ≡ log true false (view pass).closed (view pass).put [] },
}
