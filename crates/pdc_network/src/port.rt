//! Frames at a UDP port.
ghost use Rattle.std.specs.Prelude.{◌≡◌, ◌≤◌, ◌<◌, ◌++◌, ◌∷◌, ℕ, List, [], length};
ghost use Rattle.pdc_ports.specs.Heard.{Heard, heard_by};

use crate::inquiry::{Inquiry, PATIENCE};
use crate::receive::Receive;
use crate::udp_source::UdpSource;
use pdc_frame::{Command, StreamId};
use pdc_journal::{Moment, Tally};
use pdc_ports::{Next, Outcome, Source};
use pdc_session::command_frame;
use std::net::{SocketAddr, UdpSocket};
use std::rt::Clock;

/// The frames that come to a UDP port. Where its sender is to be asked, it is told by commands from this port to send its configuration
/// and its data: at the begin, and again after each five seconds in which no data came, or none was taken for want of a configuration; and where
/// STAT says that the configuration changes, or data is refused by its length for a second.
#[derive(Drop)]
pub struct Port<'a, R: Clock, S: Receive + Drop = UdpSocket> {
    rt: &'a R,
    tally: &'a Tally,
    source: UdpSource<S>,
    id: StreamId,
    /// Where the commands go; where there is none, it is not asked for.
    commands: Option<SocketAddr>,
    /// Since when it was asked for, or came last; where there is none, it was not asked for yet.
    asked: Option<Moment>,
    inquiry: Inquiry,
}

impl<'a, R: Clock, S: Receive + Drop> Port<'a, R, S> {
    ghost use Rattle.pdc_network.specs.Linked.{IsFreshPort, IsHeardAt, socket_of, source_at};

    /// The frames of the stream `id` at this port, with what counts for it, and where its sender takes commands, if it is asked.
    pub fn new(
        rt: &'a R,
        tally: &'a Tally,
        source: UdpSource<S>,
        id: StreamId,
        commands: Option<SocketAddr>,
    ) -> Port<'a, R, S>
        ensures source { source_at result ≡ source }
        ensures fresh { S.received (socket_of source) [] → IsFreshPort S.received result }
        ensures tells { (heard : List Heard) → ⟦<UdpSource<S> as Source>⟧.told source heard →
            IsHeardAt S.received result heard }
    {
        Port {
            rt,
            tally,
            source,
            id,
            commands,
            asked: None,
            inquiry: Inquiry::new(),
        }
    }

    /// Whether it is to be asked for again.
    fn is_due(&self) -> bool {
        Moment::is_long_ago(self.asked, PATIENCE, Moment::now(self.rt))
    }

    /// Tells the sender to send its configuration, and its data.
    fn ask(&mut self, to: SocketAddr)
        ensures { self.new.source ≡ self.old.source }
    {
        let (config, data) = (
            command_frame(self.id, Command::SendCfg2),
            command_frame(self.id, Command::DataOn),
        );
        let _sent = self.source.send(config.as_slice(), to);
        let _sent = self.source.send(data.as_slice(), to);
        self.asked = Some(Moment::now(self.rt));
        self.inquiry.note(Moment::now(self.rt));
    }

    /// What comes next.
    pub fn next(&mut self, buffer: &mut [u8]) -> Next
        ensures kept { length buffer.new ≡ length buffer.old }
        ensures datagram { (n : ℕ) → result ≡ Next.Datagram n → n ≤ length buffer.new }
        ensures tells { (heard : List Heard) → IsHeardAt S.received self.old heard →
            IsHeardAt S.received self.new (heard ++ heard_by result buffer.new ∷ []) }
    {
        let next = self.source.next(buffer);
        if let Some(to) = self.commands {
            match next {
                Next::Datagram(len) => {
                    if self.inquiry.is_called_for_by(&buffer[..len]) {
                        self.ask(to);
                    }
                }
                _ => {
                    if self.is_due() {
                        self.ask(to);
                    }
                }
            }
        }
        if self.source.strangers() > 0 {
            self.tally.set_strangers(self.source.strangers());
        }
        next
    }

    /// Takes how its last datagram was answered.
    pub fn answered(&mut self, outcome: Option<Outcome>)
        ensures tells { (heard : List Heard) → IsHeardAt S.received self.old heard →
            IsHeardAt S.received self.new heard }
    {
        let Some(to) = self.commands else {
            return;
        };
        self.asked = Some(Moment::now(self.rt));
        if let Some(outcome) = outcome {
            if self.inquiry.is_called_for(Moment::now(self.rt), outcome) {
                self.ask(to);
            }
        }
    }

    /// How many bytes its buffer has, where the system tells it.
    pub fn buffer(&self) -> Option<u32> {
        self.source.buffer()
    }

    /// Tells the sender, where it was asked, to send no more.
    pub fn end(&self) {
        if let Some(to) = self.commands {
            let frame = command_frame(self.id, Command::DataOff);
            let _sent = self.source.send(frame.as_slice(), to);
        }
    }
}
