//! The system's call that sends a datagram.
ghost use Rattle.std.specs.Prelude.{◌++◌, ◌∷◌, List, []};
ghost use Rattle.pdc_network.specs.Sent.{Sent};

use std::io;
use std::net::SocketAddr;

/// From where datagrams are sent. It may tell its calls: in `sent before now calls` they were exactly these, in order, from the one state to
/// the other, with what each was handed and answered. One that tells nothing, as the system's socket, says that of any.
pub trait SendTo {
    ghost sent: { Self → Self → List Sent → Type 0 };

    // From a state to itself there was no call.
    ghost sent_nothing: { (s : Self) → sent s s [] };

    /// Sends the bytes as one datagram, and answers how many of them the system took.
    ///
    /// # Errors
    ///
    /// The system's reason for which it took none.
    fn send_datagram(&mut self, bytes: &[u8], to: SocketAddr) -> io::Result<usize>
        ensures tells { (before : Self) (calls : List Sent) → sent before self.old calls →
            sent before self.new (calls ++ record { to = to; bytes = bytes.now; answer = result } ∷
            []) };
}
