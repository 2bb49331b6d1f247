//! The system's call that receives a datagram.
ghost use Rattle.std.specs.Prelude.{◌≡◌, ◌≤◌, ◌++◌, ◌∷◌, IfOk, List, [], length};
ghost use Rattle.pdc_network.specs.Received.{Received, is_wait, received_by};

use std::io;
use std::io::ErrorKind;
use std::net::SocketAddr;

/// A port to which datagrams come. It may tell its calls: where `received port calls`, they were exactly these, in order, with what each
/// answered. One that tells nothing, as the system's socket, says that of any.
pub trait Receive {
    ghost received: { Self → List Received → Type 0 };

    /// Waits for the next datagram, and writes it to the front of the buffer. Answers how many bytes it has there, and its sender. What
    /// does not fit is lost.
    ///
    /// # Errors
    ///
    /// Where none came in time, and where the device failed.
    fn receive_datagram(&mut self, buffer: &mut [u8]) -> io::Result<(usize, SocketAddr)>
        ensures kept { length buffer.new ≡ length buffer.old }
        ensures inside { IfOk result (λ came. came.0 ≤ length buffer.new) }
        ensures tells { (calls : List Received) → received self.old calls →
            received self.new (calls ++ received_by result buffer.new ∷ []) };

    /// Sends the bytes from the port as one datagram, and answers whether they went out whole.
    fn reply(&self, bytes: &[u8], to: SocketAddr) -> bool;

    /// How many bytes of datagrams wait that were not received yet, at most, where the system tells it.
    fn buffer(&self) -> Option<u32>;
}

/// Whether the wait for bytes ended, and the device did not fail.
pub(crate) fn is_idle(kind: ErrorKind) -> bool
    ensures { result ≡ is_wait kind }
{
    matches!(
        kind,
        ErrorKind::WouldBlock | ErrorKind::TimedOut | ErrorKind::Interrupted
    )
}
