//! The system's call that makes a connection.
ghost use Rattle.std.specs.Prelude.{◌++◌, ◌∷◌, List, []};
ghost use Rattle.pdc_network.specs.Dialed.{Dialed};

use std::io;
use std::io::{Read, Write};
use std::net::SocketAddr;

/// From where connections are made. It may tell its calls: where `dialed dialer calls`, they were exactly these, in order, with the stream
/// that each made, or why it made none. One that tells nothing, as the system's, says that of any.
pub trait Dial {
    /// What a connection is read and written by.
    type Stream: Read + Write + Drop;

    ghost dialed: { Self → List (Dialed Self.Stream) → Type 0 };

    /// Connects to this address. What is read of the stream waits for a moment, and what is written for a little longer.
    ///
    /// # Errors
    ///
    /// Why no connection was made.
    fn dial(&mut self, to: &SocketAddr) -> io::Result<Self::Stream>
        ensures tells { (calls : List (Dialed Self.Stream)) → dialed self.old calls
            → dialed self.new (calls ++ record { to = to.now; answer = result } ∷ []) };
}
