//! How a command tells on standard error what is wrong: the fault on the first line, and on the second what it is about and the reason.

use std::fmt::{Display, Formatter};
use std::net::{IpAddr, SocketAddr};
use std::{fmt, io};

/// Prints the fault.
pub fn print_fault<F: Display>(rt: &impl Eprint, fault: &F) -> io::Result<()> {
    eprintln!(rt; "{fault}")
}

/// Prints the command and the reason.
pub fn complain(rt: &impl Eprint, command: &str, reason: &str) -> io::Result<()> {
    eprintln!(rt; "pdc {command}: {reason}")
}

/// Prints the command, what it is about, as a file, and the reason.
pub fn complain_of<T: Display>(
    rt: &impl Eprint,
    command: &str,
    about: &str,
    reason: &T,
) -> io::Result<()> {
    eprintln!(rt; "pdc {command}: {about}: {reason}")
}

/// A port, of the kind that is said in front of it where there is one.
#[derive(Clone, Copy, Debug)]
pub struct NamedPort<'a> {
    /// Empty, or `UDP ` or `TCP `.
    pub kind: &'a str,
    pub at: SocketAddr,
}

impl Display for NamedPort<'_> {
    fn fmt<W: fmt::Write>(&self, f: &mut Formatter<W>) -> fmt::Result {
        let (kind, port, address) = (self.kind, self.at.port(), self.at.ip());
        write!(f, "{kind}port {port} of {address}")
    }
}

/// A port of the loopback.
pub fn local_port(kind: &str, port: u16) -> NamedPort<'_> {
    NamedPort {
        kind,
        at: SocketAddr::from((IpAddr::from([127u8, 0, 0, 1]), port)),
    }
}

/// Prints the command, the port and the reason.
pub fn complain_at<T: Display>(
    rt: &impl Eprint,
    command: &str,
    port: &NamedPort<'_>,
    reason: &T,
) -> io::Result<()> {
    eprintln!(rt; "pdc {command}: {port}: {reason}")
}
