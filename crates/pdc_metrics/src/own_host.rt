//! Which hosts a request may name that comes to a server of the loopback. A page of another host that was made to lead to this machine
//! names that host, and so gets nothing.
ghost use Rattle.std.specs.Prelude.{◌≡◌, ◌↔◌, IsTrue};
ghost use Rattle.pdc_metrics.specs.OwnHost.{IsOwnName};

use bytes::Bytes;
use http::{Request, header};
use std::io;
use std::net::TcpListener;

/// Whether a host is the loopback, by its name alone.
pub fn is_own_name(name: &str) -> bool
    ensures { IsTrue result ↔ IsOwnName name.now }
{
    name.eq_ignore_ascii_case("127.0.0.1")
        || name.eq_ignore_ascii_case("[::1]")
        || name.eq_ignore_ascii_case("localhost")
}

/// Whether what a `Host` field says is the loopback, with this port or none.
pub fn is_own_host(host: &str, port: u16) -> bool {
    if is_own_name(host) {
        return true;
    }
    match host.rsplit_once(':') {
        Some((name, digits)) => {
            is_own_name(name) && matches!(digits.parse::<u16>(), Ok(told) if told == port)
        }
        None => false,
    }
}

/// Whether a request may be answered by a server at this port of the loopback: the host that it names is the loopback, or it names none, as
/// in HTTP/1.0.
pub fn is_own_request(request: &Request<Bytes>, port: u16) -> bool {
    let Some(host) = request.headers().get(header::HOST) else {
        return true;
    };
    match host.to_str() {
        Ok(host) => is_own_host(host, port),
        Err(_) => false,
    }
}

/// The port of a listener of the loopback; none where it listens at another address, whose names are not known here.
///
/// # Errors
///
/// The system does not tell its address.
pub fn loopback_port(listener: &TcpListener) -> io::Result<Option<u16>> {
    let address = listener.local_addr()?;
    if address.ip().is_loopback() {
        Ok(Some(address.port()))
    } else {
        Ok(None)
    }
}
