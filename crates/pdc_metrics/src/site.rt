//! The answers to requests.
ghost use Rattle.std.specs.Prelude.{⊤};

use crate::metered::Metered;
use crate::own_files::OwnFiles;
use crate::own_host::is_own_request;
use crate::report::metrics_text;
use bytes::Bytes;
use http::{HeaderValue, Request, StatusCode, header};
use http_server::{Response, Service};
use std::alloc::{AllocError, Global};
use std::rt::Clock;
use std::sync::Wait;
use std::time::Instant;

/// The type of the text format.
const METRICS: &str = "text/plain; version=0.0.4; charset=utf-8";

/// What the thread that serves answers with.
#[derive(Drop)]
pub struct Site<'a, R: Wait + Clock + OwnFiles> {
    pub rt: &'a R,
    pub alloc: Global,
    pub metered: Metered<'a>,
    /// Since when the counters are served.
    pub begun: Instant,
    /// The port of the loopback that is served; none where another address is.
    pub own_port: Option<u16>,
}

/// What a request asks for.
#[derive(Clone, Copy, Debug, PartialEq, Eq)]
enum Resource {
    Metrics,
    Unknown,
    WrongMethod,
    /// A host that is not this one.
    WrongHost,
}

/// What this method and this path ask for.
fn route_of(method: &str, path: &str) -> Resource {
    if path != "/metrics" {
        Resource::Unknown
    } else if method == "GET" || method == "HEAD" {
        Resource::Metrics
    } else {
        Resource::WrongMethod
    }
}

/// What a request asks for. Where the loopback is served, it names the loopback.
fn asked_by(request: &Request<Bytes>, own_port: Option<u16>) -> Resource {
    match own_port {
        Some(port) if !is_own_request(request, port) => Resource::WrongHost,
        _ => route_of(request.method().as_str(), request.uri().path()),
    }
}

/// Answers with a body of this kind.
fn fill(response: &mut Response, kind: HeaderValue, body: Bytes) -> Result<(), AllocError> {
    response.add_header(header::CONTENT_TYPE, kind)?;
    response.add_header(header::CACHE_CONTROL, HeaderValue::from_static("no-store"))?;
    response.body.push(body)
}

impl<R: Wait + Clock + OwnFiles> Service for Site<'_, R> {
    ghost answers = { λ _ _ _ _. ⊤ };

    fn call(
        &mut self,
        request: &Request<Bytes>,
        response: &mut Response,
    ) -> Result<(), AllocError> {
        response.add_header(header::CONNECTION, HeaderValue::from_static("close"))?;
        match asked_by(request, self.own_port) {
            Resource::Metrics => {
                let text = metrics_text(self.rt, self.alloc, &self.metered, self.begun)?;
                let body = Bytes::from_vec(text.into_bytes())?;
                fill(response, HeaderValue::from_static(METRICS), body)
            }
            Resource::Unknown => {
                response.status = StatusCode::NOT_FOUND;
                fill(
                    response,
                    HeaderValue::from_static("text/plain; charset=utf-8"),
                    Bytes::from_static(b"not found: the counters are at /metrics\n"),
                )
            }
            Resource::WrongHost => {
                response.status = StatusCode::MISDIRECTED_REQUEST;
                fill(
                    response,
                    HeaderValue::from_static("text/plain; charset=utf-8"),
                    Bytes::from_static(
                        b"misdirected: ask at 127.0.0.1, [::1] or localhost, with the port of the counters\n",
                    ),
                )
            }
            Resource::WrongMethod => {
                response.status = StatusCode::METHOD_NOT_ALLOWED;
                response.add_header(header::ALLOW, HeaderValue::from_static("GET, HEAD"))
            }
        }
    }
}
