//! The answers to requests.
ghost use Rattle.std.specs.Prelude.{⊤};

use crate::reader::now_of;
use bytes::Bytes;
use http::{HeaderValue, Request, StatusCode, header};
use http_server::{Response, Service};
use pdc_metrics::is_own_request;
use pdc_watch::{Origin, PAGE, Resource, SCRIPT, STYLE, Three, Watch, json_of, route_of};
use std::alloc::{AllocError, Global};
use std::rt::Clock;
use std::sync::{Mutex, Wait};
use std::time::Instant;

/// What the page may load: what is here, and nothing of another host.
const POLICY: &str =
    "default-src 'none'; script-src 'self'; style-src 'self' 'unsafe-inline'; connect-src 'self'; img-src data:";

/// What the thread that serves answers with.
#[derive(Drop)]
pub struct Site<'a, R: Wait + Clock> {
    pub rt: &'a R,
    pub alloc: Global,
    pub watch: &'a Mutex<Watch>,
    pub origins: &'a Three<Origin>,
    /// When the program began.
    pub begun: Option<Instant>,
    /// The port of the page.
    pub port: u16,
}

impl<R: Wait + Clock> Site<'_, R> {
    /// What is shown now.
    fn data(&self) -> Result<Bytes, AllocError> {
        let now = now_of(self.rt, self.begun);
        let watch = self.watch.lock(self.rt);
        let Ok(text) = json_of(self.alloc, &*watch, self.origins, now) else {
            return Err(AllocError);
        };
        Ok(Bytes::from_vec(text)?)
    }
}

/// Answers with a body of this kind.
fn fill(response: &mut Response, kind: HeaderValue, body: Bytes) -> Result<(), AllocError> {
    response.add_header(header::CONTENT_TYPE, kind)?;
    response.add_header(header::CACHE_CONTROL, HeaderValue::from_static("no-store"))?;
    response.add_header(
        header::X_CONTENT_TYPE_OPTIONS,
        HeaderValue::from_static("nosniff"),
    )?;
    response.add_header(
        header::CONTENT_SECURITY_POLICY,
        HeaderValue::from_static(POLICY),
    )?;
    response.body.push(body)
}

/// Answers a request that names another host than this machine's loopback.
fn misdirect(response: &mut Response) -> Result<(), AllocError> {
    response.status = StatusCode::MISDIRECTED_REQUEST;
    fill(
        response,
        HeaderValue::from_static("text/plain; charset=utf-8"),
        Bytes::from_static(
            b"misdirected: ask at 127.0.0.1, [::1] or localhost, with the port of the page\n",
        ),
    )
}

impl<R: Wait + Clock> Service for Site<'_, R> {
    ghost answers = { λ _ _ _ _. ⊤ };

    fn call(
        &mut self,
        request: &Request<Bytes>,
        response: &mut Response,
    ) -> Result<(), AllocError> {
        response.add_header(header::CONNECTION, HeaderValue::from_static("close"))?;
        if !is_own_request(request, self.port) {
            return misdirect(response);
        }
        match route_of(request.method().as_str(), request.uri().path()) {
            Resource::Page => fill(
                response,
                HeaderValue::from_static("text/html; charset=utf-8"),
                Bytes::from_static(PAGE.as_bytes()),
            ),
            Resource::Style => fill(
                response,
                HeaderValue::from_static("text/css; charset=utf-8"),
                Bytes::from_static(STYLE.as_bytes()),
            ),
            Resource::Script => fill(
                response,
                HeaderValue::from_static("text/javascript; charset=utf-8"),
                Bytes::from_static(SCRIPT.as_bytes()),
            ),
            Resource::Data => {
                let body = self.data()?;
                fill(response, HeaderValue::from_static("application/json"), body)
            }
            Resource::Unknown => {
                response.status = StatusCode::NOT_FOUND;
                fill(
                    response,
                    HeaderValue::from_static("text/plain; charset=utf-8"),
                    Bytes::from_static(b"not found\n"),
                )
            }
            Resource::WrongMethod => {
                response.status = StatusCode::METHOD_NOT_ALLOWED;
                response.add_header(header::ALLOW, HeaderValue::from_static("GET, HEAD"))
            }
        }
    }
}
