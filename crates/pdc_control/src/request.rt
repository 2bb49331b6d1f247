//! What a run is asked.
ghost use Rattle.std.specs.Prelude.{◌≡◌};
ghost use Rattle.pdc_control.specs.Lines.{asked_by, line_of};

/// In which form it is told how a run stands.
#[derive(Clone, Copy, Debug, PartialEq, Eq)]
pub enum Form {
    /// Lines for people.
    Lines,
    /// A JSON object.
    Json,
}

/// What a run is asked.
#[derive(Clone, Copy, Debug, PartialEq, Eq)]
pub enum Request {
    /// To end as after its last tick.
    Stop,
    /// How it stands.
    Status(Form),
}

/// The request that these bytes are the line of.
pub fn request_of(bytes: &[u8]) -> Option<Request>
    ensures { result ≡ asked_by bytes.now }
{
    if bytes == b"stop\n".as_slice() {
        Some(Request::Stop)
    } else if bytes == b"status\n".as_slice() {
        Some(Request::Status(Form::Lines))
    } else if bytes == b"status json\n".as_slice() {
        Some(Request::Status(Form::Json))
    } else {
        None
    }
}

impl Request {
    /// Its line, with its line feed.
    pub fn line(self) -> &'static str
        ensures { result.now ≡ line_of self }
    {
        match self {
            Request::Stop => "stop\n",
            Request::Status(Form::Lines) => "status\n",
            Request::Status(Form::Json) => "status json\n",
        }
    }
}
