//! What a run answers.
ghost use Rattle.std.specs.Prelude.{◌≡◌, ◌++◌, IfNone, IfSome, List, ℕ};
ghost use Rattle.pdc_control.specs.Lines.{head_of};

/// How an answer begins.
#[derive(Clone, Copy, Debug, PartialEq, Eq)]
pub enum Head {
    /// It was done; what was asked for is behind it.
    Done,
    /// It was not, since it was asked wrongly or cannot be.
    Refused,
    /// It was not, or the run ended by a fault.
    Failed,
}

impl Head {
    /// Its line, with its line feed.
    pub fn line(self) -> &'static str
        ensures { result.now ≡ head_of self }
    {
        match self {
            Head::Done => "done\n",
            Head::Refused => "refused\n",
            Head::Failed => "failed\n",
        }
    }
}

/// The head that these bytes begin with, and what is behind it.
pub fn split_head(bytes: &[u8]) -> Option<(Head, &[u8])>
    ensures found { IfSome result (λ it. bytes.now ≡ head_of it.0 ++ it.1.now) }
    ensures none { IfNone result ((head : Head) (rest : List ℕ) → bytes.now ≡ head_of head ++ rest →
        ⊥) }
{
    if let Some(rest) = bytes.strip_prefix(b"done\n".as_slice()) {
        Some((Head::Done, rest))
    } else if let Some(rest) = bytes.strip_prefix(b"refused\n".as_slice()) {
        Some((Head::Refused, rest))
    } else if let Some(rest) = bytes.strip_prefix(b"failed\n".as_slice()) {
        Some((Head::Failed, rest))
    } else {
        None
    }
}

/// What a run answered.
#[derive(Drop)]
pub struct Answer {
    pub head: Head,
    /// The lines behind the head.
    pub text: String,
}
