//! What became of records.

/// What became of records.
#[derive(Clone, Copy, Debug, PartialEq, Eq)]
pub enum Verdict {
    /// All is as recorded, and all agree.
    AsRecorded,
    /// Something is not so, or cannot be told.
    Refused,
    /// A file cannot be read, or there is no memory.
    Failed,
}

impl Verdict {
    /// The worse of two.
    pub fn and(self, other: Verdict) -> Verdict {
        match (self, other) {
            (Verdict::Failed, _) | (_, Verdict::Failed) => Verdict::Failed,
            (Verdict::Refused, _) | (_, Verdict::Refused) => Verdict::Refused,
            _ => Verdict::AsRecorded,
        }
    }
}
