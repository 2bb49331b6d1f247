//! When something was reported of a sender.
ghost use Rattle.std.specs.Prelude.{◌≡◌, None};
ghost use Rattle.pdc_journal.specs.Complaint.{is_due, is_due_of, last_of, looked_at};
ghost use Rattle.pdc_journal.specs.Complaint.{looked_at_of, none_told};

use crate::moment::Moment;
use pdc_complaints::{CAUSES, Refusal};

/// How long nothing more is told of the same sender, in seconds.
const PAUSE: u64 = 60;

/// When something was told of a sender: once a minute at most.
#[derive(Drop)]
pub struct Complaints {
    last: Option<Moment>,
}

impl Complaints {
    /// Nothing was told yet.
    pub fn new() -> Complaints
        ensures { last_of result ≡ None }
    {
        Complaints { last: None }
    }

    /// Whether something more is told now: nothing was for a minute. It counts as told then.
    pub fn is_due(&mut self, now: Moment) -> bool
        ensures due { result ≡ is_due now self.old }
        ensures after { self.new ≡ looked_at now self.old }
    {
        let is_due = Moment::is_long_ago(self.last, PAUSE, now);
        if is_due {
            self.last = Some(now);
        }
        is_due
    }
}

/// When each cause of refusal was told of a sender: each once a minute at most.
#[derive(Drop)]
pub struct CauseComplaints {
    last: [Option<Moment>; CAUSES],
}

impl CauseComplaints {
    /// None was told yet.
    pub fn new() -> CauseComplaints
        ensures { result ≡ none_told }
    {
        CauseComplaints {
            last: [None; CAUSES],
        }
    }

    /// Whether this cause is told now: it was not for a minute. It counts as told then, and each other one stays as it is.
    pub fn is_due(&mut self, cause: Refusal, now: Moment) -> bool
        ensures due { result ≡ is_due_of cause now self.old }
        ensures after { self.new ≡ looked_at_of cause now self.old }
    {
        let number = cause.number();
        let is_due = Moment::is_long_ago(self.last[number], PAUSE, now);
        if is_due {
            self.last[number] = Some(now);
        }
        is_due
    }
}
