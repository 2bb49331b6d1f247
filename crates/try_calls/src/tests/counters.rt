//! What the line of counters says.

use super::same::is;
use pdc_frame::FrameFault;
use pdc_journal::counters_line;
use pdc_life::{Outcome, Refusal};
use pdc_ports::{Counts, Progress};

#[test]
fn causes_that_refused_are_told(rt: HostRuntime) {
    let mut counts = Counts::new();
    counts.count(Outcome::Taken);
    counts.count(Outcome::Taken);
    counts.count(Outcome::Refused(Refusal::Late));
    counts.count(Outcome::Refused(Refusal::NoFrame(FrameFault::BadCheck)));
    counts.count(Outcome::Refused(Refusal::Late));
    counts.count(Outcome::Candidate);
    let told = Progress {
        counts,
        published: 1,
        last: 57_478_860_001,
    };
    let line = counters_line(rt.alloc(), &told, 4).expect(&rt, "memory");
    is!(&rt; line.as_str(), "taken=2 refused=3 published=1 last=57478860001 unsent=4, F4 BadCheck 1, B4 Late 2");
}
