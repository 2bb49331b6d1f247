//! What was recorded beside what the plain program answers.

use pdc_plain_steps::Answered;
use pdc_record::{Entry, What};

/// Whether a step was answered as recorded.
fn is_alike(what: &What<'_>, answered: &Answered<'_>) -> bool {
    match (what, answered) {
        (What::Arrived { outcome, .. }, Answered::Arrival { answer, .. }) => {
            answer.outcome == *outcome
        }
        (
            What::Ticked {
                closed,
                change,
                used_up,
                ..
            },
            Answered::Tick { answer, .. },
        ) => {
            answer.rows.len() == *closed as usize
                && answer.adopted.is_empty() != change.is_some()
                && answer.used_up == *used_up
        }
        (What::FoundNone, Answered::Pop { row }) => row.is_none(),
        (What::Popped { instant, .. }, Answered::Pop { row }) => match row {
            Some(row) => row.instant == *instant,
            None => false,
        },
        _ => false,
    }
}

/// Whether an entry is a step.
fn is_step(what: &What<'_>) -> bool {
    matches!(
        what,
        What::Arrived { .. } | What::Ticked { .. } | What::FoundNone | What::Popped { .. }
    )
}

/// The number of the first step that was not answered as recorded, or whose frame was not the recorded one. The answers are given newest first.
pub fn first_difference(
    entries: &[Entry<'_>],
    answers: &[Answered<'_>],
    frames: &[Vec<u8>],
) -> Option<u64> {
    let mut left = answers.len();
    let mut popped = 0;
    for entry in entries {
        if !is_step(&entry.what) {
            continue;
        }
        left = left.saturating_sub(1);
        match answers.get(left) {
            Some(answered) if is_alike(&entry.what, answered) => {}
            _ => return Some(entry.step),
        }
        if let What::Popped { frame, .. } = &entry.what {
            if let (Some(recorded), Some(replayed)) = (frame, frames.get(popped)) {
                if replayed.as_slice() != *recorded {
                    return Some(entry.step);
                }
            }
            popped = popped.saturating_add(1);
        }
    }
    None
}
