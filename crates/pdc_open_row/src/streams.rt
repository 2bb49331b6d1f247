//! Which streams were taken.
ghost use Rattle.std.specs.Prelude.{◌≡◌, ◌≤◌, false, length, replicate};
ghost use Rattle.pdc_open_row.specs.Due.{all_taken};

use arrayvec::ArrayVec;
use pdc_columns::MAX_COLUMNS;

/// So many times false.
pub fn falses(count: usize) -> ArrayVec<bool, MAX_COLUMNS>
    requires { count ≤ MAX_COLUMNS }
    ensures { result.items ≡ replicate count false }
{
    let mut falses = ArrayVec::from_array_in((), [false; MAX_COLUMNS]);
    falses.truncate(count);
    falses
}

/// How many streams are looked at in one step of 8 bytes.
const STREAMS_AT_ONCE: usize = 8;

/// How many are looked at in one step of 16 bytes: as many as there are at most.
const MOST_AT_ONCE: usize = 16;

/// Whether each required stream was taken.
pub fn all_taken(required: &[bool], taken: &[bool]) -> bool
    ensures { result ≡ all_taken required.now taken.now }
{
    if required.len() < MOST_AT_ONCE || taken.len() < MOST_AT_ONCE {
        return some_taken(required, taken);
    }
    let (required, behind) = required.split_at(MOST_AT_ONCE);
    let (taken, taken_behind) = taken.split_at(MOST_AT_ONCE);
    sixteen_taken(required, taken) && some_taken(behind, taken_behind)
}

/// The same of fewer streams: eight at a step, and the last ones.
fn some_taken(required: &[bool], taken: &[bool]) -> bool
    ensures { result ≡ all_taken required.now taken.now }
{
    if required.len() < STREAMS_AT_ONCE || taken.len() < STREAMS_AT_ONCE {
        return each_taken(required, taken);
    }
    let (required, behind) = required.split_at(STREAMS_AT_ONCE);
    let (taken, taken_behind) = taken.split_at(STREAMS_AT_ONCE);
    eight_taken(required, taken) && some_taken(behind, taken_behind)
}

/// The same of sixteen streams, in one step.
#[inline(always)]
fn sixteen_taken(required: &[bool], taken: &[bool]) -> bool
    requires required { length required.now ≡ 16 }
    requires taken { length taken.now ≡ 16 }
    ensures { result ≡ all_taken required.now taken.now }
{
    let (required, behind) = required.split_at(STREAMS_AT_ONCE);
    let (taken, taken_behind) = taken.split_at(STREAMS_AT_ONCE);
    eight_taken(required, taken) & eight_taken(behind, taken_behind)
}

/// The same of eight streams: no test stands between two of them, so that they are looked at in one step.
#[inline(always)]
fn eight_taken(required: &[bool], taken: &[bool]) -> bool
    requires required { length required.now ≡ 8 }
    requires taken { length taken.now ≡ 8 }
    ensures { result ≡ all_taken required.now taken.now }
{
    (!required[0] | taken[0])
        & (!required[1] | taken[1])
        & (!required[2] | taken[2])
        & (!required[3] | taken[3])
        & (!required[4] | taken[4])
        & (!required[5] | taken[5])
        & (!required[6] | taken[6])
        & (!required[7] | taken[7])
}

/// The same, each with a test of its own.
fn each_taken(required: &[bool], taken: &[bool]) -> bool
    ensures { result ≡ all_taken required.now taken.now }
{
    for (stream, is_required) in required.iter().enumerate() {
        if *is_required && taken.get(stream) == Some(&false) {
            return false;
        }
    }
    true
}
