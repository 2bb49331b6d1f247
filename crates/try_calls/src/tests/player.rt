//! Who answers each event in one way, whatever came before.
ghost use Rattle.std.specs.Prelude.{◌∷◌, [], Some, ⊤};

use pdc_align::Ticked;
use pdc_history::{Act, Event, Fault, Premise, Published, Reply, StopAt, Storing, Who};
use pdc_life::{Outcome, Refusal};
use pdc_play::Plays;

/// A published frame, of which two bytes serve.
const FRAME: [u8; 2] = [0xAA, 0x02];

/// Who answers each event in one way.
#[derive(Drop)]
pub struct Answers;

/// What came of the frame with this number.
fn outcome(number: usize) -> Option<Outcome> {
    match number {
        0 => None,
        1 => Some(Outcome::Taken),
        _ => Some(Outcome::Refused(Refusal::Late)),
    }
}

/// What a tick at this instant did.
fn ticked(now: u64) -> Ticked {
    Ticked {
        closed: 1,
        change: if now == 1 { Some(4_294_967_295) } else { None },
        used_up: now == 2,
    }
}

/// What a publish does: B has no row.
fn published(who: Who) -> Option<Published> {
    match who {
        Who::B => None,
        _ => Some(Published {
            who,
            instant: 57_478_860_001,
            number: 5,
        }),
    }
}

/// Why a stop in this store is refused.
fn fault_in(storing: Storing, landed: bool) -> Fault {
    match (storing, landed) {
        (Storing::Publish, true) => Fault::PremiseBroken(Premise::OneBody),
        (Storing::Publish, false) => Fault::PremiseBroken(Premise::OneSection),
        (Storing::Tick, true) => Fault::PremiseBroken(Premise::Genuine),
        (Storing::Tick, false) => Fault::PremiseBroken(Premise::OneTable),
        (Storing::Start, true) => Fault::NoMemory,
        (Storing::Start, false) => Fault::StartsUsedUp,
    }
}

impl Plays for Answers {
    ghost replies = { λ _ _ _ _. ⊤ };

    ghost refuses = { λ _ _ _. ⊤ };

    ghost wants = { ⊤ };

    ghost frames = { λ _ _. Some (170 ∷ 2 ∷ []) };

    fn play_event(&mut self, event: &Event) -> Result<Reply, Fault> {
        match *event {
            Event::Send { .. } => Ok(Reply::Sent { number: 3 }),
            Event::To { number: 9, .. } => Err(Fault::NoSuchFrame),
            Event::To { who, number } => Ok(Reply::Came {
                who,
                outcome: outcome(number),
            }),
            Event::Junk { who, .. } => Ok(Reply::Came {
                who,
                outcome: Some(Outcome::Known),
            }),
            Event::Do { who, act } => match act {
                Act::Tick { now } => Ok(Reply::Ticked {
                    who,
                    ticked: ticked(now),
                }),
                Act::Publish => Ok(Reply::Published {
                    who,
                    published: published(who),
                }),
                Act::Stop(StopAt::Between) => Ok(Reply::Stopped {
                    who,
                    start: 2,
                    floor: 57_478_860_001,
                }),
                Act::Stop(StopAt::In { storing, landed }) => Err(fault_in(storing, landed)),
            },
        }
    }

    fn frame(&self, _number: usize) -> Option<&[u8]> {
        Some(&FRAME)
    }
}
