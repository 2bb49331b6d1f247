//! The events of a world: a PMU's configuration and data come to node A, which publishes a row and then stops in each way.

use crate::runs::settings::{Given, told};
use crate::trial::{DONE, State, Trial, make, state_of};
use crate::vectors::{CONFIG_11, DATA_11, FIRST};
use pdc_history::{Act, Event, StopAt, Storing, Who};
use pdc_mark::ModelMark;
use pdc_world::World;
use std::alloc::{AllocError, Global};
use std::io;
use std::io::ErrorKind;

/// An event.
#[derive(Clone, Copy)]
enum Step {
    Config,
    ConfigComes,
    Adopts,
    Data,
    DataComes,
    Closes,
    Publishes,
    Junk,
    StopsInTick,
    StopsIn,
    StopsAtStart,
    Stops,
}

/// All of them.
const STEPS: [Step; 12] = [
    Step::Config,
    Step::ConfigComes,
    Step::Adopts,
    Step::Data,
    Step::DataComes,
    Step::Closes,
    Step::Publishes,
    Step::Junk,
    Step::StopsInTick,
    Step::StopsIn,
    Step::StopsAtStart,
    Step::Stops,
];

/// A world, and the next event.
#[derive(Drop)]
struct StepTrial {
    step: Step,
    world: World<ModelMark>,
}

/// A stop in a store that landed.
fn stop_in(storing: Storing) -> Act {
    Act::Stop(StopAt::In {
        storing,
        landed: true,
    })
}

/// The event.
fn event_of(step: Step) -> Event<'static> {
    let who = Who::A;
    let act = match step {
        Step::Config => return Event::Send { bytes: &CONFIG_11 },
        Step::ConfigComes => return Event::To { who, number: 0 },
        Step::Adopts => Act::Tick { now: FIRST },
        Step::Data => return Event::Send { bytes: &DATA_11 },
        Step::DataComes => return Event::To { who, number: 2 },
        Step::Closes => Act::Tick { now: FIRST + 1 },
        Step::Publishes => Act::Publish,
        Step::Junk => {
            return Event::Junk {
                who,
                bytes: &[0xAA],
            };
        }
        Step::StopsInTick => stop_in(Storing::Tick),
        Step::StopsIn => stop_in(Storing::Publish),
        Step::StopsAtStart => stop_in(Storing::Start),
        Step::Stops => Act::Stop(StopAt::Between),
    };
    Event::Do { who, act }
}

impl Trial for StepTrial {
    fn name(&self) -> &'static str {
        match self.step {
            Step::Config => "World::step, Send of a configuration",
            Step::ConfigComes => "World::step, To with a configuration",
            Step::Adopts => "World::step, Tick that adopts",
            Step::Data => "World::step, Send of data",
            Step::DataComes => "World::step, To with data",
            Step::Closes => "World::step, Tick that closes",
            Step::Publishes => "World::step, Publish",
            Step::Junk => "World::step, Junk",
            Step::StopsInTick => "World::step, Stop in a tick",
            Step::StopsIn => "World::step, Stop in a publish",
            Step::StopsAtStart => "World::step, Stop in a start",
            Step::Stops => "World::step, Stop",
        }
    }

    fn state(&self) -> State {
        let last = self.world.sent().saturating_sub(1);
        let State { digest, .. } = state_of(self.world.frame(last).unwrap_or(&[]), 0);
        State {
            len: self.world.sent(),
            digest,
            more: self.world.published().len() as u64,
        }
    }

    fn call(&mut self) -> &'static str {
        match self.world.step(&event_of(self.step)) {
            Ok(_) => DONE,
            Err(fault) => told(fault),
        }
    }

    fn renew(&mut self) -> Result<(), AllocError> {
        Ok(())
    }
}

/// Makes all of them.
fn play_on<R: Print>(rt: &R, trial: &mut StepTrial) -> io::Result<()> {
    for step in STEPS {
        trial.step = step;
        make(rt, trial)?;
    }
    Ok(())
}

/// All of them, in one world.
pub fn play<R: Print>(rt: &R, alloc: Global) -> io::Result<()> {
    let Ok(world) = Given::new(alloc)?.world(alloc) else {
        return Err(io::Error::from(ErrorKind::OutOfMemory));
    };
    let mut trial = StepTrial {
        step: Step::Config,
        world,
    };
    play_on(rt, &mut trial)
}
