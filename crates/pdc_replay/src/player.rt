//! Records of either role, played life after life.

use crate::begins::Unbegun;
use crate::halt::Halt;
use crate::plays::Plays;
use crate::replay::Replay;
use crate::seen::SeenRow;
use crate::unplayed::Unplayed;
use pdc_merge::Merger;
use pdc_node::Node;
use pdc_record::{Begun, Entry, Role, What};
use pdc_settings::SettingsFault;
use pdc_table::RingTable;
use std::alloc::{AllocError, Global};
use std::str;

/// A life of either role.
#[derive(Drop)]
enum Life {
    /// A node's.
    Node(Replay<Node<RingTable>>),
    /// The merger's.
    Merger(Replay<Merger<RingTable>>),
}

/// Plays the entries of records that follow each other: the files of a life, and the lives behind it.
#[derive(Drop)]
pub struct Player {
    alloc: Global,
    /// The life that is played; none before the first one, and where it cannot be played on.
    life: Option<Life>,
    /// The number of the step with which the record begins, where that is not its first.
    first: Option<u64>,
    /// The steps that were not compared.
    unplayed: Vec<Unplayed>,
    /// Steps are not compared: the life is played again from a file on that carries over what a core must know.
    is_lost: bool,
    /// How many steps the lives before had.
    steps: u64,
    /// How many frames they published.
    frames: u64,
    /// How many of their datagrams were not kept whole.
    unkept: u64,
}

impl Life {
    /// The life at its start, or where the file begins whose first step has this number.
    fn begin(alloc: Global, begun: &Begun<'_>, step: u64) -> Result<Life, Unbegun> {
        let Ok(text) = str::from_utf8(begun.settings) else {
            return Err(Unbegun::Settings(SettingsFault::Toml));
        };
        match begun.role {
            Role::Node => Ok(Life::Node(Replay::begin(alloc, begun, step, text)?)),
            Role::Merger => Ok(Life::Merger(Replay::begin(alloc, begun, step, text)?)),
        }
    }

    fn play(&mut self, entry: &Entry<'_>) -> Result<(), Halt> {
        match self {
            Life::Node(replay) => replay.play(entry),
            Life::Merger(replay) => replay.play(entry),
        }
    }

    fn steps(&self) -> u64 {
        match self {
            Life::Node(replay) => replay.steps(),
            Life::Merger(replay) => replay.steps(),
        }
    }

    fn frames(&self) -> u64 {
        match self {
            Life::Node(replay) => replay.frames(),
            Life::Merger(replay) => replay.frames(),
        }
    }

    fn unkept(&self) -> u64 {
        match self {
            Life::Node(replay) => replay.unkept(),
            Life::Merger(replay) => replay.unkept(),
        }
    }
}

impl Player {
    /// One that played nothing.
    pub fn new(alloc: Global) -> Player {
        Player {
            alloc,
            life: None,
            first: None,
            unplayed: Vec::new(alloc),
            is_lost: false,
            steps: 0,
            frames: 0,
            unkept: 0,
        }
    }

    /// The number of the step with which the record begins, where its first file is not the first one of the life.
    pub fn first(&self) -> Option<u64> {
        self.first
    }

    /// The steps that were not compared, since some are not in the record.
    pub fn unplayed(&self) -> &[Unplayed] {
        self.unplayed.as_slice()
    }

    /// How many steps were played and compared.
    pub fn steps(&self) -> u64 {
        match &self.life {
            Some(life) => self.steps.saturating_add(life.steps()),
            None => self.steps,
        }
    }

    /// How many frames were published, each as recorded.
    pub fn frames(&self) -> u64 {
        match &self.life {
            Some(life) => self.frames.saturating_add(life.frames()),
            None => self.frames,
        }
    }

    /// How many datagrams were not kept whole: they are no frames, and their refusals are those that are recorded.
    pub fn unkept(&self) -> u64 {
        match &self.life {
            Some(life) => self.unkept.saturating_add(life.unkept()),
            None => self.unkept,
        }
    }

    /// The row that was popped last; of instant 0 where none was. None where no life is played.
    pub fn last_row(&self) -> Option<SeenRow<'_>> {
        match &self.life {
            Some(Life::Node(replay)) => Some(replay.last_row()),
            Some(Life::Merger(replay)) => Some(replay.last_row()),
            None => None,
        }
    }

    /// The life is played no further.
    fn leave(&mut self) {
        let (steps, frames, unkept) = (self.steps(), self.frames(), self.unkept());
        self.life = None;
        self.steps = steps;
        self.frames = frames;
        self.unkept = unkept;
    }

    /// A life begins, or is played on where a file begins with the step of this number.
    fn begin(&mut self, begun: &Begun<'_>, step: u64) -> Result<(), Halt> {
        self.leave();
        let life = Life::begin(self.alloc, begun, step)?;
        self.life = Some(life);
        if step == 0 {
            self.is_lost = false;
        } else if self.is_lost {
            self.mend(Some(step));
        } else {
            self.first = Some(step);
        }
        Ok(())
    }

    /// From where on steps are compared again.
    fn mend(&mut self, again: Option<u64>) {
        if let Some(last) = self.unplayed.as_mut_slice().last_mut() {
            last.again = again;
        }
    }

    /// Notes that steps are not in the record, up to the one before `until`.
    fn note(&mut self, from: u64, until: u64) -> Result<(), AllocError> {
        self.unplayed.push(Unplayed {
            from,
            until,
            again: None,
        })?;
        Ok(())
    }

    /// Steps are not in the record, up to the one before `until`: nothing is compared up to the next file, which may be this entry.
    fn lose(&mut self, from: u64, until: u64, entry: &Entry<'_>) -> Result<(), Halt> {
        self.leave();
        self.is_lost = true;
        self.note(from, until)?;
        match &entry.what {
            What::Begun(begun) => self.begin(begun, entry.step),
            _ => Ok(()),
        }
    }

    /// A file cannot be begun with: nothing is compared up to the next one, where steps were not compared before it.
    fn pass_over(&mut self, halt: Halt) -> Result<(), Halt> {
        if !self.is_lost {
            return Err(halt);
        }
        self.life = None;
        self.mend(None);
        Ok(())
    }

    /// Whether a step is among those that were not compared.
    fn is_unplayed(&self, step: u64) -> bool {
        self.unplayed
            .iter()
            .any(|it| it.from <= step && step < it.until)
    }

    /// Goes on behind an entry at which the life is not played on.
    fn heed(&mut self, halt: Halt, entry: &Entry<'_>) -> Result<(), Halt> {
        match halt {
            Halt::Missing { from, until } => self.lose(from, until, entry),
            Halt::NotTheFirst { .. } | Halt::NotCarried { .. } => self.pass_over(halt),
            // (an entry that came after its gap was written is where it came)
            Halt::OutOfOrder { step, .. } if self.is_unplayed(step) => Ok(()),
            _ => Err(halt),
        }
    }

    /// Plays an entry: the first step of a record is number 0, and where another record begins so, it is of another life. Where the first file
    /// is a later one, and behind steps that are not in the record, the life is played from what a file carries over.
    ///
    /// # Errors
    ///
    /// Why the replay halts.
    pub fn play(&mut self, entry: &Entry<'_>) -> Result<(), Halt> {
        if let What::Begun(begun) = &entry.what {
            if entry.step == 0 || self.life.is_none() {
                return self.begin(begun, entry.step);
            }
        }
        let Some(life) = &mut self.life else {
            return if self.is_lost {
                Ok(())
            } else {
                Err(Halt::NotTheFirst { step: None })
            };
        };
        match life.play(entry) {
            Ok(()) => Ok(()),
            Err(halt) => self.heed(halt, entry),
        }
    }
}
