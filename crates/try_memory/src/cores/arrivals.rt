//! What arrived, kept: data of at most 214 bytes, longer data, and a layout.

use crate::trial::{DONE, NO_CALL, NO_MEMORY, State, Trial, made, make, state_of};
use crate::vectors::{CONFIG_11, FIRST};
use arrayvec::ArrayVec;
use pdc_align::{Arrival, ColumnSection};
use pdc_life::{SectionView, read_config, read_frame};
use pdc_node::KeptArrival;
use std::alloc::{AllocError, Global};
use std::io;

/// What arrives.
#[derive(Clone, Copy)]
enum Arriving {
    Short,
    Long,
    Layout,
}

/// All of it.
const ALL: [Arriving; 3] = [Arriving::Short, Arriving::Long, Arriving::Layout];

/// What arrives, and what was kept of it.
#[derive(Drop)]
struct ArrivalTrial {
    alloc: Global,
    arriving: Arriving,
    kept: Option<KeptArrival>,
}

/// Keeps data.
fn keep_data(alloc: Global, payload: &[u8]) -> Result<KeptArrival, AllocError> {
    KeptArrival::keep(
        alloc,
        &Arrival::Data {
            instant: FIRST,
            quality: 0,
            payload,
        },
    )
}

/// Keeps the layout of one section.
fn keep_section(alloc: Global, section: SectionView<'_>) -> Result<KeptArrival, AllocError> {
    let mut sections = ArrayVec::new();
    sections.push(ColumnSection { column: 0, section });
    KeptArrival::keep(
        alloc,
        &Arrival::Layout {
            stamp: None,
            sections,
        },
    )
}

/// Keeps the layout of a configuration.
fn keep_layout(alloc: Global) -> Option<Result<KeptArrival, AllocError>> {
    let Ok(frame) = read_frame(&CONFIG_11) else {
        return None;
    };
    let Ok(config) = read_config(&frame) else {
        return None;
    };
    match config.sections.first() {
        Some(section) => Some(keep_section(alloc, *section)),
        None => None,
    }
}

impl ArrivalTrial {
    /// Keeps the answer.
    fn keep(&mut self, answer: Result<KeptArrival, AllocError>) -> &'static str {
        match answer {
            Ok(kept) => {
                self.kept = Some(kept);
                DONE
            }
            Err(_) => NO_MEMORY,
        }
    }
}

/// What is kept: the payload, or the bytes of the first section.
fn kept_state(kept: &KeptArrival) -> State {
    match &kept.view() {
        Arrival::Data {
            instant,
            payload,
            ..
        } => state_of(payload, *instant),
        Arrival::Layout { sections, .. } => match sections.first() {
            Some(part) => state_of(part.section.bytes, 1),
            None => made(false),
        },
        Arrival::BytesRefused(_) => made(false),
    }
}

impl Trial for ArrivalTrial {
    fn name(&self) -> &'static str {
        match self.arriving {
            Arriving::Short => "KeptArrival::keep of 10 bytes",
            Arriving::Long => "KeptArrival::keep of 300 bytes",
            Arriving::Layout => "KeptArrival::keep of a layout",
        }
    }

    fn state(&self) -> State {
        match &self.kept {
            Some(kept) => kept_state(kept),
            None => made(false),
        }
    }

    fn call(&mut self) -> &'static str {
        let answer = match self.arriving {
            Arriving::Short => Some(keep_data(self.alloc, &[5; 10])),
            Arriving::Long => Some(keep_data(self.alloc, &[7; 300])),
            Arriving::Layout => keep_layout(self.alloc),
        };
        match answer {
            Some(answer) => self.keep(answer),
            None => NO_CALL,
        }
    }

    fn renew(&mut self) -> Result<(), AllocError> {
        Ok(())
    }
}

/// All of it.
pub fn play<R: Print>(rt: &R, alloc: Global) -> io::Result<()> {
    for arriving in ALL {
        make(
            rt,
            &mut ArrivalTrial {
                alloc,
                arriving,
                kept: None,
            },
        )?;
    }
    Ok(())
}
