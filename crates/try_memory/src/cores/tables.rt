//! Both tables.

use crate::trial::{DONE, State, Trial, made, make, of_memory};
use pdc_table::{RingTable, Table};
use std::alloc::{AllocError, Global};
use std::io;
use try_script::SortedTable;

/// A table that is made, and whether it was.
#[derive(Drop)]
struct TableTrial {
    alloc: Global,
    is_ring: bool,
    is_made: bool,
}

impl Trial for TableTrial {
    fn name(&self) -> &'static str {
        if self.is_ring {
            "RingTable::new"
        } else {
            "SortedTable::new"
        }
    }

    fn state(&self) -> State {
        made(self.is_made)
    }

    fn call(&mut self) -> &'static str {
        let answer = if self.is_ring {
            of_memory(RingTable::new(self.alloc, 64, 2, 2, 0))
        } else {
            of_memory(SortedTable::new(self.alloc, 64, 2, 2, 0))
        };
        self.is_made = answer == DONE;
        answer
    }

    fn renew(&mut self) -> Result<(), AllocError> {
        Ok(())
    }
}

/// Each, of 64 instants, two columns and two lanes.
pub fn play<R: Print>(rt: &R, alloc: Global) -> io::Result<()> {
    for is_ring in [true, false] {
        make(
            rt,
            &mut TableTrial {
                alloc,
                is_ring,
                is_made: false,
            },
        )?;
    }
    Ok(())
}
