//! The same node on one thread, without receivers, lock, channel and sender.
ghost use Rattle.std.specs.Prelude.{◌≡◌};
ghost use Rattle.pdc_publisher.specs.Publisher.{output_in};

use crate::frames::{FLOOR, Frames};
use pdc_core::Core;
use pdc_frame::SECONDS;
use pdc_life::{MAX_PMUS, Settings};
use pdc_mark::ModelMark;
use pdc_node::{Node, copy_of};
use pdc_publisher::Publisher;
use pdc_row::Output;
use pdc_table::RingTable;
use std::alloc::Global;

/// All counts may be adopted.
const CLEARED: [u16; MAX_PMUS] = [u16::MAX; MAX_PMUS];

/// A node with its publisher, over a mark in memory.
#[derive(Drop)]
struct Alone {
    node: Node<RingTable>,
    output: Output,
    publisher: Publisher<ModelMark>,
    out: Vec<u8>,
    published: u64,
    ghost same_output: { output_in publisher ≡ output },
}

impl Alone {
    /// Brings the frame with this number of each PMU.
    fn arrive(&mut self, frames: &Frames, number: usize) {
        for (stream, list) in frames.streams.iter().enumerate() {
            if stream < self.node.settings().pmus.len() && number < list.len() {
                let _outcome = self.node.put_datagram(stream, &list[number]);
            }
        }
    }

    /// Publishes the next row, if one waits.
    fn publish(&mut self) {
        let Some(row) = self.node.pop_due() else {
            return;
        };
        let end = SECONDS * u64::from(self.output.rate);
        if row.instant <= self.publisher.last() || row.instant >= end {
            return;
        }
        self.out.clear();
        if self.publisher.publish(row, &mut self.out).is_ok() {
            self.published = self.published.saturating_add(1);
        }
    }

    /// Ticks, and publishes each row that closes.
    fn tick(&mut self, now: u64) {
        let ticked = self.node.tick(now, &CLEARED);
        for _ in 0..ticked.closed {
            self.publish();
        }
    }
}

/// Runs the node over all frames, and answers how many rows it published.
pub fn run_alone(alloc: Global, settings: &Settings, frames: &Frames) -> u64 {
    let opened = Node::open(alloc, copy_of(settings), 1, FLOOR, &[0; MAX_PMUS], 0);
    let Ok(node) = opened else {
        return 0;
    };
    let output = settings.output;
    let mut alone = Alone {
        node,
        output,
        publisher: Publisher::new(ModelMark::new(1, FLOOR), output, 0),
        out: Vec::new(alloc),
        published: 0,
    };
    let mut now = FLOOR;
    for number in 0..=frames.count {
        alone.arrive(frames, number as usize);
        alone.tick(now);
        now = now.saturating_add(1);
    }
    alone.published
}
