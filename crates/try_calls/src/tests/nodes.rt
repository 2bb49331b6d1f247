//! A node at its start, over both tables.
ghost use Rattle.std.specs.Prelude.{◌≡◌, IfOk, length};

use super::same::is;
use arrayvec::ArrayVec;
use pdc_frame::FrameFault;
use pdc_life::{MAX_PMUS, Outcome, Pmu, Refusal, Settings, StreamId, Timing, WaitKind};
use pdc_node::{Core, Node};
use pdc_row::{Nominal, Output};
use pdc_table::{RingTable, Table};
use std::alloc::{AllocError, Global};
use std::process::Abort;
use try_script::SortedTable;

/// What node 201 says of itself.
const OUTPUT: Output = Output {
    id: StreamId { value: 201 },
    rate: 50,
    nominal: Nominal::Hz50,
    time_base: 1_000_000,
};

/// The settings of node 201 with the PMU 11.
fn settings() -> Settings
    ensures { length result.pmus.items ≡ 1 }
{
    let mut pmus = ArrayVec::new();
    pmus.push(Pmu {
        stream: StreamId { value: 11 },
        source: 11,
        time_base: 1_000_000,
    });
    Settings {
        output: OUTPUT,
        timing: Timing {
            wait: 2,
            wait_kind: WaitKind::Relative,
            window: 8,
            ahead: 32,
        },
        pmus,
    }
}

/// The node of these settings at its first start: all is published up to instant 100.
fn node<T: Table>(alloc: Global) -> Result<Node<T>, AllocError>
    ensures { IfOk result (λ n. length n.settings.pmus.items ≡ 1) }
{
    Node::open(alloc, settings(), 1, 100, &[0; MAX_PMUS], 100)
}

/// Three bytes are no frame, and are counted; no row waits; the layout is the node's own section alone.
fn starts<T: Table>(rt: &impl Abort, node: &mut Node<T>)
    requires { length node.old.settings.pmus.items ≡ 1 }
{
    let refusal = Refusal::NoFrame(FrameFault::Short);
    is!(rt; node.put_datagram(0, &[0xAA, 0x01, 0x00]), Outcome::Refused(refusal));
    is!(rt; node.counts().refused_as(refusal), 1);
    is!(rt; node.counts().refused, 1);
    is!(rt; node.waiting(), [0; MAX_PMUS]);
    is!(rt; node.pop_due().is_none(), true);
}

/// Over the sorted table.
#[test]
fn over_the_sorted_table(rt: HostRuntime) {
    let Ok(mut node) = node::<SortedTable>(rt.alloc()) else {
        panic!(&rt; "memory");
    };
    starts(&rt, &mut node);
}

/// Over the ring table.
#[test]
fn over_the_ring_table(rt: HostRuntime) {
    let Ok(mut node) = node::<RingTable>(rt.alloc()) else {
        panic!(&rt; "memory");
    };
    starts(&rt, &mut node);
}
