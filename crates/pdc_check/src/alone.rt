//! What is odd in the settings of one concentrator.
ghost use Rattle.std.specs.Prelude.{◌≡◌, ◌++◌, IfOk, OnOk};
ghost use Rattle.std.specs.Option.{option_to_list};
ghost use Rattle.pdc_check.specs.Alone.{findings, is_open, no_lead, open_streams};
ghost use Rattle.pdc_check.specs.Ports.{port_findings, twice_in};

use crate::finding::Finding;
use crate::outline::{Outline, Stream};
use crate::port::{UsedPort, meeting_of, twice};
use std::alloc::{AllocError, Global};

/// Adds a finding, where there is one.
fn push_some(found: &mut Vec<Finding>, finding: Option<Finding>) -> Result<(), AllocError>
    ensures { OnOk result (found.new.items ≡ found.old.items ++ option_to_list finding) }
{
    if let Some(finding) = finding {
        found.push(finding)?;
    }
    Ok(())
}

fn no_lead(outline: &Outline) -> Option<Finding>
    ensures { result ≡ no_lead outline.now }
{
    if outline.lead == 0 {
        Some(Finding::NoLead)
    } else {
        None
    }
}

fn is_open(stream: &Stream) -> bool
    ensures { result ≡ is_open stream.now }
{
    stream.port != 0 && !stream.is_from_one
}

/// Adds the streams whose port is open to everybody.
fn push_open(found: &mut Vec<Finding>, streams: &[Stream]) -> Result<(), AllocError>
    ensures { OnOk result (found.new.items ≡ found.old.items ++ open_streams streams.now) }
{
    match streams.split_first() {
        Some((stream, others)) => {
            if is_open(stream) {
                found.push(Finding::Open(stream.table, stream.port))?;
            }
            push_open(found, others)
        }
        None => Ok(()),
    }
}

/// What is odd in the settings of one concentrator, beside its ports.
///
/// # Errors
///
/// Memory was wanted, and none was to be had.
pub fn findings(alloc: Global, outline: &Outline) -> Result<Vec<Finding>, AllocError>
    ensures { IfOk result (λ found. found.items ≡ findings outline.now) }
{
    let mut found = Vec::new(alloc);
    push_some(&mut found, no_lead(outline))?;
    push_open(&mut found, &outline.streams)?;
    Ok(found)
}

/// Adds what of a port is odd beside each of some others.
fn push_twice(
    found: &mut Vec<Finding>,
    one: &UsedPort,
    others: &[UsedPort],
) -> Result<(), AllocError>
    ensures { OnOk result (found.new.items ≡ found.old.items ++ twice_in one.now others.now) }
{
    match others.split_first() {
        Some((other, behind)) => {
            let meeting = meeting_of(one.address, other.address);
            push_some(found, twice(one, other, meeting))?;
            push_twice(found, one, behind)
        }
        None => Ok(()),
    }
}

/// Adds what is odd about each two of these ports.
fn push_ports(found: &mut Vec<Finding>, ports: &[UsedPort]) -> Result<(), AllocError>
    ensures { OnOk result (found.new.items ≡ found.old.items ++ port_findings ports.now) }
{
    match ports.split_first() {
        Some((one, others)) => {
            push_twice(found, one, others)?;
            push_ports(found, others)
        }
        None => Ok(()),
    }
}

/// The ports that it has twice: each is compared with those behind it.
///
/// # Errors
///
/// Memory was wanted, and none was to be had.
pub fn port_findings(alloc: Global, ports: &[UsedPort]) -> Result<Vec<Finding>, AllocError>
    ensures { IfOk result (λ found. found.items ≡ port_findings ports.now) }
{
    let mut found = Vec::new(alloc);
    push_ports(&mut found, ports)?;
    Ok(found)
}
