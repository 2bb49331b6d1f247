//! What of the settings of two concentrators does not fit.
ghost use Rattle.std.specs.Prelude.{◌≡◌, ◌++◌, ◌==◌, IfOk, OnOk, option_copied};
ghost use Rattle.std.specs.List.{list_any};
ghost use Rattle.std.specs.Option.{option_to_list};
ghost use Rattle.pdc_check.specs.Ports.{port_misfits, shared_in};
ghost use Rattle.pdc_check.specs.Together.{alike, are_among, by_kind, id_of_source, is_first};
ghost use Rattle.pdc_check.specs.Together.{misfits, not_sent, not_served, of_mark, of_merger};
ghost use Rattle.pdc_check.specs.Together.{of_node, of_stream, other_mark_rate, other_owner};
ghost use Rattle.pdc_check.specs.Together.{other_rate, other_sources, other_time_base, preferred};
ghost use Rattle.pdc_check.specs.Together.{same_id, short_wait, stream_of};

use crate::misfit::Misfit;
use crate::outline::{Outline, Stream};
use crate::port::{UsedPort, meeting_of, shared};
use std::alloc::{AllocError, Global};

/// Adds what does not fit, where there is such.
fn push_some(found: &mut Vec<Misfit>, misfit: Option<Misfit>) -> Result<(), AllocError>
    ensures { OnOk result (found.new.items ≡ found.old.items ++ option_to_list misfit) }
{
    if let Some(misfit) = misfit {
        found.push(misfit)?;
    }
    Ok(())
}

fn same_id(one: &Outline, other: &Outline) -> Option<Misfit>
    ensures { result ≡ same_id one.now other.now }
{
    if one.id == other.id {
        Some(Misfit::SameId(one.id))
    } else {
        None
    }
}

fn other_rate(one: &Outline, other: &Outline) -> Option<Misfit>
    ensures { result ≡ other_rate one.now other.now }
{
    if one.rate == other.rate {
        None
    } else {
        Some(Misfit::OtherRate(one.rate, other.rate))
    }
}

/// Whether a number is one of these.
fn has(numbers: &[u16], number: u16) -> bool
    ensures { result ≡ list_any (λ other. other == number) numbers.now }
{
    numbers.iter().any(|other| *other == number)
}

fn id_of_source(one: &Outline, other: &Outline) -> Option<Misfit>
    ensures { result ≡ id_of_source one.now other.now }
{
    if has(&other.sources, one.id) {
        Some(Misfit::IdOfSource(one.id))
    } else {
        None
    }
}

/// The first of the streams that is of this id.
fn stream_of(id: u16, streams: &[Stream]) -> Option<Stream>
    ensures { result ≡ stream_of id streams.now }
{
    match streams.split_first() {
        Some((stream, others)) => {
            if stream.id == id {
                Some(*stream)
            } else {
                stream_of(id, others)
            }
        }
        None => None,
    }
}

fn other_time_base(node: &Outline, stream: &Stream) -> Option<Misfit>
    ensures { result ≡ other_time_base node.now stream.now }
{
    if node.time_base == stream.time_base {
        None
    } else {
        Some(Misfit::OtherTimeBase(node.time_base, stream.time_base, stream.table))
    }
}

fn not_sent(node: &Outline, stream: &Stream) -> Option<Misfit>
    ensures { result ≡ not_sent node.now stream.now }
{
    if stream.port == 0 || has(&node.sent_to, stream.port) {
        None
    } else {
        Some(Misfit::NotSent(stream.port, stream.table))
    }
}

fn not_served(node: &Outline, stream: &Stream) -> Option<Misfit>
    ensures { result ≡ not_served node.now stream.now }
{
    if stream.asked_at == 0 || stream.asked_at == node.session_port {
        None
    } else {
        Some(Misfit::NotServed(node.session_port, stream.asked_at, stream.table))
    }
}

/// Whether some ids are among others, in their order.
fn are_among(ids: &[u16], others: &[u16]) -> bool
    ensures { result ≡ are_among ids.now others.now }
{
    let Some((id, more)) = ids.split_first() else {
        return true;
    };
    match others.split_first() {
        Some((other, behind)) => {
            if *id == *other {
                are_among(more, behind)
            } else {
                are_among(ids, behind)
            }
        }
        None => false,
    }
}

fn other_sources(node: &Outline, merger: &Outline) -> Option<Misfit>
    ensures { result ≡ other_sources node.now merger.now }
{
    if are_among(&node.sources, &merger.sources) {
        None
    } else {
        Some(Misfit::OtherSources)
    }
}

fn short_wait(merger: &Outline, node: &Outline) -> Option<Misfit>
    ensures { result ≡ short_wait merger.now node.now }
{
    if merger.wait < node.wait {
        Some(Misfit::ShortWait(merger.wait, node.wait))
    } else {
        None
    }
}

/// Whether the first of the streams is of this id.
fn is_first(id: u16, streams: &[Stream]) -> bool
    ensures { result ≡ is_first id streams.now }
{
    match streams.split_first() {
        Some((stream, _)) => stream.id == id,
        None => false,
    }
}

fn preferred(merger: &Outline, node: &Outline) -> Option<Misfit>
    ensures { result ≡ preferred merger.now node.now }
{
    if is_first(node.id, &merger.streams) {
        Some(Misfit::Preferred(node.id))
    } else {
        None
    }
}

/// Adds what of a node does not fit how the merger takes its stream.
fn push_stream(
    found: &mut Vec<Misfit>,
    node: &Outline,
    stream: Option<Stream>,
) -> Result<(), AllocError>
    ensures { OnOk result (found.new.items ≡ found.old.items ++ of_stream node.now stream) }
{
    let Some(stream) = stream else {
        return push_some(found, Some(Misfit::NotMerged(node.id)));
    };
    push_some(found, other_time_base(node, &stream))?;
    push_some(found, not_sent(node, &stream))?;
    push_some(found, not_served(node, &stream))
}

/// Adds what of a node does not fit a merger.
fn push_node(found: &mut Vec<Misfit>, node: &Outline, merger: &Outline) -> Result<(), AllocError>
    ensures { OnOk result (found.new.items ≡ found.old.items ++ of_node node.now merger.now) }
{
    push_stream(found, node, stream_of(node.id, &merger.streams))?;
    push_some(found, other_sources(node, merger))
}

/// Adds what of a merger does not fit a node.
fn push_merger(found: &mut Vec<Misfit>, merger: &Outline, node: &Outline) -> Result<(), AllocError>
    ensures { OnOk result (found.new.items ≡ found.old.items ++ of_merger merger.now node.now) }
{
    push_some(found, short_wait(merger, node))?;
    push_some(found, preferred(merger, node))
}

/// Adds what does not fit by the kinds of both.
fn push_by_kind(found: &mut Vec<Misfit>, one: &Outline, other: &Outline) -> Result<(), AllocError>
    ensures { OnOk result (found.new.items ≡ found.old.items ++ by_kind one.now other.now) }
{
    match (one.is_merger, other.is_merger) {
        (true, false) => push_merger(found, one, other),
        (false, true) => push_node(found, one, other),
        _ => Ok(()),
    }
}

/// What of two concentrators does not fit, whichever of them is the first.
///
/// # Errors
///
/// Memory was wanted, and none was to be had.
pub fn alike(alloc: Global, one: &Outline, other: &Outline) -> Result<Vec<Misfit>, AllocError>
    ensures { IfOk result (λ found. found.items ≡ alike one.now other.now) }
{
    let mut found = Vec::new(alloc);
    push_some(&mut found, same_id(one, other))?;
    push_some(&mut found, other_rate(one, other))?;
    Ok(found)
}

/// What of a concentrator does not fit another one: of a node to its merger, and of a merger to its node.
///
/// # Errors
///
/// Memory was wanted, and none was to be had.
pub fn misfits(alloc: Global, one: &Outline, other: &Outline) -> Result<Vec<Misfit>, AllocError>
    ensures { IfOk result (λ found. found.items ≡ misfits one.now other.now) }
{
    let mut found = Vec::new(alloc);
    push_some(&mut found, id_of_source(one, other))?;
    push_by_kind(&mut found, one, other)?;
    Ok(found)
}

fn other_owner(settings: &Outline, id: u16) -> Option<Misfit>
    ensures { result ≡ other_owner settings.now id }
{
    if settings.id == id {
        None
    } else {
        Some(Misfit::OtherOwner(settings.id, id))
    }
}

fn other_mark_rate(settings: &Outline, rate: u16) -> Option<Misfit>
    ensures { result ≡ other_mark_rate settings.now rate }
{
    if settings.rate == rate {
        None
    } else {
        Some(Misfit::OtherRate(settings.rate, rate))
    }
}

/// What of settings does not fit a mark of this id and rate. The name of the mark's file is wanted behind it.
///
/// # Errors
///
/// Memory was wanted, and none was to be had.
pub fn mark_misfits(
    alloc: Global,
    settings: &Outline,
    id: u16,
    rate: u16,
) -> Result<Vec<Misfit>, AllocError>
    ensures { IfOk result (λ found. found.items ≡ of_mark settings.now id rate) }
{
    let mut found = Vec::new(alloc);
    push_some(&mut found, other_owner(settings, id))?;
    push_some(&mut found, other_mark_rate(settings, rate))?;
    Ok(found)
}

/// Adds what of a port does not fit each of the other's.
fn push_shared(
    found: &mut Vec<Misfit>,
    one: &UsedPort,
    others: &[UsedPort],
) -> Result<(), AllocError>
    ensures { OnOk result (found.new.items ≡ found.old.items ++ shared_in one.now others.now) }
{
    match others.split_first() {
        Some((other, behind)) => {
            let meeting = meeting_of(one.address, other.address);
            push_some(found, shared(one, other, meeting))?;
            push_shared(found, one, behind)
        }
        None => Ok(()),
    }
}

/// Adds what of each port does not fit each of the other's.
fn push_ports(
    found: &mut Vec<Misfit>,
    ones: &[UsedPort],
    others: &[UsedPort],
) -> Result<(), AllocError>
    ensures { OnOk result (found.new.items ≡ found.old.items ++ port_misfits ones.now others.now) }
{
    match ones.split_first() {
        Some((one, behind)) => {
            push_shared(found, one, others)?;
            push_ports(found, behind, others)
        }
        None => Ok(()),
    }
}

/// The ports that two concentrators both want.
///
/// # Errors
///
/// Memory was wanted, and none was to be had.
pub fn port_misfits(
    alloc: Global,
    ones: &[UsedPort],
    others: &[UsedPort],
) -> Result<Vec<Misfit>, AllocError>
    ensures { IfOk result (λ found. found.items ≡ port_misfits ones.now others.now) }
{
    let mut found = Vec::new(alloc);
    push_ports(&mut found, ones, others)?;
    Ok(found)
}
