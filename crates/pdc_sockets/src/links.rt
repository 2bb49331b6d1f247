//! The links of a concentrator to the senders of its streams.
ghost use Rattle.std.specs.Prelude.{◌≡◌, ◌≤◌, ◌<◌, IfErr, IfOk, IfSome, None, [], length};
ghost use Rattle.std.specs.Prelude.{IsSomeAnd, is_some, vec_len};
ghost use Rattle.pdc_network.specs.Limit.{most_of};
ghost use Rattle.pdc_network.specs.Linked.{IsFreshLink, socket_of, source_of};
ghost use Rattle.pdc_sockets.specs.Concentrator.{streams_of};
ghost use Rattle.pdc_sockets.specs.Faults.{IsOfLinks};
ghost use Rattle.pdc_sockets.specs.Links.{AreLinksOf, ComesSo, IsLinkOf, IsSourceAt, ports_of};
ghost use Rattle.pdc_sockets.specs.Silent.{AreSilent};

use crate::concentrator::Concentrator;
use crate::fault::OpenFault;
use crate::places::{asked_at, unopened};
use crate::silent::Silent;
use crate::sockets::Sockets;
use pdc_frame::StreamId;
use pdc_journal::{Journal, Tally};
use pdc_network::{
    Addresses, Connection, CountLimit, Dial, Link, Port, Receive, TcpDialer, UdpSource,
};
use pdc_ports::Source;
use pdc_settings::{Input, Network};
use std::alloc::Global;
use std::net::{Net, TcpListener, TcpStream};
use std::rt::Clock;
use std::sync::Wait;

/// Where it is told what happens to the streams, and the tally of each, in their order.
#[derive(Clone, Copy)]
pub struct Tallies<'a> {
    /// The lines that are told.
    pub journal: &'a Journal,
    /// The tallies.
    pub each: &'a [Tally],
}

/// A stream of the settings: its id, the port that they name for it, where it is told what happens to it, and its tally.
#[derive(Drop)]
struct Stream<'a> {
    id: StreamId,
    port: u16,
    journal: &'a Journal,
    tally: &'a Tally,
}

/// The stream with this number, counted from 0, that comes to this port; none where no such stream is taken.
fn stream_numbered<'a>(
    concentrator: &Concentrator,
    tallies: Tallies<'a>,
    number: usize,
    port: u16,
) -> Option<Stream<'a>>
    ensures { IfSome result (λ stream. stream.port ≡ port) }
{
    match (concentrator.stream_id(number), tallies.each.get(number)) {
        (Some(id), Some(tally)) => Some(Stream {
            id,
            port,
            journal: tallies.journal,
            tally,
        }),
        _ => None,
    }
}

/// A source at this port, with the buffer that the settings ask for, which reads the address alone that the stream's table names.
fn open_source<S: Sockets, R: Net>(
    sockets: &S,
    rt: &R,
    network: &Network,
    input: &Input,
    port: u16,
) -> Result<UdpSource<S::Receiver>, OpenFault>
    ensures opened { IfOk result (IsSourceAt S.receives network.now port input.now) }
    ensures fresh { IfOk result (λ source. S.Receiver.received (socket_of source) []) }
    ensures faults { IfErr result IsOfLinks }
{
    match sockets.source(rt, network.address, port, network.receive_buffer) {
        Ok(mut source) => {
            source.read_only(input.from);
            Ok(source)
        }
        Err(error) => Err(unopened(network.address, port, error)),
    }
}

/// The link over a connection to one of these addresses.
fn open_connection<
    'a,
    S: Sockets,
    R: Net<Listener = TcpListener, Stream = TcpStream> + Clock + Wait,
>(
    rt: &'a R,
    alloc: Global,
    stream: &Stream<'a>,
    to: Addresses,
) -> Result<Link<'a, R, S::Receiver>, OpenFault>
    ensures fresh { IfOk result (λ link. IsFreshLink S.Receiver.received
        ⟦<TcpDialer<'a, R> as Dial>⟧.dialed link) }
    ensures comes { IfOk result (λ link. source_of link ≡ None) }
    ensures faults { IfErr result IsOfLinks }
{
    match Connection::new(rt, alloc, stream.journal, stream.tally, stream.id, to) {
        Ok(connection) => Ok(Link::over(connection)),
        Err(_) => Err(OpenFault::NoMemory),
    }
}

/// The link to the port of a stream.
fn open_port<'a, S: Sockets, R: Net<Listener = TcpListener, Stream = TcpStream> + Clock + Wait>(
    sockets: &S,
    rt: &'a R,
    network: &Network,
    stream: &Stream<'a>,
    input: &Input,
) -> Result<Link<'a, R, S::Receiver>, OpenFault>
    ensures fresh { IfOk result (λ link. IsFreshLink S.Receiver.received
        ⟦<TcpDialer<'a, R> as Dial>⟧.dialed link) }
    ensures comes { IfOk result (λ link. IsSomeAnd (source_of link)
        (IsSourceAt S.receives network.now stream.now.port input.now)) }
    ensures faults { IfErr result IsOfLinks }
{
    let commands = match asked_at(rt, stream.id, &input.commands)? {
        Some(host) => Some(host.current()),
        None => None,
    };
    let source = open_source(sockets, rt, network, input, stream.port)?;
    Ok(Link::at(Port::new(rt, stream.tally, source, stream.id, commands)))
}

/// The link to the sender of the stream, without its limit: a connection where it is asked for over TCP, and else its port. It said nothing
/// yet.
fn open_way<'a, S: Sockets, R: Net<Listener = TcpListener, Stream = TcpStream> + Clock + Wait>(
    sockets: &S,
    rt: &'a R,
    alloc: Global,
    network: &Network,
    stream: &Stream<'a>,
    input: &Input,
) -> Result<Link<'a, R, S::Receiver>, OpenFault>
    ensures fresh { IfOk result (λ link. IsFreshLink S.Receiver.received
        ⟦<TcpDialer<'a, R> as Dial>⟧.dialed link) }
    ensures comes { IfOk result (ComesSo S.receives network.now stream.now.port input.now
        (is_some input.now.tcp)) }
    ensures faults { IfErr result IsOfLinks }
{
    match asked_at(rt, stream.id, &input.tcp)? {
        Some(to) => open_connection::<S, R>(rt, alloc, stream, to),
        None => open_port(sockets, rt, network, stream, input),
    }
}

/// Which configurations of a stream are left out, where its table says so.
fn limit_of<'a, R: Clock + Wait>(
    rt: &'a R,
    alloc: Global,
    stream: &Stream<'a>,
    input: &Input,
) -> Option<CountLimit<'a, R>>
    ensures { most_of result ≡ input.now.most_count }
{
    match input.most_count {
        Some(most) => Some(CountLimit::new(rt, alloc, stream.journal, stream.tally, most)),
        None => None,
    }
}

/// The link to the sender of the stream, which leaves out configurations with a count above the one that its table allows.
fn open_link<'a, S: Sockets, R: Net<Listener = TcpListener, Stream = TcpStream> + Clock + Wait>(
    sockets: &S,
    rt: &'a R,
    alloc: Global,
    network: &Network,
    stream: &Stream<'a>,
    input: &Input,
) -> Result<Link<'a, R, S::Receiver>, OpenFault>
    ensures silent { IfOk result (λ link.
        ⟦<Link<'a, R, S::Receiver, TcpDialer<'a, R>> as Source>⟧.told link []) }
    ensures named { IfOk result (IsLinkOf S.receives network.now stream.now.port input.now) }
    ensures faults { IfErr result IsOfLinks }
{
    let mut link = open_way(sockets, rt, alloc, network, stream, input)?;
    link.set_limit(limit_of(rt, alloc, stream, input));
    Ok(link)
}

/// A link for each of these ports, in their order.
fn open_all<'a, S: Sockets, R: Net<Listener = TcpListener, Stream = TcpStream> + Clock + Wait>(
    sockets: &S,
    rt: &'a R,
    alloc: Global,
    network: &Network,
    concentrator: &Concentrator,
    tallies: Tallies<'a>,
    ports: &[u16],
) -> Result<Vec<Link<'a, R, S::Receiver>>, OpenFault>
    ensures links { IfOk result (λ links. vec_len links ≡ length ports.now) }
    ensures silent { IfOk result (λ links. AreSilent
        ⟦<Link<'a, R, S::Receiver, TcpDialer<'a, R>> as Source>⟧.told links.items) }
    ensures named { IfOk result (λ links. AreLinksOf S.receives network.now
        network.now.inputs.items ports.now links.items) }
    ensures faults { IfErr result IsOfLinks }
{
    let mut links = Silent::new(alloc);
    for port in ports {
        let number = links.len();
        let Some(stream) = stream_numbered(concentrator, tallies, number, *port) else {
            return Err(OpenFault::NoMemory);
        };
        let Some(input) = network.inputs.get(number) else {
            return Err(OpenFault::NoMemory);
        };
        let link = open_link(sockets, rt, alloc, network, &stream, input)?;
        match links.push(link) {
            Ok(()) => {}
            Err(_) => return Err(OpenFault::NoMemory),
        }
    }
    Ok(links.into_sources())
}

/// A link to the sender of each stream, in their order. None of them said anything yet.
///
/// # Errors
///
/// A port cannot be opened, a place is not known, or memory ran out.
pub fn open_links<
    'a,
    S: Sockets,
    R: Net<Listener = TcpListener, Stream = TcpStream> + Clock + Wait,
>(
    sockets: &S,
    rt: &'a R,
    alloc: Global,
    network: &Network,
    concentrator: &Concentrator,
    tallies: Tallies<'a>,
) -> Result<Vec<Link<'a, R, S::Receiver>>, OpenFault>
    ensures links { IfOk result (λ links. vec_len links ≡ streams_of concentrator.now) }
    ensures silent { IfOk result (λ links. AreSilent
        ⟦<Link<'a, R, S::Receiver, TcpDialer<'a, R>> as Source>⟧.told links.items) }
    ensures named { IfOk result (λ links. AreLinksOf S.receives network.now
        network.now.inputs.items (ports_of concentrator.now) links.items) }
    ensures faults { IfErr result IsOfLinks }
{
    match concentrator {
        Concentrator::Node(settings) => open_all(
            sockets,
            rt,
            alloc,
            network,
            concentrator,
            tallies,
            settings.ports.as_slice(),
        ),
        Concentrator::Merger(settings) => {
            open_all(
                sockets,
                rt,
                alloc,
                network,
                concentrator,
                tallies,
                &[settings.first_port, settings.second_port],
            )
        }
    }
}
