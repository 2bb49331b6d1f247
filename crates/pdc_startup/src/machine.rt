//! The steps of a startup, as a machine tries them.
ghost use Rattle.std.specs.Prelude.{◌≡◌, List, IfErr, IfOk, [], ◌∷◌, vec_len};
ghost use Rattle.pdc_startup.specs.Begun.{begun_mark};
ghost use Rattle.pdc_sockets.specs.Concentrator.{IsMerger, IsNode, streams_of};
ghost use Rattle.pdc_startup.specs.Faults.{IsOfFile, IsOfListener, IsOfMark, IsOfRecord};
ghost use Rattle.pdc_startup.specs.Faults.{IsOfSink, IsOfSources};
ghost use Rattle.pdc_startup.specs.Steps.{Attempt, Tells, attempt, beginning, reading};
ghost use Rattle.pdc_sockets.specs.Silent.{AreSilent};
ghost use Rattle.pdc_startup.specs.declared.described.Step.TheVariants.{BeginRecord};
ghost use Rattle.pdc_startup.specs.declared.described.Step.TheVariants.{OpenListener};
ghost use Rattle.pdc_startup.specs.declared.described.Step.TheVariants.{OpenMetrics, OpenSink};
ghost use Rattle.pdc_startup.specs.declared.described.Step.TheVariants.{OpenSources};

use crate::begun::Begun;
use crate::described::{Described, Files};
use crate::fault::{ServiceFault, unopened};
use crate::files::{begin_mark, merger_of, node_of, read_settings_text};
use crate::observing::Observed;
use crate::recorded::open_record;
use crate::system_outputs::SystemOutputs;
use pdc_disk::FileDisk;
use pdc_mark::{DiskMark, Mark};
use pdc_ports::Source;
use pdc_recording::{Series, Shelf};
use pdc_sockets::{
    Link, Outputs, Receive, SystemSockets, Tallies, TcpDialer, open_links, open_listener,
    open_metrics, open_outputs,
};
use std::fs::File;
use std::net::{Net, TcpListener, TcpStream, UdpSocket};
use std::rt::{Clock, Files as HostFiles};
use std::sync::Wait;

/// The machine that a concentrator starts on: each call tries a step of a startup, whose fault is one of the step's own. It may tell what was
/// tried: in `tried before now attempts` exactly these steps, in order, from the one state to the other. A machine that tells nothing says that
/// of any steps. Its marks and its outputs are whatever it has.
pub trait Machine {
    /// The mark of a concentrator.
    type Mark: Mark + Drop;

    /// Where its frames go.
    type Outputs: Outputs + Send + Drop;

    /// What datagrams come to.
    type Socket: Receive + Send + Drop;

    ghost tried: { Self → Self → List Attempt → Type 0 };

    // Of outputs as they were opened.
    ghost fresh: { Self.Outputs → Type 0 };

    // From a state to itself nothing was tried.
    ghost nothing: { (machine : Self) → tried machine machine [] };

    /// Reads the settings of a node.
    ///
    /// # Errors
    ///
    /// The file cannot be read, or it is no settings of a node.
    fn read_node<R: HostFiles<File = File> + AllocGlobal>(
        &mut self,
        rt: &R,
        files: &Files<'_>,
    ) -> Result<Described, ServiceFault>
        ensures node { IfOk result (λ described. IsNode described.concentrator) }
        ensures faults { IfErr result IsOfFile }
        ensures told { Tells tried self.old self.new (reading files.now result ∷ []) };

    /// Reads the settings of the merger.
    ///
    /// # Errors
    ///
    /// The file cannot be read, or it is no settings of the merger.
    fn read_merger<R: HostFiles<File = File> + AllocGlobal>(
        &mut self,
        rt: &R,
        files: &Files<'_>,
    ) -> Result<Described, ServiceFault>
        ensures merger { IfOk result (λ described. IsMerger described.concentrator) }
        ensures faults { IfErr result IsOfFile }
        ensures told { Tells tried self.old self.new (reading files.now result ∷ []) };

    /// Opens the mark, and stores its next start.
    ///
    /// # Errors
    ///
    /// The file cannot be opened, or another process has it; it is no mark of this concentrator, or no start can be stored.
    fn begin_mark<R: HostFiles<File = File>>(
        &mut self,
        rt: &R,
        files: &Files<'_>,
        described: &Described,
    ) -> Result<Begun<Self::Mark>, ServiceFault>
        ensures faults { IfErr result IsOfMark }
        ensures told { Tells tried self.old self.new
            (beginning files.now described.now (λ begun. Self.Mark.stored (begun_mark begun))
            result ∷ []) };

    /// Begins the record of a life with this mark, where it is recorded.
    ///
    /// # Errors
    ///
    /// The first file cannot be made or written.
    fn open_record<'a, M: Mark + Drop, R: Clock + Shelf + AllocGlobal>(
        &mut self,
        rt: &R,
        files: &Files<'a>,
        described: &'a Described,
        mark: &Begun<M>,
    ) -> Result<Option<Series<'a>>, ServiceFault>
        ensures faults { IfErr result IsOfRecord }
        ensures told { Tells tried self.old self.new
            (attempt (BeginRecord files.now) described.now result ∷ []) };

    /// Opens a link to the sender of each stream, in their order.
    ///
    /// # Errors
    ///
    /// A port cannot be opened, a place is not known, or memory ran out.
    fn open_links<
        'a,
        R: Net<Listener = TcpListener, Stream = TcpStream> + Clock + Wait + AllocGlobal,
    >(
        &mut self,
        rt: &'a R,
        described: &Described,
        observed: &'a Observed,
    ) -> Result<Vec<Link<'a, R, Self::Socket>>, ServiceFault>
        ensures links { IfOk result (λ links. vec_len links ≡
            streams_of described.now.concentrator) }
        // They said nothing yet.
        ensures silent { IfOk result (λ links. AreSilent
            ⟦<Link<'a, R, Self::Socket, TcpDialer<'a, R>> as Source>⟧.told links.items) }
        ensures faults { IfErr result IsOfSources }
        ensures told { Tells tried self.old self.new (attempt OpenSources described.now result ∷
            []) };

    /// Opens where frames go: the port of the loopback, and the further destinations.
    ///
    /// # Errors
    ///
    /// A port cannot be opened, a destination is not known, or memory ran out.
    fn open_outputs<R: Net + AllocGlobal>(
        &mut self,
        rt: &R,
        described: &Described,
    ) -> Result<Self::Outputs, ServiceFault>
        ensures fresh { IfOk result (λ outputs. fresh outputs) }
        ensures faults { IfErr result IsOfSink }
        ensures told { Tells tried self.old self.new (attempt OpenSink described.now result ∷ []) };

    /// Opens the listener of the sessions. Its `accept` does not wait.
    ///
    /// # Errors
    ///
    /// The port cannot be opened.
    fn open_listener<R: Net<Listener = TcpListener, Stream = TcpStream>>(
        &mut self,
        rt: &R,
        described: &Described,
    ) -> Result<TcpListener, ServiceFault>
        ensures faults { IfErr result IsOfListener }
        ensures told { Tells tried self.old self.new (attempt OpenListener described.now result ∷
            []) };

    /// Opens the listener of the counters, where they are served. Its `accept` does not wait.
    ///
    /// # Errors
    ///
    /// The port cannot be opened.
    fn open_metrics<R: Net<Listener = TcpListener, Stream = TcpStream>>(
        &mut self,
        rt: &R,
        described: &Described,
    ) -> Result<Option<TcpListener>, ServiceFault>
        ensures faults { IfErr result IsOfListener }
        ensures told { Tells tried self.old self.new (attempt OpenMetrics described.now result ∷
            []) };
}

/// The machine that the program runs on. It tells nothing of what was tried.
#[derive(Drop)]
pub struct ThisMachine;

impl Machine for ThisMachine {
    type Mark = DiskMark<FileDisk>;

    type Outputs = SystemOutputs;

    type Socket = UdpSocket;

    ghost tried = { λ _ _ _. Unit {0} };

    ghost fresh = { λ _. Unit {0} };

    ghost nothing = { λ _. tt };

    fn read_node<R: HostFiles<File = File> + AllocGlobal>(
        &mut self,
        rt: &R,
        files: &Files<'_>,
    ) -> Result<Described, ServiceFault> {
        let text = read_settings_text(rt, files.settings).map_err(ServiceFault::Settings)?;
        node_of(rt.alloc(), text).map_err(ServiceFault::Settings)
    }

    fn read_merger<R: HostFiles<File = File> + AllocGlobal>(
        &mut self,
        rt: &R,
        files: &Files<'_>,
    ) -> Result<Described, ServiceFault> {
        let text = read_settings_text(rt, files.settings).map_err(ServiceFault::Settings)?;
        merger_of(rt.alloc(), text).map_err(ServiceFault::Settings)
    }

    fn begin_mark<R: HostFiles<File = File>>(
        &mut self,
        rt: &R,
        files: &Files<'_>,
        described: &Described,
    ) -> Result<Begun<DiskMark<FileDisk>>, ServiceFault> {
        let output = described.concentrator.output();
        begin_mark(rt, files.mark, output.id.value, output.rate)
    }

    fn open_record<'a, M: Mark + Drop, R: Clock + Shelf + AllocGlobal>(
        &mut self,
        rt: &R,
        files: &Files<'a>,
        described: &'a Described,
        mark: &Begun<M>,
    ) -> Result<Option<Series<'a>>, ServiceFault> {
        match files.record {
            Some(record) => Ok(Some(open_record(rt, rt.alloc(), record, described, mark)?)),
            None => Ok(None),
        }
    }

    fn open_links<
        'a,
        R: Net<Listener = TcpListener, Stream = TcpStream> + Clock + Wait + AllocGlobal,
    >(
        &mut self,
        rt: &'a R,
        described: &Described,
        observed: &'a Observed,
    ) -> Result<Vec<Link<'a, R>>, ServiceFault> {
        let (network, concentrator) = (&described.network, &described.concentrator);
        let tallies = Tallies {
            journal: &observed.journal,
            each: observed.tallies.as_slice(),
        };
        open_links(
            &SystemSockets,
            rt,
            rt.alloc(),
            network,
            concentrator,
            tallies,
        )
        .map_err(unopened)
    }

    fn open_outputs<R: Net + AllocGlobal>(
        &mut self,
        rt: &R,
        described: &Described,
    ) -> Result<SystemOutputs, ServiceFault> {
        let (network, concentrator) = (&described.network, &described.concentrator);
        match open_outputs(&SystemSockets, rt, rt.alloc(), network, concentrator) {
            Ok(sockets) => Ok(SystemOutputs::new(sockets)),
            Err(fault) => Err(unopened(fault)),
        }
    }

    fn open_listener<R: Net<Listener = TcpListener, Stream = TcpStream>>(
        &mut self,
        rt: &R,
        described: &Described,
    ) -> Result<TcpListener, ServiceFault> {
        open_listener(
            &SystemSockets,
            rt,
            &described.network,
            &described.concentrator,
        )
        .map_err(unopened)
    }

    fn open_metrics<R: Net<Listener = TcpListener, Stream = TcpStream>>(
        &mut self,
        rt: &R,
        described: &Described,
    ) -> Result<Option<TcpListener>, ServiceFault> {
        open_metrics(&SystemSockets, rt, &described.network).map_err(unopened)
    }
}
