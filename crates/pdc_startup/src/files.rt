//! The files of a concentrator.
ghost use Rattle.std.specs.Prelude.{◌≡◌, IfErr, IfOk, string_bytes};
ghost use Rattle.pdc_settings.specs.Document.{IsDocumentOf};
ghost use Rattle.pdc_sockets.specs.Concentrator.{IsMerger, IsNode};
ghost use Rattle.pdc_startup.specs.Faults.{IsOfMark, IsOfSettings};
ghost use Rattle.pdc_startup.specs.Said.{Says};

use crate::begun::Begun;
use crate::described::Described;
use crate::fault::{LoadFault, ServiceFault};
use pdc_disk::FileDisk;
use pdc_mark::DiskMark;
use pdc_settings::{Document, MergerSettings, Network, NodeSettings, SettingsFault};
use pdc_sockets::Concentrator;
use std::alloc::Global;
use std::fs::File;
use std::io::ErrorKind;
use std::rt::Files;
use std::{fs, io};

/// The text of a settings file; one that is not UTF-8 is no TOML.
pub fn read_settings_text<R: Files<File = File> + AllocGlobal>(
    rt: &R,
    file: &str,
) -> Result<String, LoadFault> {
    let bytes = fs::read(rt, file).map_err(LoadFault::Unread)?;
    match String::from_utf8(bytes) {
        Ok(text) => Ok(text),
        Err(_) => Err(LoadFault::Refused(SettingsFault::Toml)),
    }
}

/// What a settings file says whose text and document are these, and which describes this concentrator.
fn describe(
    alloc: Global,
    text: String,
    document: Document,
    concentrator: Concentrator,
) -> Result<Described, LoadFault>
    requires parsed { IsDocumentOf (string_bytes text) document }
    requires said { ∥ Says (string_bytes text) concentrator ∥₁ }
    ensures same { IfOk result (λ described. described.concentrator ≡ concentrator) }
    ensures faults { IfErr result IsOfSettings }
{
    let network = Network::from_document(alloc, &document).map_err(LoadFault::Refused)?;
    Ok(Described {
        text,
        document,
        concentrator,
        network,
    })
}

/// What this text says, which describes a node.
pub fn node_of(alloc: Global, text: String) -> Result<Described, LoadFault>
    ensures node { IfOk result (λ described. IsNode described.concentrator) }
    ensures faults { IfErr result IsOfSettings }
{
    let document = Document::parse(alloc, text.as_str()).map_err(LoadFault::Refused)?;
    let settings = NodeSettings::from_document(&document).map_err(LoadFault::Refused)?;
    describe(alloc, text, document, Concentrator::Node(settings))
}

/// What this text says, which describes the merger.
pub fn merger_of(alloc: Global, text: String) -> Result<Described, LoadFault>
    ensures merger { IfOk result (λ described. IsMerger described.concentrator) }
    ensures faults { IfErr result IsOfSettings }
{
    let document = Document::parse(alloc, text.as_str()).map_err(LoadFault::Refused)?;
    let settings = MergerSettings::from_document(&document).map_err(LoadFault::Refused)?;
    describe(alloc, text, document, Concentrator::Merger(settings))
}

/// Why a mark file was not opened: one whose lock another process has is in use.
fn unopened(error: io::Error) -> ServiceFault
    ensures { IsOfMark result }
{
    if error.kind() == ErrorKind::WouldBlock {
        ServiceFault::MarkInUse
    } else {
        ServiceFault::MarkUnopened(error)
    }
}

/// The mark in this file, of the concentrator with this id and rate, with its next start stored.
pub fn begin_mark<R: Files<File = File>>(
    rt: &R,
    file: &str,
    id: u16,
    rate: u16,
) -> Result<Begun<DiskMark<FileDisk>>, ServiceFault>
    ensures faults { IfErr result IsOfMark }
{
    let disk = FileDisk::open(rt, file).map_err(unopened)?;
    match DiskMark::open(disk, id, rate) {
        Ok(mark) => Begun::new(mark).map_err(ServiceFault::Mark),
        Err(refused) => Err(ServiceFault::Mark(refused.fault)),
    }
}
