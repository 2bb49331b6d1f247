//! What a concentrator is started with, and by which steps.
ghost use Rattle.std.specs.Prelude.{string_bytes};
ghost use Rattle.pdc_settings.specs.Document.{IsDocumentOf};
ghost use Rattle.pdc_settings.specs.Said.{SaysNetwork};
ghost use Rattle.pdc_startup.specs.Said.{Says};

use crate::recorded::RecordFile;
use pdc_settings::{Document, Network};
use pdc_sockets::Concentrator;

/// The files of a concentrator, by their names.
#[derive(Clone, Copy)]
pub struct Files<'a> {
    /// Its settings.
    pub settings: &'a str,
    /// Its mark.
    pub mark: &'a str,
    /// Where its life is recorded, if it is.
    pub record: Option<RecordFile<'a>>,
}

/// What a settings file says: each value is the one that its text says.
#[derive(Drop)]
pub struct Described {
    /// Its text.
    pub text: String,
    /// The document that its text is, out of which the rest was read.
    pub document: Document,
    /// The node or the merger that it describes.
    pub concentrator: Concentrator,
    /// Where that is on the network.
    pub network: Network,
    pub ghost parsed: { ∥ IsDocumentOf (string_bytes text) document ∥₁ },
    pub ghost said: { ∥ Says (string_bytes text) concentrator ∥₁ },
    pub ghost network_said: { ∥ SaysNetwork (string_bytes text) network ∥₁ },
}

/// A step of a startup, in the order in which they are tried, and with which files.
#[derive(Clone, Copy)]
pub enum Step<'a> {
    /// The settings are read.
    ReadSettings(Files<'a>),
    /// The mark is opened, and its next start is stored.
    BeginMark(Files<'a>),
    /// The first file of the record is begun, where the life is recorded.
    BeginRecord(Files<'a>),
    /// A source is opened for each stream.
    OpenSources,
    /// The sink of the frames is opened.
    OpenSink,
    /// The listener of the sessions is opened.
    OpenListener,
    /// The listener of the counters is opened, where they are served.
    OpenMetrics,
}
