//! What is asked of the program.
ghost use Rattle.std.specs.Prelude.{◌<◌, ◌≤◌};
ghost use Rattle.pdc_command_line.specs.declared.request.TheConstants.{MAX_RATE};

use arrayvec::ArrayVec;
use pdc_frame::StreamId;

/// The greatest data rate, in frames a second.
pub const MAX_RATE: u16 = 240;

/// The most places that a simulated PMU sends to.
pub const MAX_PLACES: usize = 16;

/// The most mebibytes of a file of a record.
pub const MAX_RECORD_SIZE: u32 = 65536;

/// How many mebibytes it has by default.
pub const RECORD_SIZE: u32 = 64;

/// The most seconds from one line of counters, or one configuration, to the next: a day.
pub const MAX_SECONDS: u32 = 86400;

/// What is asked of the program.
#[derive(Debug, Drop)]
pub enum Request<'a> {
    /// Print what the frames on standard input say.
    Show(ShowForm),
    /// Make a mark file.
    MarkInit(MarkInit<'a>),
    /// Make a mark file of version 2 out of one of version 1.
    MarkConvert(MarkConvert<'a>),
    /// Show the mark in the file of this name.
    MarkShow(&'a str),
    /// Make a mark file without the counts of another.
    MarkForget(MarkForget<'a>),
    /// Play the script on standard input.
    Play(Play<'a>),
    /// Run a node.
    Node(Running<'a>),
    /// Run the merger.
    Merge(Running<'a>),
    /// Stop the run whose control socket has this path.
    Stop(&'a str),
    /// Print how a run stands.
    Status(Status<'a>),
    /// Simulate a PMU.
    Pmu(Simulated<'a>),
    /// Print the datagrams that come to a port.
    Listen(Listen),
}

/// In which form frames are shown.
#[derive(Clone, Copy, Debug, PartialEq, Eq)]
pub enum ShowForm {
    /// Lines for people.
    Lines,
    /// A JSON object for each frame.
    Json,
    /// A row of CSV for each block of a data frame.
    Csv,
}

/// The mark file that is to be made.
#[derive(Clone, Copy, Debug)]
pub struct MarkInit<'a> {
    /// The name of the file.
    pub file: &'a str,
    /// The id of the node or merger that it is for.
    pub id: StreamId,
    /// The frames in a second, 1 to 240.
    pub rate: u16,
    pub ghost some_rate: { 0 < rate },
    pub ghost rate_fits: { rate ≤ MAX_RATE },
}

/// The mark file that is to be converted, and the one that is to be made.
#[derive(Clone, Copy, Debug)]
pub struct MarkConvert<'a> {
    /// The name of the file of version 1.
    pub old: &'a str,
    /// The name of the new file.
    pub new: &'a str,
}

/// The mark file whose counts are to be forgotten, and the one that is to be made.
#[derive(Clone, Copy, Debug)]
pub struct MarkForget<'a> {
    /// The name of the file that has the counts.
    pub old: &'a str,
    /// The name of the new file.
    pub new: &'a str,
}

/// The settings files of the world on which a script is played.
#[derive(Clone, Copy, Debug)]
pub struct Play<'a> {
    /// The name of the settings file of node A.
    pub a: &'a str,
    /// Of node B.
    pub b: &'a str,
    /// Of the merger.
    pub m: &'a str,
}

/// A node or the merger that is to run.
#[derive(Clone, Copy, Debug)]
pub struct Running<'a> {
    /// The name of the settings file.
    pub settings: &'a str,
    /// The name of the mark file.
    pub mark: &'a str,
    /// After how many ticks it ends, at least 1; if there is none, it runs until it is stopped.
    pub ticks: Option<u32>,
    /// After how many seconds counters are reported again; if there is none, they are not.
    pub every: Option<u32>,
    /// Whether only faults are reported, and counters if they are asked for.
    pub is_quiet: bool,
    /// Where it is recorded, if it is.
    pub record: Option<Record<'a>>,
    /// The path of its control socket, if it has one.
    pub control: Option<&'a str>,
}

/// A run whose counters are to be printed.
#[derive(Clone, Copy, Debug)]
pub struct Status<'a> {
    /// The path of its control socket.
    pub path: &'a str,
    /// Whether they are printed as a JSON object.
    pub is_json: bool,
}

/// The record of a run that is to be written.
#[derive(Clone, Copy, Debug)]
pub struct Record<'a> {
    /// What the names of its files begin with.
    pub name: &'a str,
    /// How many mebibytes a file has at most, 1 to 65536.
    pub size: u32,
    /// How many files stay, at least 1; if there is none, all do.
    pub keep: Option<u32>,
    /// Of how many lives the files stay, the one that begins among them, if not those of all.
    pub lives: Option<u32>,
}

/// A UDP port that is to be listened at.
#[derive(Clone, Copy, Debug)]
pub struct Listen {
    /// The number of the port, at least 1.
    pub port: u16,
    /// After how many datagrams it ends; if there is none, it goes on.
    pub count: Option<u32>,
}

/// A port of 127.0.0.1, or of another address.
#[derive(Clone, Copy, Debug, PartialEq, Eq)]
pub enum PortOrHost<'a> {
    /// The port with this number of 127.0.0.1.
    Port(u16),
    /// The place that this text names as `HOST:PORT`.
    At(&'a str),
}

/// Port 1, to fill places of a list with.
impl<'a> Default for PortOrHost<'a> {
    fn default() -> PortOrHost<'a> {
        PortOrHost::Port(1)
    }
}

/// A PMU that is to be simulated.
#[derive(Debug, Drop)]
pub struct Simulated<'a> {
    /// The stream id.
    pub id: StreamId,
    /// The frames in a second, 1 to 240.
    pub rate: u16,
    /// How many data frames are sent, at least 1.
    pub count: u32,
    /// The UDP ports that they go to, at most 16.
    pub places: ArrayVec<PortOrHost<'a>, MAX_PLACES>,
    /// The TCP port at which up to four consumers are served.
    pub tcp: Option<PortOrHost<'a>>,
    /// After how many seconds its configuration is sent again; if there is none, it is sent once.
    pub config_every: Option<u32>,
    /// Whether it is a PMU at a bus of a simulated grid.
    pub is_grid: bool,
    pub ghost some_rate: { 0 < rate },
    pub ghost rate_fits: { rate ≤ MAX_RATE },
}
