//! What an arrival is answered, and all causes of refusal with their texts and numbers. Counters, records, metrics and the journal have
//! them from here.
ghost use Rattle.std.specs.Prelude.{◌≡◌, ◌<◌, ◌≤◌, MatchOption};
ghost use Rattle.pdc_life.specs.Causes.{CausesAreToldApart, number_of};
ghost use Rattle.pdc_life.specs.Texts.{outcome_of, refusal};

use pdc_row::{CfgFault, FrameFault};

/// How many causes of refusal there are.
pub const CAUSES: usize = 27;

/// What an arrival is answered.
#[derive(Clone, Copy, Debug, PartialEq, Eq)]
pub enum Outcome {
    /// Data that was taken in time.
    Taken,
    /// A configuration that is new. A tick adopts it once its count is cleared, unless a greater one came.
    Candidate,
    /// A configuration that is held already.
    Known,
    /// None of these.
    Refused(Refusal),
}

/// Why an arrival is refused: the first cause that holds, in the order that the kind of core and of frame has.
#[derive(Clone, Copy, Debug, PartialEq, Eq)]
pub enum Refusal {
    /// The bytes are no frame.
    NoFrame(FrameFault),
    /// The frame is of another stream.
    WrongId,
    /// The frame is neither data nor a CFG-2 frame, or its payload is no configuration, or not one of as many sections.
    NoConfiguration(CfgFault),
    /// The configuration has another TIME_BASE than the settings.
    WrongTimeBase,
    /// The configuration has another DATA_RATE than the settings.
    WrongRate,
    /// The section is of another source than the settings name.
    WrongSource,
    /// The first section of a node's layout is not the node's own.
    BadOwnBlock,
    /// Another section's source is not in the table, or not in its order.
    UnknownSource,
    /// The stamp is below the held one of the stream.
    OldStamp,
    /// The section's count is below the opening count, or below the greatest one held of the PMU.
    StaleCount,
    /// Another section of the same count is held.
    CountConflict,
    /// The data's tag stands for no instant.
    BadTag,
    /// No configuration is in force for the stream.
    NoConfig,
    /// The data does not have the length that its sections say.
    WrongLength,
    /// The data bears another stamp than the held one of the stream.
    OtherStamp,
    /// The instant is not above the last one closed.
    Late,
    /// The instant is too far above now.
    Ahead,
    /// Some held instant is the window or more away.
    OutOfWindow,
    /// Data was taken of the stream for the instant, and it was the same.
    Duplicate,
    /// Data was taken of the stream for the instant, and it was other.
    Conflict,
}

impl Outcome {
    /// Its name, or the code and the name of the refusal.
    pub fn text(self) -> &'static str
        ensures { result.now ≡ outcome_of self }
    {
        match self {
            Outcome::Taken => "Taken",
            Outcome::Candidate => "Candidate",
            Outcome::Known => "Known",
            Outcome::Refused(cause) => cause.text(),
        }
    }
}

impl Refusal {
    /// All causes, in the order in which they are printed: by their codes.
    pub const ALL: [Refusal; 27] = [
        Refusal::NoFrame(FrameFault::Short),
        Refusal::NoFrame(FrameFault::BadSync),
        Refusal::NoFrame(FrameFault::SizeMismatch),
        Refusal::NoFrame(FrameFault::BadCheck),
        Refusal::NoFrame(FrameFault::BadId),
        Refusal::WrongId,
        Refusal::NoConfiguration(CfgFault::WrongKind),
        Refusal::NoConfiguration(CfgFault::Cut),
        Refusal::NoConfiguration(CfgFault::TooMany),
        Refusal::NoConfiguration(CfgFault::FloatFormat),
        Refusal::WrongTimeBase,
        Refusal::WrongRate,
        Refusal::WrongSource,
        Refusal::StaleCount,
        Refusal::CountConflict,
        Refusal::NoConfig,
        Refusal::WrongLength,
        Refusal::BadTag,
        Refusal::Late,
        Refusal::Ahead,
        Refusal::OutOfWindow,
        Refusal::Duplicate,
        Refusal::Conflict,
        Refusal::OldStamp,
        Refusal::OtherStamp,
        Refusal::BadOwnBlock,
        Refusal::UnknownSource,
    ];

    /// Its code and its name.
    pub fn text(self) -> &'static str
        ensures { result.now ≡ refusal self }
    {
        match self {
            Refusal::NoFrame(fault) => fault.text(),
            Refusal::WrongId => "I1 WrongId",
            Refusal::NoConfiguration(fault) => fault.text(),
            Refusal::WrongTimeBase => "C5 WrongTimeBase",
            Refusal::WrongRate => "C6 WrongRate",
            Refusal::WrongSource => "C7 WrongSource",
            Refusal::StaleCount => "C8 StaleCount",
            Refusal::CountConflict => "C9 CountConflict",
            Refusal::NoConfig => "B1 NoConfig",
            Refusal::WrongLength => "B2 WrongLength",
            Refusal::BadTag => "B3 BadTag",
            Refusal::Late => "B4 Late",
            Refusal::Ahead => "B5 Ahead",
            Refusal::OutOfWindow => "B6 OutOfWindow",
            Refusal::Duplicate => "B7 Duplicate",
            Refusal::Conflict => "B8 Conflict",
            Refusal::OldStamp => "G1 OldStamp",
            Refusal::OtherStamp => "G2 OtherStamp",
            Refusal::BadOwnBlock => "G3 BadOwnBlock",
            Refusal::UnknownSource => "G4 UnknownSource",
        }
    }

    /// Its number, from 0: its place among counters, and in the entries of a record.
    pub fn number(self) -> usize
        ensures number { result ≡ number_of self }
        ensures most { result < CAUSES }
    {
        match self {
            Refusal::NoFrame(FrameFault::Short) => 0,
            Refusal::NoFrame(FrameFault::BadSync) => 1,
            Refusal::NoFrame(FrameFault::SizeMismatch) => 2,
            Refusal::NoFrame(FrameFault::BadCheck) => 3,
            Refusal::NoFrame(FrameFault::BadId) => 4,
            Refusal::WrongId => 5,
            Refusal::NoConfiguration(CfgFault::WrongKind) => 6,
            Refusal::NoConfiguration(CfgFault::Cut) => 7,
            Refusal::NoConfiguration(CfgFault::TooMany) => 8,
            Refusal::NoConfiguration(CfgFault::FloatFormat) => 9,
            Refusal::WrongTimeBase => 10,
            Refusal::WrongRate => 11,
            Refusal::WrongSource => 12,
            Refusal::BadOwnBlock => 13,
            Refusal::UnknownSource => 14,
            Refusal::OldStamp => 15,
            Refusal::StaleCount => 16,
            Refusal::CountConflict => 17,
            Refusal::BadTag => 18,
            Refusal::NoConfig => 19,
            Refusal::WrongLength => 20,
            Refusal::OtherStamp => 21,
            Refusal::Late => 22,
            Refusal::Ahead => 23,
            Refusal::OutOfWindow => 24,
            Refusal::Duplicate => 25,
            Refusal::Conflict => 26,
        }
    }

    /// The cause of this number.
    pub fn of_number(number: usize) -> Option<Refusal>
        ensures { MatchOption result (CAUSES ≤ number) (λ refusal. number_of refusal ≡ number) }
    {
        match number {
            0 => Some(Refusal::NoFrame(FrameFault::Short)),
            1 => Some(Refusal::NoFrame(FrameFault::BadSync)),
            2 => Some(Refusal::NoFrame(FrameFault::SizeMismatch)),
            3 => Some(Refusal::NoFrame(FrameFault::BadCheck)),
            4 => Some(Refusal::NoFrame(FrameFault::BadId)),
            5 => Some(Refusal::WrongId),
            6 => Some(Refusal::NoConfiguration(CfgFault::WrongKind)),
            7 => Some(Refusal::NoConfiguration(CfgFault::Cut)),
            8 => Some(Refusal::NoConfiguration(CfgFault::TooMany)),
            9 => Some(Refusal::NoConfiguration(CfgFault::FloatFormat)),
            10 => Some(Refusal::WrongTimeBase),
            11 => Some(Refusal::WrongRate),
            12 => Some(Refusal::WrongSource),
            13 => Some(Refusal::BadOwnBlock),
            14 => Some(Refusal::UnknownSource),
            15 => Some(Refusal::OldStamp),
            16 => Some(Refusal::StaleCount),
            17 => Some(Refusal::CountConflict),
            18 => Some(Refusal::BadTag),
            19 => Some(Refusal::NoConfig),
            20 => Some(Refusal::WrongLength),
            21 => Some(Refusal::OtherStamp),
            22 => Some(Refusal::Late),
            23 => Some(Refusal::Ahead),
            24 => Some(Refusal::OutOfWindow),
            25 => Some(Refusal::Duplicate),
            26 => Some(Refusal::Conflict),
            _ => None,
        }
    }
}

/// Each cause has a number of its own: no counter counts two.
pub fn causes_are_told_apart()
    ensures { CausesAreToldApart }
{}
