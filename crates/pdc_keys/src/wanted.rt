//! What a settings text lacks.
ghost use Rattle.std.specs.Prelude.{◌≡◌};
ghost use Rattle.std.specs.Net.Addr.{IsV4And, ipv4_octets};
ghost use Rattle.pdc_keys.specs.Table.{least_in, least_of, most_in, most_of, name_of, owner_of};
ghost use Rattle.pdc_keys.specs.Table.{choice_of, octets_in, text_in, usual_in, usual_octets_of};
ghost use Rattle.pdc_keys.specs.Table.{usual_of, usual_text_of, words_in, words_of};

use crate::key::{Choice, Key, Range};
use crate::owner::Owner;
use crate::table::line_of;
use std::error::Error;
use std::fmt;
use std::fmt::{Display, Formatter};
use std::net::IpAddr;

/// A key that is missing, or whose value is of another type or out of its range. Each prints the key and what was wanted.
#[derive(Clone, Copy, Debug, PartialEq, Eq)]
pub enum Wanted {
    Id,
    Rate,
    Nominal,
    TimeBase,
    Wait,
    WaitKind,
    Window,
    Ahead,
    Lead,
    LayoutEvery,
    OutPort,
    SessionPort,
    Tick,
    TickMs,
    Pmus,
    PmuStream,
    PmuSource,
    PmuTimeBase,
    PmuPort,
    NoNodes,
    Nodes,
    NodeId,
    NodeTimeBase,
    NodePort,
    Address,
    Outputs,
    Ttl,
    ReceiveBuffer,
    Tcp,
    Commands,
    From,
    MostCount,
    Sessions,
    MetricsPort,
}

impl Wanted {
    /// The line of the table that says all of the key.
    pub fn line(self) -> Key
        ensures name { result.name.now ≡ name_of self }
        ensures owner { result.owner ≡ owner_of self }
        ensures least { least_in result.values ≡ least_of self }
        ensures most { most_in result.values ≡ most_of self }
        ensures usual { usual_in result.usual ≡ usual_of self }
        ensures text { text_in result.usual ≡ usual_text_of self }
        ensures octets { octets_in result.usual ≡ usual_octets_of self }
        ensures words { words_in result.values ≡ words_of self }
    {
        line_of(self)
    }

    /// The key.
    pub fn key(self) -> &'static str
        ensures { result.now ≡ name_of self }
    {
        self.line().name
    }

    /// Whose key it is.
    pub fn owner(self) -> Owner
        ensures { result ≡ owner_of self }
    {
        self.line().owner
    }

    /// The least number that may stand there, or the fewest items; 0 where neither is counted.
    pub fn least(self) -> u64
        ensures { result ≡ least_of self }
    {
        self.line().values.least()
    }

    /// The greatest number that may stand there, or the most items; 0 where neither is counted.
    pub fn most(self) -> u64
        ensures { result ≡ most_of self }
    {
        self.line().values.most()
    }

    /// The number that holds where the key is left out; 0 where none does.
    pub fn usual(self) -> u64
        ensures { result ≡ usual_of self }
    {
        self.line().usual.number()
    }

    /// The text that holds where the key is left out; an empty one where none does.
    pub fn usual_text(self) -> &'static str
        ensures { result.now ≡ usual_text_of self }
    {
        self.line().usual.text()
    }

    /// The address that holds where the key is left out; 0.0.0.0 where none does.
    pub fn usual_address(self) -> IpAddr
        ensures { IsV4And result (λ v4. ipv4_octets v4 ≡ usual_octets_of self) }
    {
        self.line().usual.address()
    }

    /// Which of its two words a text is; none where it has no words.
    pub fn choice(self, text: &str) -> Option<Choice>
        ensures { result ≡ choice_of (words_of self) text.now }
    {
        self.line().values.choice(text)
    }

    /// What must stand at it, as a refusal says it.
    pub fn range(self) -> Range {
        self.line().range()
    }
}

impl Display for Wanted {
    fn fmt<W: fmt::Write>(&self, f: &mut Formatter<W>) -> fmt::Result {
        let (key, owner, range) = (self.key(), self.owner(), self.range());
        write!(f, "{key}{owner}: {range}")
    }
}

impl Error for Wanted {}
