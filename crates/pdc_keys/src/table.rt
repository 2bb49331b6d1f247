//! The table of the keys: all that is said of each, a line a key.
ghost use Rattle.std.specs.Prelude.{◌≡◌};
ghost use Rattle.pdc_keys.specs.Known.{merged_node_keys, merged_pmu_keys, pmu_keys, top_keys};
ghost use Rattle.pdc_keys.specs.Table.{least_in, least_of, most_in, most_of, name_of, owner_of};
ghost use Rattle.pdc_keys.specs.Table.{names_in, octets_in, text_in, usual_in, usual_octets_of};
ghost use Rattle.pdc_keys.specs.Table.{usual_of, usual_text_of, words_in, words_of};
ghost use Rattle.pdc_keys.specs.declared.owner.KeyTable.TheVariants.{MergedNode, MergedPmu};
ghost use Rattle.pdc_keys.specs.declared.owner.KeyTable.TheVariants.{NodePmu, Top};

use crate::key::Key;
use crate::key::Usual::{AtMerger, AtNode, Is, Must, Octets, Said, Text, Unless};
use crate::key::Values::{
    Address, AddressBeside, Either, FromRate, Nothing, Number, PlaceBeside, PlaceInstead, Places,
    Tables, TwoTables, WithinFrame, Words,
};
use crate::owner::Owner;
use crate::wanted::Wanted;

/// The table. A line is the key's name in code, its name in a file, whose it is, what must stand there, what holds where it is left out, and
/// what it sets. The lines are in the order of the manual. `docs/make_settings` writes the tables of the manual by them.
macro_rules! keys {
    ($each:ident $($word:tt)*) => {
        $each! {
            $($word)*
            Id: "id", Settings, Number(1, 65534), Must, "the id of the stream that it publishes; no other stream or source has it";
            Rate: "rate", Settings, Number(1, 240), Must, "frames a second; PMUs, both nodes and the merger have the same";
            Nominal: "nominal", Settings, Either(50, 60), Must, "nominal frequency of the grid in Hz";
            TimeBase: "time_base", Settings, FromRate(16777215), Must, "counts of FRACSEC in a second of what it publishes";
            Wait: "wait", Settings, Number(1, 1000), Must, "how long an instant waits for missing data, in ticks or instants";
            WaitKind: "wait_kind", Settings, Words("relative", "absolute"), Text("relative"), "whether it waits from the first data of the instant, or from the instant itself";
            Window: "window", Settings, Number(8, 256), Must, "how many instants may be open at once";
            Ahead: "ahead", Settings, Number(0, 1000), Must, "how many instants a time tag may lie above now";
            Lead: "lead", Settings, Number(0, 1000), Is(0), "how many instants a store of the mark reserves ahead; set it to the rate";
            LayoutEvery: "layout_every", Settings, Number(1, 65535), Must, "ticks from one configuration frame to the next";
            OutPort: "out_port", Settings, Number(1, 65535), Must, "the UDP port of 127.0.0.1 that its frames go to";
            SessionPort: "session_port", Settings, Number(1, 65535), Must, "the TCP port of its sessions";
            Tick: "tick", Settings, Words("period", "whole"), Text("period"), "ticks at deadlines alone, or also when an instant is whole";
            TickMs: "tick_ms", Settings, WithinFrame(0, 999), Said("counted from the start"), "how many milliseconds behind each instant of the clock the deadlines lie";
            Address: "address", Settings, Address("10.0.1.5"), Octets(127, 0, 0, 1), "where it takes data and serves sessions; 0.0.0.0 is each address of the machine";
            Outputs: "outputs", Settings, Places(8), Said("none"), "further destinations of each frame";
            Ttl: "ttl", Settings, Number(1, 255), Is(1), "how many hops a frame to a group of IPv4 takes at most";
            ReceiveBuffer: "receive_buffer", Settings, Number(1, 1073741824), Is(4194304), "bytes of the buffer of each port that data comes to";
            Sessions: "sessions", Settings, Number(1, 64), Is(8), "how many consumers are served at once";
            MetricsPort: "metrics_port", Settings, Number(1, 65535), Said("none"), "the TCP port of 127.0.0.1 for Prometheus";
            Nodes: "node", Settings, TwoTables, AtMerger, "the tables of the nodes whose frames it merges";
            Pmus: "pmu", Settings, Tables(1, 16), Must, "the tables of the PMUs, in the order in which their blocks are published";
            PmuStream: "stream", Pmu, Number(1, 65534), Must, "the id of the PMU's frames";
            PmuSource: "source", EachPmu, Number(1, 65534), AtNode("stream"), "the id of the data in its configuration";
            NodeId: "id", Node, Number(1, 65534), Must, "the id in the settings of the node";
            PmuTimeBase: "time_base", Pmu, FromRate(16777215), Must, "counts of FRACSEC in a second of the PMU's frames";
            NodeTimeBase: "time_base", Node, FromRate(16777215), Must, "counts of FRACSEC in a second of the node's frames";
            PmuPort: "port", Pmu, Number(1, 65535), Unless("tcp"), "the UDP port that the PMU's frames come to";
            NodePort: "port", Node, Number(1, 65535), Unless("tcp"), "the UDP port that the node's frames come to";
            Tcp: "tcp", Stream, PlaceInstead, Said("none"), "connects there, and asks for the stream";
            Commands: "commands", Stream, PlaceBeside, Said("none"), "asks for the stream there, by UDP";
            From: "from", Stream, AddressBeside("10.0.0.11"), Said("everybody"), "only datagrams of this address are read";
            MostCount: "most_count", Stream, Number(1, 65535), Said("none"), "configurations with a greater count are left out";
        }
    };
}

/// What the lines say of a key. `NoNodes` has none: it says that the key of `Nodes` may not stand.
macro_rules! line_of {
    ($key:tt $($wanted:ident: $name:literal, $owner:ident, $values:expr, $usual:expr, $text:literal;)*) => {
        match $key {
            $(Wanted::$wanted => Key { name: $name, owner: Owner::$owner, values: $values, usual: $usual, text: $text },)*
            Wanted::NoNodes => Key { name: "node", owner: Owner::Settings, values: Nothing, usual: Must, text: "" },
        }
    };
}

/// The keys of the lines, in their order.
macro_rules! list_of {
    ($($wanted:ident: $name:literal, $owner:ident, $values:expr, $usual:expr, $text:literal;)*) => {
        &[$(Wanted::$wanted),*]
    };
}

/// The line of a key.
pub(crate) fn line_of(wanted: Wanted) -> Key
    ensures name { result.name.now ≡ name_of wanted }
    ensures owner { result.owner ≡ owner_of wanted }
    ensures least { least_in result.values ≡ least_of wanted }
    ensures most { most_in result.values ≡ most_of wanted }
    ensures usual { usual_in result.usual ≡ usual_of wanted }
    ensures text { text_in result.usual ≡ usual_text_of wanted }
    ensures octets { octets_in result.usual ≡ usual_octets_of wanted }
    ensures words { words_in result.values ≡ words_of wanted }
{
    keys!(line_of wanted)
}

/// The keys that are read, in the order of the manual: those in front of all tables come first.
pub fn all_keys() -> &'static [Wanted]
    ensures top { names_in Top result.now ≡ top_keys }
    ensures pmu { names_in NodePmu result.now ≡ pmu_keys }
    ensures merged_node { names_in MergedNode result.now ≡ merged_node_keys }
    ensures merged_pmu { names_in MergedPmu result.now ≡ merged_pmu_keys }
{
    keys!(list_of)
}
