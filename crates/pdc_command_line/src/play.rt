//! The command `play`.

use crate::request::{Play, Request};
use crate::words::{Argument, CommandHelp, Form};
use clap::ArgMatches;

const ABOUT: &str = "Play a script of events on two nodes and a merger";

const LONG: &str =
    "Reads a script from standard input, one event per line, and plays it on node A, node B and the
merger M. All three start with new marks. There is no network and no clock: the script says which
frames arrive, how often and in which order, what time it is, and when a core stops. The program
prints what an event does, and flushes it, before it reads on, so that its input can be a live
source.

A, B and M are the settings files of node A, of node B and of the merger.

Events, and what each prints. WHO is A, B or M:
  send HEX               a PMU sends a frame, given in hexadecimal
                           sent 0
  to WHO K               frame K arrives on the stream that its id names
                           A Taken, A Candidate, A Known, a refusal such as A B4 Late,
                           or A none if WHO has no such stream
  junk WHO HEX           any other bytes arrive, on stream 0 if they name none
                           the same as to
  tick WHO NOW           WHO ticks at instant NOW: it closes due rows and adopts new counts
                           A closed=1 change=none
  publish WHO            WHO publishes its next closed row, as a frame in hexadecimal
                           A 57478860001 AA02..., or A none if no row waits
  stop WHO               WHO stops, and begins its next life with what its mark contains
                           A start=2 floor=57478860001
  stopin WHO landed      WHO stops during the store that begins a publish, and nothing goes out.
                           The store is complete; with lost instead of landed it is not
  stoptick WHO landed    WHO stops during the store that begins a tick; the same, or lost
  stopstart WHO landed   WHO stops, and again during the store of its next start; the same, or lost
                           all three print the same as stop

    sent K     the number of the frame among all frames that were sent, counted from 0: those of
               PMUs, and the configurations and data frames of nodes and merger
    Candidate  a configuration that the next tick may adopt
    Known      a configuration that is the same as an earlier one
    closed     how many rows the tick closed
    change     the number of the new layout if the tick adopted one, which is the next frame sent
    start      the number of the life
    floor      the instant up to which everything was published or given up: no instant up to it
               goes out again

Separate words by one space. The program ignores empty lines; there are no comments. For any other
line it prints `line N: not an event`, where N counts all lines, and ends the script.

These faults end the script. N is the number of the event, counted from 1:
  X1 P1 at N   a PMU sends a second body for one instant
  X1 P2 at N   a PMU sends a second section under one count
  X1 P4 at N   send has a frame that is not a PMU's, or junk has a frame of a stream that was
               never sent
  X1 P5 at 0   the three settings do not fit together
  X2 at N      no frame with this number was sent
  X3 at N      out of memory
  X4 at N      no start number is left

If it refuses a settings file, it prints S1 Toml, S2 Range or S3 DoubledId on standard error; if it
cannot read one, it prints `device fault`. The exit status is 0 if it played each line, 1 for a line
that is not an event, a fault or refused settings, and 3 for X3, a device fault or an input without
end.

Example:
  pdc play a.toml b.toml m.toml < a_node_dies.txt";

/// The command and its help.
pub const PLAY: CommandHelp<'static> = CommandHelp {
    name: "play",
    full_name: "pdc play",
    about: ABOUT,
    long: LONG,
    wanted: &[
        Argument("A", Form::Word, "The settings of node A"),
        Argument("B", Form::Word, "The settings of node B"),
        Argument("M", Form::Word, "The settings of the merger"),
    ],
};

/// The request that these words make; `None` if a word is missing, which the parser refuses first.
pub fn play_request<'a>(matches: &ArgMatches<'a>) -> Option<Request<'a>> {
    let (Some(a), Some(b), Some(m)) = (
        matches.get_str("A"),
        matches.get_str("B"),
        matches.get_str("M"),
    ) else {
        return None;
    };
    Some(Request::Play(Play { a, b, m }))
}
