//! The command `mark-show`.

use crate::words::{Argument, CommandHelp, Form};

const ABOUT: &str = "Print what a mark file contains";

const LONG: &str = "Prints what a mark file contains, whoever owns it, and changes nothing:
  id=201 rate=50 start=3 floor=57478860001 utc=2006-06-06T07:00:00.020Z slot=1
  counts=[1, 4, 0, 0, 0, 0, 0, 0, 0, 0, 0, 0, 0, 0, 0, 0]

    id      the id of the node or merger that owns it
    rate    its data rate, in frames per second
    start   the number of its starts
    floor   the instant up to which everything was published or given up
    utc     the time of that instant, or none if the calendar does not reach it
    slot    which of the two slots of the file is in force, 0 or 1
    counts  one for each PMU, in the order of the settings: no configuration with a greater
            count was adopted

In these cases it ends with status 1:
  M1 NoMark         FILE does not have 256 bytes
  M2 Damaged        FILE has no open slot
  M6 OldMark        FILE is of version 1: see `pdc help mark-convert`
If it cannot open the file, for example because a node runs with it, it prints `device fault`; if
the device fails after that, it prints `M4 Device`. Both end it with status 3.

Example:
  pdc mark-show /var/lib/pdc/a.mark";

/// The command and its help.
pub const MARK_SHOW: CommandHelp<'static> = CommandHelp {
    name: "mark-show",
    full_name: "pdc mark-show",
    about: ABOUT,
    long: LONG,
    wanted: &[Argument("FILE", Form::Word, "The mark file")],
};
