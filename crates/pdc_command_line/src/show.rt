//! The command `show`.

use crate::request::ShowForm;
use crate::words::{Argument, CommandHelp, Form};
use clap::ArgMatches;

const ABOUT: &str = "Print what frames in hexadecimal contain";

const LONG: &str =
    "Reads lines of hexadecimal from standard input, one frame per line, and prints what each frame
contains. It flushes its output before each read, so that its input can be a live source.

Input:
  Spaces and empty lines are ignored. Digits may be in either case.
  A data frame is read with the last CFG-2 shown, which must have the same id.
  A run makes at most 1000000 reads of up to 65536 bytes; a longer input ends it with status 3.

Lines of a configuration (CFG-1 or CFG-2), one for the frame and one for each PMU:
  cfg2 id=11 time_base=1000000 rate=50 pmus=1
  pmu 11 count=1 phasors=1 analogs=0 digitals=0 rectangular
    id         the stream, 1 to 65534
    time_base  counts of FRACSEC per second
    rate       frames per second; if below zero, seconds per frame
    pmu        the id of the data's source
    count      how often its configuration has changed
    polar or rectangular   the form of its phasors

Lines of a data frame, one for the frame and one for each PMU:
  data id=11 soc=1149577200 frac=20000 quality=00 instant=57478860001
  pmu 11 stat=0000 phasors=[14635,0] freq=2500 dfreq=0 analogs=[] digitals=[]
    soc        seconds since 1970-01-01 00:00 UTC, leap seconds not counted
    frac       the count of FRACSEC: divided by time_base it is the fraction of the second
    quality    time quality in hexadecimal; the greater its low digit, the worse
    instant    the number of the frame since 1970 at this rate, or none if the tag fits no frame
    stat       STAT in hexadecimal: bits 15 and 14 are the error class, bit 13 says out of sync
    phasors    16-bit words, not scaled: real,imaginary or magnitude@angle
    freq       deviation from the nominal frequency, in mHz
    dfreq      rate of change of frequency, in Hz per second times 100
    analogs    signed 16-bit words, not scaled
    digitals   16-bit words in hexadecimal

Lines of a header frame and of a command frame:
  header id=11 bytes=3
  command id=11 cmd=2
    cmd        1 data off, 2 data on, 3 header, 4 CFG-1, 5 CFG-2, 6 CFG-3

With --format json it prints one JSON object per line, for each frame and for each refused line.
With --format csv it prints a row of names, then one row for each block of a data frame. In both
forms phasors are in volts or amperes by PHUNIT, as magnitude and angle and as real and imaginary
part, the frequency is in Hz, analogs are multiplied by the factor of ANUNIT, and the time is UTC.
The first CFG-2 decides the columns of CSV. What has no column, and what is refused, is reported on
standard error.

For a refused frame it prints the code and name of the refusal, and for a line that is not
hexadecimal `line N: not hex`. It goes on after either, and ends with status 1.

Refusals:
  F1 Short          fewer than 16 bytes
  F2 BadSync        SYNC is not AA and a kind of 0 to 5 with version 1 or 2
  F3 SizeMismatch   FRAMESIZE is not the number of bytes
  F4 BadCheck       CHK is not the check word of the bytes before it
  F5 BadId          IDCODE is 0 or 65535
  C1 WrongKind      a CFG-3 frame, which is not shown
  C2 Cut            a configuration that is too short or too long
  C3 TooMany        not 1 to 17 PMUs, or one with over 32 phasors, 32 analogs or 8 digitals
  C4 FloatFormat    FORMAT asks for floating-point numbers
  B1 NoConfig       data without an earlier CFG-2 of its id
  B2 WrongLength    data that is longer or shorter than its configuration says
  N2 Cut            a command frame whose payload does not have two bytes
  N3 UnknownCommand a command that is not 1 to 6

Examples:
  pdc listen 4751 | pdc show --format csv > day.csv
  printf '%s\\n' 'AA32 004A 000B ...' 'AA02 001A 000B ...' | pdc show";

/// The forms for programs.
const FORMATS: &[&str] = &["json", "csv"];

/// The command and its help.
pub const SHOW: CommandHelp<'static> = CommandHelp {
    name: "show",
    full_name: "pdc show",
    about: ABOUT,
    long: LONG,
    wanted: &[Argument(
        "format",
        Form::OneOf("FORMAT", FORMATS),
        "Print for programs, as json or csv",
    )],
};

/// In which form these words ask for frames.
pub fn show_form(matches: &ArgMatches<'_>) -> ShowForm {
    match matches.get_str("format") {
        Some("json") => ShowForm::Json,
        Some(_) => ShowForm::Csv,
        None => ShowForm::Lines,
    }
}
