//! Lines and what is printed of them. The expected lines are those of this profile's formats, by hand.

use super::player::Answers;
use super::same::{is, same};
use pdc_history::{Fault, Premise};
use pdc_play::{CountedReader, PlayFault, run_script, tell_unbegun};
use std::io;
use std::io::{ErrorKind, Read, Write};
use std::process::Abort;

/// Rows of a script, what is printed of it, both with a bar for each LF, and the exit status. CR LF ends a line as LF does; a CR before
/// the end of the input ends none. What stands before a line of another form is played.
const SCRIPTS: &str = ";;0
||;;0
send aA02|;sent 3|;0
to A 0|to B 1|to M 2;A none|B Taken|M B4 Late|;0
to A 9|to A 1|;X2 at 1|;1
|to A 1||to A 9|;A Taken|X2 at 2|;1
junk M 00|;M Known|;0
tick A 0|;A closed=1 change=none|;0
tick A 1|;A closed=1 change=4294967295|;0
tick A 2|;A closed=1 change=none used_up|;0
tick A 18446744073709551615|;A closed=1 change=none|;0
publish A|publish B|;A 57478860001 AA02|B none|;0
stop M|;M start=2 floor=57478860001|;0
stopin A landed|;X1 P1 at 1|;1
stopin A lost|;X1 P2 at 1|;1
stoptick A landed|;X1 P4 at 1|;1
stoptick A lost|;X1 P5 at 1|;1
stopstart A landed|;X3 at 1|;3
stopstart A lost|;X4 at 1|;1
stop A\r|\r|stop A\r|;A start=2 floor=57478860001|A start=2 floor=57478860001|;0
stop A\r;line 1: not an event|;1
stop A||stop A||bad|stop A|;A start=2 floor=57478860001|A start=2 floor=57478860001|line 5: not an event|;1
to A 9|bad|;X2 at 1|;1
stop;line 1: not an event|;1
stop |;line 1: not an event|;1
 stop A|;line 1: not an event|;1
stop A |;line 1: not an event|;1
stop  A|;line 1: not an event|;1
stop a|;line 1: not an event|;1
Stop A|;line 1: not an event|;1
stop A landed|;line 1: not an event|;1
stopin A|;line 1: not an event|;1
stopin A done|;line 1: not an event|;1
send |;line 1: not an event|;1
send AA0|;line 1: not an event|;1
send AA 02|;line 1: not an event|;1
junk A 0g|;line 1: not an event|;1
to A +1|;line 1: not an event|;1
tick A 18446744073709551616|;line 1: not an event|;1
# a comment|;line 1: not an event|;1
";

/// How many they are.
const ROWS: usize = 40;

/// The text with an LF for each bar.
fn lines(rt: &(impl Abort + AllocGlobal), text: &str) -> Vec<u8> {
    let mut bytes = Vec::from_slice(rt.alloc(), text.as_bytes()).expect(rt, "memory");
    for byte in bytes.iter_mut() {
        if *byte == b'|' {
            *byte = b'\n';
        }
    }
    bytes
}

/// Gives its bytes one at a time, is interrupted once, and then fails.
#[derive(Drop)]
struct FailsAfter<'a> {
    bytes: &'a [u8],
    interrupted: bool,
}

impl Read for FailsAfter<'_> {
    fn read(&mut self, buf: &mut [u8]) -> io::Result<usize> {
        match self.bytes {
            [first, rest @ ..] if !buf.is_empty() => {
                buf[0] = *first;
                self.bytes = rest;
                Ok(1)
            }
            _ if !self.interrupted => {
                self.interrupted = true;
                Err(io::Error::new(ErrorKind::Interrupted, "a signal"))
            }
            _ => Err(io::Error::other("pulled out")),
        }
    }
}

/// Gives one LF at each read, without end.
#[derive(Drop)]
struct Endless;

impl Read for Endless {
    fn read(&mut self, buf: &mut [u8]) -> io::Result<usize> {
        if buf.is_empty() {
            return Ok(0);
        }
        buf[0] = b'\n';
        Ok(1)
    }
}

/// Takes no byte.
#[derive(Drop)]
struct Full;

impl Write for Full {
    fn write(&mut self, _buf: &[u8]) -> io::Result<usize> {
        Err(io::Error::other("full"))
    }

    fn flush(&mut self) -> io::Result<()> {
        Ok(())
    }
}

/// Plays a script, and compares what it prints and the status with which it ends.
fn play(rt: &(impl Abort + AllocGlobal), text: &str, wanted: &str, status: &str) {
    let script = lines(rt, text);
    let mut written = Vec::new(rt.alloc());
    let played = run_script(
        rt.alloc(),
        &mut Answers,
        &mut CountedReader::new(script.as_slice()),
        &mut written,
    );
    let Ok(ending) = played else {
        panic!(rt; "no ending: {text}");
    };
    same(rt, &written, &lines(rt, wanted), text);
    same(rt, &Ok(ending.status()), &status.parse::<u8>(), text);
}

#[test]
fn scripts(rt: HostRuntime) {
    let mut rows: usize = 0;
    for row in SCRIPTS.lines() {
        let (text, rest) = row.split_once(';').expect(&rt, "a script");
        let (wanted, status) = rest
            .split_once(';')
            .expect(&rt, "what is printed and a status");
        play(&rt, text, wanted, status);
        rows = rows.saturating_add(1);
    }
    is!(&rt; rows, ROWS);
}

/// What stands before a reader that fails is played, byte by byte.
#[test]
fn a_reader_that_fails(rt: HostRuntime) {
    let mut reader = CountedReader::new(FailsAfter {
        bytes: b"publish B\r\nto A 2\nstop".as_slice(),
        interrupted: false,
    });
    let mut written = Vec::new(rt.alloc());
    let outcome = run_script(rt.alloc(), &mut Answers, &mut reader, &mut written);
    is!(&rt; written.as_slice(), b"B none\nA B4 Late\n".as_slice());
    is!(&rt; matches!(outcome, Err(PlayFault::Read(_))), true);
}

#[test]
fn an_input_without_end(rt: HostRuntime) {
    let mut written = Vec::new(rt.alloc());
    let mut reader = CountedReader::new(Endless);
    let outcome = run_script(rt.alloc(), &mut Answers, &mut reader, &mut written);
    is!(&rt; matches!(outcome, Err(PlayFault::TooLong)), true);
    is!(&rt; reader.reads(), 1_000_000);
}

#[test]
fn a_writer_that_fails(rt: HostRuntime) {
    let mut script = CountedReader::new(b"stop A\n".as_slice());
    let outcome = run_script(rt.alloc(), &mut Answers, &mut script, &mut Full);
    is!(&rt; matches!(outcome, Err(PlayFault::Write(_))), true);
}

#[test]
fn a_world_that_does_not_begin(rt: HostRuntime) {
    let mut written = Vec::new(rt.alloc());
    let fault = Fault::PremiseBroken(Premise::OneTable);
    let Ok(ending) = tell_unbegun(fault, &mut written) else {
        panic!(&rt; "an ending");
    };
    is!(&rt; written.as_slice(), b"X1 P5 at 0\n".as_slice());
    is!(&rt; ending.status(), 1);
}
