//! The body of an entry that begins a record.
ghost use Rattle.std.specs.Prelude.{◌≡◌, ◌^◌, ◌<◌, ◌≤◌, length, MatchOption};
ghost use Rattle.pdc_record.specs.Told.{Began, Start, start_of};
ghost use Rattle.pdc_record.specs.Bodies.{AreWords, IsTold, back_of, fixed_of, front_of};
ghost use Rattle.pdc_record.specs.Bodies.{role_number, words_of};

use crate::begun::{Begun, Role};
use crate::limits::{BEGUN_BACK, BEGUN_FRONT, BEGUN_LEN, NOW_LEN, PROGRAM_LEN, VERSION};
use crate::words::{counts_len, split_byte, split_counts, split_long, split_wide, split_word};
use byteorder::{BigEndian, ByteOrder};

/// The number of the role.
fn role_number(role: Role) -> u8
    ensures { result ≡ role_number role }
{
    match role {
        Role::Node => 0,
        Role::Merger => 1,
    }
}

/// The role with this number.
fn role_of(number: u8) -> Option<Role>
    ensures { MatchOption result (2 ≤ number) (λ role. role_number role ≡ number) }
{
    match number {
        0 => Some(Role::Node),
        1 => Some(Role::Merger),
        _ => None,
    }
}

/// What stands before the counts: VERSION, ROLE, ID, RATE, START and FLOOR.
pub(crate) fn front_bytes(begun: &Begun<'_>) -> [u8; BEGUN_FRONT]
    ensures value { result ≡ front_of (start_of begun.entry.now) }
    ensures len { length result ≡ BEGUN_FRONT }
    ensures id { begun.entry.now.id < 2 ^ 16 }
    ensures rate { begun.entry.now.rate < 2 ^ 16 }
    ensures start { begun.entry.now.start < 2 ^ 32 }
    ensures floor { begun.entry.now.floor < 2 ^ 64 }
{
    let mut front = [0; BEGUN_FRONT];
    BigEndian::write_u16(&mut front, VERSION);
    front[2] = role_number(begun.role);
    BigEndian::write_u16(&mut front[3..], begun.id);
    BigEndian::write_u16(&mut front[5..], begun.rate);
    BigEndian::write_u32(&mut front[7..], begun.start);
    BigEndian::write_u64(&mut front[11..], begun.floor);
    front
}

/// How many bytes the version of a program has.
fn program_len(program: &[u16; 3]) -> usize
    ensures value { result ≡ length (words_of program.now) }
    ensures size { result ≡ PROGRAM_LEN }
{
    2 * program.len()
}

/// How many bytes the fixed part has.
pub(crate) fn begun_len(begun: &Begun<'_>) -> usize
    ensures value { result ≡ length (fixed_of (Began (start_of begun.entry.now))) }
    ensures size { result ≡ BEGUN_LEN }
{
    BEGUN_FRONT + counts_len(&begun.counts) + NOW_LEN + program_len(&begun.program)
}

/// What stands behind the counts: NOW and PROGRAM.
pub(crate) fn back_bytes(begun: &Begun<'_>) -> [u8; BEGUN_BACK]
    ensures value { result ≡ back_of (start_of begun.entry.now) }
    ensures len { length result ≡ BEGUN_BACK }
    ensures now { begun.entry.now.now < 2 ^ 64 }
    ensures program { AreWords 3 begun.entry.now.program }
{
    let mut back = [0; BEGUN_BACK];
    BigEndian::write_u64(&mut back, begun.now);
    BigEndian::write_u16_into(&begun.program, &mut back[8..]);
    back
}

/// What such a body says.
pub(crate) fn read_begun(body: &[u8]) -> Option<Begun<'_>>
    ensures { MatchOption result ((s : Start) → IsTold 0 body.now (Began s) →
        ⊥) (λ begun. IsTold 0 body.now (Began (start_of begun))) }
{
    if body.len() < BEGUN_LEN {
        return None;
    }
    let (version, body) = split_word(body);
    let (role, body) = split_byte(body);
    if version != VERSION {
        return None;
    }
    let role = role_of(role)?;
    let (id, body) = split_word(body);
    let (rate, body) = split_word(body);
    let (start, body) = split_long(body);
    let (floor, body) = split_wide(body);
    let (counts, body) = split_counts(body);
    let (now, body) = split_wide(body);
    let (major, body) = split_word(body);
    let (minor, body) = split_word(body);
    let (patch, settings) = split_word(body);
    Some(Begun {
        role,
        id,
        rate,
        start,
        floor,
        counts,
        now,
        program: [major, minor, patch],
        settings,
    })
}
