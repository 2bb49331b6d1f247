//! The slots of a mark file.
ghost use Rattle.std.specs.Prelude.{◌≡◌, ℕ, ◌+◌, ◌^◌, ◌<◌, ◌≤◌, length, slice_index};
ghost use Rattle.pdc_mark.specs.Counts.{count_bytes, counts_of};
ghost use Rattle.pdc_mark.specs.declared.layout.TheConstants.{COUNTS, COUNTS_AT, COUNTS_LEN};
ghost use Rattle.pdc_mark.specs.declared.layout.TheConstants.{FIELDS_LEN, SLOT_LEN};

use crate::layout::{
    COUNTS, COUNTS_AT, COUNTS_LEN, FIELDS_AT, FIELDS_END, FIELDS_LEN, FLOOR_AT, RATE_AT, SLOT_LEN,
    START_AT,
};
use crate::stored::Stored;
use byteorder::{BigEndian, ByteOrder};

/// The fields of a slot: whose mark it is, and what the mark stores.
#[derive(Clone, Copy, Debug, PartialEq, Eq)]
pub(crate) struct Slot {
    pub id: u16,
    pub rate: u16,
    pub stored: Stored,
}

/// Which of the two slots.
#[derive(Clone, Copy)]
pub(crate) enum Place {
    First,
    Second,
}

impl Place {
    ghost use Rattle.pdc_mark.specs.Slots.{offset_of, other_of};

    pub fn offset(self) -> usize
        ensures { result ≡ offset_of self }
    {
        match self {
            Place::First => 0,
            Place::Second => SLOT_LEN,
        }
    }

    pub fn other(self) -> Place
        ensures { result ≡ other_of self }
    {
        match self {
            Place::First => Place::Second,
            Place::Second => Place::First,
        }
    }
}

/// The counts that these bytes say.
fn read_counts(bytes: &[u8]) -> [u16; COUNTS]
    requires { length bytes.now ≡ COUNTS_LEN }
    ensures { result ≡ counts_of bytes.now }
{
    let mut counts = [0; COUNTS];
    BigEndian::read_u16_into(bytes, &mut counts);
    counts
}

/// The bytes of these counts.
fn count_bytes(counts: &[u16; COUNTS]) -> [u8; COUNTS_LEN]
    ensures value { result ≡ count_bytes counts.now }
    ensures len { length result ≡ COUNTS_LEN }
    ensures size { length counts.now ≡ COUNTS }
    ensures fits { (i : ℕ) → slice_index counts.now i < 2 ^ 16 }
{
    let mut bytes = [0; COUNTS_LEN];
    BigEndian::write_u16_into(counts, &mut bytes);
    bytes
}

impl Slot {
    ghost use Rattle.pdc_mark.specs.Slots.{fields_of, numbers_of, slot_at, slot_bytes, slot_with};
    ghost use Rattle.pdc_mark.specs.Slots.{FitsWidths};

    /// The bytes of the fields before the counts.
    fn numbers(self) -> [u8; COUNTS_AT]
        ensures value { result ≡ numbers_of self }
        ensures len { length result ≡ COUNTS_AT }
    {
        let mut numbers = [0; COUNTS_AT];
        BigEndian::write_u16(&mut numbers, self.id);
        BigEndian::write_u16(&mut numbers[RATE_AT..], self.rate);
        BigEndian::write_u32(&mut numbers[START_AT..], self.stored.start);
        BigEndian::write_u64(&mut numbers[FLOOR_AT..], self.stored.floor);
        numbers
    }

    /// The bytes of the fields.
    pub fn fields(self) -> [u8; FIELDS_LEN]
        ensures value { result ≡ fields_of self }
        ensures fits { FitsWidths self }
        ensures len { length result ≡ FIELDS_LEN }
    {
        let mut fields = [0; FIELDS_LEN];
        fields[..COUNTS_AT].copy_from_slice(&self.numbers());
        fields[COUNTS_AT..].copy_from_slice(&count_bytes(&self.stored.counts));
        fields
    }

    /// A whole slot behind this gate.
    pub fn bytes(self, gate: u8) -> [u8; SLOT_LEN]
        ensures value { result ≡ slot_bytes gate self }
        ensures fits { FitsWidths self }
        ensures len { length result ≡ SLOT_LEN }
    {
        let mut bytes = [0; SLOT_LEN];
        bytes[0] = gate;
        bytes[FIELDS_AT..FIELDS_END].copy_from_slice(&self.fields());
        bytes
    }

    /// What the numbers of a slot say, beside these counts.
    pub fn of_numbers(numbers: &[u8], counts: [u16; COUNTS]) -> Slot
        requires { COUNTS_AT ≤ length numbers.now }
        ensures { result ≡ slot_with counts numbers.now }
    {
        Slot {
            id: u16::from_be_bytes([numbers[0], numbers[1]]),
            rate: u16::from_be_bytes([numbers[RATE_AT], numbers[RATE_AT + 1]]),
            stored: Stored {
                start: u32::from_be_bytes([
                    numbers[START_AT],
                    numbers[START_AT + 1],
                    numbers[START_AT + 2],
                    numbers[START_AT + 3],
                ]),
                floor: u64::from_be_bytes([
                    numbers[FLOOR_AT],
                    numbers[FLOOR_AT + 1],
                    numbers[FLOOR_AT + 2],
                    numbers[FLOOR_AT + 3],
                    numbers[FLOOR_AT + 4],
                    numbers[FLOOR_AT + 5],
                    numbers[FLOOR_AT + 6],
                    numbers[FLOOR_AT + 7],
                ]),
                counts,
            },
        }
    }

    /// What the fields of a slot say, whatever its gate.
    pub fn read(bytes: &[u8], at: usize) -> Slot
        requires { at + SLOT_LEN ≤ length bytes.now }
        ensures { result ≡ slot_at bytes.now at }
    {
        let fields = &bytes[at + FIELDS_AT..at + FIELDS_END];
        Slot::of_numbers(fields, read_counts(&fields[COUNTS_AT..]))
    }
}
