//! What a concentrator says of itself in its layout (C37.118.2-2011, table 9).
ghost use Rattle.std.specs.Prelude.{◌≡◌, ◌+◌, ◌*◌, ◌/◌, ◌%◌, ◌^◌, ◌<◌, ◌≤◌, ◌++◌, [], ◌∷◌};
ghost use Rattle.std.specs.Prelude.{length, replicate, false};
ghost use Rattle.std.specs.Int.{w16, to_be_bytes};
ghost use Rattle.std.specs.List.{flat_map};
ghost use Rattle.arrayvec.specs.ArrayVec.{array_vec_len};
ghost use Rattle.pdc_row.specs.pdc_cfg.Section.{IsSection, fields_of_section};
ghost use Rattle.pdc_row.specs.Layout.{digit, own_name, nominal_word, masks_of, stamp_words};
ghost use Rattle.pdc_row.specs.Layout.{own_bytes};

use crate::output::{Nominal, Output};
use crate::stamp::{low_word, stamp_words};
use arrayvec::ArrayVec;
use pdc_block::{MAX_SECTION_LEN, Section, Shape};

/// The stamp has four words, and each goes out as a digital word.
const DIGITALS: u8 = 4;

/// The names of the bits of the digital words: 16 of each word, 16 bytes for each name.
const NAMES_LEN: usize = 1024;

/// Every bit of a digital word is valid.
const ALL_VALID: u16 = 0xFFFF;

/// Appends the bytes, for which there is room.
fn append(more: &[u8], bytes: &mut ArrayVec<u8, MAX_SECTION_LEN>)
    requires { array_vec_len bytes.old + length more.now ≤ MAX_SECTION_LEN }
    ensures items { bytes.new.items ≡ bytes.old.items ++ more.now }
    ensures len { array_vec_len bytes.new ≡ array_vec_len bytes.old + length more.now }
{
    bytes.try_extend_from_slice(more).unwrap();
}

/// Appends the word with its high byte first.
fn append_word(word: u16, bytes: &mut ArrayVec<u8, MAX_SECTION_LEN>)
    requires { array_vec_len bytes.old + 2 ≤ MAX_SECTION_LEN }
    ensures items { bytes.new.items ≡ bytes.old.items ++ to_be_bytes w16 word }
    ensures len { array_vec_len bytes.new ≡ array_vec_len bytes.old + 2 }
{
    append(&word.to_be_bytes(), bytes);
}

/// The last decimal digit of a number, in ASCII.
fn digit(number: u16) -> u8
    ensures { result ≡ digit number }
{
    b'0' + (number % 10) as u8
}

/// Appends STN: "PDC ", the id with five digits, and spaces.
fn append_name(id: u16, bytes: &mut ArrayVec<u8, MAX_SECTION_LEN>)
    requires { array_vec_len bytes.old + 16 ≤ MAX_SECTION_LEN }
    ensures items { bytes.new.items ≡ bytes.old.items ++ own_name id }
    ensures len { array_vec_len bytes.new ≡ array_vec_len bytes.old + 16 }
{
    append(b"PDC ", bytes);
    let digits = [
        digit(id / 10000),
        digit(id / 1000),
        digit(id / 100),
        digit(id / 10),
        digit(id),
    ];
    append(&digits, bytes);
    append(&[b' '; 7], bytes);
}

/// Appends IDCODE, FORMAT, PHNMR, ANNMR and DGNMR: 16-bit integers, and no values but the digital words.
fn append_numbers(id: u16, bytes: &mut ArrayVec<u8, MAX_SECTION_LEN>)
    requires { array_vec_len bytes.old + 10 ≤ MAX_SECTION_LEN }
    ensures items { bytes.new.items ≡ bytes.old.items ++ to_be_bytes w16 id ++ to_be_bytes w16 0 ++
        to_be_bytes w16 0
        ++ to_be_bytes w16 0 ++ to_be_bytes w16 4 }
    ensures len { array_vec_len bytes.new ≡ array_vec_len bytes.old + 10 }
{
    append_word(id, bytes);
    append_word(0, bytes);
    append_word(0, bytes);
    append_word(0, bytes);
    append_word(u16::from(DIGITALS), bytes);
}

/// Appends the names of the bits, which are spaces.
fn append_bit_names(bytes: &mut ArrayVec<u8, MAX_SECTION_LEN>)
    requires { array_vec_len bytes.old + NAMES_LEN ≤ MAX_SECTION_LEN }
    ensures items { bytes.new.items ≡ bytes.old.items ++ replicate (64 * 16) 32 }
    ensures len { array_vec_len bytes.new ≡ array_vec_len bytes.old + NAMES_LEN }
{
    append(&[b' '; NAMES_LEN], bytes);
}

/// Appends the masks of digital words: the normal status of each is the word itself.
fn append_masks(words: &[u16], bytes: &mut ArrayVec<u8, MAX_SECTION_LEN>)
    requires { array_vec_len bytes.old + 4 * length words.now ≤ MAX_SECTION_LEN }
    ensures items { bytes.new.items ≡ bytes.old.items ++ flat_map masks_of words.now }
    ensures len { array_vec_len bytes.new ≡ array_vec_len bytes.old + 4 * length words.now }
{
    for word in words {
        append_word(*word, bytes);
        append_word(ALL_VALID, bytes);
    }
}

/// FNOM.
fn nominal_word(nominal: Nominal) -> u16
    ensures { result ≡ nominal_word nominal }
{
    match nominal {
        Nominal::Hz50 => 1,
        Nominal::Hz60 => 0,
    }
}

/// The bytes of the section, from STN to CFGCNT.
fn section_bytes(output: &Output, start: u32, change: u32) -> ArrayVec<u8, MAX_SECTION_LEN>
    ensures { result.items ≡ own_bytes output.now.id.value output.now.nominal start change }
{
    let mut bytes = ArrayVec::new();
    append_name(output.id.value, &mut bytes);
    append_numbers(output.id.value, &mut bytes);
    append_bit_names(&mut bytes);
    append_masks(&stamp_words(start, change), &mut bytes);
    append_word(nominal_word(output.nominal), &mut bytes);
    append_word(low_word(change), &mut bytes);
    bytes
}

/// The section that a layout has of the concentrator itself, 1070 bytes: its id, and the stamp of the layout as four digital
/// words. CFGCNT is the low half of the change number. It takes no memory.
pub fn own_section(output: &Output, start: u32, change: u32) -> Section
    ensures section { IsSection (fields_of_section result) }
    ensures bytes { result.bytes.items ≡
        own_bytes output.now.id.value output.now.nominal start change }
    ensures phasors { result.shape.phasors ≡ 0 }
    ensures analogs { result.shape.analogs ≡ 0 }
    ensures digitals { result.shape.digitals ≡ 4 }
    ensures source { result.source ≡ output.now.id.value }
    ensures count { result.count ≡ change % 2 ^ 16 }
    ensures polar { result.polar ≡ false }
{
    Section {
        bytes: section_bytes(output, start, change),
        shape: Shape {
            phasors: 0,
            analogs: 0,
            digitals: DIGITALS,
        },
        source: output.id.value,
        count: low_word(change),
        polar: false,
    }
}
