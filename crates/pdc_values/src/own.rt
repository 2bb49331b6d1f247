//! The own section of a concentrator, which stands in front of those of its PMUs.
ghost use Rattle.std.specs.Prelude.{◌≡◌, ◌+◌, ◌/◌, ◌%◌, ◌≤◌, take, length};
ghost use Rattle.std.specs.Str.{bytes_eq};
ghost use Rattle.pdc_values.specs.Own.{digit_of, is_own, own_name};

use pdc_cfg::SectionView;

/// The bytes of a name.
const NAME_LEN: usize = 16;

/// A decimal digit of a number, as ASCII: that of so many units.
fn digit(number: u16, unit: u16) -> u8
    requires { 1 ≤ unit }
    ensures { result ≡ digit_of number unit }
{
    b'0' + (number / unit % 10) as u8
}

/// The name of a concentrator's own section: `PDC `, its id with five digits, and blanks.
fn own_name(id: u16) -> [u8; NAME_LEN]
    ensures { result ≡ own_name id }
{
    [
        b'P',
        b'D',
        b'C',
        b' ',
        digit(id, 10000),
        digit(id, 1000),
        digit(id, 100),
        digit(id, 10),
        digit(id, 1),
        b' ',
        b' ',
        b' ',
        b' ',
        b' ',
        b' ',
        b' ',
    ]
}

/// Whether a section is the own one of a concentrator: by its name, and since it has four digital words and nothing else.
pub fn is_own(section: &SectionView) -> bool
    ensures { result ≡ is_own section.now.shape section.now.source (take 16 section.now.bytes.now) }
{
    let shape = section.shape;
    if shape.phasors != 0 || shape.analogs != 0 || shape.digitals != 4 {
        return false;
    }
    let name = &section.bytes[..NAME_LEN];
    name == own_name(section.source).as_slice()
}
