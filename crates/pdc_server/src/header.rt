//! The text of the header frame.
ghost use Rattle.std.specs.Prelude.{◌≡◌, ◌+◌, ◌/◌, ◌%◌};
ghost use Rattle.pdc_row.specs.Layout.{digit};
ghost use Rattle.pdc_server.specs.Header.{header_text};

/// How many bytes the text has.
pub const TEXT_LEN: usize = 9;

/// The last decimal digit of a number, in ASCII.
fn digit(number: u16) -> u8
    ensures { result ≡ digit number }
{
    b'0' + (number % 10) as u8
}

/// The text of the header frame of the stream `id`: "PDC " and the id with five digits.
pub fn header_of(id: u16) -> [u8; TEXT_LEN]
    ensures { result ≡ header_text id }
{
    [
        b'P',
        b'D',
        b'C',
        b' ',
        digit(id / 10000),
        digit(id / 1000),
        digit(id / 100),
        digit(id / 10),
        digit(id),
    ]
}
