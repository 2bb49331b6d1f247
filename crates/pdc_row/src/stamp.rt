//! The stamp of a layout, as data and sections carry it.
ghost use Rattle.std.specs.Prelude.{◌≡◌, ◌%◌, ◌^◌};
ghost use Rattle.pdc_row.specs.Layout.{stamp_words};

/// The low half of a number.
pub(crate) fn low_word(number: u32) -> u16
    ensures { result ≡ number % 2 ^ 16 }
{
    (number & 0xFFFF) as u16
}

/// The start number and the change number, each as two words with the high one first.
pub(crate) fn stamp_words(start: u32, change: u32) -> [u16; 4]
    ensures { result ≡ stamp_words start change }
{
    [
        (start >> 16) as u16,
        low_word(start),
        (change >> 16) as u16,
        low_word(change),
    ]
}
