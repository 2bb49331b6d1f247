//! Words of a line.
ghost use Rattle.std.specs.Prelude.{◌≡◌, position};
ghost use Rattle.std.specs.Option.{option_copied};
ghost use Rattle.pdc_play.specs.Word.{cut, is_space};

/// A word, and what stands behind the space that ends it, where there is one.
#[derive(Clone, Copy, Debug)]
pub struct Cut<'a> {
    pub word: &'a [u8],
    pub rest: Option<&'a [u8]>,
}

/// Where the first space of the text stands.
fn first_space(text: &[u8]) -> Option<usize>
    ensures { result ≡ position is_space text.now }
{
    text.iter().position(|byte| *byte == b' ')
}

/// The first word of the text.
pub fn cut_word(text: &[u8]) -> Cut<'_>
    ensures word { result.word.now ≡ (cut text.now).word }
    ensures rest { option_copied result.rest ≡ (cut text.now).rest }
{
    match first_space(text) {
        Some(place) => Cut {
            word: &text[..place],
            rest: Some(&text[place + 1..]),
        },
        None => Cut {
            word: text,
            rest: None,
        },
    }
}
