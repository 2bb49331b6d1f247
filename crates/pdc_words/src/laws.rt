//! Laws of the definitions: each is the contract of a function that does nothing.
ghost use Rattle.std.specs.Prelude.{◌≡◌, ℕ, List};
ghost use Rattle.pdc_words.specs.Bytes.{AreBytes};
ghost use Rattle.pdc_words.specs.CheckWord.{IsCheckWord, check_word_of};
ghost use Rattle.pdc_words.specs.Linear.{CheckWordsAreLinear};
ghost use Rattle.pdc_words.specs.Parts.{WordsAreTheirBytes, PartsKeepTheirWords};

/// A word and its bytes say the same: what was written is read, and what is read is written again.
pub fn words_are_their_bytes()
    ensures { WordsAreTheirBytes }
{}

/// A part of bytes has the bytes and the words that stand there in the whole.
pub fn parts_keep_their_words()
    ensures { PartsKeepTheirWords }
{}

/// Bytes have one check word, and `check_word_of` computes it.
pub fn check_word_is_the_remainder()
    ensures found { (bytes : List ℕ) → AreBytes bytes → IsCheckWord bytes (check_word_of bytes) }
    ensures only { (bytes : List ℕ) (check : ℕ) → AreBytes bytes → IsCheckWord bytes check →
        check ≡ check_word_of bytes }
{}

/// The check words of bytes of one length differ in what follows from the bytes' difference alone, and a difference in front is moved
/// past the rest.
pub fn check_words_are_linear()
    ensures { CheckWordsAreLinear }
{}
