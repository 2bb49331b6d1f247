//! Laws of the definitions: each is the contract of a function that does nothing but call the laws that it stands on.
ghost use Rattle.std.specs.Prelude.{◌≡◌, ◌*◌, List, ℕ, length, sum_by};
ghost use Rattle.pdc_cfg.specs.pdc_frame.Bytes.{AreBytes};
ghost use Rattle.pdc_cfg.specs.Shape.{word_count_of};
ghost use Rattle.pdc_cfg.specs.declared.shape.Shape.{Shape};
ghost use Rattle.pdc_block.specs.Block.{IsBody, IsCut, body_len_of, words_in};
ghost use Rattle.pdc_block.specs.Laws.{WordsAreCut, WordsOfBytes};

use pdc_cfg::{parts_keep_their_words, words_are_their_bytes};

/// Bytes write words, half as many; bytes of the length of a shape are a body of it, with the words that they write and no
/// others.
pub fn bodies_are_their_words()
    ensures found { (shape : Shape) (bytes : List ℕ) → AreBytes bytes →
        length bytes ≡ 2 * word_count_of shape → IsBody shape bytes (words_in bytes) }
    ensures words { WordsOfBytes }
    ensures only { (shape : Shape) (bytes words : List ℕ) → AreBytes bytes →
        IsBody shape bytes words → words ≡ words_in bytes }
{
    words_are_their_bytes();
}

/// A payload is cut into blocks of given shapes in one way, and in one exactly where it is as long as the shapes take.
pub fn payloads_are_cut_in_one_way()
    ensures same { (shapes : List Shape) (payload : List ℕ) (a b : List (List ℕ)) →
        IsCut shapes payload a → IsCut shapes payload b → a ≡ b }
    ensures size { (shapes : List Shape) (payload : List ℕ) (blocks : List (List ℕ)) →
        IsCut shapes payload blocks → length payload ≡ sum_by body_len_of shapes }
    ensures found { (shapes : List Shape) (payload : List ℕ) → AreBytes payload →
        length payload ≡ sum_by body_len_of shapes
        → (blocks : List (List ℕ)) × IsCut shapes payload blocks }
{
    words_are_their_bytes();
    parts_keep_their_words();
}

/// The words of a front of some bytes are a front of their words, and those behind it are behind.
pub fn words_are_cut()
    ensures { WordsAreCut }
{}
