//! Laws of the definitions: each is the contract of a function that does nothing but call the laws that it stands on.
ghost use Rattle.std.specs.Prelude.{◌≡◌, ◌++◌, ℕ, List};
ghost use Rattle.pdc_frame.specs.Bytes.{AreBytes};
ghost use Rattle.pdc_record.specs.declared.reading.Unread.{Unread};
ghost use Rattle.pdc_record.specs.Told.{Fields};
ghost use Rattle.pdc_record.specs.Entries.{Begins, Fits, IsFirstCause, spelling_of};

use pdc_frame::{check_word_is_the_remainder, parts_keep_their_words};

/// Entries are read in one way: what is written is what bytes begin with, whatever follows; they begin with one entry at most, and have at
/// most one cause why not; and where they begin with one there is none.
pub fn entries_are_read_in_one_way()
    ensures written { (f : Fields) (rest : List ℕ) → Fits f → Begins (spelling_of f ++ rest) f }
    ensures same { (f g : Fields) (rest other : List ℕ) → Fits f → Fits g →
        spelling_of f ++ rest ≡ spelling_of g ++ other → (f ≡ g) × (rest ≡ other) }
    ensures one { (bytes : List ℕ) (f g : Fields) → Begins bytes f → Begins bytes g → f ≡ g }
    ensures cause { (bytes : List ℕ) (a b : Unread) → IsFirstCause bytes a → IsFirstCause bytes b →
        a ≡ b }
    ensures apart { (bytes : List ℕ) (f : Fields) (cause : Unread) → AreBytes bytes →
        Begins bytes f → IsFirstCause bytes cause → ⊥ }
{
    check_word_is_the_remainder();
    parts_keep_their_words();
}
