//! Laws of the definitions: each is the contract of a function that does nothing.
ghost use Rattle.std.specs.Prelude.{◌≡◌, ◌+◌, ◌++◌, ℕ, List, [], Option, None, length, drop, map};
ghost use Rattle.std.specs.Prelude.{flat_map};
ghost use Rattle.std.specs.List.{All};
ghost use Rattle.std.specs.Int.{w16, to_be_bytes};
ghost use Rattle.pdc_words.specs.Bytes.{AreBytes};
ghost use Rattle.pdc_words.specs.CheckWord.{check_word_of};
ghost use Rattle.pdc_frame.specs.Frame.{Fields, Fits, header_of, spelling_of, IsFrame};
ghost use Rattle.pdc_frame.specs.Frame.{IsFirstFault};
ghost use Rattle.pdc_frame.specs.declared.fault.FrameFault.{FrameFault};
ghost use Rattle.pdc_frame.specs.Stream.{Held, HasTaken, IsRest, Splits, pending_of, fault_of};

use crate::limits::OVERHEAD;

/// A frame is what [`begin_frame`](crate::begin_frame) appends, the payload, and what
/// [`end_frame`](crate::end_frame) appends.
pub fn frames_are_written_in_parts()
    ensures spelled { (f : Fields) (old begun joined whole : List ℕ) (start : ℕ) →
        start ≡ length old
        → begun ≡ old ++ header_of f (length f.payload + OVERHEAD) → joined ≡ begun ++ f.payload
        → whole ≡ joined ++ to_be_bytes w16 (check_word_of (drop start joined)) →
        whole ≡ old ++ spelling_of f }
    ensures len { (f : Fields) → length (spelling_of f) ≡ length f.payload + OVERHEAD }
{}

/// Fields have one spelling, no two have the same, and none begins another: so a frame followed by any bytes is found
/// in one way.
pub fn spellings_stand_apart()
    ensures same { (f g : Fields) → Fits f → Fits g → spelling_of f ≡ spelling_of g → f ≡ g }
    ensures front { (f g : Fields) (rest : List ℕ) → Fits f → Fits g →
        spelling_of f ++ rest ≡ spelling_of g → (rest ≡ []) × (f ≡ g) }
    ensures found { (f g : Fields) (rest other : List ℕ) → Fits f → Fits g →
        spelling_of f ++ rest ≡ spelling_of g ++ other → (f ≡ g) × (rest ≡ other) }
{}

/// Bytes are read in one way: they are at most one frame, they have at most one fault, and no frame has a fault.
pub fn frames_are_read_in_one_way()
    ensures same { (bytes : List ℕ) (f g : Fields) → IsFrame bytes f → IsFrame bytes g → f ≡ g }
    ensures fault { (bytes : List ℕ) (a b : FrameFault) → IsFirstFault bytes a →
        IsFirstFault bytes b → a ≡ b }
    ensures apart { (bytes : List ℕ) (f : Fields) (fault : FrameFault) → IsFrame bytes f →
        IsFirstFault bytes fault → ⊥ }
{}

/// A stream of bytes is cut into frames in one way, and a framer that has no byte left to take gave those frames, in
/// whatever pieces the stream came.
pub fn streams_split_in_one_way()
    ensures some { (stream : List ℕ) → AreBytes stream
        → (frames : List (List ℕ)) × (rest : List ℕ) × (fault : Option FrameFault)
        × Splits stream frames rest fault }
    ensures only { (stream : List ℕ) (frames others : List (List ℕ)) (rest other : List ℕ)
        (fault late : Option FrameFault)
        → Splits stream frames rest fault → Splits stream others other late →
        (frames ≡ others) × (rest ≡ other) × (fault ≡ late) }
    // Frames that were written one behind another, and then a rest that is none, are cut into these frames.
    ensures written { (fs : List Fields) (rest : List ℕ) (fault : Option FrameFault) → All Fits fs →
        IsRest rest fault
        → Splits (flat_map spelling_of fs ++ rest) (map spelling_of fs) rest fault }
    ensures framer { (stream unread : List ℕ) (frames : List (List ℕ)) (held : Held) →
        HasTaken stream frames held
        → (fault_of held.step ≡ None → unread ≡ []) →
        Splits (stream ++ unread) frames (pending_of held.step held.bytes ++
        unread) (fault_of held.step) }
{}
