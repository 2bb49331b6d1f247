//! Laws of the definitions: each is the contract of a function that does nothing but call the laws that it stands on.
ghost use Rattle.std.specs.Prelude.{◌≡◌, ℕ, List};
ghost use Rattle.pdc_frame.specs.declared.frame.Kind.{Kind};
ghost use Rattle.pdc_cfg.specs.declared.fault.CfgFault.{CfgFault};
ghost use Rattle.pdc_cfg.specs.Config.{ConfigFields, IsConfigKind, IsConfig, IsPayloadFault};
ghost use Rattle.pdc_cfg.specs.Config.{IsFirstFault};

use pdc_frame::{parts_keep_their_words, words_are_their_bytes};

/// A payload is read in one way: it is at most one configuration, it has at most one fault, and no configuration has
/// a fault.
pub fn configurations_are_read_in_one_way()
    ensures same { (payload : List ℕ) (c d : ConfigFields) → IsConfig payload c →
        IsConfig payload d → c ≡ d }
    ensures fault { (payload : List ℕ) (a b : CfgFault) → IsPayloadFault payload a →
        IsPayloadFault payload b → a ≡ b }
    ensures apart { (payload : List ℕ) (c : ConfigFields) (fault : CfgFault) → IsConfig payload c →
        IsPayloadFault payload fault → ⊥ }
    // A frame has at most one fault, that of its kind among them, and none where it is a configuration.
    ensures frame_fault { (kind : Kind) (payload : List ℕ) (a b : CfgFault) →
        IsFirstFault kind payload a → IsFirstFault kind payload b → a ≡ b }
    ensures frame_apart { (kind : Kind) (payload : List ℕ) (c : ConfigFields) (fault : CfgFault)
        → IsConfigKind kind → IsConfig payload c → IsFirstFault kind payload fault → ⊥ }
{
    words_are_their_bytes();
    parts_keep_their_words();
}
