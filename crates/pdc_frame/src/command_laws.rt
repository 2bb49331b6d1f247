//! Laws of the definitions: each is the contract of a function that does nothing but call the laws that it stands on.
ghost use Rattle.std.specs.Prelude.{◌≡◌, ℕ, List};
ghost use Rattle.pdc_frame.specs.Frame.{Fields};
ghost use Rattle.pdc_frame.specs.declared.command.Command.{Command};
ghost use Rattle.pdc_frame.specs.declared.command_fault.CommandFault.{CommandFault};
ghost use Rattle.pdc_frame.specs.Command.{IsCommand, IsFirstFault, IsHeader, IsHeaderFault};

use pdc_words::words_are_their_bytes;

/// A frame carries one command or has one fault, and never both.
pub fn commands_are_read_in_one_way()
    ensures same { (f : Fields) (a b : Command) → IsCommand f a → IsCommand f b → a ≡ b }
    ensures fault { (f : Fields) (a b : CommandFault) → IsFirstFault f a → IsFirstFault f b →
        a ≡ b }
    ensures apart { (f : Fields) (command : Command) (fault : CommandFault) → IsCommand f command →
        IsFirstFault f fault → ⊥ }
{
    words_are_their_bytes();
}

/// A frame carries one header text or has one fault, and never both.
pub fn headers_are_read_in_one_way()
    ensures same { (f : Fields) (a b : List ℕ) → IsHeader f a → IsHeader f b → a ≡ b }
    ensures fault { (f : Fields) (a b : CommandFault) → IsHeaderFault f a → IsHeaderFault f b →
        a ≡ b }
    ensures apart { (f : Fields) (text : List ℕ) (fault : CommandFault) → IsHeader f text →
        IsHeaderFault f fault → ⊥ }
{}
