//! Copies of texts.
ghost use Rattle.std.specs.Prelude.{◌≡◌, IfOk, OnErr, length, string_bytes};
ghost use Rattle.pdc_memory.specs.Asking.{WasRefused};

use pdc_memory::copy_of;
use std::alloc::{AllocError, Global};

/// A copy of a text.
///
/// # Errors
///
/// [`AllocError`] where a request for so many bytes was refused.
pub(crate) fn text_of(alloc: Global, text: &str) -> Result<String, AllocError>
    ensures text { IfOk result (λ copy. string_bytes copy ≡ text.now) }
    ensures refused { OnErr result (WasRefused (length text.now)) }
{
    let bytes = copy_of(alloc, text.as_bytes())?;
    Ok(String::from_utf8(bytes).unwrap())
}
