//! A row to pop into.
ghost use Rattle.std.specs.Prelude.{◌≡◌, [], IfOk, OnErr};
ghost use Rattle.pdc_open_row.specs.pdc_memory.Asking.{SomeWasRefused};

use pdc_open_row::{DueRow, HeldBox};
use std::alloc::{AllocError, Global};

/// A row for [`Table::pop_into`](crate::Table::pop_into): of instant 0, without blocks.
///
/// # Errors
///
/// [`AllocError`] where a request for the memory of a row was refused.
pub fn spare_row(alloc: Global) -> Result<HeldBox<DueRow>, AllocError>
    ensures instant { IfOk result (λ row. row.value.instant ≡ 0) }
    ensures blocks { IfOk result (λ row. row.value.blocks ≡ []) }
    ensures refused { OnErr result SomeWasRefused }
{
    Ok(HeldBox::new(alloc, DueRow::blank())?)
}
