//! What a life closed and published, asked of the whole list. A life is kept newest first.
ghost use Rattle.std.specs.Prelude.{◌≡◌, ◌<◌, ◌*◌, ◌^◌, ◌++◌, IfOk, OnErr, OnOk, map};
ghost use Rattle.std.specs.List.{All};
ghost use Rattle.pdc_row.specs.RowView.{row_instants, row_view};
ghost use Rattle.pdc_row.specs.Layout.{wire_of};
ghost use Rattle.pdc_row.specs.pdc_frame.declared.tag_limits.TheConstants.{SECONDS};
ghost use Rattle.pdc_life.specs.Life.{changes, closed, popped};
ghost use Rattle.pdc_life.specs.Published.{layout_wire, published};
ghost use Rattle.pdc_plain_steps.specs.Views.{given_view, life_view};

use pdc_plain_steps::{Answered, Given, append, changes, sections_in_force};
use pdc_row::{DueRow, Output, append_layout, append_row};
use std::alloc::{AllocError, Global};

/// The rows that closed, the first to close first.
///
/// # Errors
///
/// [`AllocError`] where there is no room and none is got.
pub fn closed(alloc: Global, life: &[Answered]) -> Result<Vec<DueRow>, AllocError>
    ensures { IfOk result (λ rows. map row_view rows.items ≡ closed (life_view life.now)) }
{
    let Some((newest, earlier)) = life.split_first() else {
        return Ok(Vec::new(alloc));
    };
    let mut rows = closed(alloc, earlier)?;
    if let Answered::Tick { answer, .. } = newest {
        append(&answer.rows, &mut rows)?;
    }
    Ok(rows)
}

/// The rows that pops gave, the first to be given first.
///
/// # Errors
///
/// [`AllocError`] where there is no room and none is got.
pub fn popped(alloc: Global, life: &[Answered]) -> Result<Vec<DueRow>, AllocError>
    ensures { IfOk result (λ rows. map row_view rows.items ≡ popped (life_view life.now)) }
{
    let Some((newest, earlier)) = life.split_first() else {
        return Ok(Vec::new(alloc));
    };
    let mut rows = popped(alloc, earlier)?;
    if let Answered::Pop { row: Some(row) } = newest {
        rows.push(row.clone()?)?;
    }
    Ok(rows)
}

/// The frames of the rows that pops gave, in their order.
///
/// # Errors
///
/// [`AllocError`] where there is no room and none is got.
pub fn frames_of(
    alloc: Global,
    given: &Given,
    life: &[Answered],
) -> Result<Vec<Vec<u8>>, AllocError>
    requires { All (λ n. n < SECONDS * given.now.output.rate)
        (row_instants (popped (life_view life.now))) }
    ensures { IfOk result (λ frames. map (λ frame. frame.items) frames.items ≡
        published (given_view given.now) (life_view life.now)) }
{
    let rows = popped(alloc, life)?;
    frames(alloc, &given.output, &rows)
}

/// Appends the frame of the layout.
///
/// # Errors
///
/// [`AllocError`] where there is no room and none is got.
pub fn append_layout_of(
    given: &Given,
    life: &[Answered],
    soc: u32,
    out: &mut Vec<u8>,
) -> Result<(), AllocError>
    requires { changes (life_view life.now) < 2 ^ 32 }
    ensures ok { OnOk result (out.new.items ≡ out.old.items ++
        layout_wire (given_view given.now) (life_view life.now) soc) }
    ensures err { OnErr result (out.new.items ≡ out.old.items) }
{
    let sections = sections_in_force(given, life);
    let change = changes(life) as u32;
    append_layout(
        &given.output,
        given.start,
        change,
        sections.as_slice(),
        soc,
        out,
    )
}

/// The frames of the rows, in their order.
fn frames(alloc: Global, output: &Output, rows: &[DueRow]) -> Result<Vec<Vec<u8>>, AllocError>
    requires { All (λ row. row.instant < SECONDS * output.now.rate) rows.now }
    ensures { IfOk result (λ frames. map (λ frame. frame.items) frames.items ≡
        map (λ row. wire_of output.now (row_view row)) rows.now) }
{
    let mut frames = Vec::new(alloc);
    for row in rows {
        frames.push(frame(alloc, output, row)?)?;
    }
    Ok(frames)
}

/// The frame of the row.
fn frame(alloc: Global, output: &Output, row: &DueRow) -> Result<Vec<u8>, AllocError>
    requires { row.now.instant < SECONDS * output.now.rate }
    ensures { IfOk result (λ frame. frame.items ≡ wire_of output.now (row_view row.now)) }
{
    let mut frame = Vec::new(alloc);
    append_row(output, row, &mut frame)?;
    Ok(frame)
}
