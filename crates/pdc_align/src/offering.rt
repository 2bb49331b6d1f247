//! How data is offered to the table of an alignment.
ghost use Rattle.std.specs.Prelude.{◌≡◌, ◌≤◌, length};
ghost use Rattle.pdc_arrival.specs.pdc_block.Block.{words_in};
ghost use Rattle.pdc_table.specs.Content.{IsPut};
ghost use Rattle.pdc_table.specs.pdc_columns.Parts.{cut_cells};
ghost use Rattle.pdc_table.specs.pdc_columns.Taking.{body_cells_of};
ghost use Rattle.pdc_table.specs.pdc_columns.Twin.{twin_of};
ghost use Rattle.pdc_table.specs.pdc_open_row.Twin.{IsTwinIn};
ghost use Rattle.pdc_table.specs.Placing.{row_at};
ghost use Rattle.pdc_align.specs.Align.{Unchanged};
ghost use Rattle.pdc_align.specs.Calls.{after_data, put_outcome};
ghost use Rattle.pdc_align.specs.Follows.{told_by};

use crate::Alignment;
use pdc_arrival::{Body, MAX_PMUS, Outcome, Refusal};
use pdc_table::{Cut, Part, PutOutcome, Table};

/// What a put into the table is answered, as a concentrator tells it.
fn outcome_of(outcome: PutOutcome) -> Outcome
    ensures { result ≡ told_by outcome }
{
    match outcome {
        PutOutcome::Taken => Outcome::Taken,
        PutOutcome::Late => Outcome::Refused(Refusal::Late),
        PutOutcome::OutOfWindow => Outcome::Refused(Refusal::OutOfWindow),
        PutOutcome::Duplicate => Outcome::Refused(Refusal::Duplicate),
        PutOutcome::Conflict => Outcome::Refused(Refusal::Conflict),
    }
}

impl<T: Table> Alignment<T> {
    /// Offers data to the table, unless it is too far above now.
    pub(crate) fn offer(
        &mut self,
        stream: usize,
        instant: u64,
        cells: &[(usize, Body<'_>)],
        quality: u8,
    ) -> Outcome
        requires { IsPut self.old.state.content stream (body_cells_of cells.now quality) }
        ensures answer { result ≡ put_outcome self.old.state stream instant
            (body_cells_of cells.now quality) }
        ensures state { self.new.state ≡
            after_data self.old.state stream instant (body_cells_of cells.now quality) }
        ensures unchanged { Unchanged self.old self.new }
    {
        if instant <= self.table.last() {
            return Outcome::Refused(Refusal::Late);
        }
        if instant.saturating_sub(self.current) > self.ahead {
            return Outcome::Refused(Refusal::Ahead);
        }
        outcome_of(self.table.put_bodies(stream, instant, cells, quality))
    }

    /// The same, with blocks that lie one after the other in the payload of a frame.
    pub(crate) fn offer_parts<P: Part>(
        &mut self,
        stream: usize,
        instant: u64,
        cut: &Cut<'_, P>,
        quality: u8,
    ) -> Outcome
        requires put { IsPut self.old.state.content stream
            (cut_cells P.column_of P.shape_of cut.now.parts.now quality
            (words_in cut.now.bytes.now)) }
        requires few { length cut.now.parts.now ≤ MAX_PMUS }
        requires twin { IsTwinIn (twin_of cut.now.is_twin cut.now.bytes.now)
            (row_at instant self.old.state.content.open_rows) }
        ensures answer { result ≡ put_outcome self.old.state stream instant
            (cut_cells P.column_of P.shape_of cut.now.parts.now quality
            (words_in cut.now.bytes.now)) }
        ensures state { self.new.state ≡
            after_data self.old.state stream instant
            (cut_cells P.column_of P.shape_of cut.now.parts.now quality
            (words_in cut.now.bytes.now)) }
        ensures unchanged { Unchanged self.old self.new }
    {
        if instant <= self.table.last() {
            return Outcome::Refused(Refusal::Late);
        }
        if instant.saturating_sub(self.current) > self.ahead {
            return Outcome::Refused(Refusal::Ahead);
        }
        outcome_of(self.table.put_parts(stream, instant, cut, quality))
    }
}
