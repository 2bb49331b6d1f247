//! Laws over whole lists of calls, by the definitions that the calls of a table ensure.
ghost use Rattle.pdc_table.specs.Calls.{BlocksStandInTheirColumns, InstantsCloseOnce};
ghost use Rattle.pdc_table.specs.Calls.{NothingIsPutBelowClosed, RowsComeOutOnce};
ghost use Rattle.pdc_table.specs.Calls.{RowsComeOutRising};
ghost use Rattle.pdc_table.specs.Histories.{AgesAreTicks, CellsAreFirstPuts};
ghost use Rattle.pdc_table.specs.Histories.{InstantsOpenWhereTaken, RowsCloseWhereDue};

use pdc_open_row::numbers_rise;

/// Over every list of calls on a new table, the rows come out in strictly rising order, above the floor; an instant closes at most
/// once; each row that closed came out once or waits, in the order of closing; and what is taken is for an instant above the floor
/// and each one that closed.
pub fn rows_come_out_rising()
    ensures rise { RowsComeOutRising }
    ensures once { InstantsCloseOnce }
    ensures out { RowsComeOutOnce }
    ensures above { NothingIsPutBelowClosed }
{
    numbers_rise();
}

/// Over every list of calls on a new table, an instant is open exactly where it was taken and is above the last that closed.
pub fn instants_open_where_taken()
    ensures { InstantsOpenWhereTaken }
{
    numbers_rise();
}

/// Over every list of calls on a new table, the age of an open instant is the ticks since its first take.
pub fn ages_are_ticks()
    ensures { AgesAreTicks }
{
    numbers_rise();
}

/// Over every list of calls on a new table, a cell of an open instant is the first that was put of it since its last drop.
pub fn cells_are_first_puts()
    ensures { CellsAreFirstPuts }
{
    numbers_rise();
}

/// Over every list of calls on a new table, the rows that close at a tick are those of the open instants for which every
/// open one up to them is due: each stream that it waits for was taken since its last drop, or the wait is over.
pub fn rows_close_where_due()
    ensures { RowsCloseWhereDue }
{
    numbers_rise();
}

/// Each column of a row holds what was given for it, where each is given at most one block, and is else as before.
pub fn blocks_stand_in_their_columns()
    ensures { BlocksStandInTheirColumns }
{}
