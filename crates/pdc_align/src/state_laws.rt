//! Laws of arrivals: each is the contract of a function that does nothing but call the laws that it stands on.
ghost use Rattle.pdc_align.specs.Follows.{AnswersAgree, CellsArePut, OthersLeaveIt, TakeIsTake};

use pdc_arrival::{numbers_rise, taken_is_in_time};
use pdc_table::blocks_stand_in_their_columns;

/// After every life the cells that a stream may give may be put into the table.
pub fn cells_are_put()
    ensures { CellsArePut }
{}

/// After every life the table answers to data what the life answers to data in time; that it is too far above now is told after
/// that it is late, and before all else.
pub fn answers_agree()
    ensures { AnswersAgree }
{}

/// In every run, data that is taken is a take of the table: it places its instant among the open ones, and changes its row alone.
pub fn take_is_take()
    ensures { TakeIsTake }
{
    blocks_stand_in_their_columns();
    numbers_rise();
    taken_is_in_time();
}

/// Whatever else arrives leaves the table as it was.
pub fn others_leave_it()
    ensures { OthersLeaveIt }
{}
