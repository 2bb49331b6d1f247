//! Laws of every life, by the definitions: each is the contract of a function that does nothing but call the laws that it
//! stands on. What is said of ticks is said where the wait is within the counter of an open instant's age, which has 64 bits.
ghost use Rattle.pdc_align.specs.Follows.{CellsHaveShapes, PopIsPop, RowsAreThose, TickIsTick};

use pdc_arrival::{cells_are_of_sections, numbers_rise};

/// A pop of a concentrator is a pop of its table.
pub fn pop_is_pop()
    ensures { PopIsPop }
{}

/// The cells that the table holds have the shapes in force, as a tick of the table asks for.
pub fn cells_have_shapes()
    ensures { CellsHaveShapes }
{
    cells_are_of_sections();
}

/// The rows that the table closes at a tick are those of the life.
pub fn rows_are_those()
    ensures { RowsAreThose }
{}

/// A tick of a concentrator is a tick of its table under the layout before it, and then the adoptions.
pub fn tick_is_tick()
    ensures { TickIsTick }
{
    numbers_rise();
}
