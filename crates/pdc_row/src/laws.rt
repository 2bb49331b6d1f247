//! Laws of the definitions: each is the contract of a function that does nothing.
ghost use Rattle.pdc_row.specs.RisingLaws.{RisingLaws};

/// What holds of rising numbers: their bounds, one list behind another, the greatest, a number in its place, and those near
/// each other.
pub fn numbers_rise()
    ensures { RisingLaws }
{}
