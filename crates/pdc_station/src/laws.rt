//! Laws of what is published.
ghost use Rattle.pdc_station.specs.Calls.{AllAreSent, NoLostRowIsSent, RowsAreOfTheLife};
ghost use Rattle.pdc_station.specs.Calls.{SentRowsAreAppended, SentRowsRise};
ghost use Rattle.pdc_station.specs.Published.{ArrivalsPublishNothing, PopsArePublished};
ghost use Rattle.pdc_station.specs.Published.{TicksPublishNothing};

/// What a life has published grows with each row that is taken out, by the frame of the row, and with nothing else.
///
/// So the bytes that the publishes of a [`Station`](crate::Station) append in one life, one after the other, are what that life
/// published.
pub fn rows_are_published()
    ensures pops { PopsArePublished }
    ensures arrivals { ArrivalsPublishNothing }
    ensures ticks { TicksPublishNothing }
{}

/// Whatever is called of a core and of the publisher of its mark, one call after the other: the bytes that the publishes append are
/// the frames of the rows whose publish answered Ok, their instants rise, and no row whose publish failed is among them.
///
/// A publish of a [`Station`](crate::Station) is such a call (`call`), and so are its ticks and what comes to it, which append nothing.
pub fn calls_publish_what_was_popped()
    ensures bytes { SentRowsAreAppended }
    ensures rise { SentRowsRise }
    ensures lost { NoLostRowIsSent }
    ensures rows { RowsAreOfTheLife }
    ensures all { AllAreSent }
{}
