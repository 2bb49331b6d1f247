//! What goes through the channel.
ghost use Rattle.pdc_pipe.specs.Layout.{IsOfSomeLayout};

use pdc_publisher::PublishedRow;

/// The frame of a layout.
#[derive(Drop)]
pub struct LayoutFrame {
    /// The frame.
    pub bytes: Vec<u8>,
    pub ghost of_some_layout: { IsOfSomeLayout bytes.items },
}

/// A row that was published, a layout frame, or the end mark.
#[derive(Drop)]
pub enum Message {
    /// A row, which is its data frame where it is. Its memory comes back.
    Data(PublishedRow),
    /// A layout frame.
    Layout(LayoutFrame),
    /// Nothing comes after it.
    End,
}
