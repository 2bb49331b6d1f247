//! The layout that a row closed under.
ghost use Rattle.std.specs.Prelude.{◌≡◌};
ghost use Rattle.pdc_open_row.specs.pdc_columns.Layout.{layout_view};

use crate::RowLayout;
use arrayvec::ArrayVec;
use pdc_open_row::CopyFrom;
use std::marker::Model;

/// A copy of the layout that a row closed under.
#[derive(Drop)]
pub struct ClosingLayout {
    layout: RowLayout,
}

impl Model for ClosingLayout {
    ghost use Rattle.pdc_open_row.specs.pdc_columns.Layout.{LayoutView, layout_view};

    ghost Value = { LayoutView };

    ghost view = { λ closing. layout_view closing.layout };
}

impl ClosingLayout {
    ghost use Rattle.pdc_table.specs.RingRows.{no_layout};

    /// A layout without columns.
    pub(crate) fn blank() -> ClosingLayout
        ensures { result ≡ no_layout }
    {
        ClosingLayout {
            layout: RowLayout::new(0, 0, ArrayVec::new()),
        }
    }

    /// Makes this a copy of the layout.
    pub(crate) fn set(&mut self, layout: &RowLayout)
        ensures { self.new ≡ layout_view layout.now }
    {
        self.layout.copy_from(layout);
    }

    /// The layout.
    pub(crate) fn layout(&self) -> &RowLayout
        ensures { layout_view result.now ≡ self.now }
    {
        &self.layout
    }
}

impl CopyFrom for ClosingLayout {
    fn copy_from(&mut self, other: &ClosingLayout) {
        self.set(&other.layout);
    }
}
