//! The layouts that are held of both nodes.
ghost use Rattle.std.specs.Prelude.{◌≡◌, None, option_map};
ghost use Rattle.pdc_merge.specs.Held.{LayoutView, layout_at, with_layout};

use crate::held_layout::HeldLayout;
use std::marker::Model;

/// What is held of the nodes' layouts: of each the one that was accepted last.
#[derive(Drop)]
pub struct HeldLayouts {
    first: Option<HeldLayout>,
    second: Option<HeldLayout>,
}

impl Model for HeldLayouts {
    ghost use Rattle.pdc_merge.specs.Held.{LayoutsView};

    ghost Value = { LayoutsView };

    ghost view = { λ held. record { first = held.first; second = held.second } };
}

impl HeldLayouts {
    /// None is held yet.
    pub(crate) fn new() -> HeldLayouts
        ensures { result ≡ record { first = None; second = None } }
    {
        HeldLayouts {
            first: None,
            second: None,
        }
    }

    /// The layout of the node of this stream.
    pub(crate) fn of(&self, stream: usize) -> Option<&HeldLayout>
        ensures { option_map (λ layout. layout.now) result ≡ layout_at self.now stream }
    {
        if stream == 0 {
            self.first.as_ref()
        } else {
            self.second.as_ref()
        }
    }

    /// A copy, which takes no memory.
    pub(crate) fn copy(&self) -> HeldLayouts
        ensures { result ≡ self.now }
    {
        HeldLayouts {
            first: copy_of(&self.first),
            second: copy_of(&self.second),
        }
    }

    /// Holds this layout of the node of this stream.
    pub(crate) fn hold(&mut self, stream: usize, layout: HeldLayout)
        ensures { self.new ≡ with_layout self.old stream layout }
    {
        if stream == 0 {
            self.first = Some(layout);
        } else {
            self.second = Some(layout);
        }
    }
}

/// A copy of the layout, if there is one.
fn copy_of(layout: &Option<HeldLayout>) -> Option<HeldLayout>
    ensures { result ≡ layout.now }
{
    match layout {
        Some(layout) => Some(layout.copy()),
        None => None,
    }
}
