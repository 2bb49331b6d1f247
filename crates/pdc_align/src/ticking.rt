//! The steps of a tick, each said of what the alignment keeps.
ghost use Rattle.std.specs.Prelude.{◌≡◌, ◌<◌, ◌-◌, ◌^◌, ℕ, None, length};
ghost use Rattle.std.specs.List.{All, list_any};
ghost use Rattle.pdc_table.specs.Steps as table;
ghost use Rattle.pdc_align.specs.State.{rule_of};
ghost use Rattle.pdc_align.specs.Align.{KeepsSizes, Unchanged, in_force_in, new_change};
ghost use Rattle.pdc_align.specs.Calls.{after_adopting, after_closing, after_tick_of};
ghost use Rattle.pdc_align.specs.Calls.{cleared_from, disagreements_at, is_ready_in};
ghost use Rattle.pdc_align.specs.Calls.{row_layout_in, told_at};

use crate::adopting::adopt_in;
use crate::{Alignment, Ticked, columns};
use pdc_arrival::{MAX_PMUS, WaitKind};
use pdc_table::{RowLayout, Table, WaitRule};

/// The rule that a tick hands to the table: the wait in ticks, or the instant that lies the wait below now.
fn rule_of(kind: WaitKind, wait: u64, now: u64) -> WaitRule
    ensures { result ≡ rule_of kind wait now }
{
    match kind {
        WaitKind::Relative => WaitRule::Ticks(wait),
        WaitKind::Absolute if wait <= now => WaitRule::Until(Some(now - wait)),
        WaitKind::Absolute => WaitRule::Until(None),
    }
}

impl<T: Table> Alignment<T> {
    /// A tick: rows close under the layout before it, and then the columns that are ready are adopted.
    pub(crate) fn step(&mut self, now: u64, counts: &[u16; MAX_PMUS]) -> Ticked
        ensures answer { result ≡ told_at self.old.state now counts.now }
        ensures state { self.new.state ≡ after_tick_of self.old.state now counts.now }
        // The wait is a number of 64 bits: here `tick` learns it.
        ensures wait { self.old.state.wait < 2 ^ 64 }
        ensures sizes { KeepsSizes self.old.state self.new.state }
        ensures in_force { result.change ≡ None →
            in_force_in self.new.state ≡ in_force_in self.old.state }
        ensures memory { self.new.memory ≡ self.old.memory }
        ensures disagreements { self.new.disagreements ≡
            disagreements_at self.old.disagreements self.old.state now }
        ensures popped { self.new.popped ≡ self.old.popped }
    {
        let (closed, any_ready) = self.close(now, counts);
        if !any_ready {
            return Ticked {
                closed,
                change: None,
                used_up: false,
            };
        }
        let ready = columns::ready(self.columns.as_slice());
        if self.layout.change == u32::MAX {
            return Ticked {
                closed,
                change: None,
                used_up: !ready.is_empty(),
            };
        }
        Ticked {
            closed,
            change: self.adopt(ready.as_slice()),
            used_up: false,
        }
    }

    /// Closes the rows that are due, and clears the counts. It answers how many rows, and whether some column is ready.
    fn close(&mut self, now: u64, counts: &[u16; MAX_PMUS]) -> (u32, bool)
        ensures answer { result.0 ≡
            table.tick_answer self.old.state.content
            (rule_of self.old.state.wait_kind self.old.state.wait now) }
        ensures ready { result.1 ≡ list_any is_ready_in self.new.state.columns }
        // And here `step` does.
        ensures wait { self.old.state.wait < 2 ^ 64 }
        ensures state { self.new.state ≡ after_closing self.old.state now counts.now }
        ensures sizes { KeepsSizes self.old.state self.new.state }
        ensures in_force { in_force_in self.new.state ≡ in_force_in self.old.state }
        ensures memory { self.new.memory ≡ self.old.memory }
        ensures disagreements { self.new.disagreements ≡
            disagreements_at self.old.disagreements self.old.state now }
        ensures popped { self.new.popped ≡ self.old.popped }
    {
        let rule = rule_of(self.wait_kind, self.wait, now);
        let closed = self.close_rows(rule);
        let any_ready = self.clear(counts);
        self.current = now;
        (closed, any_ready)
    }

    /// Closes the rows that are due by the rule, under the layout in force. It answers how many.
    fn close_rows(&mut self, rule: WaitRule) -> u32
        ensures answer { result ≡ table.tick_answer self.old.state.content rule }
        ensures state { self.new.state ≡
            record self.old.state {
              content = table.after_tick self.old.state.content rule
                  (row_layout_in self.old.state);
            } }
        ensures sizes { KeepsSizes self.old.state self.new.state }
        ensures in_force { in_force_in self.new.state ≡ in_force_in self.old.state }
        ensures memory { self.new.memory ≡ self.old.memory }
        ensures disagreements { self.new.disagreements ≡
            table.disagreements_after self.old.disagreements self.old.state.content rule
            (row_layout_in self.old.state) }
        ensures popped { self.new.popped ≡ self.old.popped }
    {
        self.table.tick(rule, &self.layout)
    }

    /// Clears the counts. It answers whether some column is ready, and looks at none where these counts were cleared before, and nothing
    /// was held since.
    fn clear(&mut self, counts: &[u16; MAX_PMUS]) -> bool
        ensures ready { result ≡ list_any is_ready_in self.new.state.columns }
        ensures state { self.new.state ≡
            record self.old.state { columns = cleared_from 0 counts.now self.old.state.columns } }
        ensures unchanged { Unchanged self.old self.new }
    {
        if self.is_quiet && self.cleared == *counts {
            return false;
        }
        let any_ready = columns::clear(self.columns.as_mut_slice(), counts);
        self.cleared = *counts;
        self.is_quiet = !any_ready;
        any_ready
    }

    /// Puts into force what is ready, and adopts these columns in the table. It answers the change number, where there are any.
    #[inline(never)]
    fn adopt(&mut self, adopted: &[usize]) -> Option<u32>
        requires change { self.old.state.change < 2 ^ 32 - 1 }
        requires exist { All (λ (column : ℕ). column < length self.old.state.columns) adopted.now }
        ensures answer { result ≡ new_change self.old.state.change adopted.now }
        ensures state { self.new.state ≡ after_adopting self.old.state adopted.now }
        ensures sizes { KeepsSizes self.old.state self.new.state }
        ensures memory { self.new.memory ≡ self.old.memory }
        ensures disagreements { self.new.disagreements ≡ self.old.disagreements }
        ensures popped { self.new.popped ≡ self.old.popped }
    {
        columns::adopt(self.columns.as_mut_slice());
        adopt_in(&mut self.table, self.lanes, adopted);
        self.is_quiet = false;
        let change = if adopted.is_empty() {
            None
        } else {
            Some(self.layout.change + 1)
        };
        self.layout = RowLayout::new(
            self.layout.start,
            change.unwrap_or(self.layout.change),
            columns::shapes(self.columns.as_slice()),
        );
        change
    }
}
