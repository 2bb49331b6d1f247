//! The publisher of one concentrator.
ghost use Rattle.std.specs.Prelude.{◌≡◌, ◌⊎◌, ◌+◌, ◌*◌, ◌<◌, ◌≤◌, ◌++◌, true, false, length};
ghost use Rattle.std.specs.Prelude.{IsTrue, IsErrOf, IfOk, IfErr, OnOk, OnErr};
ghost use Rattle.pdc_frame.specs.declared.tag_limits.TheConstants.{SECONDS};
ghost use Rattle.pdc_disk.specs.Disk.{HasFailed};
ghost use Rattle.pdc_mark.specs.Counts.{IsGreater, raised_to};
ghost use Rattle.pdc_mark.specs.Faults.{HasDeviceCause};
ghost use Rattle.pdc_mark.specs.Stored.{with_instant, with_waiting};
ghost use Rattle.pdc_row.specs.RowView.{row_view};
ghost use Rattle.pdc_row.specs.Layout.{wire_of};
ghost use Rattle.pdc_publisher.specs.Faults.{HandsBack, IsDevice};
ghost use Rattle.pdc_publisher.specs.Published.{IsRowFrame};
ghost use Rattle.pdc_publisher.specs.PublishedRow.{row_of};

use crate::fault::PublishFault;
use crate::framing::framed;
use crate::published::{Published, frame_of};
use crate::published_row::PublishedRow;
use pdc_frame::Buffer;
use pdc_mark::{COUNTS, Mark, MarkFault};
use pdc_memory::HeldBox;
use pdc_row::{DueRow, LastRow, Output};

/// The most instants that settings may reserve ahead.
pub const MAX_LEAD: u16 = 1000;

/// Publishes the rows of one life. It alone owns the mark: a row goes out only once the floor is stored at or above its
/// instant.
///
/// After a device fault each call that publishes is refused so, and each that raises where something is to be stored.
#[derive(Drop)]
pub struct Publisher<M: Mark> {
    pub(crate) mark: M,
    output: Output,
    pub(crate) lead: u16,
    pub(crate) last: u64,
    pub(crate) has_failed: bool,
    /// What is kept of the row that was written last.
    row: LastRow,
    pub ghost covered: { last ≤ (M.stored mark).floor },
}

impl<M: Mark> Publisher<M> {
    ghost use Rattle.pdc_publisher.specs.Publisher.{has_failed_in, last_in, lead_in, mark_in};
    ghost use Rattle.pdc_publisher.specs.Publisher.{output_in};

    /// A publisher over this mark. Where a row's instant is above the stored floor, it reserves so many instants behind it.
    pub fn new(mark: M, output: Output, lead: u16) -> Publisher<M>
        ensures mark { mark_in result ≡ mark }
        ensures output { output_in result ≡ output }
        ensures lead { lead_in result ≡ lead }
        ensures last { last_in result ≡ (M.stored mark).floor }
        ensures works { has_failed_in result ≡ false }
    {
        let (_, floor) = mark.stored();
        Publisher {
            mark,
            output,
            lead,
            last: floor,
            has_failed: false,
            row: LastRow::new(),
        }
    }

    /// The greatest instant published in this life, at first the stored floor.
    pub fn last(&self) -> u64
        ensures { result ≡ last_in self.now }
    {
        self.last
    }

    /// How many instants it reserves ahead.
    pub fn lead(&self) -> u16
        ensures { result ≡ lead_in self.now }
    {
        self.lead
    }

    /// The mark.
    pub fn mark(&self) -> &M
        ensures { result.now ≡ mark_in self.now }
    {
        &self.mark
    }

    /// The mark.
    pub fn into_mark(self) -> M
        ensures { result ≡ mark_in self }
    {
        self.mark
    }

    /// What its frames say of the concentrator.
    pub fn output(&self) -> &Output
        ensures { result.now ≡ output_in self.now }
    {
        &self.output
    }

    /// The counts that are stored, one for each PMU in the order of the settings.
    pub fn counts(&self) -> [u16; COUNTS]
        ensures value { result ≡ (M.stored (mark_in self.now)).counts }
        ensures len { length result ≡ COUNTS }
    {
        self.mark.counts()
    }

    /// Raises the mark to the counts that wait: stores the greater of each two, where that differs from the stored ones. Else nothing is
    /// stored, and the mark stays.
    ///
    /// # Errors
    ///
    /// `Device`, from then on by each call that publishes, and by each that raises where something is to be stored.
    pub fn raise(&mut self, waiting: &[u16; COUNTS]) -> Result<(), MarkFault>
        ensures ok { OnOk result (M.stored (mark_in self.new) ≡
            with_waiting waiting.now (M.stored (mark_in self.old))) }
        ensures greater { OnOk result (IsGreater (M.stored (mark_in self.old)).counts waiting.now
            (M.stored (mark_in self.new)).counts) }
        ensures err { OnErr result (M.stored (mark_in self.new) ≡ M.stored (mark_in self.old)) }
        ensures spared { (M.stored (mark_in self.old)).counts ≡
            raised_to (M.stored (mark_in self.old)).counts waiting.now
            → (mark_in self.new ≡ mark_in self.old) × OnErr result ⊥ }
        ensures faults { OnErr result (IsErrOf result MarkFault.Device) }
        ensures device { OnErr result (has_failed_in self.new ≡ true) }
        ensures works { OnOk result (has_failed_in self.new ≡ has_failed_in self.old) }
        ensures cause { ((M.stored (mark_in self.old)).counts ≡
            raised_to (M.stored (mark_in self.old)).counts waiting.now → ⊥)
            → HasDeviceCause (M.is_broken (mark_in self.old)) (M.is_broken (mark_in self.new))
            (M.failures (mark_in self.old)) (M.failures (mark_in self.new)) result }
        ensures broken { OnErr result (IsTrue (M.is_broken (mark_in self.old)) ⊎ HasFailed
            (M.failures (mark_in self.old)) (M.failures (mark_in self.new))) }
        ensures mark { OnOk result (M.is_broken (mark_in self.new) ≡
            M.is_broken (mark_in self.old)) }
        ensures failures { M.failures (mark_in self.old) ≤ M.failures (mark_in self.new) }
        ensures safe { M.is_safe → OnErr result ⊥ }
        ensures kept { (output_in self.new ≡ output_in self.old)
            × (lead_in self.new ≡ lead_in self.old) × (last_in self.new ≡ last_in self.old) }
    {
        let raised = self.mark.raise_to(waiting);
        if raised.is_err() {
            self.has_failed = true;
        }
        raised
    }

    /// Stores the floor that the instant needs: itself and the instants reserved behind it, where it is above the floor.
    fn reserve(&mut self, instant: u64) -> Result<(), MarkFault>
        requires { instant < SECONDS * (output_in self.old).rate }
        ensures ok { OnOk result (M.stored (mark_in self.new) ≡
            with_instant (lead_in self.old) instant (M.stored (mark_in self.old))) }
        ensures err { OnErr result (M.stored (mark_in self.new) ≡ M.stored (mark_in self.old)) }
        ensures spared { instant ≤ (M.stored (mark_in self.old)).floor →
            (mark_in self.new ≡ mark_in self.old) × OnErr result ⊥ }
        ensures failed { OnErr result (has_failed_in self.new ≡ true) }
        ensures works { OnOk result (has_failed_in self.new ≡ has_failed_in self.old) }
        ensures cause { OnErr result (IsTrue (M.is_broken (mark_in self.old)) ⊎ HasFailed
            (M.failures (mark_in self.old)) (M.failures (mark_in self.new))) }
        ensures failures { M.failures (mark_in self.old) ≤ M.failures (mark_in self.new) }
        ensures mark { OnOk result (M.is_broken (mark_in self.new) ≡
            M.is_broken (mark_in self.old)) }
        ensures safe { M.is_safe → OnErr result ⊥ }
        ensures kept { (output_in self.new ≡ output_in self.old)
            × (lead_in self.new ≡ lead_in self.old) × (last_in self.new ≡ last_in self.old) }
    {
        let stored = self.mark.reserve_for(instant, self.lead);
        if stored.is_err() {
            self.has_failed = true;
        }
        stored
    }

    /// Publishes a row: makes room for its data frame, stores the floor where the instant is above it, and appends the
    /// frame. The instant is above the last one, and below 2^32 times the rate.
    ///
    /// # Errors
    ///
    /// `Device` after a device fault; `NoMemory` with the row, where `out` has no room and gets none; `Device` where the
    /// floor is not stored.
    pub fn publish<B: Buffer>(
        &mut self,
        row: DueRow,
        out: &mut B,
    ) -> Result<Published, PublishFault>
        requires above { last_in self.old < row.instant }
        requires instant { row.instant < SECONDS * (output_in self.old).rate }
        // The frame of the row is appended,
        ensures ok { OnOk result (B.content out.new ≡ B.content out.old ++
            wire_of (output_in self.old) (row_view row)) }
        // and handed on.
        ensures published { IfOk result (λ p. IsRowFrame p.instant p.start p.change p.bytes.items
            (output_in self.old) (row_view row)) }
        ensures output { IfOk result (λ p. p.output ≡ output_in self.old) }
        // Its instant was reserved before.
        ensures stored { OnOk result (M.stored (mark_in self.new) ≡
            with_instant (lead_in self.old) row.instant (M.stored (mark_in self.old))) }
        ensures covered { OnOk result (row.instant ≤ (M.stored (mark_in self.new)).floor) }
        ensures last { OnOk result (last_in self.new ≡ row.instant) }
        // Below the floor, no device call is made.
        ensures spared { row.instant ≤ (M.stored (mark_in self.old)).floor →
            mark_in self.new ≡ mark_in self.old }
        // A row that is not published leaves all as it was,
        ensures err { OnErr result ((B.content out.new ≡ B.content out.old)
            × (M.stored (mark_in self.new) ≡ M.stored (mark_in self.old))
            × (last_in self.new ≡ last_in self.old)) }
        // and comes back where memory was wanted: then the publisher is the one before.
        ensures no_memory { IfErr result (HandsBack (row_view row)) }
        ensures untouched { IfErr result (λ fault. (IsDevice fault → ⊥) → self.new ≡ self.old) }
        // A request for the whole frame was refused.
        ensures refused { IfErr result (λ fault. (IsDevice fault → ⊥) →
            B.refused out.new (length (wire_of (output_in self.old) (row_view row)))) }
        ensures room { length (B.content out.old) +
            length (wire_of (output_in self.old) (row_view row)) ≤ B.capacity out.old →
            IfErr result IsDevice }
        ensures in_place { length (B.content out.old) +
            length (wire_of (output_in self.old) (row_view row)) ≤ B.capacity out.old
            → B.capacity out.new ≡ B.capacity out.old }
        // A device fault stands, and has its cause.
        ensures device { IfErr result (λ fault. IsDevice fault → has_failed_in self.new ≡ true) }
        ensures cause { IfErr result (λ fault. IsDevice fault → (has_failed_in self.old ≡ true)
            ⊎ (IsTrue (M.is_broken (mark_in self.old)) ⊎ HasFailed (M.failures (mark_in self.old))
            (M.failures (mark_in self.new)))) }
        // No failure is forgotten, and a mark is broken after it only where it was before.
        ensures failures { M.failures (mark_in self.old) ≤ M.failures (mark_in self.new) }
        ensures mark { OnOk result (M.is_broken (mark_in self.new) ≡
            M.is_broken (mark_in self.old)) }
        ensures failed { has_failed_in self.old ≡ true → IfErr result IsDevice × OnOk result ⊥ }
        ensures works { OnOk result (has_failed_in self.new ≡ false) }
        ensures safe { M.is_safe → has_failed_in self.old ≡ false →
            IfErr result (λ fault. IsDevice fault → ⊥) }
        ensures needed { row.instant ≤ (M.stored (mark_in self.old)).floor →
            has_failed_in self.old ≡ false → IfErr result (λ fault. IsDevice fault → ⊥) }
        ensures kept { (output_in self.new ≡ output_in self.old)
            × (lead_in self.new ≡ lead_in self.old) }
    {
        if self.has_failed {
            return Err(PublishFault::Device);
        }
        let frame = frame_of(&self.output, &row);
        if out.make_room(frame.bytes.len()).is_err() {
            return Err(PublishFault::NoMemory(row));
        }
        if self.reserve(row.instant).is_err() {
            return Err(PublishFault::Device);
        }
        out.append_bytes(frame.bytes.as_slice());
        self.last = row.instant;
        Ok(frame)
    }

    /// Publishes a row where it is: stores the floor where the instant is above it, and then works out what stands before and behind the
    /// blocks in its data frame, which is then to be shown to who sends it. The instant is above the last one, and below 2^32 times the rate. It
    /// takes no memory.
    ///
    /// # Errors
    ///
    /// `Device` after a device fault, or where the floor is not stored; the row is lost.
    pub fn publish_row(&mut self, row: HeldBox<DueRow>) -> Result<PublishedRow, MarkFault>
        requires above { last_in self.old < row.value.instant }
        requires instant { row.value.instant < SECONDS * (output_in self.old).rate }
        // It is the frame of the row.
        ensures output { IfOk result (λ p. p.output ≡ output_in self.old) }
        ensures ok { IfOk result (λ p. row_of p ≡ row_view row.value) }
        // Its instant was reserved before.
        ensures stored { OnOk result (M.stored (mark_in self.new) ≡
            with_instant (lead_in self.old) row.value.instant (M.stored (mark_in self.old))) }
        ensures covered { OnOk result (row.value.instant ≤ (M.stored (mark_in self.new)).floor) }
        ensures last { OnOk result (last_in self.new ≡ row.value.instant) }
        // Below the floor, no device call is made.
        ensures spared { row.value.instant ≤ (M.stored (mark_in self.old)).floor →
            mark_in self.new ≡ mark_in self.old }
        // A row that is not published leaves all as it was.
        ensures err { OnErr result ((M.stored (mark_in self.new) ≡ M.stored (mark_in self.old))
            × (last_in self.new ≡ last_in self.old)) }
        ensures faults { OnErr result (IsErrOf result MarkFault.Device) }
        // A device fault stands, and has its cause.
        ensures device { OnErr result (has_failed_in self.new ≡ true) }
        ensures cause { OnErr result ((has_failed_in self.old ≡ true)
            ⊎ (IsTrue (M.is_broken (mark_in self.old)) ⊎ HasFailed (M.failures (mark_in self.old))
            (M.failures (mark_in self.new)))) }
        // No failure is forgotten, and a mark is broken after it only where it was before.
        ensures failures { M.failures (mark_in self.old) ≤ M.failures (mark_in self.new) }
        ensures mark { OnOk result (M.is_broken (mark_in self.new) ≡
            M.is_broken (mark_in self.old)) }
        ensures failed { has_failed_in self.old ≡ true → OnOk result ⊥ }
        ensures works { OnOk result (has_failed_in self.new ≡ false) }
        ensures safe { M.is_safe → has_failed_in self.old ≡ false → OnErr result ⊥ }
        ensures needed { row.value.instant ≤ (M.stored (mark_in self.old)).floor →
            has_failed_in self.old ≡ false → OnErr result ⊥ }
        ensures kept { (output_in self.new ≡ output_in self.old)
            × (lead_in self.new ≡ lead_in self.old) }
    {
        if self.has_failed {
            return Err(MarkFault::Device);
        }
        let instant = row.get().instant;
        let reserved = self.reserve(instant);
        if reserved.is_err() {
            return Err(MarkFault::Device);
        }
        self.last = instant;
        Ok(framed(&self.output, row, &mut self.row))
    }

    /// Publishes a row that is lent, and answers its data frame, which is then to be sent: stores the floor where the instant is above it,
    /// and then writes the frame. The instant is above the last one, and below 2^32 times the rate. It takes no memory.
    ///
    /// # Errors
    ///
    /// `Device` after a device fault, or where the floor is not stored.
    pub fn publish_lent(&mut self, row: &DueRow) -> Result<Published, MarkFault>
        requires above { last_in self.old < row.now.instant }
        requires instant { row.now.instant < SECONDS * (output_in self.old).rate }
        // The frame is that of the row.
        ensures output { IfOk result (λ p. p.output ≡ output_in self.old) }
        ensures ok { IfOk result (λ p. IsRowFrame p.instant p.start p.change p.bytes.items
            (output_in self.old) (row_view row.now)) }
        // Its instant was reserved before.
        ensures stored { OnOk result (M.stored (mark_in self.new) ≡
            with_instant (lead_in self.old) row.now.instant (M.stored (mark_in self.old))) }
        ensures covered { OnOk result (row.now.instant ≤ (M.stored (mark_in self.new)).floor) }
        ensures last { OnOk result (last_in self.new ≡ row.now.instant) }
        // Below the floor, no device call is made.
        ensures spared { row.now.instant ≤ (M.stored (mark_in self.old)).floor →
            mark_in self.new ≡ mark_in self.old }
        // A row that is not published leaves all as it was.
        ensures err { OnErr result ((M.stored (mark_in self.new) ≡ M.stored (mark_in self.old))
            × (last_in self.new ≡ last_in self.old)) }
        ensures faults { OnErr result (IsErrOf result MarkFault.Device) }
        // A device fault stands, and has its cause.
        ensures device { OnErr result (has_failed_in self.new ≡ true) }
        ensures cause { OnErr result ((has_failed_in self.old ≡ true)
            ⊎ (IsTrue (M.is_broken (mark_in self.old)) ⊎ HasFailed (M.failures (mark_in self.old))
            (M.failures (mark_in self.new)))) }
        // No failure is forgotten, and a mark is broken after it only where it was before.
        ensures failures { M.failures (mark_in self.old) ≤ M.failures (mark_in self.new) }
        ensures mark { OnOk result (M.is_broken (mark_in self.new) ≡
            M.is_broken (mark_in self.old)) }
        ensures failed { has_failed_in self.old ≡ true → OnOk result ⊥ }
        ensures works { OnOk result (has_failed_in self.new ≡ false) }
        ensures safe { M.is_safe → has_failed_in self.old ≡ false → OnErr result ⊥ }
        ensures needed { row.now.instant ≤ (M.stored (mark_in self.old)).floor →
            has_failed_in self.old ≡ false → OnErr result ⊥ }
        ensures kept { (output_in self.new ≡ output_in self.old)
            × (lead_in self.new ≡ lead_in self.old) }
    {
        if self.has_failed {
            return Err(MarkFault::Device);
        }
        let reserved = self.reserve(row.instant);
        if reserved.is_err() {
            return Err(MarkFault::Device);
        }
        self.last = row.instant;
        Ok(frame_of(&self.output, row))
    }
}
