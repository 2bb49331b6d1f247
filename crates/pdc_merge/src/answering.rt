//! What the merger answers to what arrives, over its alignment and the layouts that it holds.
ghost use Rattle.std.specs.Prelude.{◌≡◌, ℕ, ◌+◌, ◌++◌, ◌∷◌, ◌<◌, ◌≤◌, List, Some, drop, length, map};
ghost use Rattle.std.specs.Prelude.{option_map};
ghost use Rattle.std.specs.List.{AllByRecursion};
ghost use Rattle.std.specs.Option.{ForSome};
ghost use Rattle.pdc_align.specs.Align.{StandsFor, Unchanged};
ghost use Rattle.pdc_block.specs.Block.{words_in};
ghost use Rattle.pdc_cfg.specs.Section.{SectionFields};
ghost use Rattle.pdc_frame.specs.CheckWord.{check_word_of};
ghost use Rattle.pdc_frame.specs.Fronts.{front_of};
ghost use Rattle.pdc_life.specs.pdc_row.declared.limits.TheConstants.{MAX_PMUS};
ghost use Rattle.pdc_life.specs.Answer.{answered, outcome_in_time, with_cells, ToArrive};
ghost use Rattle.pdc_life.specs.Arrival.{Data, Layout};
ghost use Rattle.pdc_life.specs.Given.{Given};
ghost use Rattle.pdc_life.specs.Life.{Arrive, Entry};
ghost use Rattle.pdc_life.specs.Merger.{merged_answer};
ghost use Rattle.pdc_life.specs.Run.{IsRun};
ghost use Rattle.pdc_arrival.specs.Views.{arrival_view, section_part, stamp_view};
ghost use Rattle.pdc_table.specs.Placing.{row_at};
ghost use Rattle.pdc_table.specs.pdc_columns.Twin.{twin_of};
ghost use Rattle.pdc_table.specs.pdc_open_row.Twin.{IsTwinIn};
ghost use Rattle.pdc_merge.specs.Cells.{are_in_force, blocks_len, cells_in, conflicts_in};
ghost use Rattle.pdc_merge.specs.Cells.{data_refusal, layouts_in_force};
ghost use Rattle.pdc_merge.specs.Held.{AreAllInPlace, AreInPlace, LayoutView, layout_at};
ghost use Rattle.pdc_merge.specs.Held.{layouts_of};
ghost use Rattle.pdc_merge.specs.Merger.{IsPlaced, IsReady};

use crate::cells::write_cells;
use crate::held_layout::HeldLayout;
use crate::in_force::InForce;
use crate::layouts::HeldLayouts;
use pdc_align::{Alignment, columns_stand, others_are_left};
use pdc_arrival::{
    Arrival, ColumnSection, OWN_BLOCK_LEN, Stamp, bears, differs, is_candidate, layout_answer,
};
use pdc_block::words_are_cut;
use pdc_frame::LentFront;
use pdc_life::{Outcome, Refusal};
use pdc_table::{Cut, Table, new_room};

/// Why data is refused under a layout, if it is: it is too short for an own block, it bears another stamp, or it has another length.
fn data_refusal(layout: &HeldLayout, payload: &[u8]) -> Option<Refusal>
    ensures { result ≡ data_refusal layout.now payload.now }
{
    words_are_cut();
    if payload.len() < OWN_BLOCK_LEN {
        return Some(Refusal::WrongLength);
    }
    let (own, blocks) = payload.split_at(OWN_BLOCK_LEN);
    if !bears(own, layout.stamp()) {
        return Some(Refusal::OtherStamp);
    }
    if blocks.len() != layout.blocks_len() {
        return Some(Refusal::WrongLength);
    }
    None
}

/// Offers the cells of data that a layout reads, where it may be that the count of some section is not in force. A call of its own, since it is
/// seldom, and makes room for the cells.
#[inline(never)]
fn put_some<T: Table>(
    alignment: &mut Alignment<T>,
    layout: &HeldLayout,
    stream: usize,
    instant: u64,
    quality: u8,
    payload: &[u8],
) -> Outcome
    requires each { length alignment.old.state.columns ≡ alignment.old.state.content.columns }
    requires lanes { alignment.old.state.content.lanes ≡ 2 }
    requires stream { stream < 2 }
    requires in_place { AreInPlace (length alignment.old.state.columns) layout.now.sections }
    requires size { length payload.now ≡ OWN_BLOCK_LEN + blocks_len layout.now.sections }
    ensures answer { (g : Given) (E : List Entry) → StandsFor g E alignment.old.state →
        result ≡ outcome_in_time g E stream instant
        (cells_in alignment.old.state quality layout.now.sections (drop 7 (words_in payload.now))) }
    ensures stands { (g : Given) (E : List Entry) (bytes : List ℕ) →
        StandsFor g E alignment.old.state →
        IsRun g (Arrive stream bytes (Data instant quality payload.now)
        (with_cells result (cells_in alignment.old.state quality layout.now.sections
        (drop 7 (words_in payload.now)))) ∷ E) →
        StandsFor g (Arrive stream bytes (Data instant quality payload.now)
        (with_cells result (cells_in alignment.old.state quality layout.now.sections
        (drop 7 (words_in payload.now)))) ∷ E) alignment.new.state }
    ensures unchanged { Unchanged alignment.old alignment.new }
{
    words_are_cut();
    let blocks = &payload[OWN_BLOCK_LEN..];
    let mut cells = new_room();
    let count = write_cells(alignment, layout.sections(), blocks, &mut cells, 0);
    alignment.put(stream, instant, &cells[..count], quality)
}

/// Offers the cells of data that a layout reads, of which it is known whether the count of each section is in force.
fn put_data<T: Table>(
    alignment: &mut Alignment<T>,
    layout: &HeldLayout,
    is_in_force: bool,
    stream: usize,
    instant: u64,
    quality: u8,
    payload: &[u8],
    sent: Option<&LentFront<'_>>,
    is_twin: bool,
) -> Outcome
    requires each { length alignment.old.state.columns ≡ alignment.old.state.content.columns }
    requires lanes { alignment.old.state.content.lanes ≡ 2 }
    requires stream { stream < 2 }
    requires in_place { AreInPlace (length alignment.old.state.columns) layout.now.sections }
    requires size { length payload.now ≡ OWN_BLOCK_LEN + blocks_len layout.now.sections }
    requires in_force { is_in_force ≡ are_in_force alignment.old.state layout.now.sections }
    requires sent { ForSome sent (λ known. (front_of known.now).check ≡
        check_word_of ((front_of known.now).bytes ++ drop 14 payload.now)) }
    requires twin { IsTwinIn (twin_of is_twin (drop 14 payload.now))
        (row_at instant alignment.old.state.content.open_rows) }
    ensures answer { (g : Given) (E : List Entry) → StandsFor g E alignment.old.state →
        result ≡ outcome_in_time g E stream instant
        (cells_in alignment.old.state quality layout.now.sections (drop 7 (words_in payload.now))) }
    ensures stands { (g : Given) (E : List Entry) (bytes : List ℕ) →
        StandsFor g E alignment.old.state →
        IsRun g (Arrive stream bytes (Data instant quality payload.now)
        (with_cells result (cells_in alignment.old.state quality layout.now.sections
        (drop 7 (words_in payload.now)))) ∷ E) →
        StandsFor g (Arrive stream bytes (Data instant quality payload.now)
        (with_cells result (cells_in alignment.old.state quality layout.now.sections
        (drop 7 (words_in payload.now)))) ∷ E) alignment.new.state }
    ensures unchanged { Unchanged alignment.old alignment.new }
{
    words_are_cut();
    if is_in_force {
        let cut = Cut {
            parts: layout.sections(),
            laid: layout.laid(),
            bytes: &payload[OWN_BLOCK_LEN..],
            sent,
            is_twin,
        };
        return alignment.put_parts(stream, instant, &cut, quality);
    }
    put_some(alignment, layout, stream, instant, quality, payload)
}

/// Answers data of a node under its layout, and takes it where it comes in time.
fn answer_under<T: Table>(
    alignment: &mut Alignment<T>,
    layout: &HeldLayout,
    is_in_force: bool,
    stream: usize,
    instant: u64,
    quality: u8,
    payload: &[u8],
    sent: Option<&LentFront<'_>>,
    is_twin: bool,
) -> Outcome
    requires each { length alignment.old.state.columns ≡ alignment.old.state.content.columns }
    requires lanes { alignment.old.state.content.lanes ≡ 2 }
    requires stream { stream < 2 }
    requires in_place { AreInPlace (length alignment.old.state.columns) layout.now.sections }
    requires in_force { is_in_force ≡ are_in_force alignment.old.state layout.now.sections }
    requires sent { ForSome sent (λ known. (front_of known.now).check ≡
        check_word_of ((front_of known.now).bytes ++ drop 14 payload.now)) }
    requires twin { IsTwinIn (twin_of is_twin (drop 14 payload.now))
        (row_at instant alignment.old.state.content.open_rows) }
    ensures answer { (g : Given) (E : List Entry) → StandsFor g E alignment.old.state →
        Some layout.now ≡ layout_at (layouts_of E) stream →
        result ≡ (merged_answer g E stream (Data instant quality payload.now)).outcome }
    ensures stands { (g : Given) (E : List Entry) (bytes : List ℕ) →
        StandsFor g E alignment.old.state → Some layout.now ≡ layout_at (layouts_of E) stream →
        IsRun g (answered merged_answer g E (ToArrive stream bytes
        (Data instant quality payload.now)) ∷ E) →
        StandsFor g (answered merged_answer g E (ToArrive stream bytes
        (Data instant quality payload.now)) ∷ E) alignment.new.state }
    ensures unchanged { Unchanged alignment.old alignment.new }
{
    others_are_left();
    columns_stand();
    match data_refusal(layout, payload) {
        Some(refusal) => Outcome::Refused(refusal),
        None => put_data(
            alignment,
            layout,
            is_in_force,
            stream,
            instant,
            quality,
            payload,
            sent,
            is_twin,
        ),
    }
}

/// Whether some section has the count of the one that is held of its column, or in force, and other bytes.
fn has_count_conflict<T: Table>(alignment: &Alignment<T>, sections: &[ColumnSection<'_>]) -> bool
    requires { AllByRecursion (λ (part : ℕ
        × SectionFields). part.0 < length alignment.now.state.columns)
        (map section_part sections.now) }
    ensures { result ≡ conflicts_in alignment.now.state (map section_part sections.now) }
{
    match sections.split_first() {
        Some((first, later)) => {
            differs(alignment.held(first.column), &first.section)
                || differs(alignment.in_force(first.column), &first.section)
                || has_count_conflict(alignment, later)
        }
        None => false,
    }
}

/// The stamp of the layout, if one is held.
fn stamp_of(layout: Option<&HeldLayout>) -> Option<Stamp>
    ensures { option_map stamp_view result ≡
        option_map (λ (l : LayoutView). l.stamp) (option_map (λ l. l.now) layout.entry) }
{
    match layout {
        Some(layout) => Some(layout.stamp()),
        None => None,
    }
}

/// Answers a layout of a node, and holds its sections where it is new.
fn answer_layout<T: Table>(
    alignment: &mut Alignment<T>,
    held: Option<Stamp>,
    stream: usize,
    stamp: Stamp,
    sections: &[ColumnSection<'_>],
) -> Outcome
    requires { AllByRecursion (λ (part : ℕ
        × SectionFields). part.0 < length alignment.old.state.columns)
        (map section_part sections.now) }
    ensures answer { (g : Given) (E : List Entry) → StandsFor g E alignment.old.state →
        option_map stamp_view held ≡
        option_map (λ (l : LayoutView). l.stamp) (layout_at (layouts_of E) stream) → stream < 2 →
        result ≡ (merged_answer g E stream (Layout (Some (stamp_view stamp))
        (map section_part sections.now))).outcome }
    ensures stands { (g : Given) (E : List Entry) (bytes : List ℕ) →
        StandsFor g E alignment.old.state →
        option_map stamp_view held ≡
        option_map (λ (l : LayoutView). l.stamp) (layout_at (layouts_of E) stream) → stream < 2 →
        IsRun g (answered merged_answer g E (ToArrive stream bytes
        (Layout (Some (stamp_view stamp)) (map section_part sections.now))) ∷ E) →
        StandsFor g (answered merged_answer g E (ToArrive stream bytes
        (Layout (Some (stamp_view stamp)) (map section_part sections.now))) ∷
        E) alignment.new.state }
    ensures unchanged { Unchanged alignment.old alignment.new }
{
    others_are_left();
    columns_stand();
    let conflicts = has_count_conflict(alignment, sections);
    let outcome = layout_answer(held, stamp, conflicts);
    if is_candidate(outcome) {
        alignment.hold(sections);
    }
    outcome
}

/// Answers a configuration from a node, and holds its layout where it is new. One without a stamp has no own section.
fn answer_configuration<T: Table>(
    alignment: &mut Alignment<T>,
    layouts: &mut HeldLayouts,
    stream: usize,
    stamp: Option<Stamp>,
    sections: &[ColumnSection<'_>],
) -> Outcome
    requires in_place { AreAllInPlace (length alignment.old.state.columns) layouts.old }
    requires placed { IsPlaced (length alignment.old.state.columns) stream
        (Layout (option_map stamp_view stamp) (map section_part sections.now)) }
    requires few { length sections.now ≤ MAX_PMUS }
    ensures answer { (g : Given) (E : List Entry) → StandsFor g E alignment.old.state →
        layouts.old ≡ layouts_of E →
        result ≡ (merged_answer g E stream (Layout (option_map stamp_view stamp)
        (map section_part sections.now))).outcome }
    ensures stands { (g : Given) (E : List Entry) (bytes : List ℕ) →
        StandsFor g E alignment.old.state → layouts.old ≡ layouts_of E →
        IsRun g (answered merged_answer g E (ToArrive stream bytes
        (Layout (option_map stamp_view stamp) (map section_part sections.now))) ∷ E) →
        StandsFor g (answered merged_answer g E (ToArrive stream bytes
        (Layout (option_map stamp_view stamp) (map section_part sections.now))) ∷
        E) alignment.new.state }
    ensures held { (g : Given) (E : List Entry) (bytes : List ℕ) →
        StandsFor g E alignment.old.state → layouts.old ≡ layouts_of E →
        layouts.new ≡ layouts_of (answered merged_answer g E
        (ToArrive stream bytes (Layout (option_map stamp_view stamp)
        (map section_part sections.now))) ∷ E) }
    ensures in_place { AreAllInPlace (length alignment.old.state.columns) layouts.new }
    ensures unchanged { Unchanged alignment.old alignment.new }
{
    others_are_left();
    let Some(stamp) = stamp else {
        return Outcome::Refused(Refusal::BadOwnBlock);
    };
    let held = stamp_of(layouts.of(stream));
    let outcome = answer_layout(alignment, held, stream, stamp, sections);
    if is_candidate(outcome) {
        layouts.hold(stream, HeldLayout::new(stamp, sections));
    }
    outcome
}

/// Answers data of a node, and takes it where a layout of the node is held and it comes in time.
#[inline(always)]
pub fn answer_data<T: Table>(
    alignment: &mut Alignment<T>,
    layouts: &HeldLayouts,
    in_force: InForce,
    stream: usize,
    instant: u64,
    quality: u8,
    payload: &[u8],
    sent: Option<&LentFront<'_>>,
    is_twin: bool,
) -> Outcome
    requires ready { IsReady alignment.old.state layouts.now }
    requires known { in_force ≡ layouts_in_force alignment.old.state layouts.now }
    requires stream { stream < 2 }
    requires sent { ForSome sent (λ known. (front_of known.now).check ≡
        check_word_of ((front_of known.now).bytes ++ drop 14 payload.now)) }
    requires twin { IsTwinIn (twin_of is_twin (drop 14 payload.now))
        (row_at instant alignment.old.state.content.open_rows) }
    ensures answer { (g : Given) (E : List Entry) → StandsFor g E alignment.old.state →
        layouts.now ≡ layouts_of E →
        result ≡ (merged_answer g E stream (Data instant quality payload.now)).outcome }
    ensures stands { (g : Given) (E : List Entry) (bytes : List ℕ) →
        StandsFor g E alignment.old.state → layouts.now ≡ layouts_of E →
        IsRun g (answered merged_answer g E (ToArrive stream bytes
        (Data instant quality payload.now)) ∷ E) →
        StandsFor g (answered merged_answer g E (ToArrive stream bytes
        (Data instant quality payload.now)) ∷ E) alignment.new.state }
    ensures unchanged { Unchanged alignment.old alignment.new }
{
    others_are_left();
    match layouts.of(stream) {
        Some(layout) => answer_under(
            alignment,
            layout,
            in_force.of(stream),
            stream,
            instant,
            quality,
            payload,
            sent,
            is_twin,
        ),
        None => Outcome::Refused(Refusal::NoConfig),
    }
}

/// Answers what arrives from a node.
pub fn answer<T: Table>(
    alignment: &mut Alignment<T>,
    layouts: &mut HeldLayouts,
    in_force: InForce,
    stream: usize,
    arrival: &Arrival<'_>,
) -> Outcome
    requires ready { IsReady alignment.old.state layouts.old }
    requires known { in_force ≡ layouts_in_force alignment.old.state layouts.old }
    requires placed { IsPlaced (length alignment.old.state.columns) stream
        (arrival_view arrival.now) }
    ensures answer { (g : Given) (E : List Entry) → StandsFor g E alignment.old.state →
        layouts.old ≡ layouts_of E →
        result ≡ (merged_answer g E stream (arrival_view arrival.now)).outcome }
    ensures stands { (g : Given) (E : List Entry) (bytes : List ℕ) →
        StandsFor g E alignment.old.state → layouts.old ≡ layouts_of E →
        IsRun g (answered merged_answer g E (ToArrive stream bytes (arrival_view arrival.now)) ∷
        E) →
        StandsFor g (answered merged_answer g E (ToArrive stream bytes (arrival_view arrival.now)) ∷
        E) alignment.new.state }
    ensures held { (g : Given) (E : List Entry) (bytes : List ℕ) →
        StandsFor g E alignment.old.state → layouts.old ≡ layouts_of E →
        layouts.new ≡ layouts_of (answered merged_answer g E
        (ToArrive stream bytes (arrival_view arrival.now)) ∷ E) }
    ensures in_place { AreAllInPlace (length alignment.old.state.columns) layouts.new }
    ensures unchanged { Unchanged alignment.old alignment.new }
{
    others_are_left();
    match arrival {
        Arrival::BytesRefused(refusal) => Outcome::Refused(*refusal),
        Arrival::Data {
            instant,
            quality,
            payload,
        } => answer_data(
            alignment, layouts, in_force, stream, *instant, *quality, payload, None, false,
        ),
        Arrival::Layout { stamp, sections } => {
            answer_configuration(alignment, layouts, stream, *stamp, sections)
        }
    }
}
