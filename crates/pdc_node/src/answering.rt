//! What a node answers to what arrives, over its alignment.
ghost use Rattle.std.specs.Prelude.{◌≡◌, ℕ, ◌∷◌, ◌<◌, List, Option, length, map};
ghost use Rattle.std.specs.List.{AllByRecursion};
ghost use Rattle.pdc_align.specs.Align.{StandsFor, Unchanged};
ghost use Rattle.pdc_cfg.specs.Section.{SectionFields};
ghost use Rattle.pdc_life.specs.Answer.{answered, ToArrive};
ghost use Rattle.pdc_life.specs.Arrival.{Data, Layout, Stamp};
ghost use Rattle.pdc_life.specs.Given.{Given, count_for};
ghost use Rattle.pdc_life.specs.Life.{Entry};
ghost use Rattle.pdc_life.specs.Node.{node_answer};
ghost use Rattle.pdc_life.specs.Run.{IsRun};
ghost use Rattle.pdc_node.specs.Node.{IsOwn, IsReady};
ghost use Rattle.pdc_arrival.specs.Views.{arrival_view, section_part};

use pdc_align::{Alignment, others_are_left};
use pdc_arrival::{Arrival, ColumnSection, count_for, is_candidate, section_answer};
use pdc_block::Body;
use pdc_cfg::CfgFault;
use pdc_life::{MAX_PMUS, Outcome, Refusal};
use pdc_table::Table;

/// Answers data of a PMU, and takes it where it comes in time.
pub fn answer_data<T: Table>(
    alignment: &mut Alignment<T>,
    stream: usize,
    instant: u64,
    quality: u8,
    payload: &[u8],
) -> Outcome
    requires { IsReady alignment.old.state stream }
    ensures answer { (g : Given) (E : List Entry) → StandsFor g E alignment.old.state →
        result ≡ (node_answer g E stream (Data instant quality payload.now)).outcome }
    ensures stands { (g : Given) (E : List Entry) (bytes : List ℕ) →
        StandsFor g E alignment.old.state →
        IsRun g (answered node_answer g E (ToArrive stream bytes
        (Data instant quality payload.now)) ∷ E) →
        StandsFor g (answered node_answer g E (ToArrive stream bytes
        (Data instant quality payload.now)) ∷ E) alignment.new.state }
    ensures unchanged { Unchanged alignment.old alignment.new }
{
    others_are_left();
    let Some(shape) = alignment.shape_in_force(stream) else {
        return Outcome::Refused(Refusal::NoConfig);
    };
    if payload.len() != 2 * shape.word_count() {
        return Outcome::Refused(Refusal::WrongLength);
    }
    let body = Body {
        shape,
        bytes: payload,
    };
    alignment.put(stream, instant, &[(stream, body)], quality)
}

/// Answers a configuration of a PMU, and holds its section where it is new.
fn answer_layout<T: Table>(
    alignment: &mut Alignment<T>,
    opening: u16,
    stream: usize,
    sections: &[ColumnSection<'_>],
) -> Outcome
    requires ready { IsReady alignment.old.state stream }
    requires own { AllByRecursion (λ (part : ℕ × SectionFields). part.0 ≡
        stream) (map section_part sections.now) }
    ensures answer { (g : Given) (E : List Entry) (stamp : Option Stamp) →
        StandsFor g E alignment.old.state → opening ≡ count_for stream g.counts →
        result ≡ (node_answer g E stream (Layout stamp (map section_part sections.now))).outcome }
    ensures stands { (g : Given) (E : List Entry) (bytes : List ℕ) (stamp : Option Stamp) →
        StandsFor g E alignment.old.state → opening ≡ count_for stream g.counts →
        IsRun g (answered node_answer g E (ToArrive stream bytes
        (Layout stamp (map section_part sections.now))) ∷ E) →
        StandsFor g (answered node_answer g E (ToArrive stream bytes
        (Layout stamp (map section_part sections.now))) ∷ E) alignment.new.state }
    ensures unchanged { Unchanged alignment.old alignment.new }
{
    others_are_left();
    let [only] = sections else {
        return Outcome::Refused(Refusal::NoConfiguration(CfgFault::TooMany));
    };
    let outcome = section_answer(opening, alignment.held(stream), &only.section);
    if is_candidate(outcome) {
        alignment.hold(sections);
    }
    outcome
}

/// Answers what arrives for a PMU.
pub fn answer<T: Table>(
    alignment: &mut Alignment<T>,
    opening: &[u16; MAX_PMUS],
    stream: usize,
    arrival: &Arrival<'_>,
) -> Outcome
    requires ready { IsReady alignment.old.state stream }
    requires own { IsOwn stream (arrival_view arrival.now) }
    ensures answer { (g : Given) (E : List Entry) → StandsFor g E alignment.old.state →
        opening.now ≡ g.counts →
        result ≡ (node_answer g E stream (arrival_view arrival.now)).outcome }
    ensures stands { (g : Given) (E : List Entry) (bytes : List ℕ) →
        StandsFor g E alignment.old.state → opening.now ≡ g.counts →
        IsRun g (answered node_answer g E (ToArrive stream bytes (arrival_view arrival.now)) ∷ E) →
        StandsFor g (answered node_answer g E (ToArrive stream bytes (arrival_view arrival.now)) ∷
        E) alignment.new.state }
    ensures unchanged { Unchanged alignment.old alignment.new }
{
    others_are_left();
    match arrival {
        Arrival::BytesRefused(refusal) => Outcome::Refused(*refusal),
        Arrival::Data {
            instant,
            quality,
            payload,
        } => answer_data(alignment, stream, *instant, *quality, payload),
        Arrival::Layout { sections, .. } => {
            answer_layout(alignment, count_for(stream, opening), stream, sections)
        }
    }
}
