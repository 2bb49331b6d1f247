//! Cores whose streams are named by ids.
ghost use Rattle.std.specs.Prelude.{◌≡◌, ◌≢◌, ◌<◌, ℕ, IfNone, IfSome, Some, length};
ghost use Rattle.std.proofs.Common.{lit<};
ghost use Rattle.std.specs.List.{All, slice_get};
ghost use Rattle.pdc_life.specs.declared.pmu.Pmu.{Pmu as PmuData};
ghost use Rattle.pdc_life.specs.CoreKind.{CoreKind, OfMerger, OfNode};
ghost use Rattle.pdc_history.specs.Agree.{ids_of};
ghost use Rattle.pdc_history.specs.History.{stream_ids};
ghost use Rattle.pdc_station.specs.pdc_publisher.Publisher.{lead_in, mark_in};
ghost use Rattle.pdc_world.specs.Seats.{IsOfKind, Seat, is_of_itself};

use pdc_core::{Core, Opens};
use pdc_life::{MergerSettings, Pmu, Settings};
use pdc_mark::Store;
use pdc_merge::Merger;
use pdc_node::Node;
use pdc_station::Station;
use pdc_table::Table;

/// A core whose streams are named by ids.
pub(crate) trait Plays: Opens {
    // What it is with these settings.
    ghost kind: { Self.Settings → CoreKind };

    /// The number of the stream with this id, from 0.
    fn stream_of(&self, id: u16) -> Option<usize>
        ensures there { IfSome result (λ s. slice_get
            (stream_ids (kind (Self.settings_of self.now))) s ≡ Some id) }
        ensures exists { IfSome result (λ s. s < Self.Settings.streams (Self.settings_of self.now)) }
        ensures none { IfNone result ((s : ℕ) →
            slice_get (stream_ids (kind (Self.settings_of self.now))) s ≢ Some id) };

    // So it answers, so bytes say to it, and this its lives are given.
    ghost is_of_kind: { (settings : Self.Settings) →
        IsOfKind (kind settings) Self.rules (Self.Settings.says settings)
        (Self.given_with settings) };

    // It has a stream.
    ghost has_stream: { (settings : Self.Settings) → 0 < Self.Settings.streams settings };
}

/// What sits in a seat of a world.
pub(crate) trait Sits {
    // What it is to the world.
    ghost seat: { Self → Seat };
}

impl<C: Plays, S: Store> Sits for Station<C, S> {
    ghost seat = { λ station. record {
      kind = C.kind (C.settings_of station.core);
      lead = lead_in station.publisher;
      stands = C.stands_for station.core;
      mark = S.stored (mark_in station.publisher);
    } };
}

/// The number of the first PMU with this stream id.
fn first_of(pmus: &[Pmu], id: u16) -> Option<usize>
    ensures there { IfSome result (λ s. slice_get (ids_of pmus.now) s ≡ Some id) }
    ensures exists { IfSome result (λ s. s < length pmus.now) }
    ensures none { IfNone result (All (λ (pmu : PmuData). pmu.stream.value ≢ id) pmus.now) }
{
    pmus.iter().position(|pmu| pmu.stream.value == id)
}

/// The number of the PMU with this stream id.
fn pmu_of(settings: &Settings, id: u16) -> Option<usize>
    ensures there { IfSome result (λ s. slice_get (stream_ids (OfNode settings.now)) s ≡ Some id) }
    ensures exists { IfSome result (λ s. s < length settings.now.pmus.items) }
    ensures none { IfNone result ((s : ℕ) →
        slice_get (stream_ids (OfNode settings.now)) s ≢ Some id) }
{
    first_of(settings.pmus.as_slice(), id)
}

/// The number of the node with this id: 0 is A, 1 is B.
fn node_of(settings: &MergerSettings, id: u16) -> Option<usize>
    ensures there { IfSome result (λ s. slice_get (stream_ids (OfMerger settings.now)) s ≡
        Some id) }
    ensures exists { IfSome result (λ s. s < 2) }
    ensures none { IfNone result ((s : ℕ) →
        slice_get (stream_ids (OfMerger settings.now)) s ≢ Some id) }
{
    if settings.first.id.value == id {
        return Some(0);
    }
    if settings.second.id.value == id {
        return Some(1);
    }
    None
}

impl<T: Table> Plays for Node<T> {
    ghost kind = { OfNode };

    ghost is_of_kind = { λ settings. is_of_itself (OfNode settings) };

    ghost has_stream = { λ settings. settings.some };

    fn stream_of(&self, id: u16) -> Option<usize> {
        pmu_of(self.settings(), id)
    }
}

impl<T: Table> Plays for Merger<T> {
    ghost kind = { OfMerger };

    ghost is_of_kind = { λ settings. is_of_itself (OfMerger settings) };

    ghost has_stream = { λ _. lit< tt };

    fn stream_of(&self, id: u16) -> Option<usize> {
        node_of(self.settings(), id)
    }
}
