//! When a sender is asked for its configuration again.
ghost use Rattle.std.specs.Prelude.{◌≡◌};
ghost use Rattle.pdc_network.specs.Inquiry.{asked_at, fresh, is_called_for, is_called_for_by};
ghost use Rattle.pdc_network.specs.Inquiry.{is_misfit_due, with_answer, with_datagram};
ghost use Rattle.pdc_network.specs.Inquiry.{with_misfit};

use pdc_journal::{Moment, change_in};
use pdc_ports::{Outcome, Refusal};

/// How many seconds a sender has to send what it was asked for: then it is asked again, and a connection that was silent for so long, or
/// whose frame was not whole, is lost.
pub(crate) const PATIENCE: u64 = 5;

/// After how many seconds its configuration is asked for where the one that is held is not that of the data.
const SHORT_PATIENCE: u64 = 1;

/// What is remembered of a sender that is asked for its configuration.
#[derive(Drop)]
pub struct Inquiry {
    /// When it was asked for last; none where it never was.
    asked: Option<Moment>,
    /// Since when data is refused by its length, if it is.
    misfit: Option<Moment>,
    /// Whether the configuration was asked for since.
    is_misfit_told: bool,
    /// Whether the last data frame said that the configuration changes.
    changes: bool,
}

impl Inquiry {
    /// Nothing was asked for.
    pub fn new() -> Inquiry
        ensures { result ≡ fresh }
    {
        Inquiry {
            asked: None,
            misfit: None,
            is_misfit_told: false,
            changes: false,
        }
    }

    /// It is asked for now.
    pub fn note(&mut self, now: Moment)
        ensures { self.new ≡ asked_at now self.old }
    {
        self.asked = Some(now);
    }

    /// Whether it is to be asked for since this datagram came: the first data frame in a row which says that the configuration changes.
    pub fn is_called_for_by(&mut self, bytes: &[u8]) -> bool
        ensures called { result ≡ is_called_for_by bytes.now self.old }
        ensures after { self.new ≡ with_datagram bytes.now self.old }
    {
        let Some(changes) = change_in(bytes) else {
            return false;
        };
        let rises = changes && !self.changes;
        self.changes = changes;
        rises
    }

    /// Data is refused by its length. Whether the configuration is to be asked for: this has been so for a second, or it was asked for
    /// then and five more have gone by.
    fn is_misfit_due(&mut self, now: Moment) -> bool
        ensures due { result ≡ is_misfit_due now self.old }
        ensures after { self.new ≡ with_misfit now self.old }
    {
        let Some(since) = self.misfit else {
            self.misfit = Some(now);
            self.is_misfit_told = false;
            return false;
        };
        let is_due = if self.is_misfit_told {
            Moment::is_long_ago(self.asked, PATIENCE, now)
        } else {
            since.is_past(SHORT_PATIENCE, now)
        };
        self.is_misfit_told = self.is_misfit_told || is_due;
        is_due
    }

    /// Whether it is to be asked for since the last datagram was answered so.
    pub fn is_called_for(&mut self, now: Moment, outcome: Outcome) -> bool
        ensures called { result ≡ is_called_for now outcome self.old }
        ensures after { self.new ≡ with_answer now outcome self.old }
    {
        match outcome {
            Outcome::Refused(Refusal::NoConfig) => Moment::is_long_ago(self.asked, PATIENCE, now),
            Outcome::Refused(Refusal::OtherStamp) => {
                Moment::is_long_ago(self.asked, SHORT_PATIENCE, now)
            }
            Outcome::Refused(Refusal::WrongLength) => self.is_misfit_due(now),
            Outcome::Taken => {
                self.misfit = None;
                self.changes && Moment::is_long_ago(self.asked, PATIENCE, now)
            }
            _ => false,
        }
    }
}
