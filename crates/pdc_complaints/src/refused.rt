//! The line about a sender that is not what the settings say.

use crate::complaint::Complaint;
use crate::expected::Expected;
use crate::whose::Of;
use pdc_life::Refusal;
use std::alloc::{AllocError, Global};
use std::fmt;

/// What to do about a count.
const RAISE: &str = "raise the count at the sender";

/// What came, and what was expected.
impl fmt::Display for Complaint {
    fn fmt<W: fmt::Write>(&self, f: &mut fmt::Formatter<W>) -> fmt::Result {
        match self {
            Complaint::OtherStream { came, expected } => {
                write!(f, "frames of stream {came}, and {expected} is expected")
            }
            Complaint::OtherTimeBase { came, expected } => write!(
                f,
                "{came} counts of FRACSEC a second, {expected} in the settings"
            ),
            Complaint::OtherRate { came, expected } => {
                if *came > 0 {
                    write!(f, "{came} frames a second, {expected} in the settings")
                } else {
                    write!(f, "a DATA_RATE of {came}, {expected} in the settings")
                }
            }
            Complaint::OtherSource { came, expected } => {
                write!(f, "a section of {came}, {expected} in the settings")
            }
            Complaint::FloatFormat => {
                write!(f, "values in floating point, which are not supported")
            }
            Complaint::LowerCount { source, came, held } => {
                write!(
                    f,
                    "count {came} of {source}, and {held} came before: {RAISE}"
                )
            }
            Complaint::StaleCount { came: Some(came) } => {
                write!(f, "count {came}, and a greater one came before: {RAISE}")
            }
            Complaint::StaleCount { came: None } => {
                write!(f, "a lower count than one before: {RAISE}")
            }
            Complaint::SameCount { count: Some(count) } => {
                write!(f, "another one has count {count}: {RAISE}")
            }
            Complaint::SameCount { count: None } => {
                write!(f, "another one of a PMU has the same count: {RAISE}")
            }
            Complaint::OtherNode { came, expected } => {
                write!(f, "a layout of {came}, {expected} in the settings")
            }
            Complaint::NoOwnSection => write!(f, "its first section is not one of a node"),
            Complaint::OtherPmu { came } => {
                write!(
                    f,
                    "a section of {came}, which is not in the settings, or not in their order"
                )
            }
        }
    }
}

/// Appends the sources of the settings to the line about one that is not among them.
fn append_sources(alloc: Global, text: &mut String, sources: &[u16]) -> Result<(), AllocError> {
    let mut before = ": they have";
    for source in sources {
        let more = format!(in alloc; "{before} {source}")?;
        text.push_str(more.as_str())?;
        before = ",";
    }
    Ok(())
}

/// The line about frames of another stream.
fn stream_text(
    alloc: Global,
    of: Of,
    expected: &Expected,
    complaint: Complaint,
) -> Result<String, AllocError> {
    let (port, cause) = (expected.port, Refusal::WrongId.text());
    if port == 0 {
        format!(in alloc; "{of}: {complaint} ({cause})")
    } else {
        format!(in alloc; "port {port}: {complaint} ({cause})")
    }
}

/// The line about a sender whose frames are refused by this cause, for what is wrong with it.
///
/// # Errors
///
/// [`AllocError`] where there is no memory for it.
pub fn refused_text(
    alloc: Global,
    of: Of,
    expected: &Expected,
    cause: Refusal,
    complaint: Complaint,
) -> Result<String, AllocError> {
    if let Complaint::OtherStream { .. } = complaint {
        return stream_text(alloc, of, expected, complaint);
    }
    let cause = cause.text();
    let mut text = format!(in alloc; "{of}: its configuration was refused: {cause}, {complaint}")?;
    if let Complaint::OtherPmu { .. } = complaint {
        append_sources(alloc, &mut text, &expected.others)?;
    }
    if let Of::Pmu(_) = of {
        text.push_str("; its data is read by the one in force, if there is one")?;
    }
    Ok(text)
}
