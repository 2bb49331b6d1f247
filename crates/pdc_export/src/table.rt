//! Blocks as rows of CSV.
ghost use Rattle.std.specs.Prelude.{◌≡◌, IfOk};
ghost use Rattle.pdc_export.specs.Plain.{is_formula, plain_name};

use csv::Writer;
use pdc_cfg::SectionView;
use pdc_values::{
    Channel, Field, Kind, Phasor, Quantity, Template, channels_of, fixed_of, station_name,
};
use std::alloc::{AllocError, Global};

/// What stands in the place of a value that is absent: nothing.
const ABSENT: &str = "";

/// The columns that every table has.
const FIXED: &str = "time,stream,pmu,id,stat,stat_words,frequency_Hz,rocof_Hz_s";

/// How many these are.
const FIXED_COUNT: usize = 8;

/// A channel that has columns of its own, whichever PMU has it.
#[derive(Drop)]
pub struct Column {
    /// What the channel is called.
    pub label: String,
    /// Of which kind it is.
    pub kind: Kind,
}

/// The columns of a table behind those that every table has.
#[derive(Drop)]
pub struct Columns {
    alloc: Global,
    columns: Vec<Column>,
}

/// Whether a spreadsheet would take a text for a formula, by its first byte.
fn is_formula(text: &[u8]) -> bool
    ensures { result ≡ is_formula text.now }
{
    match text.first() {
        Some(byte) => matches!(*byte, b'=' | b'+' | b'-' | b'@' | b'\t' | b'\r'),
        None => false,
    }
}

/// A name as a spreadsheet takes it for a text: behind a `'` where it would take it for a formula.
fn plain_name(alloc: Global, name: &[u8]) -> Result<Vec<u8>, AllocError>
    ensures { IfOk result (λ plain. plain.items ≡ plain_name name.now) }
{
    let mut plain = Vec::new(alloc);
    if is_formula(name) {
        plain.extend_from_slice(b"'")?;
    }
    plain.extend_from_slice(name)?;
    Ok(plain)
}

/// A name as one field of a row, in quotes where it needs them.
fn field_text(alloc: Global, name: &str) -> Result<Vec<u8>, AllocError> {
    if name.is_empty() {
        return Ok(Vec::new(alloc));
    }
    let text = plain_name(alloc, name.as_bytes())?;
    let mut writer = Writer::from_writer(Vec::new(alloc));
    writer
        .write_fields(&[text.as_slice()])
        .map_err(|_| AllocError)?;
    let mut row = writer.into_inner().map_err(|_| AllocError)?;
    row.pop();
    Ok(row)
}

/// A name that no column has yet: where one has it, a `#` and the number of the column among those of channels stand behind, as often as it takes.
/// Each time it grows, so none is tried twice, and one more than there are columns are enough.
fn free_name(alloc: Global, names: &[String], name: String) -> Result<String, AllocError> {
    let number = names.len().saturating_add(1);
    let mut free = name;
    for _ in 0..names.len().saturating_add(FIXED_COUNT) {
        if !is_taken(names, free.as_str()) {
            return Ok(free);
        }
        free = format!(in alloc; "{free}#{number}")?;
    }
    Ok(free)
}

/// Whether a column is called so.
fn is_taken(names: &[String], name: &str) -> bool {
    FIXED.split(',').any(|fixed| fixed == name) || names.iter().any(|taken| taken.as_str() == name)
}

/// Appends the names of the columns of a channel, each behind a comma, and keeps them with those of the columns before.
fn append_names(
    alloc: Global,
    column: &Column,
    names: &mut Vec<String>,
    out: &mut Vec<u8>,
) -> Result<(), AllocError> {
    let endings: &[&str] = match column.kind {
        Kind::Voltage => &["_magnitude_V", "_angle_rad", "_re_V", "_im_V"],
        Kind::Current => &["_magnitude_A", "_angle_rad", "_re_A", "_im_A"],
        Kind::Analog | Kind::Digital => &[""],
    };
    for ending in endings {
        let label = column.label.as_str();
        let name = format!(in alloc; "{label}{ending}")?;
        let name = free_name(alloc, names.as_slice(), name)?;
        out.extend_from_slice(b",")?;
        out.extend_from_slice(field_text(alloc, name.as_str())?.as_slice())?;
        names.push(name).map_err(|_| AllocError)?;
    }
    Ok(())
}

/// Adds the columns of a phasor, each behind a comma.
fn add_phasor(template: &mut Template, phasor: Phasor) -> Result<(), AllocError> {
    template.places(&[
        (",", Field::Magnitude(phasor)),
        (",", Field::Angle(phasor)),
        (",", Field::Real(phasor)),
        (",", Field::Imaginary(phasor)),
    ])
}

/// Adds the columns of a channel that the PMU has.
fn add_channel(template: &mut Template, quantity: Quantity) -> Result<(), AllocError> {
    match quantity {
        Quantity::Voltage(phasor) | Quantity::Current(phasor) => add_phasor(template, phasor),
        Quantity::Analog { place, factor } => {
            template.places(&[(",", Field::Analog { place, factor })])
        }
        Quantity::Digital { place } => template.places(&[(",", Field::Digital { place })]),
    }
}

/// Adds the columns of a channel that the PMU does not have: they are empty.
fn add_empty(template: &mut Template, kind: Kind) -> Result<(), AllocError> {
    match kind {
        Kind::Voltage | Kind::Current => template.text(b",,,,"),
        Kind::Analog | Kind::Digital => template.text(b","),
    }
}

/// Adds the PMU's name and id, STAT, the frequency and its rate of change, each behind a comma.
fn add_head(
    alloc: Global,
    template: &mut Template,
    section: &SectionView,
) -> Result<(), AllocError> {
    let name = station_name(alloc, section)?;
    let fixed = fixed_of(section);
    template.text(b",")?;
    template.text(field_text(alloc, name.as_str())?.as_slice())?;
    template.text(b",")?;
    template.count(u64::from(section.source))?;
    template.places(&[
        (",", Field::Stat),
        (",", Field::StatWords),
        (",", fixed.frequency),
        (",", fixed.rocof),
    ])
}

impl Column {
    /// Whether the channel has these columns.
    fn is_of(&self, channel: &Channel) -> bool {
        self.kind == channel.quantity.kind() && self.label.as_str() == channel.label.as_str()
    }
}

impl Columns {
    /// The columns of all channels of these sections, in their order. Channels of one name and kind share theirs.
    ///
    /// # Errors
    ///
    /// [`AllocError`] where there is no room and none is got.
    pub fn new(alloc: Global, sections: &[SectionView]) -> Result<Columns, AllocError> {
        let mut columns = Columns {
            alloc,
            columns: Vec::new(alloc),
        };
        for section in sections {
            columns.add_section(section)?;
        }
        Ok(columns)
    }

    /// Adds the columns of the section's channels that have none.
    fn add_section(&mut self, section: &SectionView) -> Result<(), AllocError> {
        for channel in channels_of(self.alloc, section)? {
            if !self.has(&channel) {
                let kind = channel.quantity.kind();
                let label = channel.label;
                self.columns
                    .push(Column { label, kind })
                    .map_err(|_| AllocError)?;
            }
        }
        Ok(())
    }

    /// Whether the channel has columns.
    fn has(&self, channel: &Channel) -> bool {
        self.columns.iter().any(|column| column.is_of(channel))
    }

    /// Appends the row of the columns' names.
    ///
    /// # Errors
    ///
    /// [`AllocError`] where there is no room and none is got.
    pub fn append_header(&self, out: &mut Vec<u8>) -> Result<(), AllocError> {
        out.extend_from_slice(FIXED.as_bytes())?;
        let mut names = Vec::new(self.alloc);
        for column in self.columns.iter() {
            append_names(self.alloc, column, &mut names, out)?;
        }
        out.extend_from_slice(b"\n")
    }

    /// The row of a block of this section, behind time and stream, and whether each channel of it has columns.
    ///
    /// # Errors
    ///
    /// [`AllocError`] where there is no room and none is got.
    pub fn row(&self, section: &SectionView) -> Result<(Template, bool), AllocError> {
        let channels = channels_of(self.alloc, section)?;
        let mut template = Template::new(self.alloc, ABSENT);
        add_head(self.alloc, &mut template, section)?;
        for column in self.columns.iter() {
            match channels.iter().find(|channel| column.is_of(channel)) {
                Some(channel) => add_channel(&mut template, channel.quantity)?,
                None => add_empty(&mut template, column.kind)?,
            }
        }
        template.text(b"\n")?;
        let whole = channels.iter().all(|channel| self.has(channel));
        Ok((template, whole))
    }
}
