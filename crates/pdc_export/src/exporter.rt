//! One frame after the other, written as JSON or CSV.
ghost use Rattle.std.specs.Prelude.{◌≡◌, IfErr, IfOk, Ok, true, false};
ghost use Rattle.pdc_export.specs.Exported.{is_no_frame, is_of_bytes, is_refused};
ghost use Rattle.pdc_export.specs.declared.exporter.Exported.TheVariants.{Refused};
ghost use Rattle.pdc_frame.specs.Frame.{Fields, IsFirstFault, IsFrame};
ghost use Rattle.pdc_frame.specs.declared.fault.FrameFault.{FrameFault};
ghost use Rattle.pdc_show.specs.declared.refusal.NotShown.TheVariants as why;

use crate::held::{Held, blocks_for, read_blocks};
use crate::objects;
use crate::table::Columns;
use pdc_block::Block;
use pdc_cfg::{ConfigView, read_config};
use pdc_frame::{Frame, Kind, StreamId, read_command, read_frame, read_header};
use pdc_show::NotShown;
use pdc_values::{SecondText, Template, append_count, microseconds};
use std::alloc::{AllocError, Global};

/// The microseconds of a second.
const SECOND: u64 = 1_000_000;

/// In which form frames are written.
#[derive(Clone, Copy, PartialEq, Eq)]
pub enum Format {
    /// One JSON object a line for each frame.
    Json,
    /// One row of CSV for each block of a data frame, below a row of names.
    Csv,
}

/// What became of a frame.
#[derive(Clone, Copy)]
pub enum Exported {
    /// It was written: as one object, or as so many rows, one for each of its blocks.
    Written {
        /// The lines that were written for it.
        lines: usize,
    },
    /// It is a configuration, and some channels of it have no column in the table that was begun.
    LacksColumns,
    /// It was refused, and nothing was written.
    Refused(NotShown),
}

/// What is kept from one frame to the next.
#[derive(Drop)]
pub struct Exporter {
    alloc: Global,
    format: Format,
    /// The CFG-2 frame that was read last.
    held: Option<Held>,
    /// The columns of the table, once it is begun.
    columns: Option<Columns>,
    second: SecondText,
    /// The time of the frame that is written now.
    time: Vec<u8>,
}

/// Appends the rows of a data frame.
fn append_rows(
    time: &[u8],
    id: StreamId,
    templates: &[Template],
    blocks: &[Block],
    out: &mut Vec<u8>,
) -> Result<(), AllocError> {
    for (template, block) in templates.iter().zip(blocks) {
        out.extend_from_slice(time)?;
        out.extend_from_slice(b",")?;
        append_count(u64::from(id.value), out)?;
        template.append(block, out)?;
    }
    Ok(())
}

/// The templates of a configuration's sections as JSON.
fn json_templates(alloc: Global, config: &ConfigView) -> Result<Vec<Template>, AllocError> {
    let mut templates = Vec::new(alloc);
    for section in config.sections.as_slice() {
        let template = objects::block_template(alloc, section)?;
        templates.push(template).map_err(|_| AllocError)?;
    }
    Ok(templates)
}

/// The templates of a configuration's sections as rows, and whether each channel has columns.
fn csv_templates(
    alloc: Global,
    columns: &Columns,
    config: &ConfigView,
) -> Result<(Vec<Template>, bool), AllocError> {
    let mut templates = Vec::new(alloc);
    let mut is_whole = true;
    for section in config.sections.as_slice() {
        let (template, has_all) = columns.row(section)?;
        templates.push(template).map_err(|_| AllocError)?;
        is_whole &= has_all;
    }
    Ok((templates, is_whole))
}

/// What is written of a block of each section that is held.
fn templates_of(held: &Option<Held>) -> &[Template] {
    match held {
        Some(held) => held.templates.as_slice(),
        None => &[],
    }
}

/// The blocks of the data frame that was read last.
fn blocks_of(held: &Option<Held>) -> &[Block] {
    match held {
        Some(held) => held.blocks.as_slice(),
        None => &[],
    }
}

/// The time of the frame, where it has one.
fn time_of(time: &[u8]) -> Option<&[u8]> {
    if time.is_empty() { None } else { Some(time) }
}

impl Exporter {
    /// No frame yet.
    ///
    /// # Errors
    ///
    /// [`AllocError`] where there is no room and none is got.
    pub fn new(alloc: Global, format: Format) -> Result<Exporter, AllocError> {
        Ok(Exporter {
            alloc,
            format,
            held: None,
            columns: None,
            second: SecondText::new(alloc)?,
            time: Vec::new(alloc),
        })
    }

    /// In which form frames are written.
    pub fn format(&self) -> Format {
        self.format
    }

    /// Notes the time of the frame, none where its count lies in no second.
    fn set_time(&mut self, frame: &Frame, time_base: u32) -> Result<(), AllocError> {
        self.time.clear();
        match microseconds(frame.frac, time_base) {
            Some(micros) if micros < SECOND => {
                self.second
                    .append(self.alloc, frame.soc, micros, &mut self.time)
            }
            _ => Ok(()),
        }
    }

    /// The counts of FRACSEC in a second of this stream, where its configuration is held; else 0.
    fn time_base_of(&self, id: StreamId) -> u32 {
        match &self.held {
            Some(held) if held.id.value == id.value => held.time_base,
            _ => 0,
        }
    }

    /// Reads the blocks of a data frame, by the configuration that is held.
    fn read_blocks(&mut self, frame: &Frame) -> Result<Result<(), NotShown>, AllocError>
        ensures { IfOk result (λ read. IfErr read (λ refusal. is_of_bytes refusal ≡ false)) }
    {
        match &mut self.held {
            Some(held) if held.id.value == frame.id.value => {
                match read_blocks(held.blocks.as_mut_slice(), &mut held.words, frame.payload)? {
                    Ok(()) => Ok(Ok(())),
                    Err(fault) => Ok(Err(NotShown::Body(fault))),
                }
            }
            _ => Ok(Err(NotShown::NoConfig)),
        }
    }

    /// Writes a data frame.
    fn data(&mut self, frame: &Frame, out: &mut Vec<u8>) -> Result<Exported, AllocError>
        ensures refused { IfOk result (λ exported. is_refused exported ≡ true →
            out.new.items ≡ out.old.items) }
        ensures frame { IfOk result (λ exported. is_no_frame exported ≡ false) }
    {
        match self.read_blocks(frame)? {
            Ok(()) => self.write_data(frame, out),
            Err(refusal) => Ok(Exported::Refused(refusal)),
        }
    }

    /// Writes the blocks of a data frame, which were read.
    fn write_data(&mut self, frame: &Frame, out: &mut Vec<u8>) -> Result<Exported, AllocError>
        ensures { IfOk result (λ exported. is_refused exported ≡ false) }
    {
        self.set_time(frame, self.time_base_of(frame.id))?;
        let (templates, blocks) = (templates_of(&self.held), blocks_of(&self.held));
        match self.format {
            Format::Json => {
                objects::append_frame(b"data", time_of(self.time.as_slice()), frame, out)?;
                objects::append_blocks(templates, blocks, out)?;
                Ok(Exported::Written { lines: 1 })
            }
            Format::Csv => {
                append_rows(self.time.as_slice(), frame.id, templates, blocks, out)?;
                Ok(Exported::Written {
                    lines: blocks.len(),
                })
            }
        }
    }

    /// Writes a configuration, and holds it where it is a CFG-2.
    fn config(&mut self, frame: &Frame, out: &mut Vec<u8>) -> Result<Exported, AllocError>
        ensures refused { IfOk result (λ exported. is_refused exported ≡ true →
            out.new.items ≡ out.old.items) }
        ensures frame { IfOk result (λ exported. is_no_frame exported ≡ false) }
    {
        let config = match read_config(frame) {
            Ok(config) => config,
            Err(fault) => return Ok(Exported::Refused(NotShown::Config(fault))),
        };
        match self.format {
            Format::Json => self.json_config(frame, &config, out),
            Format::Csv => self.csv_config(frame, &config, out),
        }
    }

    /// Whether this configuration is held already.
    fn is_held(&self, frame: &Frame) -> bool {
        match &self.held {
            Some(held) => held.id.value == frame.id.value
                && held.payload.as_slice() == frame.payload,
            None => false,
        }
    }

    /// Holds a configuration, and what is written of its blocks.
    fn hold(
        &mut self,
        frame: &Frame,
        config: &ConfigView,
        templates: Vec<Template>,
    ) -> Result<(), AllocError> {
        self.held = Some(Held {
            id: frame.id,
            time_base: config.time_base,
            payload: Vec::from_slice(self.alloc, frame.payload)?,
            blocks: blocks_for(self.alloc, config)?,
            words: Vec::new(self.alloc),
            templates,
        });
        Ok(())
    }

    /// Writes a configuration as JSON.
    fn json_config(
        &mut self,
        frame: &Frame,
        config: &ConfigView,
        out: &mut Vec<u8>,
    ) -> Result<Exported, AllocError>
        ensures { IfOk result (λ exported. is_refused exported ≡ false) }
    {
        let is_cfg2 = frame.kind == Kind::Cfg2;
        if is_cfg2 && !self.is_held(frame) {
            let templates = json_templates(self.alloc, config)?;
            self.hold(frame, config, templates)?;
        }
        self.set_time(frame, config.time_base)?;
        let kind = if is_cfg2 { b"cfg2" } else { b"cfg1" };
        objects::append_frame(kind, time_of(self.time.as_slice()), frame, out)?;
        objects::append_config(self.alloc, config, out)?;
        Ok(Exported::Written { lines: 1 })
    }

    /// Holds a CFG-2 for rows. The first one gives the table its columns.
    fn csv_config(
        &mut self,
        frame: &Frame,
        config: &ConfigView,
        out: &mut Vec<u8>,
    ) -> Result<Exported, AllocError>
        ensures { IfOk result (λ exported. is_refused exported ≡ false) }
    {
        if frame.kind != Kind::Cfg2 || self.is_held(frame) {
            return Ok(Exported::Written { lines: 0 });
        }
        let columns = match self.columns.take() {
            Some(columns) => columns,
            None => {
                let columns = Columns::new(self.alloc, config.sections.as_slice())?;
                columns.append_header(out)?;
                columns
            }
        };
        let (templates, is_whole) = csv_templates(self.alloc, &columns, config)?;
        self.columns = Some(columns);
        self.hold(frame, config, templates)?;
        if is_whole {
            Ok(Exported::Written { lines: 0 })
        } else {
            Ok(Exported::LacksColumns)
        }
    }

    /// Writes a header frame.
    fn header(&mut self, frame: &Frame, out: &mut Vec<u8>) -> Result<Exported, AllocError>
        ensures refused { IfOk result (λ exported. is_refused exported ≡ true →
            out.new.items ≡ out.old.items) }
        ensures frame { IfOk result (λ exported. is_no_frame exported ≡ false) }
    {
        match read_header(frame) {
            Ok(text) => {
                if self.format == Format::Csv {
                    return Ok(Exported::Written { lines: 0 });
                }
                self.set_time(frame, self.time_base_of(frame.id))?;
                objects::append_frame(b"header", time_of(self.time.as_slice()), frame, out)?;
                objects::append_header(self.alloc, text, out)?;
                Ok(Exported::Written { lines: 1 })
            }
            Err(fault) => Ok(Exported::Refused(NotShown::Command(fault))),
        }
    }

    /// Writes a command frame.
    fn command(&mut self, frame: &Frame, out: &mut Vec<u8>) -> Result<Exported, AllocError>
        ensures refused { IfOk result (λ exported. is_refused exported ≡ true →
            out.new.items ≡ out.old.items) }
        ensures frame { IfOk result (λ exported. is_no_frame exported ≡ false) }
    {
        match read_command(frame) {
            Ok(command) => {
                if self.format == Format::Csv {
                    return Ok(Exported::Written { lines: 0 });
                }
                self.set_time(frame, self.time_base_of(frame.id))?;
                objects::append_frame(b"command", time_of(self.time.as_slice()), frame, out)?;
                objects::append_command(command, out)?;
                Ok(Exported::Written { lines: 1 })
            }
            Err(fault) => Ok(Exported::Refused(NotShown::Command(fault))),
        }
    }

    /// Writes the frame that the bytes are.
    ///
    /// # Errors
    ///
    /// [`AllocError`] where there is no room and none is got.
    pub fn export(&mut self, bytes: &[u8], out: &mut Vec<u8>) -> Result<Exported, AllocError>
        // Nothing is written of what is refused.
        ensures refused { IfOk result (λ exported. is_refused exported ≡ true →
            out.new.items ≡ out.old.items) }
        // Bytes that are no frame are refused by the first fault that they have; a frame is not refused so.
        ensures fault { (fault : FrameFault) → result ≡ Ok (Refused (why.Frame fault)) →
            IsFirstFault bytes.now fault }
        ensures frame { (f : Fields) → IsFrame bytes.now f →
            IfOk result (λ exported. is_no_frame exported ≡ false) }
    {
        let frame = match read_frame(bytes) {
            Ok(frame) => frame,
            Err(fault) => return Ok(Exported::Refused(NotShown::Frame(fault))),
        };
        match frame.kind {
            Kind::DataFrame => self.data(&frame, out),
            Kind::HeaderFrame => self.header(&frame, out),
            Kind::CommandFrame => self.command(&frame, out),
            // CFG-3 is refused as no configuration of this profile.
            Kind::Cfg1 | Kind::Cfg2 | Kind::Cfg3 => self.config(&frame, out),
        }
    }
}
