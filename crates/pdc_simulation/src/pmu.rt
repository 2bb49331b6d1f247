//! A simulated PMU.
ghost use Rattle.std.specs.Prelude.{◌≡◌, ◌<◌, ◌≤◌, ◌+◌, ◌*◌, ◌++◌, ◌∷◌, [], true, false, length};
ghost use Rattle.std.specs.Prelude.{map, pos, IfErr, IsErrOf, IsSomeAnd, IsOk, OnErr, OnOk};
ghost use Rattle.pdc_frame.specs.Frame.{IsFrame, spelling_of};
ghost use Rattle.pdc_frame.specs.declared.frame.Kind.TheVariants.{Cfg2};
ghost use Rattle.pdc_frame.specs.declared.limits.TheConstants.{OVERHEAD};
ghost use Rattle.pdc_cfg.specs.Config.{IsConfig, config_frame_of, payload_of};
ghost use Rattle.pdc_cfg.specs.Section.{fields_of_section, fields_of_view};
ghost use Rattle.pdc_cfg.specs.Shape.{word_count_of};
ghost use Rattle.pdc_frame.specs.Command.{header_fields};
ghost use Rattle.pdc_frame.specs.declared.header.TheConstants.{MAX_TEXT};
ghost use Rattle.pdc_frame.specs.declared.tag_limits.TheConstants.{COUNT_LIMIT, MAX_RATE, SECONDS};
ghost use Rattle.pdc_simulation.specs.declared.pmu.TheConstants.{MAX_BLOCK_LEN};
ghost use Rattle.pdc_simulation.specs.Pmu.{after_config, after_data, after_header, config_of};
ghost use Rattle.pdc_simulation.specs.Pmu.{data_fields, data_of, is_later, new_pmu, next_config};

use crate::pmu_fault::PmuFault;
use crate::renamed::renamed;
use arrayvec::ArrayVec;
use pdc_block::append_words;
use pdc_cfg::{ConfigView, Section, SectionView, Shape, write_config};
use pdc_frame::{Buffer, Frame, Kind, StreamId, tag_of, write_frame, write_header};
use std::alloc::AllocError;
use std::marker::Model;

/// The greatest CFGCNT, a word (C37.118.2-2011, table 9): how many configurations a PMU sends at most.
pub const MAX_COUNT: u16 = 65535;

/// The most bytes of a block.
const MAX_BLOCK_LEN: usize = 214;

/// A PMU that sends one stream, and is its only source. The instants of its data frames rise, and so do the counts of
/// its configurations.
#[derive(Debug, Drop)]
pub struct Pmu {
    id: StreamId,
    rate: u16,
    time_base: u32,
    shape: Option<Shape>,
    count: u16,
    last: Option<u64>,
    has_sent: bool,
}

impl Model for Pmu {
    ghost use Rattle.std.specs.Prelude.{◌<◌, ◌≤◌};
    ghost use Rattle.pdc_frame.specs.declared.tag_limits.TheConstants.{COUNT_LIMIT, MAX_RATE};
    ghost use Rattle.pdc_simulation.specs.Pmu.{PmuView};

    ghost Value = { PmuView };

    ghost view = { λ p. record {
      id = p.id.value;
      rate = p.rate;
      time_base = p.time_base;
      shape = p.shape;
      count = p.count;
      last = p.last;
      has_sent = p.has_sent;
    } };

    ghost invariant = { λ p. record {
      rate_low : 1 ≤ p.rate;
      rate_high : p.rate ≤ MAX_RATE;
      base_low : p.rate ≤ p.time_base;
      base_high : p.time_base < COUNT_LIMIT;
    } };
}

impl Pmu {
    /// A PMU of this stream id, with so many frames a second, 1 to 240, and counts of FRACSEC in a second, from the rate
    /// to 16777215.
    pub fn new(id: StreamId, rate: u16, time_base: u32) -> Pmu
        requires rate_low { 1 ≤ rate }
        requires rate_high { rate ≤ MAX_RATE }
        requires base_low { rate ≤ time_base }
        requires base_high { time_base < COUNT_LIMIT }
        ensures { result ≡ new_pmu id.value rate time_base }
    {
        Pmu {
            id,
            rate,
            time_base,
            shape: None,
            count: 0,
            last: None,
            has_sent: false,
        }
    }

    /// The frames that it sends in a second.
    pub fn rate(&self) -> u16
        ensures { result ≡ self.now.rate }
    {
        self.rate
    }

    /// The shape of its last configuration: of what `send` may be given.
    pub fn shape(&self) -> Option<Shape>
        ensures { result ≡ self.now.shape }
    {
        self.shape
    }

    /// Gives it another stream id.
    ///
    /// # Errors
    ///
    /// `AlreadySent` exactly where it sent a frame.
    pub fn set_id(&mut self, id: StreamId) -> Result<(), PmuFault>
        ensures ok { OnOk result (self.new ≡ record self.old { id = id.value }) }
        ensures err { OnErr result (self.new ≡ self.old) }
        ensures fault { OnErr result (IsErrOf result PmuFault.AlreadySent) }
        ensures sent { self.old.has_sent ≡ true → OnOk result ⊥ }
        ensures unsent { self.old.has_sent ≡ false → OnErr result ⊥ }
    {
        if self.has_sent {
            return Err(PmuFault::AlreadySent);
        }
        self.id = id;
        Ok(())
    }

    /// Appends its header frame with this text, of at most 65519 bytes. `soc` is the second that it is dated with.
    ///
    /// # Errors
    ///
    /// `NoMemory` where `out` has no room and gets none.
    pub fn set_header<B: Buffer>(
        &mut self,
        soc: u32,
        text: &[u8],
        out: &mut B,
    ) -> Result<(), PmuFault>
        requires { length text.now ≤ MAX_TEXT }
        ensures ok { OnOk result (B.content out.new ≡ B.content out.old ++
            spelling_of (header_fields self.old.id soc text.now)) }
        ensures frame { IsFrame (spelling_of (header_fields self.old.id soc text.now))
            (header_fields self.old.id soc text.now) }
        ensures sent { OnOk result (self.new ≡ after_header self.old) }
        ensures err { OnErr result ((B.content out.new ≡ B.content out.old)
            × (self.new ≡ self.old)) }
        ensures fault { OnErr result (IsErrOf result PmuFault.NoMemory) }
        ensures room { length (B.content out.old) +
            (length text.now + OVERHEAD) ≤ B.capacity out.old → IsOk result }
        ensures in_place { length (B.content out.old) + (length text.now + OVERHEAD)
            ≤ B.capacity out.old → B.capacity out.new ≡ B.capacity out.old }
    {
        match write_header(self.id, soc, text, out) {
            Ok(()) => {
                self.has_sent = true;
                Ok(())
            }
            Err(_) => Err(PmuFault::NoMemory),
        }
    }

    /// Appends the CFG-2 frame of a section, with its own id as source and the next count, the first 1. `soc` is the second that
    /// it is dated with.
    ///
    /// # Errors
    ///
    /// `CountsUsedUp` after [`MAX_COUNT`] configurations; `NoMemory` where `out` has no room and gets none.
    pub fn set_configuration<B: Buffer>(
        &mut self,
        soc: u32,
        section: &SectionView,
        out: &mut B,
    ) -> Result<(), PmuFault>
        ensures ok { OnOk result (B.content out.new ≡ B.content out.old ++
            config_of self.old soc (fields_of_view section.now)) }
        ensures frame { OnOk result (IsFrame (config_of self.old soc (fields_of_view section.now))
            (config_frame_of Cfg2 self.old.id soc (next_config self.old
            (fields_of_view section.now)))) }
        ensures config { OnOk result (IsConfig
            (payload_of (next_config self.old (fields_of_view section.now)))
            (next_config self.old (fields_of_view section.now))) }
        ensures sent { OnOk result (self.new ≡ after_config self.old (fields_of_view section.now)) }
        ensures err { OnErr result ((B.content out.new ≡ B.content out.old)
            × (self.new ≡ self.old)) }
        ensures used_up { self.old.count ≡ MAX_COUNT → IsErrOf result PmuFault.CountsUsedUp }
        ensures fault { self.old.count < MAX_COUNT →
            OnErr result (IsErrOf result PmuFault.NoMemory) }
        ensures room { self.old.count < MAX_COUNT
            → length (B.content out.old) +
            length (config_of self.old soc (fields_of_view section.now))
            ≤ B.capacity out.old → IsOk result }
    {
        if self.count == MAX_COUNT {
            return Err(PmuFault::CountsUsedUp);
        }
        match self.append_config(soc, section, out) {
            Ok(()) => {
                self.shape = Some(section.shape);
                self.count += 1;
                self.has_sent = true;
                Ok(())
            }
            Err(_) => Err(PmuFault::NoMemory),
        }
    }

    /// Appends the data frame of an instant below 2^32 times the rate: as many words as its shape has, and time quality 0.
    ///
    /// # Errors
    ///
    /// `NotLater` where the instant is not above the last one; `NoMemory` where `out` has no room and gets none.
    pub fn send<B: Buffer>(
        &mut self,
        instant: u64,
        words: &[u16],
        out: &mut B,
    ) -> Result<(), PmuFault>
        requires instant { instant < SECONDS * self.old.rate }
        requires shape { IsSomeAnd self.old.shape (λ shape. length words.now ≡
            word_count_of shape) }
        ensures ok { OnOk result (B.content out.new ≡ B.content out.old ++
            data_of self.old instant words.now) }
        ensures frame { OnOk result (IsFrame (data_of self.old instant words.now)
            (data_fields self.old instant words.now)) }
        ensures sent { OnOk result (self.new ≡ after_data self.old instant) }
        ensures later { OnOk result (is_later self.old.last instant ≡ true) }
        ensures err { OnErr result ((B.content out.new ≡ B.content out.old)
            × (self.new ≡ self.old)) }
        ensures not_later { is_later self.old.last instant ≡ false →
            IsErrOf result PmuFault.NotLater }
        ensures fault { is_later self.old.last instant ≡ true →
            OnErr result (IsErrOf result PmuFault.NoMemory) }
        ensures room { is_later self.old.last instant ≡ true
            → length (B.content out.old) + length (data_of self.old instant words.now)
            ≤ B.capacity out.old → IsOk result }
    {
        if !self.is_later(instant) {
            return Err(PmuFault::NotLater);
        }
        match self.append_data(instant, words, out) {
            Ok(()) => {
                self.last = Some(instant);
                self.has_sent = true;
                Ok(())
            }
            Err(_) => Err(PmuFault::NoMemory),
        }
    }

    /// The next configuration, of this section alone.
    fn config_of<'a>(&self, next: &'a Section) -> ConfigView<'a>
        ensures flags { result.flags ≡ 0 }
        ensures time_base { result.time_base ≡ self.now.time_base }
        ensures sections { map fields_of_view result.sections.items ≡ fields_of_section next.now ∷
            [] }
        ensures rate { result.rate ≡ pos self.now.rate }
    {
        let mut sections = ArrayVec::new();
        sections.push(next.view());
        ConfigView {
            flags: 0,
            time_base: self.time_base,
            sections,
            rate: self.rate.cast_signed(),
        }
    }

    /// Appends the CFG-2 frame of a section, with the next count.
    fn append_config<B: Buffer>(
        &self,
        soc: u32,
        section: &SectionView,
        out: &mut B,
    ) -> Result<(), AllocError>
        requires { self.now.count < MAX_COUNT }
        ensures ok { OnOk result (B.content out.new ≡ B.content out.old ++
            config_of self.now soc (fields_of_view section.now)) }
        ensures frame { IsFrame (config_of self.now soc (fields_of_view section.now))
            (config_frame_of Cfg2 self.now.id soc (next_config self.now
            (fields_of_view section.now))) }
        ensures config { OnOk result (IsConfig
            (payload_of (next_config self.now (fields_of_view section.now)))
            (next_config self.now (fields_of_view section.now))) }
        ensures err { OnErr result (B.content out.new ≡ B.content out.old) }
        ensures room { length (B.content out.old)
            + length (config_of self.now soc (fields_of_view section.now)) ≤ B.capacity out.old
            → IsOk result }
    {
        let next = renamed(section, self.id.value, self.count + 1);
        let config = self.config_of(&next);
        write_config(&config, Kind::Cfg2, self.id, soc, out)
    }

    /// Appends the data frame of an instant.
    fn append_data<B: Buffer>(
        &self,
        instant: u64,
        words: &[u16],
        out: &mut B,
    ) -> Result<(), AllocError>
        requires instant { instant < SECONDS * self.now.rate }
        requires few { 2 * length words.now ≤ MAX_BLOCK_LEN }
        ensures ok { OnOk result (B.content out.new ≡ B.content out.old ++
            data_of self.now instant words.now) }
        ensures frame { IsFrame (data_of self.now instant words.now)
            (data_fields self.now instant words.now) }
        ensures err { OnErr result (B.content out.new ≡ B.content out.old) }
        ensures room { length (B.content out.old) +
            length (data_of self.now instant words.now) ≤ B.capacity out.old → IsOk result }
    {
        let mut payload: ArrayVec<u8, MAX_BLOCK_LEN> = ArrayVec::new();
        append_words(words, &mut payload);
        let (soc, frac) = tag_of(instant, self.time_base, u32::from(self.rate));
        write_frame(
            &Frame {
                kind: Kind::DataFrame,
                version: 2,
                id: self.id,
                soc,
                quality: 0,
                frac,
                payload: payload.as_slice(),
            },
            out,
        )
    }

    /// Whether the instant is above the last one.
    fn is_later(&self, instant: u64) -> bool
        ensures { result ≡ is_later self.now.last instant }
    {
        match self.last {
            Some(last) => last < instant,
            None => true,
        }
    }
}
