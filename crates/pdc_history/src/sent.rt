//! All frames that were ever sent.
ghost use Rattle.std.specs.Prelude.{◌≡◌, ◌<◌, ◌≤◌, ◌+◌, ◌↔◌, [], ◌∷◌, ◌++◌, true, false, length};
ghost use Rattle.std.specs.Prelude.{option_map, IfErr, IfOk, IsErrOf, IsOk, IsTrue, OnErr, OnOk};
ghost use Rattle.std.specs.List.{Contains, slice_get};
ghost use Rattle.pdc_memory.specs.Asking.{SomeWasRefused};
ghost use Rattle.pdc_frame.specs.declared.limits.TheConstants.{MAX_SIZE};
ghost use Rattle.pdc_history.specs.Histories.{HasCause, MayBeSent};
ghost use Rattle.pdc_history.specs.Index.{Fits};
ghost use Rattle.pdc_history.specs.Sent.{IsOfNone, IsSendFault, MaySendAfter, with_frame};
ghost use Rattle.pdc_history.specs.declared.buckets.TheConstants.{BUCKETS};

use crate::buckets::{BUCKETS, bucket_of};
use crate::chains::Chains;
use crate::frames::Frames;
use crate::judging::{bucket_for, pmu_of};
use crate::looking_up::has_frame;
use crate::send_fault::SendFault;
use pdc_frame::MAX_SIZE;
use pdc_life::Settings;
use std::alloc::{AllocError, Global};
use std::marker::Model;

/// All frames that were ever sent, the first to be sent first, and the table of the PMUs that may send. A frame is found by its number,
/// by its bytes, and by what it tells of a PMU.
#[derive(Drop)]
pub struct Sent {
    settings: Settings,
    frames: Frames,
    by_check: Chains,
    by_key: Chains,
    has_room: bool,
}

impl Model for Sent {
    ghost use Rattle.pdc_history.specs.Index.{AreKept};
    ghost use Rattle.pdc_history.specs.Sent.{SentView};

    ghost Value = { SentView };

    ghost view = { λ s. record {
      frames = s.frames.frames;
      has_room = s.has_room;
      settings =
          s.settings;
    } };

    ghost invariant = { λ s. AreKept s.settings s.frames s.by_check s.by_key s.has_room };
}

impl Sent {
    /// No frame yet. The settings are a node's: the table of PMUs is common to all.
    ///
    /// # Errors
    ///
    /// [`AllocError`] where a request for the buckets was refused.
    pub fn new(alloc: Global, settings: Settings) -> Result<Sent, AllocError>
        ensures none { IfOk result (λ sent. sent ≡
            record { frames = []; has_room = false; settings = settings }) }
        ensures refused { OnErr result SomeWasRefused }
    {
        Ok(Sent {
            settings,
            frames: Frames::new(alloc),
            by_check: Chains::new(alloc, BUCKETS)?,
            by_key: Chains::new(alloc, BUCKETS + 1)?,
            has_room: false,
        })
    }

    /// How many frames were sent.
    pub fn len(&self) -> usize
        ensures { result ≡ length self.now.frames }
    {
        self.frames.len()
    }

    /// The frame with this number, from 0, if so many were sent.
    pub fn get(&self, number: usize) -> Option<&[u8]>
        ensures { option_map (λ bytes. bytes.now) result ≡ slice_get self.now.frames number }
    {
        if number < self.frames.len() {
            Some(self.frames.at(number))
        } else {
            None
        }
    }

    /// Whether these bytes are among the frames. It reads those with the same check word.
    pub fn has(&self, bytes: &[u8]) -> bool
        ensures { IsTrue result ↔ Contains self.now.frames bytes.now }
    {
        has_frame(&self.frames, &self.by_check, bytes)
    }

    /// Whether the bytes are a frame of no PMU of the table, which [`Sent::push_reserved`] takes.
    pub fn is_of_no_pmu(&self, bytes: &[u8]) -> bool
        ensures { IsTrue result ↔ IsOfNone self.now.settings bytes.now }
    {
        pmu_of(&self.settings, bytes).is_none()
    }

    /// Makes room for one frame more, of at most 65535 bytes.
    ///
    /// # Errors
    ///
    /// [`AllocError`] where there is none, and a request for it was refused. Nothing is changed then.
    pub fn reserve(&mut self) -> Result<(), AllocError>
        ensures ok { OnOk result (self.new ≡ record self.old { has_room = true }) }
        ensures err { OnErr result (self.new ≡ self.old) }
        ensures room { IsTrue self.old.has_room → IsOk result }
        ensures full { OnErr result (self.old.has_room ≡ false) }
        ensures refused { OnErr result SomeWasRefused }
    {
        if self.has_room {
            return Ok(());
        }
        self.frames.reserve(MAX_SIZE)?;
        self.by_check.reserve()?;
        self.by_key.reserve()?;
        self.has_room = true;
        Ok(())
    }

    /// Appends a frame of a node or of the merger, for which there is room. It takes no memory.
    pub fn push_reserved(&mut self, bytes: &[u8])
        requires room { IsTrue self.old.has_room }
        requires most { length bytes.now ≤ MAX_SIZE }
        // A PMU's frames are sent by `send` alone.
        requires of_none { IsOfNone self.old.settings bytes.now }
        ensures { self.new ≡ with_frame self.old bytes.now }
    {
        self.keep(bytes, BUCKETS);
    }

    /// A PMU sends a frame. It reads the frames that stand in the bucket of what this one tells.
    ///
    /// # Errors
    ///
    /// [`SendFault::Foreign`] where it is no frame of a PMU of the table, [`SendFault::OtherBody`] where its PMU sent another body for the
    /// same instant, [`SendFault::OtherSection`] where it sent another section under the same count, and else
    /// [`SendFault::NoMemory`] where there is no room for it, and a request for that was refused. Nothing is changed then.
    pub fn send(&mut self, bytes: &[u8]) -> Result<(), SendFault>
        ensures ok { OnOk result (self.new ≡ with_frame self.old bytes.now) }
        ensures err { OnErr result (self.new ≡ self.old) }
        ensures may { OnOk result (MaySendAfter self.old.settings self.old.frames bytes.now) }
        ensures fault { IfErr result (IsSendFault self.old bytes.now) }
        // The same in the words of the world.
        ensures event { OnOk result (MayBeSent self.old bytes.now) }
        ensures cause { IfErr result (HasCause self.old bytes.now) }
        // Memory is asked for only where it may happen.
        ensures memory { IsErrOf result SendFault.NoMemory → MayBeSent self.old bytes.now }
        ensures refused { IsErrOf result SendFault.NoMemory → SomeWasRefused }
    {
        let bucket = bucket_for(&self.settings, &self.frames, &self.by_key, bytes)?;
        self.reserve().map_err(|_| SendFault::NoMemory)?;
        self.keep(bytes, bucket);
        Ok(())
    }

    /// Appends a frame for which there is room, and which fits into this bucket by what it tells.
    fn keep(&mut self, bytes: &[u8], bucket: usize)
        requires room { IsTrue self.old.has_room }
        requires most { length bytes.now ≤ MAX_SIZE }
        requires bucket { bucket < BUCKETS + 1 }
        requires fits { Fits self.old.settings self.old.frames bytes.now bucket }
        ensures { self.new ≡ with_frame self.old bytes.now }
    {
        self.frames.push_reserved(bytes);
        self.by_check.push_reserved(bucket_of(bytes));
        self.by_key.push_reserved(bucket);
        self.has_room = false;
    }
}
