//! The ledger of a log: what it counts, which commands that refuses, and the replies.

ghost use Rattle.std.specs.Prelude.{◌≡◌, ◌+◌, ◌^◌, ◌<◌, length};
ghost use Rattle.events.specs.Kept.{members, first_free, first_kept, with_version, least_kept};
ghost use Rattle.events.specs.declared.command.Reply.TheVariants.{Painted, Published, Reverted};
ghost use Rattle.events.specs.declared.command.Reply.TheVariants.{Collected, Checkpointed};
ghost use Rattle.events.specs.Ledger.{HasPlace, IsBalanced, refused_by_ledger};
ghost use Rattle.events.specs.Words.{now_word};

use crate::command::{Command, Reply};
use crate::kept::Kept;
use crate::now::Now;
use crate::setting::Setting;
use bits::Bitmap;
use metric::Refusal;

/// The most entries that a log may have: places count no higher.
const MOST_PLACES: u32 = 536_870_911;

/// The counts of a log, with the setting and the size of the map.
///
/// Whoever keeps a log judges each command by its ledger, and enters each command that it does,
/// which gives the reply. What these calls require holds after any legal log: neither the newest
/// version nor the last checkpoint's place exceeds the last place. To enter a command requires a
/// place for it.
#[derive(Clone, Copy)]
pub struct Ledger {
    pub setting: Setting,
    /// The map's columns and rows, 1 to 4096 each.
    pub width: u16,
    pub height: u16,
    /// The number of entries of the log: the place of its last one, from 1.
    pub places: u32,
    /// The place of the last checkpoint, 0 where there is none: the entries after it count against
    /// the log's limit.
    pub base: u32,
    /// The newest version, from 0.
    pub newest: u32,
    /// The slot of the newest version.
    pub slot: u32,
    /// The versions that are kept.
    pub kept: Kept,
}

impl Ledger {
    /// The ledger of the empty log of a map opened with this bitmap.
    pub fn of(setting: Setting, map: &Bitmap) -> Ledger
        ensures { result ≡ record {
          setting = setting;
          width = map.now.width;
          height = map.now.height;
          places = 0;
          base = 0;
          newest = 0;
          slot = 0;
          kept = first_kept;
        } }
    {
        Ledger {
            setting,
            width: map.width(),
            height: map.height(),
            places: 0,
            base: 0,
            newest: 0,
            slot: 0,
            kept: Kept::first(),
        }
    }

    /// Why a command is refused, blocks aside, if it is: for its area (`OutOfRange`), a full log
    /// (`LogFull`, never a checkpoint), no place left (`PlacesUsed`) or no free slot
    /// (`VersionsFull`, a publish), in this order.
    #[tactic(auto, unfolding(crate::specs::Ledger::refused_by_ledger))]
    pub fn judge(&self, command: &Command) -> Option<Refusal>
        requires { IsBalanced self.now }
        ensures { result ≡ refused_by_ledger self.now command.now }
    {
        if !command.lies_within(self.width, self.height) {
            return Some(Refusal::OutOfRange);
        }
        if command.takes_room() && self.setting.log <= self.places - self.base {
            return Some(Refusal::LogFull);
        }
        if MOST_PLACES <= self.places {
            return Some(Refusal::PlacesUsed);
        }
        match command {
            Command::Publish if self.setting.versions <= self.kept.count() => {
                Some(Refusal::VersionsFull)
            }
            _ => None,
        }
    }

    /// Enters a paint or a stamp that changed this many cells: `Reply::Painted`, with its place.
    pub fn enter_draw(&mut self, changed: u32) -> Reply
        requires { HasPlace self.old }
        ensures entered { self.new ≡ record self.old { places = self.old.places + 1 } }
        ensures reply { result ≡ Painted (self.old.places + 1) changed }
    {
        self.places += 1;
        Reply::Painted {
            place: self.places,
            changed,
        }
    }

    /// Enters a publish: `Reply::Published`, with its place and the next version, which is then the
    /// newest.
    pub fn enter_publish(&mut self) -> Reply
        requires balanced { IsBalanced self.old }
        requires place { HasPlace self.old }
        requires slot { length (members self.old.kept.slots) < 64 }
        ensures entered { self.new ≡ record self.old {
          places = self.old.places + 1;
          newest = self.old.newest + 1;
          slot = first_free self.old.kept.slots;
          kept = with_version self.old.kept (self.old.newest + 1);
        } }
        ensures reply { result ≡ Published (self.old.places + 1) (self.old.newest + 1) }
    {
        self.places += 1;
        self.newest += 1;
        self.slot = self.kept.add(self.newest);
        Reply::Published {
            place: self.places,
            version: self.newest,
        }
    }

    /// Enters a revert: `Reply::Reverted`, with its place.
    pub fn enter_revert(&mut self) -> Reply
        requires { HasPlace self.old }
        ensures entered { self.new ≡ record self.old { places = self.old.places + 1 } }
        ensures reply { result ≡ Reverted (self.old.places + 1) }
    {
        self.places += 1;
        Reply::Reverted { place: self.places }
    }

    /// Enters a collect that kept these versions and freed `freed` blocks: `Reply::Collected`, with
    /// its place, both, and the least version kept.
    pub fn enter_collect(&mut self, kept: Kept, freed: u32) -> Reply
        requires { HasPlace self.old }
        ensures entered { self.new ≡ record self.old { places = self.old.places + 1; kept = kept } }
        ensures reply { result ≡ Collected (self.old.places + 1)
            (least_kept self.old.newest kept) freed kept }
    {
        self.places += 1;
        self.kept = kept;
        Reply::Collected {
            place: self.places,
            floor: kept.least(self.newest),
            freed,
            kept,
        }
    }

    /// Enters a checkpoint: `Reply::Checkpointed`, with its place, which is then the base place.
    pub fn enter_checkpoint(&mut self) -> Reply
        requires { HasPlace self.old }
        ensures entered { self.new ≡ record self.old {
          places = self.old.places + 1;
          base = self.old.places + 1;
        } }
        ensures reply { result ≡ Checkpointed (self.old.places + 1) }
    {
        self.places += 1;
        self.base = self.places;
        Reply::Checkpointed { place: self.places }
    }

    /// The word NOW after the log: the place of its last entry, the newest version, and its slot.
    /// Requires that each fits the word.
    pub fn now_word(&self) -> u64
        requires place { self.now.places < 2 ^ 29 }
        requires version { self.now.newest < 2 ^ 29 }
        requires slot { self.now.slot < 64 }
        ensures { result ≡ now_word self.now.places self.now.newest self.now.slot }
    {
        let now = Now {
            place: self.places,
            version: self.newest,
            slot: self.slot,
        };
        now.word()
    }
}
