//! A world's record of a reader.

ghost use Rattle.std.specs.Prelude.{◌≡◌, slice_get, ◌&&◌, is_some, is_none, Some, if◌then◌else◌};
ghost use Rattle.events.specs.Steps.{to_confirm};

use crate::kept::Seen;

/// A reader: how many entries of the log it has seen, the newest version among these, what it has
/// announced and what it holds.
#[derive(Clone, Copy)]
pub struct Standing {
    pub seen: usize,
    pub version: u32,
    pub announced: Option<Seen>,
    pub holds: Option<u32>,
}

impl Standing {
    /// The standing of the reader of this number, if there is one.
    pub fn of(readers: &[Standing], reader: u32) -> Option<Standing>
        ensures { result ≡ slice_get readers.now reader }
    {
        readers.get(reader as usize).copied()
    }

    /// The version that the reader holds if its announcement isn't exact.
    pub fn to_confirm(self) -> Option<u32>
        ensures { result ≡ to_confirm self.announced self.holds }
    {
        match self.announced {
            Some(Seen::From(_)) => self.holds,
            _ => None,
        }
    }

    /// What the reader holds after it loads a version: that one, if it had announced and held none.
    pub fn next_hold(self, version: u32) -> Option<u32>
        ensures { result ≡ (if is_some self.announced && is_none self.holds then Some version
            else self.holds) }
    {
        if self.announced.is_some() && self.holds.is_none() {
            Some(version)
        } else {
            self.holds
        }
    }
}
