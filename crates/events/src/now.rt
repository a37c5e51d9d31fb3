//! The fields of the word NOW.

ghost use Rattle.std.specs.Prelude.{◌≡◌, ◌^◌, ◌<◌};
ghost use Rattle.events.specs.Words.{now_word, place_told, version_told, slot_told};

/// The value of one log entry in NOW.
const ENTRY: u64 = 1 << 35;

/// The value of one version in NOW.
const VERSION: u64 = 1 << 6;

/// The fields of NOW: the place of the log's last entry, 0 where it has none, the newest version,
/// and its slot.
#[derive(Clone, Copy)]
pub struct Now {
    pub place: u32,
    pub version: u32,
    pub slot: u32,
}

impl Now {
    /// The fields of a word.
    pub fn of(word: u64) -> Now
        ensures place { result.place ≡ place_told word }
        ensures version { result.version ≡ version_told word }
        ensures slot { result.slot ≡ slot_told word }
    {
        Now {
            place: (word / ENTRY) as u32,
            version: (word % ENTRY / VERSION) as u32,
            slot: (word % VERSION) as u32,
        }
    }

    /// The word with these fields: the place times 2^35, plus the version times 2^6, plus the slot.
    /// Requires that each fits.
    pub fn word(self) -> u64
        requires place { self.place < 2 ^ 29 }
        requires version { self.version < 2 ^ 29 }
        requires slot { self.slot < 64 }
        ensures { result ≡ now_word self.place self.version self.slot }
    {
        u64::from(self.place) * ENTRY + u64::from(self.version) * VERSION + u64::from(self.slot)
    }
}
