//! How many words of its version a pin's queries look at one by one, before they read more at once.

ghost use Rattle.std.specs.Prelude.{◌≤◌};

use metric::{MOST_SIDE, MOST_TILES, WORD_CELLS};

/// Words per tile of the map that queries read before the rest of the version is read.
const WORDS: u16 = 8;

/// Consecutive blank words, per tile of a band, that queries look at before they read a band. A
/// word with an obstacle ends most queries sooner than its tile could be read.
const BLANKS: u32 = 4;

/// The words that queries have read, and the blank ones that they may look at before the next with
/// an obstacle.
#[derive(Drop)]
pub struct Looks {
    words: u64,
    most_words: u64,
    blanks: u32,
    most_blanks: u32,
}

impl Looks {
    /// Those of a pin before its first query, on a map of this width and this many tiles.
    pub fn fresh(width: u16, tiles: u16) -> Looks
        requires width { width ≤ MOST_SIDE }
        requires tiles { tiles ≤ MOST_TILES }
    {
        let most_blanks = BLANKS * u32::from(width.div_ceil(WORD_CELLS));
        Looks {
            words: 0,
            most_words: u64::from(WORDS * tiles),
            blanks: most_blanks,
            most_blanks,
        }
    }

    /// Forgets what was counted.
    pub fn renew(&mut self) {
        self.words = 0;
        self.blanks = self.most_blanks;
    }

    /// Whether queries have read all words that they may before the rest of the version is read.
    pub fn are_used_up(&self) -> bool {
        self.most_words <= self.words
    }

    /// How many blank words may be looked at after a word with an obstacle: none once queries have
    /// read all words that they may, so that a long query reads bands.
    #[inline(always)]
    fn blanks_next(&self) -> u32 {
        if self.are_used_up() {
            0
        } else {
            self.most_blanks
        }
    }

    /// Whether a word may be looked at, even if it is blank.
    #[inline(always)]
    pub fn allow(&self) -> bool {
        0 < self.blanks
    }

    /// Counts a word that was read from the bitmap.
    pub fn count_read(&mut self) {
        self.words = self.words.wrapping_add(1);
    }

    /// Counts a word that was looked at.
    #[inline(always)]
    pub fn count_word(&mut self, word: u64) {
        self.words = self.words.wrapping_add(1);
        self.blanks = if word == 0 {
            self.blanks.saturating_sub(1)
        } else {
            self.blanks_next()
        };
    }

    /// Counts a band that was read: only one blank word per tile is looked at before the next is.
    pub fn count_band(&mut self) {
        self.blanks = self.blanks_next() / BLANKS;
    }
}
