//! The first line of steps, and the world that it opens.

ghost use Rattle.std.specs.Prelude.{◌≡◌, ◌≢◌, Ok, Err, true, false, option_and_then};
ghost use Rattle.std.specs.Prelude.{IfOk, IfErr, IfSome, IsOk, MatchOption};
ghost use Rattle.bits.specs.Cells.{IsSide};
ghost use Rattle.events.specs.Runs.{IsOpened};
ghost use Rattle.events.specs.Words.{tiles};
ghost use Rattle.words.specs.Numbers.{numbers};
ghost use Rattle.words.specs.Words.{words_left};
ghost use Rattle.streams.specs.Refusals.{HasWordsAlone};
ghost use Rattle.steps.specs.Opening.{base_opened, is_map_side, judged, opening_told, setting_of};

use bits::Bitmap;
use lines::Text;
use map_core::{Setting, World};
use metric::{Edge, Refusal};
use std::alloc::Global;
use words::{next_number, number_triple, split_word};

/// What a first line says: a blank map, and the setting of its world.
#[derive(Clone, Copy)]
pub struct OpenLine {
    /// Columns, 1 to 4096.
    pub width: u16,
    /// Rows, 1 to 4096.
    pub height: u16,
    pub setting: Setting,
}

/// A world that a first line opened, the map's number of positions, and the buffer of the answers.
#[derive(Drop)]
pub struct Opened {
    pub world: World,
    pub tiles: u16,
    pub text: Text,
}

/// A side of a map, if the number is one.
fn side(number: u32) -> Option<u16>
    ensures { MatchOption result (is_map_side number ≡ false)
        (λ side. (side ≡ number) × (is_map_side number ≡ true)) }
{
    if 1 <= number && number <= 4096 {
        Some(number as u16)
    } else {
        None
    }
}

/// The setting in the rest of a line.
fn read_setting(rest: Option<&[u8]>) -> Option<Setting>
    ensures { result ≡ option_and_then setting_of (numbers (words_left rest.entry)) }
{
    let (blocks, rest) = next_number(rest)?;
    let (versions, sessions, log) = number_triple(rest)?;
    Some(Setting {
        blocks,
        versions,
        sessions,
        log,
        edge: Edge::Open,
    })
}

impl OpenLine {
    /// What a first line says, without its LF and the CR before it.
    #[tactic(auto, unfolding(crate::specs::Opening::opening_told))]
    pub fn parse(line: &[u8]) -> Option<OpenLine>
        ensures told { result ≡ opening_told line.now }
        ensures width { IfSome result (λ opening. IsSide opening.width) }
        ensures height { IfSome result (λ opening. IsSide opening.height) }
    {
        let (word, rest) = split_word(line);
        if word != b"OPEN".as_slice() {
            return None;
        }
        let (width, rest) = next_number(rest)?;
        let (height, rest) = next_number(rest)?;
        let setting = read_setting(rest)?;
        let width = side(width)?;
        let height = side(height)?;
        Some(OpenLine {
            width,
            height,
            setting,
        })
    }
}

impl Opened {
    /// The world that a first line opens. Runs out of memory only if the map and the setting are
    /// valid.
    pub fn of(alloc: Global, line: &[u8]) -> Result<Self, Refusal>
        ensures opened { IfOk result (λ opened. (opening : OpenLine)
            × (judged (opening_told line.now) ≡ Ok opening)
            × IsOpened (base_opened opening) opened.world
            × (opened.tiles ≡ tiles (base_opened opening))) }
        ensures refusal { IfErr result (λ refusal. refusal ≢ Refusal.Memory
            → judged (opening_told line.now) ≡ Err refusal) }
        ensures memory { result ≡ Err Refusal.Memory → IsOk (judged (opening_told line.now)) }
        ensures words { IfErr result HasWordsAlone }
    {
        let Some(opening) = OpenLine::parse(line) else {
            return Err(Refusal::BadArguments);
        };
        opening.setting.fits_size(opening.width, opening.height)?;
        let text = Text::new(alloc)?;
        let map = Bitmap::blank(alloc, opening.width, opening.height)?;
        let world = World::open(alloc, opening.setting, &map)?;
        let tiles = map.tiles();
        Ok(Opened { world, tiles, text })
    }
}
