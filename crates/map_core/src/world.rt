//! A world: its words, its keeper and its readers.

ghost use Rattle.events.specs.Runs.{SafeStep};

mod commit;
mod keep;
mod open;
mod order;
mod reads;
mod words;

use bits::Bitmap;
use events::{Command, Entry, Event, Ledger, NotEnabled, RetiredBlock, Seen, Standing, StepReply};
use std::alloc::Global;
use std::collections::VecDeque;
use std::marker::Model;

/// A world. Contracts see what it was opened with, its words, its keeper and its readers.
#[derive(Drop)]
pub struct World {
    // The ledger of its log, and the bitmap it was opened with.
    ledger: Ledger,
    opening: Bitmap,
    // NOW, a word for each reader, the slots' directories, the blocks' rows.
    words: Vec<u64>,
    log: Vec<Entry>,
    // The current command: how many of its steps are done, how many come before its last, and what
    // the words that its scan has seen announce.
    hand: Option<Command>,
    done: u32,
    steps: u32,
    scanned: Vec<Option<Seen>>,
    readers: Vec<Standing>,
    // What follows from the log: the draft, and the newest version's bitmap.
    draft: Bitmap,
    published: Bitmap,
    // A bitmap to draw on before a command is accepted, and while it is done.
    scratch: Bitmap,
    // For each position, the version with which the newest version's block came, and the draft's
    // own block.
    came: Vec<u32>,
    own: Vec<Option<u32>>,
    // The free blocks, the next one first, and those that the newest version no longer maps.
    free: VecDeque<u32>,
    retired: Vec<RetiredBlock>,
}

impl Model for World {
    ghost use Rattle.events.specs.Views.{State};

    ghost Value = { State };

    ghost use Rattle.events.specs.Words.{pin_word};
    ghost use Rattle.map_core.specs.Consistent.{state_of, IsConsistent};
    ghost use Rattle.std.specs.Prelude.{map};
    ghost use Rattle.std.specs.Vec.{vec_capacity};
    ghost use Rattle.std.specs.VecDeque.{deque_capacity};

    ghost view = { λ a. state_of a.ledger.setting a.opening a.words.items a.log.items a.hand a.done
        (map pin_word a.scanned.items) a.readers.items };

    ghost invariant = { λ a. IsConsistent
        (state_of a.ledger.setting a.opening a.words.items a.log.items a.hand a.done
        (map pin_word a.scanned.items) a.readers.items) a.hand a.steps a.readers.items
        record {
          ledger = a.ledger;
          draft = a.draft;
          published = a.published;
          came = a.came.items;
          own = a.own.items;
          free = a.free.items;
          retired = a.retired.items;
        }
        record {
          log = vec_capacity a.log;
          scanned = vec_capacity a.scanned;
          free = deque_capacity a.free;
          retired = vec_capacity a.retired;
          scratch = a.scratch;
        } };
}

impl World {
    /// Does an event and returns its answer; an event that isn't enabled changes nothing.
    ///
    /// Refuses an order, in this order, for its area (`OutOfRange`), a full log (`LogFull`, never a
    /// checkpoint), no place left (`PlacesUsed`), too few free blocks (`BlocksFull`, a paint or a
    /// stamp) or no free slot (`VersionsFull`, a publish), and when out of memory; copies only an
    /// accepted command. No other event allocates memory. No clause promises that an allocation
    /// succeeds where there is memory.
    pub fn step(&mut self, alloc: Global, event: &Event) -> Result<StepReply, NotEnabled>
        ensures { SafeStep self.old event.now result self.new }
    {
        match event {
            Event::Announce { reader } => self.announce(*reader),
            Event::Load { reader } => self.load(*reader),
            Event::LookMap { reader, position } => self.look_map(*reader, *position),
            Event::LookTile { reader, block, row } => self.look_tile(*reader, *block, *row),
            Event::Leave { reader } => self.leave(*reader),
            Event::Confirm { reader } => self.confirm(*reader),
            Event::Order { command } => self.order(alloc, command),
            Event::Keep => self.keep(),
        }
    }
}
