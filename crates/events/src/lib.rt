//! The core's events: commands and what a log of them says, the words that readers and one keeper
//! load and store, the blocks, and what each event does to them.
#![tactic(auto)]

mod blocks;
mod command;
mod draw;
mod event;
mod kept;
mod laws;
mod ledger;
mod now;
mod opening;
mod plan;
mod reader;
mod setting;
mod tiles;

pub use blocks::{RetiredBlock, give_back_own, give_back_retired, publish_own, take_blocks};
pub use command::{Command, Entry, Reply};
pub use event::{Event, NotEnabled, StepReply};
pub use kept::{Kept, Seen};
pub use laws::{blocks_are_sound, events_keep_a_world_safe, free_blocks_are_counted};
pub use ledger::Ledger;
pub use now::Now;
pub use opening::opening_words;
pub use plan::Plan;
pub use reader::Standing;
pub use setting::Setting;
pub use tiles::{blocks_needed, count_own, nth_own, tile_differs};
