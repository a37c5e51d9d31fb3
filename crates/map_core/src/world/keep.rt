//! The keeper's steps of the current command: the words that a publish stores, those that a collect
//! loads, and which step is next.

ghost use Rattle.std.specs.Prelude.{◌≡◌, ◌<◌, length, Ok, None};
ghost use Rattle.events.specs.Legal.{refused};
ghost use Rattle.events.specs.Words.{tiles};
ghost use Rattle.events.specs.Views.{story_of, blocks_of_state};
ghost use Rattle.events.specs.Steps.{steps_before, tile_steps, tile_write, map_write, write_of};
ghost use Rattle.events.specs.Runs.{SafeStep};
ghost use Rattle.events.specs.declared.event.Event.TheVariants.{Keep};
ghost use Rattle.events.specs.declared.command.Command.TheVariants.{Publish, Collect};
ghost use Rattle.map_core.specs.Consistent.{IsStepOf};

use crate::world::World;
use events::{Command, NotEnabled, Plan, Seen, StepReply, count_own, nth_own};

impl World {
    /// A step of a collect: loads the next reader's word.
    pub(super) fn scan(&mut self) -> StepReply
        requires { IsStepOf self.old Collect }
        ensures { SafeStep self.old Keep (Ok result) self.new }
    {
        let reader = self.done;
        let word = self.words[Plan::pin_at(reader)];
        self.scanned.push_reserved(Seen::in_word(word));
        self.done += 1;
        StepReply::Scanned { reader, word }
    }

    /// The index of a word of the next version's directory, and the word.
    fn map_word(&self, position: u32) -> (usize, u64)
        requires accepted { refused self.now.base.setting (story_of self.now) Publish ≡ None }
        requires inside { position < tiles self.now.base }
        ensures place { result.0
            ≡ (map_write self.now.base (story_of self.now) (blocks_of_state self.now) position).at }
        ensures word { result.1
            ≡ (map_write self.now.base (story_of self.now)
            (blocks_of_state self.now) position).word }
        ensures within { result.0 < length self.now.words }
    {
        let place = self.next_map_at(position);
        let word = match self.own[position as usize] {
            Some(block) => u64::from(block),
            None => self.words[self.map_at(self.ledger.newest, position)],
        };
        (place, word)
    }

    /// The index of a word of the draft's own blocks, and the word.
    fn tile_word(&self, number: usize) -> (usize, u64)
        requires { number < tile_steps (blocks_of_state self.now) }
        ensures place { result.0
            ≡ (tile_write self.now.base (story_of self.now) (blocks_of_state self.now) number).at }
        ensures word { result.1
            ≡ (tile_write self.now.base (story_of self.now)
            (blocks_of_state self.now) number).word }
        ensures within { result.0 < length self.now.words }
    {
        let Some((position, block)) = nth_own(self.own.as_slice(), number / 64) else {
            unreachable!()
        };
        let row = number % 64;
        (
            self.tile_at(block, row as u32),
            self.draft.tile_row(position as u16, row as u16),
        )
    }

    /// The index of the next word of a publish, and the word: first the rows of the draft's own
    /// blocks, then the directory.
    fn next_word(&self, number: usize) -> (usize, u64)
        requires accepted { refused self.now.base.setting (story_of self.now) Publish ≡ None }
        requires below { number < steps_before self.now.base (blocks_of_state self.now) Publish }
        ensures place { result.0
            ≡ (write_of self.now.base (story_of self.now) (blocks_of_state self.now) number).at }
        ensures word { result.1
            ≡ (write_of self.now.base (story_of self.now) (blocks_of_state self.now) number).word }
        ensures within { result.0 < length self.now.words }
    {
        let rows = 64 * count_own(self.own.as_slice());
        if number < rows {
            self.tile_word(number)
        } else {
            self.map_word((number - rows) as u32)
        }
    }

    /// A step of a publish: stores the next word.
    pub(super) fn write(&mut self) -> StepReply
        requires { IsStepOf self.old Publish }
        ensures { SafeStep self.old Keep (Ok result) self.new }
    {
        let (place, word) = self.next_word(self.done as usize);
        self.words[place] = word;
        self.done += 1;
        StepReply::Written
    }

    /// Does the next step of the current command, if there is one.
    pub(super) fn keep(&mut self) -> Result<StepReply, NotEnabled>
        ensures { SafeStep self.old Keep result self.new }
    {
        let has_more = self.done < self.steps;
        let Some(command) = &self.hand else {
            return Err(NotEnabled);
        };
        Ok(match command {
            Command::Paint { .. } | Command::Stamp { .. } => self.draw(),
            Command::Publish if has_more => self.write(),
            Command::Publish => self.publish(),
            Command::Revert => self.revert(),
            Command::Collect if has_more => self.scan(),
            Command::Collect => self.collect(),
            Command::Checkpoint => self.checkpoint(),
        })
    }
}
