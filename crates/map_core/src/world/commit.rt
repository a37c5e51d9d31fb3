//! The last steps of commands: each stores NOW, and appends an entry to the log.

ghost use Rattle.std.specs.Prelude.{◌≡◌, ◌<◌, [], ◌∷◌, ◌++◌, Ok, vec_len, vec_capacity};
ghost use Rattle.events.specs.Runs.{SafeStep};
ghost use Rattle.events.specs.declared.event.Event.TheVariants.{Keep};
ghost use Rattle.events.specs.declared.event.StepReply.TheVariants.{Committed};
ghost use Rattle.events.specs.declared.command.Command.TheVariants.{Publish, Revert, Collect};
ghost use Rattle.events.specs.declared.command.Command.TheVariants.{Checkpoint};
ghost use Rattle.events.specs.Ledger.{HasNowRoom};
ghost use Rattle.events.specs.Words.{now_word};
ghost use Rattle.map_core.specs.Consistent.{IsLastOf, IsDrawing};

use crate::world::World;
use crate::world::words::NOW_AT;
use events::{
    Command, Entry, Ledger, StepReply, give_back_own, give_back_retired, publish_own, take_blocks,
};

/// Appends an entry to the log, which has capacity for it, and stores NOW as the ledger has it
/// then.
fn commit(ledger: &Ledger, now: &mut u64, log: &mut Vec<Entry>, entry: Entry) -> StepReply
    requires now { HasNowRoom ledger.now }
    requires room { vec_len log.old < vec_capacity log.old }
    ensures now { now.new ≡ now_word ledger.now.places ledger.now.newest ledger.now.slot }
    ensures log { log.new.items ≡ log.old.items ++ entry ∷ [] }
    ensures reply { result ≡ Committed entry.reply }
{
    let reply = entry.reply;
    log.push_reserved(entry);
    *now = ledger.now_word();
    StepReply::Committed { reply }
}

impl World {
    /// The only step of a paint or a stamp: it draws on the draft, and each tile that changes takes
    /// a block if it has none.
    pub(super) fn draw(&mut self) -> StepReply
        requires { IsDrawing self.old }
        ensures { SafeStep self.old Keep (Ok result) self.new }
    {
        let Some(command) = self.hand.take() else {
            unreachable!()
        };
        self.scratch.copy_from(&self.draft);
        let changed = command.draw(&mut self.scratch);
        take_blocks(
            &self.draft,
            &self.scratch,
            self.own.as_mut_slice(),
            &mut self.free,
        );
        self.draft.copy_from(&self.scratch);
        let reply = self.ledger.enter_draw(changed);
        let entry = Entry { command, reply };
        commit(&self.ledger, &mut self.words[NOW_AT], &mut self.log, entry)
    }

    /// The last step of a publish: the draft becomes the newest version, and its own blocks that
    /// version's.
    pub(super) fn publish(&mut self) -> StepReply
        requires { IsLastOf self.old Publish }
        ensures { SafeStep self.old Keep (Ok result) self.new }
    {
        let first = self.map_at(self.ledger.newest, 0);
        let tiles = usize::from(self.opening.tiles());
        publish_own(
            self.ledger.newest,
            &self.words[first..first + tiles],
            self.own.as_mut_slice(),
            self.came.as_mut_slice(),
            &mut self.retired,
        );
        self.published.copy_from(&self.draft);
        let reply = self.ledger.enter_publish();
        self.hand = None;
        let command = Command::Publish;
        let entry = Entry { command, reply };
        commit(&self.ledger, &mut self.words[NOW_AT], &mut self.log, entry)
    }

    /// The last step of a revert: the draft becomes the newest version again, and its own blocks
    /// are freed.
    pub(super) fn revert(&mut self) -> StepReply
        requires { IsLastOf self.old Revert }
        ensures { SafeStep self.old Keep (Ok result) self.new }
    {
        self.draft.copy_from(&self.published);
        give_back_own(self.own.as_mut_slice(), &mut self.free);
        let reply = self.ledger.enter_revert();
        self.hand = None;
        let command = Command::Revert;
        let entry = Entry { command, reply };
        commit(&self.ledger, &mut self.words[NOW_AT], &mut self.log, entry)
    }

    /// The only step of a checkpoint: the log has its entry, and counts from 0 against its limit.
    pub(super) fn checkpoint(&mut self) -> StepReply
        requires { IsLastOf self.old Checkpoint }
        ensures { SafeStep self.old Keep (Ok result) self.new }
    {
        let reply = self.ledger.enter_checkpoint();
        self.hand = None;
        let command = Command::Checkpoint;
        let entry = Entry { command, reply };
        commit(&self.ledger, &mut self.words[NOW_AT], &mut self.log, entry)
    }

    /// The last step of a collect: releases the versions that no reader may need, and frees the
    /// blocks that no kept version maps.
    pub(super) fn collect(&mut self) -> StepReply
        requires { IsLastOf self.old Collect }
        ensures { SafeStep self.old Keep (Ok result) self.new }
    {
        let kept = (self.ledger.kept).after(self.ledger.newest, self.scanned.as_slice());
        let before = self.retired.len();
        give_back_retired(&kept, &mut self.retired, &mut self.free);
        let freed = (before - self.retired.len()) as u32;
        let reply = self.ledger.enter_collect(kept, freed);
        self.hand = None;
        let command = Command::Collect;
        let entry = Entry { command, reply };
        commit(&self.ledger, &mut self.words[NOW_AT], &mut self.log, entry)
    }
}
