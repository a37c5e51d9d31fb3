//! The effect of commands that have been judged on what a desk holds.

ghost use Rattle.std.specs.Prelude.{◌≡◌, None};
ghost use Rattle.events.specs.declared.command.Command.{Command};
ghost use Rattle.events.specs.declared.command.Command.TheVariants.{Publish, Revert, Collect};
ghost use Rattle.events.specs.declared.command.Command.TheVariants.{Checkpoint};
ghost use Rattle.events.specs.Kept.{IsIn, IsPartOfKept};
ghost use Rattle.events.specs.Ledger.{refused_by_ledger};
ghost use Rattle.desk.specs.declared.holding.judged.Judged.TheVariants as kinds;
ghost use Rattle.desk.specs.Holdings.{CanAnswer, Does};
ghost use Rattle.desk.specs.Judging.{IsJudged};

use crate::holding::Holding;
use epoch::collect;
use events::{Kept, Reply};
use grid::Stroke;

#[tactic(auto, using(crate::proofs::HoldLemmas::places_left))]
impl Holding {
    /// Does a paint or a stamp that has been judged.
    pub fn draw(&mut self, stroke: Stroke) -> Reply
        requires able { CanAnswer self.old }
        requires judged { (c : Command) × IsJudged self.old c (kinds.Draw stroke) }
        ensures { (c : Command) → IsJudged self.old c (kinds.Draw stroke.entry)
            → Does self.old c result self.new }
    {
        let changed = self.grid.draw(&mut self.arena, stroke);
        self.ledger.enter_draw(changed)
    }

    /// Does a publish that the ledger doesn't refuse.
    pub fn publish(&mut self) -> Reply
        requires able { CanAnswer self.old }
        requires judged { refused_by_ledger self.old.ledger Publish ≡ None }
        ensures { Does self.old Publish result self.new }
    {
        self.grid.seal();
        self.ledger.enter_publish()
    }

    /// Does a revert that the ledger doesn't refuse.
    pub fn revert(&mut self) -> Reply
        requires able { CanAnswer self.old }
        requires judged { refused_by_ledger self.old.ledger Revert ≡ None }
        ensures { Does self.old Revert result self.new }
    {
        self.grid.revert(&mut self.arena);
        self.ledger.enter_revert()
    }

    /// Does a checkpoint that the ledger doesn't refuse: draft, versions and blocks stay.
    pub fn checkpoint(&mut self) -> Reply
        requires able { CanAnswer self.old }
        requires judged { refused_by_ledger self.old.ledger Checkpoint ≡ None }
        ensures { Does self.old Checkpoint result self.new }
    {
        self.ledger.enter_checkpoint()
    }

    /// Does a collect that the ledger doesn't refuse, and keeps these versions. Requires that they
    /// were kept, and that the newest is among them.
    pub fn collect(&mut self, kept: Kept) -> Reply
        requires able { CanAnswer self.old }
        requires judged { refused_by_ledger self.old.ledger Collect ≡ None }
        requires part { IsPartOfKept kept.slots self.old.ledger.kept.slots }
        requires newest { IsIn kept self.old.ledger.newest }
        ensures done { Does self.old Collect result self.new }
        ensures kept { self.new.ledger.kept ≡ kept }
    {
        let freed = collect(&mut self.grid, &mut self.arena, &kept);
        self.ledger.enter_collect(kept, freed)
    }
}
