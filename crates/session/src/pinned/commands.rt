//! The commands of a pin are those of its session. The pin keeps its version and its bitmap.

ghost use Rattle.std.specs.Prelude.{◌≡◌, IfErr};
ghost use Rattle.events.specs.declared.command.Command.TheVariants.{Paint, Stamp, Publish};
ghost use Rattle.events.specs.declared.command.Command.TheVariants.{Revert, Collect, Checkpoint};
ghost use Rattle.desk.specs.Desks.{outcome_of};
ghost use Rattle.session.specs.Sessions.{IsPinApplied};

use crate::pinned::Pinned;
use bits::Bitmap;
use desk::{Desk, answered, stamp_answered};
use events::{Command, Reply};
use metric::{Rect, Refusal};
use shelf::StoreName;

impl<Id: StoreName> Pinned<Id> {
    /// Runs a command, as `Desk::apply` does with the pin's seat; returns the command if it is
    /// refused.
    pub fn apply(
        &mut self,
        desk: &mut Desk<Id>,
        command: Command,
    ) -> Result<Reply, (Command, Refusal)>
        ensures applied { IsPinApplied Id.store desk.old self.old command
            (outcome_of result) desk.new self.new }
        ensures back { IfErr result (λ back. back.0 ≡ command) }
    {
        desk.apply(&mut self.seat, command)
    }

    /// Sets the cells of a rectangle of the draft to one value, as `Desk::paint` does.
    pub fn paint(&mut self, desk: &mut Desk<Id>, rect: Rect, black: bool) -> Result<Reply, Refusal>
        ensures { IsPinApplied Id.store desk.old self.old
            (Paint rect black) result desk.new self.new }
    {
        answered(self.apply(desk, Command::Paint { rect, black }))
    }

    /// Stamps a bitmap on the draft, as `Desk::stamp` does.
    pub fn stamp(
        &mut self,
        desk: &mut Desk<Id>,
        x: u16,
        y: u16,
        bitmap: Bitmap,
    ) -> Result<Reply, (Bitmap, Refusal)>
        ensures applied { IsPinApplied Id.store desk.old self.old (Stamp x y bitmap)
            (outcome_of result) desk.new self.new }
        ensures back { IfErr result (λ back. back.0 ≡ bitmap) }
    {
        stamp_answered(self.apply(desk, Command::Stamp { x, y, bitmap }))
    }

    /// Appends the draft as the next version, as `Desk::publish` does.
    pub fn publish(&mut self, desk: &mut Desk<Id>) -> Result<Reply, Refusal>
        ensures { IsPinApplied Id.store desk.old self.old Publish result desk.new self.new }
    {
        answered(self.apply(desk, Command::Publish))
    }

    /// Makes the draft the newest version, as `Desk::revert` does.
    pub fn revert(&mut self, desk: &mut Desk<Id>) -> Result<Reply, Refusal>
        ensures { IsPinApplied Id.store desk.old self.old Revert result desk.new self.new }
    {
        answered(self.apply(desk, Command::Revert))
    }

    /// Releases versions that nobody holds, as `Desk::collect` does.
    pub fn collect(&mut self, desk: &mut Desk<Id>) -> Result<Reply, Refusal>
        ensures { IsPinApplied Id.store desk.old self.old Collect result desk.new self.new }
    {
        answered(self.apply(desk, Command::Collect))
    }

    /// Drops the entries that the desk keeps, as `Desk::checkpoint` does. It allocates no memory.
    pub fn checkpoint(&mut self, desk: &mut Desk<Id>) -> Result<Reply, Refusal>
        ensures { IsPinApplied Id.store desk.old self.old Checkpoint result desk.new self.new }
    {
        answered(self.apply(desk, Command::Checkpoint))
    }
}
