//! Why what a desk holds refuses a command, and what a command does otherwise.

ghost use Rattle.std.specs.Prelude.{Some, IfOk, IfErr};
ghost use Rattle.desk.specs.Holdings.{CanAnswer, Judges};
ghost use Rattle.desk.specs.Judging.{IsJudged};

use crate::holding::{Holding, Judged};
use events::Command;
use metric::Refusal;

impl Holding {
    /// Judges a command: what it does, or why it is refused: for its area (`OutOfRange`), a full
    /// log (`LogFull`), no place left (`PlacesUsed`), no free slot (`VersionsFull`, a publish) or
    /// too few free blocks (`BlocksFull`, a paint or a stamp), in this order. It allocates no
    /// memory.
    #[tactic(auto, using(crate::proofs::HoldDraw::judged_why))]
    pub fn judge<'a>(&self, command: &'a Command) -> Result<Judged<'a>, Refusal>
        requires { CanAnswer self.now }
        ensures judged { IfOk result (IsJudged self.now command.now) }
        ensures refused { IfErr result (λ refusal. Judges self.now command.now (Some refusal)) }
    {
        if let Some(refusal) = self.ledger.judge(command) {
            return Err(refusal);
        }
        match command {
            Command::Paint { rect, black } => {
                let stroke = self.grid.judge_paint(&self.arena, *rect, *black)?;
                Ok(Judged::Draw(stroke))
            }
            Command::Stamp { x, y, bitmap } => {
                let stroke = self.grid.judge_stamp(&self.arena, *x, *y, bitmap)?;
                Ok(Judged::Draw(stroke))
            }
            Command::Publish => Ok(Judged::Publish),
            Command::Revert => Ok(Judged::Revert),
            Command::Collect => Ok(Judged::Collect),
            Command::Checkpoint => Ok(Judged::Checkpoint),
        }
    }
}
