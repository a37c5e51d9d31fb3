//! The answers of single commands.

ghost use Rattle.std.specs.Prelude.{◌≡◌, ℕ, IfErr};
ghost use Rattle.bits.specs.Cells.{Cells};
ghost use Rattle.events.specs.declared.command.Command.TheVariants.{Stamp};
ghost use Rattle.desk.specs.Desks.{IsStamp, outcome_of};

use bits::Bitmap;
use events::{Command, Reply};
use metric::Refusal;

/// The answer to a command; a command that was returned is dropped.
pub fn answered(applied: Result<Reply, (Command, Refusal)>) -> Result<Reply, Refusal>
    ensures { result ≡ outcome_of applied }
{
    applied.map_err(|(_, refusal)| refusal)
}

/// The answer to a stamp; of a command that was returned, only the bitmap.
pub fn stamp_answered(
    applied: Result<Reply, (Command, Refusal)>,
) -> Result<Reply, (Bitmap, Refusal)>
    requires { IfErr applied (λ back. IsStamp back.0) }
    ensures answer { outcome_of result ≡ outcome_of applied }
    ensures back { (x y : ℕ) (b : Cells) → IfErr applied (λ back. back.0 ≡ Stamp x y b)
        → IfErr result (λ back. back.0 ≡ b) }
{
    match applied {
        Ok(reply) => Ok(reply),
        Err((command, refusal)) => match command {
            Command::Stamp { bitmap, .. } => Err((bitmap, refusal)),
            _ => unreachable!(),
        },
    }
}
