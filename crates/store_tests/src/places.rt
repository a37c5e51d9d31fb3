//! A log that has used up its places.

ghost use Rattle.std.specs.Prelude.{IfOk};
ghost use Rattle.events.specs.Ledger.{IsBalanced};

use crate::compare::same;
use crate::worlds::SMALL;
use bits::Bitmap;
use map_core::{Command, Ledger};
use metric::{Rect, Refusal};
use std::alloc::Global;
use std::test::Fail;

/// A ledger of a log with this many entries, the last two after a checkpoint.
fn late_ledger(alloc: Global, places: u32) -> Result<Ledger, Fail>
    ensures { IfOk result (λ ledger. IsBalanced ledger) }
{
    let map = Bitmap::blank(alloc, 64, 64)?;
    Ok(Ledger {
        places,
        base: places.saturating_sub(2),
        ..Ledger::of(SMALL, &map)
    })
}

#[test]
fn places_are_used_up(rt: HostRuntime) -> Result<(), Fail> {
    let rect = Rect::new(0, 0, 1, 1).expect(&rt, "a cell");
    let paint = Command::Paint { rect, black: true };
    let last = late_ledger(rt.alloc(), 536_870_911)?;
    let before = late_ledger(rt.alloc(), 536_870_910)?;
    for command in [
        paint,
        Command::Publish,
        Command::Revert,
        Command::Collect,
        Command::Checkpoint,
    ] {
        same(&rt, before.judge(&command), None, "a place is left");
        same(
            &rt,
            last.judge(&command),
            Some(Refusal::PlacesUsed),
            "none is",
        );
    }
    let mut full = last;
    full.setting.log = 2;
    let refusal = full.judge(&Command::Revert);
    same(
        &rt,
        refusal,
        Some(Refusal::LogFull),
        "a full log is told first",
    );
    let refusal = full.judge(&Command::Checkpoint);
    same(&rt, refusal, Some(Refusal::PlacesUsed), "a checkpoint");
    Ok(())
}
