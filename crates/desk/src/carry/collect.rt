//! A collect, word by word: it loads what each reader announces, and keeps the versions that a
//! reader may still need.

ghost use Rattle.std.specs.Prelude.{◌≡◌, length, None};
ghost use Rattle.events.specs.declared.command.Command.TheVariants.{Collect};
ghost use Rattle.events.specs.Ledger.{refused_by_ledger};
ghost use Rattle.shelf.specs.Store.{readers_of};
ghost use Rattle.desk.specs.Carries.{IsInHand, IsWorked, KeepsScanned};

use crate::holding::Holding;
use epoch::kept_after;
use events::{Reply, Seen};
use shelf::{KeeperSeat, StoreName};

/// Carries out the current collect, up to its commit. Stores what its scan saw in `announced`, and
/// keeps the versions that this asks for.
pub fn carry_collect<Id: StoreName>(
    keeper: &mut KeeperSeat<Id>,
    holding: &mut Holding,
    announced: &mut Vec<Option<Seen>>,
    by: u32,
) -> Reply
    requires in_hand { IsInHand Id.store keeper.old holding.old by Collect }
    requires place_each { length announced.old.items ≡ readers_of Id.store }
    requires judged { refused_by_ledger holding.old.ledger Collect ≡ None }
    ensures worked { IsWorked Id.store keeper.old holding.old by Collect result keeper.new
        holding.new }
    ensures scanned { KeepsScanned holding.old Collect holding.new announced.new.items }
    ensures place_each { length announced.new.items ≡ readers_of Id.store }
{
    for reader in 0..holding.ledger.setting.sessions {
        let word = keeper.scan(reader);
        announced[reader as usize] = Seen::in_word(word);
    }
    let kept = kept_after(
        &holding.ledger.kept,
        holding.ledger.newest,
        announced.as_slice(),
    );
    holding.collect(kept)
}
