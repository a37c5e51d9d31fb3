//! A publish, word by word: the rows of the draft's own tiles, then the directory of the next
//! version.

ghost use Rattle.std.specs.Prelude.{◌≡◌, ◌+◌, ◌*◌, ◌<◌, length, take, None};
ghost use Rattle.events.specs.declared.command.Command.TheVariants.{Publish};
ghost use Rattle.events.specs.Blocks.{own_list};
ghost use Rattle.events.specs.Ledger.{refused_by_ledger};
ghost use Rattle.events.specs.Words.{tiles, IsPlan};
ghost use Rattle.events.specs.Views.{blocks};
ghost use Rattle.shelf.specs.Roles.{entries};
ghost use Rattle.shelf.specs.Steps.{writing};
ghost use Rattle.desk.specs.Holdings.{IsToldByLog};
ghost use Rattle.desk.specs.Carries.{IsInHand, IsWorked};

use crate::holding::Holding;
use events::{Plan, Reply};
use shelf::{KeeperSeat, StoreName};

/// Stores the rows of the tile at a position if the draft has its own there. Returns how many tiles
/// it stored: 0 or 1.
#[tactic(auto, using(crate::proofs::PublishSteps::storing))]
fn write_tile<Id: StoreName>(
    keeper: &mut KeeperSeat<Id>,
    plan: Plan,
    holding: &Holding,
    by: u32,
    index: u32,
    position: u16,
) -> u32
    requires plan { IsPlan Id.store.base plan }
    requires told { IsToldByLog Id.store.base (entries keeper.old.log) holding.now }
    requires inside { position < tiles Id.store.base }
    requires in_hand { keeper.old ≡ writing keeper.old by (64 * index) }
    requires index { index ≡ length
        (own_list (take position (blocks Id.store.base (entries keeper.old.log)).own)) }
    ensures keeper { keeper.new ≡ writing keeper.old by (64 * (index + result)) }
    ensures count { index + result ≡ length
        (own_list (take (position + 1) (blocks Id.store.base (entries keeper.old.log)).own)) }
{
    match holding.grid.own_tile(position) {
        Some(tile) => {
            let (block, rows) = (tile.number(), tile.words());
            for row in 0..64u32 {
                keeper.write_word(plan.tile_at(block, row), rows[row as usize]);
            }
            1
        }
        None => 0,
    }
}

/// Carries out the current publish, up to its commit.
#[tactic(auto, using(crate::proofs::CarryLemmas::has_task, crate::proofs::PublishSteps::storing))]
pub fn carry_publish<Id: StoreName>(
    keeper: &mut KeeperSeat<Id>,
    holding: &mut Holding,
    by: u32,
) -> Reply
    requires in_hand { IsInHand Id.store keeper.old holding.old by Publish }
    requires judged { refused_by_ledger holding.old.ledger Publish ≡ None }
    ensures { IsWorked Id.store keeper.old holding.old by Publish result keeper.new holding.new }
{
    let plan = keeper.plan();
    let mut stored = 0;
    'tiles: for position in 0..plan.tiles {
        stored += write_tile(keeper, plan, holding, by, stored, position);
    }
    let slot = holding.ledger.kept.next_slot();
    'directory: for position in 0..plan.tiles {
        let block = holding.grid.block_at(position);
        keeper.write_word(plan.map_at(slot, u32::from(position)), u64::from(block));
    }
    holding.publish()
}
