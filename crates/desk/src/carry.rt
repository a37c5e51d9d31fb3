//! Carries out a command that has been judged: the keeper starts it, does it step by step and
//! commits it.

mod collect;
mod publish;

ghost use Rattle.std.specs.Prelude.{◌≡◌, ◌<◌, length};
ghost use Rattle.shelf.specs.Store.{readers_of};
ghost use Rattle.desk.specs.Judging.{IsJudged};
ghost use Rattle.desk.specs.Carries.{CanCarry, IsCarried, IsInHand, IsWorked, KeepsScanned};

use crate::carry::collect::carry_collect;
use crate::carry::publish::carry_publish;
use crate::holding::{Holding, Judged};
use events::{Reply, Seen};
use shelf::{KeeperSeat, Request, StoreName};

/// Does all steps but the last of the current command, and its effect on what the desk holds.
fn work<Id: StoreName>(
    keeper: &mut KeeperSeat<Id>,
    holding: &mut Holding,
    announced: &mut Vec<Option<Seen>>,
    asked: &Request,
    judged: Judged,
) -> Reply
    requires in_hand { IsInHand Id.store keeper.old holding.old asked.now.by asked.now.command }
    requires place_each { length announced.old.items ≡ readers_of Id.store }
    requires judged { IsJudged holding.old asked.now.command judged }
    ensures worked { IsWorked Id.store keeper.old holding.old asked.now.by asked.now.command result
        keeper.new holding.new }
    ensures scanned { KeepsScanned holding.old asked.now.command holding.new announced.new.items }
    ensures place_each { length announced.new.items ≡ readers_of Id.store }
{
    match judged {
        Judged::Draw(stroke) => holding.draw(stroke),
        Judged::Publish => carry_publish(keeper, holding, asked.by),
        Judged::Revert => holding.revert(),
        Judged::Collect => carry_collect(keeper, holding, announced, asked.by),
        Judged::Checkpoint => holding.checkpoint(),
    }
}

/// Carries out a command that has been judged, in a log with capacity for its entry. It can't fail,
/// and allocates no memory.
///
/// `announced` has an element for each reader; a collect leaves there what its scan saw.
#[tactic(auto, using(crate::proofs::CarryLemmas::carrying))]
pub fn carry<Id: StoreName>(
    keeper: &mut KeeperSeat<Id>,
    holding: &mut Holding,
    announced: &mut Vec<Option<Seen>>,
    asked: &Request,
    judged: Judged,
) -> Reply
    requires able { CanCarry Id.store keeper.old holding.old }
    requires caller { asked.now.by < readers_of Id.store }
    requires place_each { length announced.old.items ≡ readers_of Id.store }
    requires judged { IsJudged holding.old asked.now.command judged }
    ensures carried { IsCarried keeper.old holding.old asked.now.by asked.now.command result
        keeper.new holding.new }
    ensures scanned { KeepsScanned holding.old asked.now.command holding.new announced.new.items }
    ensures place_each { length announced.new.items ≡ readers_of Id.store }
{
    keeper.order(asked);
    let reply = work(keeper, holding, announced, asked, judged);
    keeper.commit(holding.ledger.slot);
    reply
}
