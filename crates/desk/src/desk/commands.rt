//! The commands of a desk. Each borrows a session's seat, which has seen a prefix of the log before
//! the command's place, and sees the whole log at its end.
//!
//! Each requires that a seat that has announced a version holds one.

ghost use Rattle.std.specs.Prelude.{◌≡◌, ◌<◌, ◌≤◌, ◌+◌, ◌*◌, true, Some, max, vec_len};
ghost use Rattle.std.specs.Prelude.{vec_capacity, IfOk, IfErr, OnOk};
ghost use Rattle.events.specs.declared.command.Command.TheVariants.{Paint, Stamp, Publish};
ghost use Rattle.events.specs.declared.command.Command.TheVariants.{Revert, Collect, Checkpoint};
ghost use Rattle.events.specs.Ledger.{takes_room};
ghost use Rattle.desk.specs.Holdings.{CanAnswer, Refuses};
ghost use Rattle.desk.specs.Judging.{IsJudged};
ghost use Rattle.events.specs.Legal.{IsLegal};
ghost use Rattle.shelf.specs.Roles.{entries};
ghost use Rattle.desk.specs.Desks.{IsApplied, IsSteady, outcome_of, base_place, entries_kept_after};
ghost use Rattle.desk.specs.Desks.{kept_part};

use crate::carry::carry;
use crate::desk::Desk;
use crate::desk::answers::{answered, stamp_answered};
use crate::holding::{Holding, Judged};
use bits::Bitmap;
use events::{Command, Entry, Reply};
use metric::{NoMemory, Rect, Refusal};
use shelf::{ReaderSeat, Request, StoreEntry, StoreName, Ticket, meet};

/// The capacity that a log has after its first entry.
const FIRST_ROOM: usize = 16;

/// Makes sure that a log has capacity for another entry: where it is full, it takes as much again.
fn make_room(log: &mut Vec<StoreEntry>) -> Result<(), NoMemory>
    ensures items { log.new.items ≡ log.old.items }
    ensures room { OnOk result (vec_len log.new < vec_capacity log.new) }
    ensures most { vec_capacity log.new
        ≤ max (vec_capacity log.old) (2 * vec_len log.old + 16) }
{
    if log.len() < log.capacity() {
        return Ok(());
    }
    Ok(log.reserve_exact(log.len().max(FIRST_ROOM))?)
}

/// Judges a command, and reserves capacity for its entry, after all other refusals; a checkpoint
/// needs none.
fn admit<'a>(
    holding: &Holding,
    command: &'a Command,
    log: &mut Vec<StoreEntry>,
) -> Result<Judged<'a>, Refusal>
    requires { CanAnswer holding.now }
    ensures judged { IfOk result (IsJudged holding.now command.now) }
    ensures room { OnOk result (takes_room command.now ≡ true
        → vec_len log.new < vec_capacity log.new) }
    ensures refused { IfErr result (λ refusal. Refuses holding.now command.now refusal) }
    ensures items { log.new.items ≡ log.old.items }
    ensures most { vec_capacity log.new
        ≤ max (vec_capacity log.old) (2 * vec_len log.old + 16) }
{
    let judged = holding.judge(command)?;
    if command.takes_room() {
        make_room(log)?;
    }
    Ok(judged)
}

/// Appends an entry to those kept. A checkpoint drops them all, and isn't kept itself; the capacity
/// stays.
fn keep(log: &mut Vec<StoreEntry>, signed: StoreEntry)
    requires { takes_room signed.entry.command ≡ true → vec_len log.old < vec_capacity log.old }
    ensures items { log.new.items ≡ entries_kept_after log.old.items signed }
    ensures capacity { vec_capacity log.new ≡ vec_capacity log.old }
{
    if signed.entry.command.takes_room() {
        log.push_reserved(signed);
    } else {
        log.clear();
    }
}

impl<Id: StoreName> Desk<Id> {
    /// Runs a command. Returns its reply, with its place in the log, from 1, as the call of its
    /// name says (`paint`, `stamp`, `publish`, `revert`, `collect`, `checkpoint`).
    ///
    /// Refuses, in this order, for its area (`OutOfRange`), a full log (`LogFull`), no place left
    /// (`PlacesUsed`), too few free blocks (`BlocksFull`, a paint or a stamp) or no free slot
    /// (`VersionsFull`, a publish), and when out of memory; the command is returned, and the desk
    /// is as before. Refused or not, the seat has then seen the whole log.
    pub fn apply(
        &mut self,
        seat: &mut ReaderSeat<Id>,
        command: Command,
    ) -> Result<Reply, (Command, Refusal)>
        requires { IsSteady seat.old }
        ensures applied { IsApplied Id.store self.old seat.old command
            (outcome_of result) self.new seat.new }
        ensures back { IfErr result (λ back. back.0 ≡ command) }
    {
        meet(&mut self.keeper, seat);
        let asked = Request {
            by: seat.number(),
            command,
        };
        let judged = match admit(&self.holding, &asked.command, &mut self.log) {
            Ok(judged) => judged,
            Err(refusal) => return Err((asked.command, refusal)),
        };
        let reply = carry(
            &mut self.keeper,
            &mut self.holding,
            &mut self.announced,
            &asked,
            judged,
        );
        let Request { by, command } = asked;
        let entry = Entry { command, reply };
        keep(&mut self.log, StoreEntry { by, entry });
        meet(&mut self.keeper, seat);
        Ok(reply)
    }

    /// Sets the cells of a rectangle of the draft to one value: `Reply::Painted`, with the
    /// command's place in the log, from 1, and how many cells changed.
    ///
    /// Refuses, in this order, a rectangle outside the map (`OutOfRange`), a full log (`LogFull`),
    /// no place left (`PlacesUsed`), too few free blocks (`BlocksFull`), and when out of memory.
    /// Refused or not, the seat has then seen the whole log.
    pub fn paint(
        &mut self,
        seat: &mut ReaderSeat<Id>,
        rect: Rect,
        black: bool,
    ) -> Result<Reply, Refusal>
        requires { IsSteady seat.old }
        ensures { IsApplied Id.store self.old seat.old (Paint rect black) result self.new seat.new }
    {
        answered(self.apply(seat, Command::Paint { rect, black }))
    }

    /// Sets each cell of the rectangle at `(x, y)`, of the bitmap's size, to the bitmap's value,
    /// obstacle or not: `Reply::Painted`.
    ///
    /// Refuses as `paint` does; returns the bitmap.
    pub fn stamp(
        &mut self,
        seat: &mut ReaderSeat<Id>,
        x: u16,
        y: u16,
        bitmap: Bitmap,
    ) -> Result<Reply, (Bitmap, Refusal)>
        requires { IsSteady seat.old }
        ensures applied { IsApplied Id.store self.old seat.old (Stamp x y bitmap)
            (outcome_of result) self.new seat.new }
        ensures back { IfErr result (λ back. back.0 ≡ bitmap) }
    {
        stamp_answered(self.apply(seat, Command::Stamp { x, y, bitmap }))
    }

    /// Appends the draft as the next version, even if nothing changed: `Reply::Published`.
    ///
    /// Refuses, in this order, a full log (`LogFull`), no place left (`PlacesUsed`), no free slot
    /// (`VersionsFull`), and when out of memory.
    pub fn publish(&mut self, seat: &mut ReaderSeat<Id>) -> Result<Reply, Refusal>
        requires { IsSteady seat.old }
        ensures { IsApplied Id.store self.old seat.old Publish result self.new seat.new }
    {
        answered(self.apply(seat, Command::Publish))
    }

    /// Makes the draft the newest version: `Reply::Reverted`.
    ///
    /// Refuses, in this order, a full log (`LogFull`), no place left (`PlacesUsed`), and when out
    /// of memory.
    pub fn revert(&mut self, seat: &mut ReaderSeat<Id>) -> Result<Reply, Refusal>
        requires { IsSteady seat.old }
        ensures { IsApplied Id.store self.old seat.old Revert result self.new seat.new }
    {
        answered(self.apply(seat, Command::Revert))
    }

    /// Keeps the newest version, each version that a reader has announced exactly, and from each
    /// other announcement on all that were kept, as it loads one word after another:
    /// `Reply::Collected`, with the least version kept and how many blocks came back. If all that
    /// the scan saw is exact, it keeps at most one version more than there are announcements
    /// (`collects`). A clause of the keeper's step (`KeeperSeat::scan`) says that the scan saw the
    /// readers' words as they stood when it loaded them.
    ///
    /// Refuses, in this order, a full log (`LogFull`), no place left (`PlacesUsed`), and when out
    /// of memory.
    pub fn collect(&mut self, seat: &mut ReaderSeat<Id>) -> Result<Reply, Refusal>
        requires { IsSteady seat.old }
        ensures { IsApplied Id.store self.old seat.old Collect result self.new seat.new }
    {
        answered(self.apply(seat, Command::Collect))
    }

    /// Drops the entries it keeps, its own among them: `Reply::Checkpointed`, whose place is then
    /// the base place. Places go on counting. It allocates no memory, and changes no bitmap and no
    /// version.
    ///
    /// Refuses only if no place is left (`PlacesUsed`).
    pub fn checkpoint(&mut self, seat: &mut ReaderSeat<Id>) -> Result<Reply, Refusal>
        requires { IsSteady seat.old }
        ensures { IsApplied Id.store self.old seat.old Checkpoint result self.new seat.new }
    {
        answered(self.apply(seat, Command::Checkpoint))
    }

    /// The entries it keeps: each command accepted since the last checkpoint, with its reply and
    /// its session.
    pub fn log(&self) -> &[StoreEntry]
        ensures kept { result.now ≡ kept_part Id.store self.now.log }
        ensures legal { IsLegal Id.store.base.setting Id.store.base.opening (entries self.now.log) }
    {
        self.log.as_slice()
    }

    /// The place of the last checkpoint, 0 where there is none: the entries it keeps have the
    /// places after it.
    pub fn base_place(&self) -> u32
        ensures { result ≡ base_place Id.store self.now.log }
    {
        self.holding.ledger.base
    }

    /// A token of the log as it is now. Whoever learns it has then seen that log. It is always
    /// `Some`.
    pub fn ticket(&mut self) -> Option<Ticket<Id>>
        ensures ticket { result ≡ Some self.old.log }
        ensures desk { self.new ≡ self.old }
    {
        Some(self.keeper.ticket())
    }
}
