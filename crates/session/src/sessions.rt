//! All sessions of a store: made when it opens, given up when it closes.

ghost use Rattle.std.specs.Prelude.{◌≡◌, ◌+◌, ◌≤◌, [], All, length, sum_by};
ghost use Rattle.std.specs.Vec.{vec_capacity};
ghost use Rattle.shelf.specs.Open.{all_newcomers};
ghost use Rattle.shelf.specs.Store.{readers_of};
ghost use Rattle.session.specs.Sessions.{IsInLog, all_fresh};

use crate::session::Session;
use copies::Room;
use shelf::{Closing, FreshReader, StoreName};

/// Names readers, and makes each a session of a map of this size.
pub fn sessions_of<Id: StoreName>(
    readers: Vec<FreshReader>,
    width: u16,
    height: u16,
    mut sessions: Vec<Session<Id>>,
) -> Vec<Session<Id>>
    requires width { width ≡ Id.store.base.opening.width }
    requires height { height ≡ Id.store.base.opening.height }
    requires readers { readers.items ≡ all_newcomers Id.store }
    requires none { sessions.items ≡ [] }
    requires room { readers_of Id.store ≤ vec_capacity sessions }
    ensures { result.items ≡ all_fresh Id.store }
{
    for reader in readers {
        let seat = reader.named::<Id>();
        let room = Room::empty(width, height);
        sessions.push_reserved(Session { seat, room });
    }
    sessions
}

/// Gives up sessions, one after another.
pub fn give_up<Id: StoreName>(closing: &mut Closing<Id>, mut sessions: Vec<Session<Id>>)
    ensures counts { closing.new ≡ record closing.old {
      readers = closing.old.readers + length sessions.items;
      made = closing.old.made + sum_by (λ s. s.made) sessions.items;
    } }
    ensures sessions { All (IsInLog closing.old.log) sessions.items }
{
    while let Some(session) = sessions.pop() {
        closing.give_up(session.into_seat());
    }
    sessions.destroy_empty();
}
