//! The sessions of one store, which act as the rows of a table say.

ghost use Rattle.std.specs.Prelude.{◌≡◌};

use crate::compare::same;
use crate::opened::{blank, hand_back, open};
use crate::sessions::acts::{A, Act, Row, Told};
use crate::sessions::seat::Seat;
use map_core::Setting;
use session::{Blank, Session, Store};
use shelf::{StoreName, Ticket};
use std::alloc::Global;
use std::marker::Brand;
use std::mem::ManuallyDrop;
use std::process::Abort;
use std::sync::Wait;
use std::test::Fail;

/// Rows for the sessions of a store on a map of this size without obstacles.
#[derive(Clone, Copy)]
pub struct Game<'a> {
    pub name: &'static str,
    pub setting: Setting,
    pub size: [u16; 2],
    pub rows: &'a [Row],
    /// How many blocks are free after each row, if that is counted: fewer than the map has tiles.
    pub free: &'a [u32],
    /// How many of the sessions the close doesn't take.
    pub left_out: usize,
    /// The place of the last checkpoint, and how many entries there are after it.
    pub log: (u32, usize),
}

/// A store, its sessions, the last one first, and a tray for a ticket.
struct Players<Id: StoreName> {
    store: Store<Id>,
    seats: Vec<Option<Seat<Id>>>,
    tray: Option<Ticket<Id>>,
}

impl<Id: StoreName> Players<Id> {
    /// Seats sessions.
    fn new(rt: &impl Abort, alloc: Global, store: Store<Id>, sessions: Vec<Session<Id>>) -> Self {
        let mut sessions = sessions;
        let mut seats = Vec::new(alloc);
        'sessions: while let Some(session) = sessions.pop() {
            match seats.push(Some(Seat::Free(session))) {
                Ok(()) => {}
                Err(_) => panic!(rt; "no memory for a seat"),
            }
        }
        sessions.destroy_empty();
        Players {
            store,
            seats,
            tray: None,
        }
    }

    /// The store, and the sessions, each unpinned.
    fn rise(self, rt: &impl Abort, alloc: Global) -> (Store<Id>, Vec<Session<Id>>) {
        let Players {
            store,
            mut seats,
            tray,
        } = self;
        match tray {
            None => {}
            Some(_) => panic!(rt; "a ticket was left"),
        }
        let mut sessions = Vec::new(alloc);
        'seats: while let Some(seat) = seats.pop() {
            match seat {
                Some(Seat::Free(session)) => hand_back(rt, &mut sessions, session),
                _ => panic!(rt; "a pin was left"),
            }
        }
        seats.destroy_empty();
        (store, sessions)
    }

    /// Makes a session act.
    fn act<R: Wait + Abort>(&mut self, rt: &R, alloc: Global, who: usize, act: Act) -> Told {
        match act {
            Act::Ticket => {
                let ticket = self.store.lock(rt).ticket().expect(rt, "a ticket");
                match self.tray.replace(ticket) {
                    None => Told::Nothing,
                    Some(_) => panic!(rt; "the tray was full"),
                }
            }
            Act::Discard => {
                self.tray.take().expect(rt, "a ticket").discard();
                Told::Nothing
            }
            _ => {
                let place = self.seats.get_mut(who).expect(rt, "a seat");
                let seat = place.take().expect(rt, "a session");
                let (seat, told) = seat.act(rt, alloc, &self.store, &mut self.tray, act);
                match place.replace(seat) {
                    None => told,
                    Some(_) => panic!(rt; "two sessions"),
                }
            }
        }
    }

    /// Makes sessions act as the rows of a game say. A paint of the whole map is refused if fewer
    /// blocks are free than it has tiles; it reports how many are, and changes nothing.
    fn play<R: Wait + Abort>(&mut self, rt: &R, alloc: Global, game: &Game<'_>) {
        let [width, height] = game.size;
        let all = Act::Paint([0, 0, width, height]);
        for (number, (who, act, told)) in game.rows.iter().enumerate() {
            let case = (game.name, number);
            same(rt, self.act(rt, alloc, *who, *act), *told, case);
            if let Some(free) = game.free.get(number) {
                match self.act(rt, alloc, A, all) {
                    Told::Full(_, found) => same(rt, found, *free, case),
                    _ => panic!(rt; "blocks enough for all tiles"),
                }
            }
        }
    }
}

/// Plays a game on a store opened for it.
pub fn play<R: Wait + Abort>(rt: &R, alloc: Global, game: Game<'_>) -> Result<(), Fail> {
    let blank = blank(rt, alloc, game.setting, (game.size, 0))?;
    play_in::<Brand, _>(rt, alloc, blank, game)
}

/// Plays a game on a store opened from this.
fn play_in<Id: StoreName, R: Wait + Abort>(
    rt: &R,
    alloc: Global,
    blank: Blank,
    game: Game<'_>,
) -> Result<(), Fail>
    requires { blank ≡ Id.store }
{
    let (store, sessions) = open::<Id>(alloc, blank)?;
    let mut players = Players::new(rt, alloc, store, sessions);
    players.play(rt, alloc, &game);
    let (store, mut sessions) = players.rise(rt, alloc);
    for _ in 0..game.left_out {
        if let Some(session) = sessions.pop() {
            let _left_out = unsafe { ManuallyDrop::new_unchecked(session) };
        }
    }
    let (base, kept) = store.close(sessions);
    same(rt, (base, kept.len()), game.log, game.name);
    Ok(())
}
