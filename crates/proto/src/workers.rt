//! Workers that serve streams, each with a session of its own.

ghost use Rattle.std.specs.Prelude.{◌≡◌, ◌≤◌, [], All, length, map, reverse, vec_capacity, Some};
ghost use Rattle.std.specs.Prelude.{IfOk, IfErr, IfSome, IsSome};
ghost use Rattle.proto.specs.Pools.{AreBoth, AreEach, AreRelated, HasWorked};
ghost use Rattle.line_io.specs.Wire.{CanGoOn};

use crate::serve::serve_stream;
use metric::{NoMemory, Stream};
use session::{Session, Store};
use shelf::StoreName;
use std::alloc::Global;
use std::sync::{Mutex, Wait};
use std::thread::{Threads, for_each_mut};

/// A source of streams, one after another.
pub trait Streams {
    /// A stream to serve.
    type S: Stream + Drop + Send;

    /// A stream that nobody has read or written yet.
    ghost fresh: { Self.S → Type 0 };

    /// The next stream, which is fresh, and of which no call has failed; `None` where no more come.
    fn next(&mut self) -> Option<Self::S>
        ensures fresh { IfSome result (λ stream. Self.fresh stream) }
        ensures can_go_on { IfSome result (λ stream. CanGoOn (Self.S.wire stream)) };
}

/// Serves streams until no more come, with one worker per session: each takes the next stream, lets
/// the others do so, and serves its own. Where a thread can't be started, the calling thread does
/// its work.
///
/// Returns the same sessions in their order; each has only served fresh streams, each stream once.
/// Fails only when out of memory; the sessions are then as before, and no stream was taken.
pub fn pool<Id: StoreName + Send + Sync, R: Wait + Threads + Sync, T: Streams + Send + Drop>(
    rt: &R,
    alloc: Global,
    store: &Store<Id>,
    sessions: Vec<Session<Id>>,
    streams: T,
) -> Result<Vec<Session<Id>>, (Vec<Session<Id>>, NoMemory)>
    ensures worked { IfOk result
        (λ back. AreRelated (HasWorked T.fresh T.S.wire Id.store) sessions.items back.items) }
    ensures back { IfErr result (λ back. back.0.items ≡ sessions.items) }
{
    let room = match Vec::with_capacity(alloc, sessions.len()) {
        Ok(room) => room,
        Err(refused) => return Err((sessions, NoMemory::from(refused))),
    };
    let (empty, mut seats) = seat_all(sessions, room);
    let streams = Mutex::new(streams);
    work_all(rt, alloc, store, &streams, seats.as_mut_slice());
    Ok(unseat_all(seats, empty))
}

/// Serves streams until no more come, with one worker per seat.
fn work_all<Id: StoreName + Send + Sync, R: Wait + Threads + Sync, T: Streams + Send>(
    rt: &R,
    alloc: Global,
    store: &Store<Id>,
    streams: &Mutex<T>,
    seats: &mut [Option<Session<Id>>],
)
    requires { All IsSome seats.old }
    ensures worked { AreEach (AreBoth (HasWorked T.fresh T.S.wire Id.store)) seats.old seats.new }
    ensures full { All IsSome seats.new }
    ensures as_many { length seats.new ≡ length seats.old }
{
    let count = seats.len().max(1);
    for_each_mut(
        rt,
        seats,
        count,
        &|_, seat: &mut Option<Session<Id>>|
            requires { IsSome seat.now }
            ensures full { IsSome seat.exit.now }
            ensures worked { AreBoth (HasWorked T.fresh T.S.wire Id.store) seat.entry.now
                seat.exit.now }
        { work(rt, alloc, store, streams, seat) },
    );
}

/// Serves streams with a session until no more come.
fn work<Id: StoreName, R: Wait, T: Streams>(
    rt: &R,
    alloc: Global,
    store: &Store<Id>,
    streams: &Mutex<T>,
    seat: &mut Option<Session<Id>>,
)
    requires { IsSome seat.old }
    ensures full { IsSome seat.new }
    ensures worked { AreBoth (HasWorked T.fresh T.S.wire Id.store) seat.old seat.new }
{
    let Some(session) = seat.take() else {
        return;
    };
    let session = serve_all(rt, alloc, store, streams, session);
    match seat.replace(session) {
        None => {}
        Some(_) => unreachable!(),
    }
}

/// Serves streams with a session until no more come, and returns the session. Takes each stream
/// under the lock, and releases the lock before it serves the stream.
fn serve_all<Id: StoreName, R: Wait, T: Streams>(
    rt: &R,
    alloc: Global,
    store: &Store<Id>,
    streams: &Mutex<T>,
    mut session: Session<Id>,
) -> Session<Id>
    ensures { HasWorked T.fresh T.S.wire Id.store session result }
{
    'streams: for _ in rt.forever() {
        let next = streams.lock(rt).next();
        let Some(mut stream) = next else {
            return session;
        };
        let (back, _) = serve_stream(rt, alloc, store, session, &mut stream);
        session = back;
    }
    unreachable!()
}

/// Puts each session into a seat, the last one first; `room` has capacity for them. Returns the
/// empty buffer of the sessions, and the seats.
fn seat_all<S>(mut sessions: Vec<S>, room: Vec<Option<S>>) -> (Vec<S>, Vec<Option<S>>)
    requires empty { room.items ≡ [] }
    requires room { length sessions.items ≤ vec_capacity room }
    ensures empty { result.0.items ≡ [] }
    ensures room { length sessions.items ≤ vec_capacity result.0 }
    ensures seats { result.1.items ≡ reverse (map Some sessions.items) }
    ensures full { All IsSome result.1.items }
{
    let mut seats = room;
    'sessions: while let Some(session) = sessions.pop() {
        seats.push_reserved(Some(session));
    }
    (sessions, seats)
}

/// Takes the sessions out of their seats, the last one first.
fn unseat_all<S>(mut seats: Vec<Option<S>>, empty: Vec<S>) -> Vec<S>
    requires empty { empty.items ≡ [] }
    requires room { length seats.items ≤ vec_capacity empty }
    requires full { All IsSome seats.items }
    ensures { map Some result.items ≡ reverse seats.items }
{
    let mut sessions = empty;
    'seats: while let Some(seat) = seats.pop() {
        match seat {
            Some(session) => sessions.push_reserved(session),
            None => unreachable!(),
        }
    }
    seats.destroy_empty();
    sessions
}
