//! What a served stream does without the lock: a pin, a query, and its end.

ghost use Rattle.std.specs.Prelude.{◌≡◌};

use super::{SQUARE, setting, stream_of};
use crate::compare::{holds, same};
use crate::opened::{blank, close, hand_back, next, open};
use proto::{End, serve_stream};
use session::Blank;
use shelf::StoreName;
use std::alloc::Global;
use std::marker::Brand;
use std::process::Abort;
use std::sync::Wait;
use std::test::Fail;

#[test]
fn planners_pass_a_lock_that_is_held(rt: HostRuntime) -> Result<(), Fail> {
    let alloc = rt.alloc();
    let blank = blank(&rt, alloc, setting(2, 1), SQUARE)?;
    plans_while_the_lock_is_held::<Brand, _>(&rt, alloc, blank)
}

/// Serves a stream without commands to the keeper while the same thread holds the desk's guard.
fn plans_while_the_lock_is_held<Id: StoreName, R: Wait + Abort>(
    rt: &R,
    alloc: Global,
    blank: Blank,
) -> Result<(), Fail>
    requires { blank ≡ Id.store }
{
    let (store, mut sessions) = open::<Id>(alloc, blank)?;
    let session = next(rt, &mut sessions);
    let read =
        b"PIN\nAT city 3 4\nRECT chess 0 0 9 9\nPATH city 0 0 9 0\nCLEAROF city 1 0 0\nDUMP\nUNPIN\nPIN\nQUIT\n";
    let mut stream = stream_of(alloc, (read, None, None));
    let desk = store.lock(rt);
    let (session, end) = serve_stream(rt, alloc, &store, session, &mut stream);
    drop(desk);
    same(rt, end, End::Quit, "the stream's end");
    let written = stream.bytes();
    holds(
        rt,
        written.starts_with(b"OK 0\nNONE\nNONE\nNONE\nOK CLEAR\nOK "),
        "replies",
    );
    holds(
        rt,
        written.ends_with(b"\nOK 0\nOK 0\nBYE\n"),
        "last replies",
    );
    hand_back(rt, &mut sessions, session);
    same(rt, close(store, sessions), 0, "entries");
    Ok(())
}
