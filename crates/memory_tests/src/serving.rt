//! A stream served while one request for memory is refused: what is written then.

ghost use Rattle.std.specs.Prelude.{◌≡◌};

use crate::compare::{holds, same};
use crate::opened::{blank, close, hand_back, next, open};
use crate::ready::Ready;
use crate::told::{begin, end};
use map_core::Setting;
use metric::{Cell, Edge};
use proto::{End, serve_stream};
use session::Blank;
use shelf::StoreName;
use std::alloc::Global;
use std::marker::Brand;
use std::process::Abort;
use std::sync::Wait;
use std::test::Fail;

const SETTING: Setting = Setting {
    blocks: 2,
    versions: 8,
    sessions: 1,
    log: 100_000,
    edge: Edge::Open,
};

/// What is read.
const LINES: &[u8] = b"PAINT 0 0 1 1\nPAINT 0 0 1 1\nQUIT\n";

/// What is written if no request is refused.
const ALL: &[u8] = b"OK 1 1\nOK 2 0\nBYE\n";

/// What is written if the first command's entry finds no memory, and if the second one's does.
const WANTING: [&[u8]; 2] = [
    b"ERR 5 Memory\nOK 1 1\nBYE\n",
    b"OK 1 1\nERR 5 Memory\nBYE\n",
];

#[test]
fn a_stream_goes_on_after_want_of_memory(rt: HostRuntime) -> Result<(), Fail> {
    let obstacle = Cell { x: 63, y: 63 };
    let blank = blank(&rt, rt.alloc(), SETTING, [64, 64], obstacle)?;
    serves_in::<Brand, _>(&rt, rt.alloc(), blank)
}

/// Checks what was written and how the stream ended, and returns whether memory ran out, and how
/// many commands were accepted.
fn judge(rt: &impl Abort, written: &[u8], end: End) -> (bool, u32) {
    if end == End::Memory {
        holds(rt, written.is_empty(), "nothing is written");
        return (true, 0);
    }
    same(rt, end, End::Quit, "the end");
    if written == ALL {
        return (false, 2);
    }
    holds(rt, WANTING.contains(&written), "another text");
    (true, 1)
}

/// Serves the stream with the session of a store opened from this.
fn serves_in<Id: StoreName, R: Wait + Abort + Print>(
    rt: &R,
    alloc: Global,
    blank: Blank,
) -> Result<(), Fail>
    requires { blank ≡ Id.store }
{
    let call = ("proto", "serve_stream");
    let (store, mut sessions) = open::<Id, R>(rt, alloc, blank)?;
    let session = next(rt, &mut sessions);
    let mut stream = Ready::new(LINES);
    begin(rt, call);
    let (session, came) = serve_stream(rt, alloc, &store, session, &mut stream);
    let (is_wanting, entries) = judge(rt, stream.bytes(), came);
    end(rt, call, is_wanting);
    same(rt, session.made(), entries, "accepted commands");
    hand_back(rt, &mut sessions, session);
    same(
        rt,
        close(rt, store, sessions),
        (0, entries as usize),
        "the log",
    );
    Ok(())
}
