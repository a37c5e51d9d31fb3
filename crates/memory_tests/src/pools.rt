//! A pool that finds no memory returns its sessions, and has taken no stream.

ghost use Rattle.std.specs.Prelude.{◌≡◌};

use crate::compare::{holds, same};
use crate::opened::{blank, close, open};
use crate::ready::Ready;
use crate::told::{Call, begin, end};
use map_core::Setting;
use metric::{Cell, Edge};
use proto::{Streams, pool};
use session::{Blank, Session, Store};
use shelf::StoreName;
use std::alloc::Global;
use std::marker::Brand;
use std::process::Abort;
use std::sync::Wait;
use std::sync::atomic::{AtomicU64, Ordering};
use std::test::Fail;
use std::thread::Threads;

/// Two workers.
const SETTING: Setting = Setting {
    blocks: 2,
    versions: 8,
    sessions: 2,
    log: 100,
    edge: Edge::Open,
};

/// The pool, and the only stream that it serves.
const POOL: Call = ("proto", "pool");

const SERVED: Call = ("proto", "pool's stream");

/// One stream, and how often the next one was asked for.
#[derive(Drop)]
struct Asked<'a> {
    left: u32,
    asked: &'a AtomicU64,
}

impl Streams for Asked<'_> {
    type S = Ready;

    ghost fresh = { λ stream. stream.failed ≡ 0 };

    fn next(&mut self) -> Option<Ready> {
        self.asked.fetch_add(1, Ordering::SeqCst);
        self.left = self.left.checked_sub(1)?;
        Some(Ready::new(b"REVERT\nQUIT\n"))
    }
}

#[test]
fn a_pool_is_asked_again(rt: HostRuntime) -> Result<(), Fail> {
    let obstacle = Cell { x: 63, y: 63 };
    let blank = blank(&rt, rt.alloc(), SETTING, [64, 64], obstacle)?;
    pools_in::<Brand, _>(&rt, rt.alloc(), blank)
}

/// Serves one stream with two workers. Returns whether the pool itself was refused, and its
/// sessions.
fn serve<Id: StoreName + Send + Sync, R: Wait + Threads + Abort + Sync>(
    rt: &R,
    alloc: Global,
    store: &Store<Id>,
    sessions: Vec<Session<Id>>,
) -> (bool, Vec<Session<Id>>) {
    let asked = AtomicU64::new(0);
    let streams = Asked {
        left: 1,
        asked: &asked,
    };
    match pool(rt, alloc, store, sessions, streams) {
        Ok(sessions) => {
            let times = asked.load(Ordering::SeqCst);
            same(rt, times, 3, "one stream, and none for each worker");
            (false, sessions)
        }
        Err((sessions, _)) => {
            same(rt, asked.load(Ordering::SeqCst), 0, "no stream");
            (true, sessions)
        }
    }
}

/// Serves with the sessions of a store opened from this.
fn pools_in<Id: StoreName + Send + Sync, R: Wait + Threads + Abort + Sync + Print>(
    rt: &R,
    alloc: Global,
    blank: Blank,
) -> Result<(), Fail>
    requires { blank ≡ Id.store }
{
    let (store, sessions) = open::<Id, R>(rt, alloc, blank)?;
    begin(rt, POOL);
    let (is_refused, sessions) = serve(rt, alloc, &store, sessions);
    same(rt, sessions.len(), 2, "sessions");
    let entries = store.lock(rt).log().len();
    if is_refused {
        end(rt, POOL, true);
        same(rt, entries, 0, "nothing was served");
        let (is_refused, sessions) = serve(rt, alloc, &store, sessions);
        holds(rt, !is_refused, "a pool was refused twice");
        same(rt, close(rt, store, sessions), (0, 1), "the log");
        return Ok(());
    }
    holds(rt, entries <= 1, "one command");
    end(rt, if entries == 0 { SERVED } else { POOL }, entries == 0);
    same(rt, close(rt, store, sessions), (0, entries), "the log");
    Ok(())
}
