//! A store at its limits: the largest map, a path of a thousand points, and stamps wider than a
//! word.

ghost use Rattle.std.specs.Prelude.{◌≡◌};

use crate::compare::same;
use crate::opened::{blank, close, hand_back, next, open, pin, rect};
use bits::Bitmap;
use clearance::Queried;
use map_core::{Reply, Setting};
use metric::{Cell, Chess, City, Edge, Euclid2, Near, Spot};
use session::{Blank, Pinned};
use shelf::StoreName;
use std::alloc::Global;
use std::marker::Brand;
use std::process::Abort;
use std::sync::Wait;
use std::test::Fail;

/// One more block than the map has tiles.
const SETTING: Setting = Setting {
    blocks: 4_097,
    versions: 2,
    sessions: 1,
    log: 10,
    edge: Edge::Open,
};

#[test]
fn the_largest_map(rt: HostRuntime) -> Result<(), Fail> {
    let mut stamp = Bitmap::blank(rt.alloc(), 4_096, 4_096)?;
    stamp.set(Cell { x: 0, y: 0 }, true);
    let mut bar = Bitmap::blank(rt.alloc(), 130, 1)?;
    bar.set(Cell { x: 0, y: 0 }, true);
    let blank = blank(&rt, rt.alloc(), SETTING, ([4_096, 4_096], 0))?;
    asks_the_largest_map::<Brand, _>(&rt, rt.alloc(), blank, [stamp, bar])
}

/// An obstacle at `(0, 0)`, at this distance.
const fn near(dist: u32) -> Near {
    Near {
        dist,
        cell: Spot { x: 0, y: 0 },
    }
}

/// Each query of the last cell finds the obstacle in the first.
fn ask_the_last_cell<Id: StoreName>(rt: &impl Abort, alloc: Global, pinned: &mut Pinned<Id>) {
    let last = Cell { x: 4_095, y: 4_095 };
    same(rt, pinned.bitmap().width(), 4_096, "width");
    let at = pinned.at::<Euclid2>(alloc, last);
    same(rt, at, Ok(Some(near(33_538_050))), "the last cell");
    let corner = rect(rt, [4_095, 4_095, 4_096, 4_096]);
    let least = pinned.least_in::<Chess>(alloc, corner);
    same(rt, least, Ok(Some((last, near(4_095)))), "the last corner");
    let path = [last; 1_000];
    let along = pinned.along::<City>(alloc, &path);
    same(
        rt,
        along,
        Ok(Some((last, near(8_190)))),
        "a thousand points",
    );
    let clear = pinned.clear_of::<City>(alloc, &path, 8_190);
    same(rt, clear, Ok(None), "far enough");
}

/// A stamp of the whole map leaves one obstacle, which each query of the last cell finds. A stamp
/// of its upper left corner by a bar wider than a word changes nothing.
fn asks_the_largest_map<Id: StoreName, R: Wait + Abort>(
    rt: &R,
    alloc: Global,
    blank: Blank,
    stamps: [Bitmap; 2],
) -> Result<(), Fail>
    requires { blank ≡ Id.store }
{
    let (store, mut sessions) = open::<Id>(alloc, blank)?;
    let mut session = next(rt, &mut sessions);
    let mut place = 1u32;
    for stamp in stamps {
        let stamped = session.stamp(&mut store.lock(rt), 0, 0, stamp).ok();
        let want = Reply::Painted {
            place,
            changed: u32::from(place == 1),
        };
        same(rt, stamped, Some(want), place);
        place = place.saturating_add(1);
    }
    let told = session.publish(&mut store.lock(rt));
    let first = Reply::Published {
        place: 3,
        version: 1,
    };
    same(rt, told, Ok(first), "publish");
    let mut pinned = pin(rt, alloc, session);
    ask_the_last_cell(rt, alloc, &mut pinned);
    hand_back(rt, &mut sessions, pinned.unpin());
    same(rt, close(store, sessions), 3, "entries");
    Ok(())
}
