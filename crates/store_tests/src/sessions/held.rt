//! A pin held while many versions are published, until the log is full.

ghost use Rattle.std.specs.Prelude.{◌<◌};

use crate::sessions::acts::{A, Act, B, Row, Told};
use crate::sessions::players::{Game, play};
use map_core::Setting;
use metric::{Edge, Refusal};
use std::test::Fail;

/// Four slots, blocks for version 0, the newest version and the draft, and the entries of a
/// thousand turns.
const FEW: Setting = Setting {
    blocks: 3,
    versions: 4,
    sessions: 2,
    log: 3_000,
    edge: Edge::Open,
};

/// A painter's turn of this number, from 0: it changes the first cell, publishes and collects.
/// Meanwhile a pin holds version 0. What comes back is the tile of the version before, except
/// version 0's.
fn turn(number: u32) -> [Row; 3]
    requires { number < 1_000 }
{
    let cell = [0, 0, 1, 1];
    let place = 3 * number + 1;
    let act = if number % 2 == 0 {
        Act::Paint(cell)
    } else {
        Act::Clear(cell)
    };
    [
        (B, act, Told::Painted(place, 1)),
        (B, Act::Publish, Told::Published(place + 1, number + 1)),
        (
            B,
            Act::Collect,
            Told::Collected(place + 2, 0, u32::from(number != 0)),
        ),
    ]
}

#[test]
fn a_pin_beside_many(rt: HostRuntime) -> Result<(), Fail> {
    let mut rows = Vec::from_slice(rt.alloc(), &[(A, Act::Pin, Told::Version(0))])?;
    for number in 0..1_000 {
        rows.extend_from_slice(&turn(number))?;
    }
    rows.extend_from_slice(&[
        (B, Act::Revert, Told::Refused(Refusal::LogFull)),
        (A, Act::Near([3, 4]), Told::Free(0)),
        (A, Act::Unpin, Told::Nothing),
    ])?;
    let game = Game {
        name: "a pin next to many",
        setting: FEW,
        size: [64, 64],
        rows: rows.as_slice(),
        free: &[],
        left_out: 0,
        log: (0, 3_000),
    };
    play(&rt, rt.alloc(), game)
}
