//! The dangerous order of events, run by one call.

use crate::compare::same;
use crate::keeping::kept;
use crate::opened::rect;
use crate::worlds::SMALL;
use bits::Bitmap;
use map_core::{Command, Event, NotEnabled, Reply, StepReply, run};
use std::process::Abort;
use std::test::Fail;

/// What happens: the keeper takes a command or does a step, or the only reader acts.
#[derive(Clone, Copy)]
enum Happening {
    Paint,
    Publish,
    Collect,
    Step,
    Announce,
    Load,
    LookMap,
    LookTile(u32),
    Leave,
}

/// The event that makes this happen.
fn event_of(rt: &impl Abort, happening: Happening) -> Event {
    let reader = 0;
    match happening {
        Happening::Paint => {
            let rect = rect(rt, [0, 0, 1, 1]);
            Event::Order {
                command: Command::Paint { rect, black: true },
            }
        }
        Happening::Publish => Event::Order {
            command: Command::Publish,
        },
        Happening::Collect => Event::Order {
            command: Command::Collect,
        },
        Happening::Step => Event::Keep,
        Happening::Announce => Event::Announce { reader },
        Happening::Load => Event::Load { reader },
        Happening::LookMap => Event::LookMap {
            reader,
            position: 0,
        },
        Happening::LookTile(block) => Event::LookTile {
            reader,
            block,
            row: 0,
        },
        Happening::Leave => Event::Leave { reader },
    }
}

/// How often something happens, what it is, and its last answer.
type Line = (Happening, u32, Result<StepReply, NotEnabled>);

/// The reader announces version 0 after the collect's scan saw nothing, and the collect keeps only
/// version 1. Then the reader holds and sees version 1.
fn lines() -> [Line; 14] {
    let painted = Reply::Painted {
        place: 1,
        changed: 1,
    };
    let published = Reply::Published {
        place: 2,
        version: 1,
    };
    let collected = Reply::Collected {
        place: 3,
        floor: 1,
        freed: 1,
        kept: kept([0, 2, 0, 0]),
    };
    let done = |reply| Ok(StepReply::Committed { reply });
    [
        (Happening::Paint, 1, Ok(StepReply::Ordered { steps: 1 })),
        (Happening::Step, 1, done(painted)),
        (Happening::Publish, 1, Ok(StepReply::Ordered { steps: 66 })),
        (Happening::Step, 66, done(published)),
        (Happening::Collect, 1, Ok(StepReply::Ordered { steps: 2 })),
        (
            Happening::Step,
            1,
            Ok(StepReply::Scanned { reader: 0, word: 0 }),
        ),
        (
            Happening::Announce,
            1,
            Ok(StepReply::Announced { version: 0 }),
        ),
        (Happening::Step, 1, done(collected)),
        (Happening::Announce, 1, Err(NotEnabled)),
        (
            Happening::Load,
            1,
            Ok(StepReply::Now {
                place: 3,
                version: 1,
            }),
        ),
        (Happening::LookMap, 1, Ok(StepReply::Block { block: 1 })),
        (Happening::LookTile(1), 1, Ok(StepReply::Word { word: 1 })),
        (Happening::LookTile(0), 1, Err(NotEnabled)),
        (Happening::Leave, 1, Ok(StepReply::Left)),
    ]
}

#[test]
fn the_dangerous_order_is_one_run(rt: HostRuntime) -> Result<(), Fail> {
    let mut events = Vec::new(rt.alloc());
    for (happening, times, _) in lines() {
        for _ in 0..times {
            events.push(event_of(&rt, happening))?;
        }
    }
    let map = Bitmap::blank(rt.alloc(), 64, 64)?;
    let (_, answers) = run(rt.alloc(), SMALL, &map, events.as_slice())?;
    let mut answered = answers.iter();
    for (number, (_, times, want)) in lines().iter().enumerate() {
        let mut last = None;
        for _ in 0..*times {
            last = answered.next();
        }
        same(&rt, last, Some(want), number);
    }
    same(&rt, answered.next(), None, "another answer");
    Ok(())
}
