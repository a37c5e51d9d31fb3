//! A planner's questions about maps whose obstacles are far from most cells.

use crate::digest::Digest;
use crate::image::{Image, diagonal, few, yard};
use crate::questions::ask;
use crate::random::Random;
use crate::script::Script;
use crate::served::{Turn, take_turns};
use crate::size::Size;
use std::alloc::Global;
use std::io;
use std::sync::Wait;

/// Asks this many rounds of one pin of a map, and about a long path at every eighth.
fn ask_about<R: Wait>(
    rt: &R,
    alloc: Global,
    image: &Image,
    rounds: u32,
    random: &mut Random,
    digest: &mut Digest,
) -> io::Result<()> {
    let mut script = Script::new(alloc, image.side);
    script.put(b"PIN\n")?;
    for round in 0..rounds {
        ask(&mut script, random, image)?;
        if round % 8 == 0 {
            script.go(random, image, 1000)?;
            script.path(random)?;
            script.clear_of(random)?;
        }
    }
    script.put(b"UNPIN\nQUIT\n")?;
    let turn = Turn {
        session: 0,
        lines: script.text,
    };
    take_turns(rt, alloc, image, &[turn], digest)
}

/// Questions about a yard, a diagonal wall alone, and a map with one obstacle in a thousand cells.
pub fn run<R: Wait>(rt: &R, alloc: Global, size: Size, random: &mut Random) -> io::Result<u64> {
    let mut digest = Digest::new();
    let image = yard(alloc, size.large, random)?;
    ask_about(rt, alloc, &image, size.count(1600), random, &mut digest)?;
    let image = diagonal(alloc, size.large, random)?;
    ask_about(rt, alloc, &image, size.count(500), random, &mut digest)?;
    let image = few(alloc, size.large, random)?;
    ask_about(rt, alloc, &image, size.count(1600), random, &mut digest)?;
    Ok(digest.value())
}
