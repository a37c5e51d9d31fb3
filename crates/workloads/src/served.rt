//! Stores that are opened on an image, and scripts that their sessions are served.

ghost use Rattle.std.specs.Prelude.{◌≡◌};

use crate::digest::Digest;
use crate::image::Image;
use crate::link::Link;
use map_core::Setting;
use metric::Edge;
use proto::serve_stream;
use session::{Blank, Session, Store};
use shelf::StoreName;
use std::alloc::Global;
use std::io;
use std::marker::Brand;
use std::sync::Wait;

/// How many sessions a store has.
const SESSIONS: u32 = 4;

/// A script, and the number of the session that it is served by.
#[derive(Drop)]
pub struct Turn {
    pub session: usize,
    pub lines: Vec<u8>,
}

/// Serves the last session.
fn serve<Id: StoreName, R: Wait>(
    rt: &R,
    alloc: Global,
    store: &Store<Id>,
    sessions: &mut Vec<Session<Id>>,
    lines: &[u8],
) -> u64 {
    let mut link = Link::new(lines);
    if let Some(session) = sessions.pop() {
        let (session, _) = serve_stream(rt, alloc, store, session, &mut link);
        sessions.push_reserved(session);
    }
    link.written.value()
}

/// Makes the session of this number the last one.
fn choose<Id: StoreName>(sessions: &mut [Session<Id>], number: usize) {
    let count = sessions.len();
    if number < count {
        sessions.swap(number, count - 1);
    }
}

/// Opens a store and serves the turns.
fn serve_in<Id: StoreName, R: Wait>(
    rt: &R,
    alloc: Global,
    blank: Blank,
    turns: &[Turn],
    digest: &mut Digest,
) -> io::Result<()>
    requires { blank ≡ Id.store }
{
    let (store, mut sessions) = match Store::<Id>::open(alloc, blank) {
        Ok(opened) => opened,
        Err((blank, _)) => {
            blank.discard();
            return Err(io::Error::from(io::ErrorKind::InvalidData));
        }
    };
    for turn in turns {
        choose(sessions.as_mut_slice(), turn.session);
        digest.number(serve(rt, alloc, &store, &mut sessions, turn.lines.as_slice()));
        choose(sessions.as_mut_slice(), turn.session);
    }
    let (base, kept) = store.close(sessions);
    digest.number(u64::from(base));
    digest.number(kept.len() as u64);
    Ok(())
}

/// Opens a store on an image and serves the turns, one after another.
pub fn take_turns<R: Wait>(
    rt: &R,
    alloc: Global,
    image: &Image,
    turns: &[Turn],
    digest: &mut Digest,
) -> io::Result<()> {
    let setting = Setting {
        blocks: 16_384,
        versions: 16,
        sessions: SESSIONS,
        log: 1_048_576,
        edge: Edge::Open,
    };
    let Ok((map, _)) = pbm::read_image(alloc, image.bytes.as_slice()) else {
        return Err(io::Error::from(io::ErrorKind::InvalidData));
    };
    match Blank::of(alloc, setting, map) {
        Ok(blank) => serve_in::<Brand, R>(rt, alloc, blank, turns, digest),
        Err(_) => Err(io::Error::from(io::ErrorKind::InvalidData)),
    }
}
