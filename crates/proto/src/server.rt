//! A server: opens a store of one map, and serves a listener's connections with its sessions.

ghost use Rattle.std.specs.Prelude.{◌≡◌, ◌≢◌, ◌≤◌, ◌+◌, ◌++◌, ◌∷◌, [], IfOk, IfSome, None, OnErr};
ghost use Rattle.metric.specs.Refusal.{refusal_text};
ghost use Rattle.metric.specs.Stream.{CanFail, Counts};
ghost use Rattle.metric.specs.declared.refusal.Refusal.TheVariants.{BadSetting};
ghost use Rattle.bits.specs.Tiles.{tile_count};
ghost use Rattle.events.specs.Setting.{bad_field};
ghost use Rattle.proto.specs.Server.{BeginsServed, WritesOnly, WritesServed};

mod accepted;
mod notices;
mod pause;

use crate::workers::pool;
use accepted::Accepted;
use bits::Bitmap;
use events::Setting;
use lines::Text;
use metric::{Refusal, Sink, WriteFault};
use notices::{listening_line, served_line};
use session::{Blank, Session, Store};
use shelf::StoreName;
use std::alloc::Global;
use std::io;
use std::marker::Brand;
use std::net::TcpListener;
use std::sync::Wait;
use std::thread::Threads;
use std::time::Clock;
use streams::{DONE, REFUSED, write_refusal, write_text};

/// A listener, and how many connections it serves.
#[derive(Drop)]
pub struct Listening {
    listener: TcpListener,
    port: u16,
    connections: u32,
}

impl Listening {
    /// A listener that accepts this many connections. Fails if the listener has no port.
    pub fn of(listener: TcpListener, connections: u32) -> io::Result<Self>
        ensures { IfOk result (λ place. place.connections ≡ connections) }
    {
        let port = listener.local_addr()?.port();
        Ok(Listening {
            listener,
            port,
            connections,
        })
    }

    /// The port that it listens on.
    pub fn port(&self) -> u16
        ensures { result ≡ self.now.port }
    {
        self.port
    }
}

/// Serves the map to the connections that the listener accepts, one at a time by each session of
/// the setting, and returns the status after the last of them. Writes `LISTENING <port>` before it
/// accepts the first, and `SERVED <connections> <log length>` after the last.
///
/// In place of these it writes one line, with status 1: `ERR 16 ..` for the first of blocks,
/// versions, sessions and log that is out of its limits for this map, and `ERR 5 Memory`. A
/// connection that can't be accepted, or fails, counts as served. If a write fails, it writes
/// nothing more, and the status is 1.
pub fn serve_run<R: Clock + Wait + Threads + Sync, W: Sink>(
    rt: &R,
    alloc: Global,
    place: Listening,
    map: Bitmap,
    setting: Setting,
    writer: &mut W,
) -> u8
    requires { CanFail (W.failed_writes writer.old) }

    // If the setting is out of its limits, nothing is served, and one line says so.
    ensures setting { IfSome (bad_field (tile_count map) setting) (λ field.
        WritesOnly (refusal_text (BadSetting field) ++ 10 ∷ []) (W.failed_writes writer.old)
        (W.failed_writes writer.new)
        (W.held writer.old) (W.held writer.new) × (result ≡ 1)) }

    // Otherwise the port is printed, and how many connections were served; or why nothing is
    // served.
    ensures served { bad_field (tile_count map) setting ≡ None
        → W.failed_writes writer.new ≡ W.failed_writes writer.old
        → WritesServed place.port place.connections (W.held writer.old) (W.held writer.new) result }
    ensures failed { bad_field (tile_count map) setting ≡ None
        → W.failed_writes writer.new ≢ W.failed_writes writer.old
        → BeginsServed place.port place.connections (W.held writer.old) (W.held writer.new)
        × (result ≡ 1) }
    ensures one_failure { W.failed_writes writer.new ≤ W.failed_writes writer.old + 1 }
{
    match Blank::of(alloc, setting, map) {
        Ok(blank) => serve_blank::<Brand, _, _>(rt, alloc, place, blank, writer).unwrap_or(REFUSED),
        Err((_, refusal)) => write_refusal(writer, refusal).unwrap_or(REFUSED),
    }
}

/// Serves a store that it opens.
fn serve_blank<Id: StoreName + Send + Sync, R: Clock + Wait + Threads + Sync, W: Sink>(
    rt: &R,
    alloc: Global,
    place: Listening,
    blank: Blank,
    writer: &mut W,
) -> Result<u8, WriteFault>
    requires name { blank ≡ Id.store }
    requires writer { CanFail (W.failed_writes writer.old) }
    ensures served { IfOk result
        (WritesServed place.port place.connections (W.held writer.old) (W.held writer.new)) }
    ensures begun { OnErr result
        (BeginsServed place.port place.connections (W.held writer.old) (W.held writer.new)) }
    ensures counts { Counts (W.failed_writes writer.old) result (W.failed_writes writer.new) }
{
    match Store::<Id>::open(alloc, blank) {
        Ok((store, sessions)) => serve_store(rt, alloc, place, store, sessions, writer),
        Err((blank, refused)) => {
            blank.discard();
            write_refusal(writer, Refusal::from(refused))
        }
    }
}

/// Serves an open store, and closes it.
fn serve_store<Id: StoreName + Send + Sync, R: Clock + Wait + Threads + Sync, W: Sink>(
    rt: &R,
    alloc: Global,
    place: Listening,
    store: Store<Id>,
    sessions: Vec<Session<Id>>,
    writer: &mut W,
) -> Result<u8, WriteFault>
    requires { CanFail (W.failed_writes writer.old) }
    ensures served { IfOk result
        (WritesServed place.port place.connections (W.held writer.old) (W.held writer.new)) }
    ensures begun { OnErr result
        (BeginsServed place.port place.connections (W.held writer.old) (W.held writer.new)) }
    ensures counts { Counts (W.failed_writes writer.old) result (W.failed_writes writer.new) }
{
    let mut text = match Text::new(alloc) {
        Ok(text) => text,
        Err(refused) => {
            store.close(sessions);
            return write_refusal(writer, Refusal::from(refused));
        }
    };
    listening_line(place.port, &mut text);
    if let Err(fault) = write_text(writer, text.as_bytes(), DONE) {
        store.close(sessions);
        return Err(fault);
    }
    let connections = place.connections;
    let streams = Accepted::of(alloc, rt, place.listener, connections);
    match pool(rt, alloc, &store, sessions, streams) {
        Ok(sessions) => {
            let (base, kept) = store.close(sessions);
            served_line(connections, u64::from(base) + kept.len() as u64, &mut text);
            write_text(writer, text.as_bytes(), DONE)
        }
        Err((sessions, refused)) => {
            store.close(sessions);
            write_refusal(writer, Refusal::from(refused))
        }
    }
}
