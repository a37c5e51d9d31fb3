//! The command `serve`, from its options on: reads the map, and listens.

ghost use Rattle.std.specs.Prelude.{IfErr, IfSome};
ghost use Rattle.metric.specs.Stream.{CanFail};
ghost use Rattle.streams.specs.Refusals.{HasWordsAlone};

use bits::Bitmap;
use command_line::ServeOptions;
use metric::{Refusal, Sink, Source};
use pbm::{ImageStop, read_source};
use proto::{Listening, serve_run};
use std::alloc::Global;
use std::io;
use std::net::{Net, TcpListener, TcpStream};
use std::sync::Wait;
use std::thread::Threads;
use std::time::Clock;
use streams::{REFUSED, local, write_net_fault, write_refusal};

/// The map at the front of the reader's bytes. An error is the refusal of its image, or out of
/// memory; none if a read failed.
fn read_map<R: Source>(alloc: Global, reader: &mut R) -> Result<Bitmap, Option<Refusal>>
    requires { CanFail (R.failed_reads reader.old) }
    ensures { IfErr result (λ refusal. IfSome refusal HasWordsAlone) }
{
    match read_source(alloc, reader) {
        Ok(map) => Ok(map),
        Err(ImageStop::Fault(fault)) => Err(Some(Refusal::BadImage(fault))),
        Err(ImageStop::Memory(refused)) => Err(Some(Refusal::from(refused))),
        Err(ImageStop::Failed) => Err(None),
    }
}

/// Listens on the port of the options.
fn listen<N>(rt: &N, options: &ServeOptions) -> io::Result<Listening>
where
    N: Net<Listener = TcpListener, Stream = TcpStream>,
{
    let listener = TcpListener::bind(rt, local(options.port))?;
    Listening::of(listener, options.connections)
}

/// Reads the map and listens on the port, then serves. Returns the status.
///
/// Refuses, in this order and with one line each: the image (`ERR 15 ..`, `ERR 5 Memory`), the port
/// (`FAULT net`), and what `serve_run` refuses.
pub fn serve<N, R, W>(
    rt: &N,
    alloc: Global,
    options: &ServeOptions,
    reader: &mut R,
    writer: &mut W,
) -> u8
where
    N: Net<Listener = TcpListener, Stream = TcpStream> + Clock + Wait + Threads + Sync,
    R: Source,
    W: Sink,
    requires reader { CanFail (R.failed_reads reader.old) }
    requires writer { CanFail (W.failed_writes writer.old) }
{
    let map = match read_map(alloc, reader) {
        Ok(map) => map,
        Err(Some(refusal)) => return write_refusal(writer, refusal).unwrap_or(REFUSED),
        Err(None) => return REFUSED,
    };
    match listen(rt, options) {
        Ok(place) => serve_run(rt, alloc, place, map, options.setting(), writer),
        Err(_) => write_net_fault(writer).unwrap_or(REFUSED),
    }
}
