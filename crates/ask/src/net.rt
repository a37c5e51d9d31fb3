//! How `ask` reaches a server.

ghost use Rattle.metric.specs.Stream.{CanFail};

use crate::ask::ask_run;
use crate::told::Hearer;
use metric::{Refusal, Sink, Source};
use std::alloc::Global;
use std::net::{Net, TcpListener, TcpStream};
use streams::{NoSocket, REFUSED, Socket, local, write_net_fault, write_refusal};

/// Connects to the server on a port of this machine, and sends it the reader's lines. Returns the
/// status.
///
/// Without a server it writes `FAULT net`, and when out of memory for the connection's buffers `ERR
/// 5 Memory`, with status 1.
pub fn ask<N, R, W, H>(
    rt: &N,
    alloc: Global,
    port: u16,
    reader: &mut R,
    writer: &mut W,
    hearer: &mut H,
) -> u8
where
    N: Net<Listener = TcpListener, Stream = TcpStream>,
    R: Source,
    W: Sink,
    H: Hearer,
    requires reader { CanFail (R.failed_reads reader.old) }
    requires writer { CanFail (W.failed_writes writer.old) }
{
    let Ok(stream) = TcpStream::connect(rt, local(port)) else {
        return write_net_fault(writer).unwrap_or(REFUSED);
    };
    match Socket::new(alloc, stream) {
        Ok(mut socket) => ask_run(alloc, &mut socket, reader, writer, hearer),
        Err(NoSocket::Broken) => write_net_fault(writer).unwrap_or(REFUSED),
        Err(NoSocket::Memory(_, refused)) => {
            write_refusal(writer, Refusal::from(refused)).unwrap_or(REFUSED)
        }
    }
}
