//! A connection as a stream: what is sent when, what a failed send counts as, and how it ends.

use crate::compare::{holds, same};
use metric::{ReadFault, Sink, Source, WriteFault};
use std::alloc::Global;
use std::io::{Read, Write};
use std::net::{Ipv4Addr, Net, Shutdown, SocketAddr, SocketAddrV4, TcpListener, TcpStream};
use std::process::Abort;
use std::test::Fail;
use std::thread::Threads;
use std::time::Duration;
use std::{io, thread};
use streams::Socket;

/// A reply of 40,000 bytes: two of them don't gather in a stream's buffer.
const LONG: [u8; 40000] = [b'r'; 40000];

/// Two ends of a connection: that of a stream, and its peer, whose reads wait two seconds at most.
fn ends<R: Net<Listener = TcpListener, Stream = TcpStream>>(
    rt: &R,
    alloc: Global,
) -> Result<(Socket, TcpStream), Fail> {
    let any = SocketAddr::V4(SocketAddrV4::new(Ipv4Addr::LOCALHOST, 0));
    let listener = TcpListener::bind(rt, any)?;
    let peer = TcpStream::connect(rt, listener.local_addr()?)?;
    peer.set_read_timeout(Some(Duration::from_millis(2000)))?;
    let (connection, _) = listener.accept()?;
    match Socket::new(alloc, connection) {
        Ok(socket) => Ok((socket, peer)),
        Err(_) => Err(Fail::from("the connection is a stream")),
    }
}

/// The most failed calls that a test makes.
const MOST_FAILED: u64 = 9;

/// Reads a byte.
fn read(rt: &impl Abort, socket: &mut Socket) -> Result<Option<u8>, ReadFault> {
    assert!(rt; socket.failed_reads() < MOST_FAILED);
    socket.next_byte()
}

/// Writes a reply.
fn write(rt: &impl Abort, socket: &mut Socket, reply: &[u8]) -> Result<(), WriteFault> {
    assert!(rt; socket.failed_writes() < MOST_FAILED);
    socket.write_all(reply)
}

/// Sends the gathered replies.
fn send(rt: &impl Abort, socket: &mut Socket) -> Result<(), WriteFault> {
    assert!(rt; socket.failed_writes() < MOST_FAILED);
    socket.flush()
}

#[test]
fn replies_gather_until_a_read_could_wait(rt: HostRuntime) -> Result<(), Fail> {
    let (mut socket, mut peer) = ends(&rt, rt.alloc())?;
    peer.write_all(b"ab")?;
    same(&rt, read(&rt, &mut socket).ok(), Some(Some(b'a')), "a byte");
    holds(&rt, write(&rt, &mut socket, b"one").is_ok(), "a reply");
    same(
        &rt,
        read(&rt, &mut socket).ok(),
        Some(Some(b'b')),
        "what was read ahead",
    );
    peer.shutdown(Shutdown::Write)?;
    same(&rt, read(&rt, &mut socket).ok(), Some(None), "the end");
    let mut bytes = [0; 3];
    peer.read_exact(bytes.as_mut_slice())?;
    same(
        &rt,
        bytes.as_slice(),
        b"one".as_slice(),
        "sent before the wait",
    );
    Ok(())
}

#[test]
fn no_more_than_a_buffer_gathers(rt: HostRuntime) -> Result<(), Fail> {
    let (mut socket, mut peer) = ends(&rt, rt.alloc())?;
    holds(
        &rt,
        write(&rt, &mut socket, LONG.as_slice()).is_ok(),
        "gathers",
    );
    holds(
        &rt,
        write(&rt, &mut socket, LONG.as_slice()).is_ok(),
        "the first goes out",
    );
    let mut bytes = [0; 40000];
    peer.read_exact(bytes.as_mut_slice())?;
    holds(&rt, bytes.as_slice() == LONG.as_slice(), "the first reply");
    holds(&rt, send(&rt, &mut socket).is_ok(), "the second goes out");
    peer.read_exact(bytes.as_mut_slice())?;
    holds(&rt, bytes.as_slice() == LONG.as_slice(), "the second reply");
    Ok(())
}

/// Writes until a call fails, and sends each reply at once if asked to. `false` if none fails.
fn fails(rt: &impl Abort, socket: &mut Socket, at_once: bool) -> bool {
    for _ in 0..1000 {
        if write(rt, socket, LONG.as_slice()).is_err() || (at_once && send(rt, socket).is_err()) {
            return true;
        }
    }
    false
}

#[test]
fn a_failed_send_counts(rt: HostRuntime) -> Result<(), Fail> {
    for at_once in [true, false] {
        let (mut socket, mut peer) = ends(&rt, rt.alloc())?;
        peer.write_all(b"unread")?;
        drop(peer);
        holds(&rt, fails(&rt, &mut socket, at_once), "the peer is gone");
        same(&rt, socket.failed_writes(), 1, "failed writes");
        same(&rt, socket.failed_reads(), 0, "failed reads");
        holds(&rt, write(&rt, &mut socket, b"one").is_ok(), "a reply");
        holds(
            &rt,
            read(&rt, &mut socket).is_err(),
            "a read sends the reply first",
        );
        same(&rt, socket.failed_writes(), 1, "failed writes");
        same(&rt, socket.failed_reads(), 1, "failed reads");
    }
    Ok(())
}

/// Writes more than a connection holds, and then reads the last reply.
fn writes_on(mut peer: TcpStream) -> io::Result<[u8; 4]> {
    for _ in 0..400 {
        peer.write_all(LONG.as_slice())?;
    }
    let mut reply = [0; 4];
    peer.read_exact(reply.as_mut_slice())?;
    Ok(reply)
}

/// Whether the last reply of a dropped connection arrives at a peer that writes on.
fn last_reply_arrives(rt: &(impl Abort + Threads + Sync), socket: Socket, peer: TcpStream) -> bool {
    let ((), reply) = thread::join(
        rt,
        || {
            let mut socket = socket;
            same(rt, read(rt, &mut socket).ok(), Some(Some(b'r')), "a byte");
            holds(rt, write(rt, &mut socket, b"BYE\n").is_ok(), "a reply");
        },
        || writes_on(peer),
    );
    reply.ok() == Some(*b"BYE\n")
}

/// How often a connection is dropped at most: its peer may be held up longer than the connection
/// waits.
const TRIES: u32 = 20;

#[test]
fn the_last_reply_arrives_though_bytes_are_unread(rt: HostRuntime) -> Result<(), Fail> {
    for _ in 0..TRIES {
        let (socket, peer) = ends(&rt, rt.alloc())?;
        if last_reply_arrives(&rt, socket, peer) {
            return Ok(());
        }
    }
    Err(Fail::from("the last reply never arrives"))
}
