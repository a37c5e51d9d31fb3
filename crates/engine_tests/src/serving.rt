//! A server and its clients over loopback, in one process.

use crate::compare::same;
use ask::net::ask;
use ask::{Deaf, ask_run};
use bits::Bitmap;
use command_line::ServeOptions;
use crossbeam_channel::{Receiver, Sender, bounded};
use memory_streams::{MemorySink, MemorySource};
use metric::Edge;
use proto::{Listening, serve_run};
use std::alloc::Global;
use std::io::Write;
use std::net::{Net, TcpListener, TcpStream};
use std::process::Abort;
use std::sync::Wait;
use std::test::Fail;
use std::thread::Threads;
use std::time::Clock;
use std::{io, thread};
use streams::{Socket, local};

/// The worked map of three columns and two rows.
const ROOM: &[u8] = b"P1\n3 2\n100\n000\n";

/// Serves this many connections with two workers.
fn two_workers(connections: u32) -> ServeOptions {
    ServeOptions {
        connections,
        port: 0,
        blocks: 16384,
        versions: 8,
        log: 100000,
        workers: 2,
        edge: Edge::Open,
    }
}

/// The worked map.
fn room(alloc: Global) -> Result<Bitmap, Fail> {
    match pbm::read_image(alloc, ROOM) {
        Ok((map, _)) => Ok(map),
        Err(_) => Err(Fail::from("the worked map is an image")),
    }
}

/// A port of this machine on which this many connections are accepted.
fn listen<R: Net<Listener = TcpListener, Stream = TcpStream>>(
    rt: &R,
    connections: u32,
) -> io::Result<Listening> {
    Listening::of(TcpListener::bind(rt, local(0))?, connections)
}

/// Asks a server these lines, and returns what is printed and the status.
fn ask_at<R: Net<Listener = TcpListener, Stream = TcpStream>>(
    rt: &R,
    alloc: Global,
    port: u16,
    lines: &[u8],
) -> (MemorySink, u8) {
    let mut reader = MemorySource::new(lines);
    let mut writer = MemorySink::new(alloc);
    let mut status = 9;
    if let Ok(stream) = TcpStream::connect(rt, local(port))
        && let Ok(mut socket) = Socket::new(alloc, stream)
    {
        status = ask_run(alloc, &mut socket, &mut reader, &mut writer, &mut Deaf);
    }
    (writer, status)
}

/// What a server writes at this port.
fn told(alloc: Global, port: u16, end: &str) -> Result<String, Fail> {
    Ok(format!(in alloc; "LISTENING {port}\n{end}")?)
}

/// What a planner hears of the published map, by its edge.
const ASKED: [(Edge, &[u8]); 2] = [
    (Edge::Open, b"OK 1\nOK 2 1 0\nBYE\n"),
    (Edge::Wall, b"OK 1\nOK 1 2 2\nBYE\n"),
];

#[test]
fn two_clients_are_served(rt: HostRuntime) -> Result<(), Fail> {
    for (edge, told) in ASKED {
        painter_and_planner(&rt, rt.alloc(), edge, told)?;
    }
    Ok(())
}

/// Serves a painter and then a planner, and compares what each of the three writes.
fn painter_and_planner<R>(rt: &R, alloc: Global, edge: Edge, asked: &[u8]) -> Result<(), Fail>
where
    R: Net<Listener = TcpListener, Stream = TcpStream> + Clock + Wait + Threads + Abort + Sync,
{
    let map = room(alloc)?;
    let place = listen(rt, 2)?;
    let port = place.port();
    let options = ServeOptions {
        edge,
        ..two_workers(2)
    };
    let (sender, receiver): (Sender<u8>, Receiver<u8>) = bounded(alloc, 1)?;
    let (served, clients) = thread::join(
        rt,
        || {
            let mut writer = MemorySink::new(alloc);
            let status = serve_run(rt, alloc, place, map, options.setting(), &mut writer);
            (writer, status)
        },
        || {
            thread::join(
                rt,
                || {
                    let first = ask_at(rt, alloc, port, b"PAINT 1 0 2 1\nPUBLISH\nQUIT\n");
                    let _ = sender.send(rt, 1);
                    first
                },
                || {
                    let _ = receiver.recv(rt);
                    ask_at(rt, alloc, port, b"PIN\nAT city 2 1\nQUIT\n")
                },
            )
        },
    );
    let (painter, planner) = clients;
    let painted: &[u8] = b"OK 1 1\nOK 2 1\nBYE\n";
    same(rt, painter.0.bytes(), painted, "the painter");
    same(rt, planner.0.bytes(), asked, "the planner");
    let counts = told(alloc, port, "SERVED 2 2\n")?;
    same(rt, served.0.bytes(), counts.as_bytes(), "the server");
    same(rt, (painter.1, planner.1, served.1), (0, 0, 0), "statuses");
    Ok(())
}

/// Sends bytes and drops the connection.
fn break_off<R: Net<Listener = TcpListener, Stream = TcpStream>>(rt: &R, port: u16, bytes: &[u8]) {
    if let Ok(mut stream) = TcpStream::connect(rt, local(port)) {
        let _ = stream.write_all(bytes);
    }
}

#[test]
fn a_broken_connection_counts(rt: HostRuntime) -> Result<(), Fail> {
    let alloc = rt.alloc();
    let map = room(alloc)?;
    let place = listen(&rt, 5)?;
    let port = place.port();
    let options = two_workers(5);
    let (served, asked) = thread::join(
        &rt,
        || {
            let mut writer = MemorySink::new(alloc);
            let status = serve_run(&rt, alloc, place, map, options.setting(), &mut writer);
            (writer, status)
        },
        || {
            break_off(&rt, port, b"");
            break_off(&rt, port, b"PIN\nUNP");
            break_off(&rt, port, b"STAMP 0 0 11\nP1\n2 2\n100");
            break_off(&rt, port, b"PAINT 0 0 3 2\n");
            ask_at(
                &rt,
                alloc,
                port,
                b"PIN\nAT city 2 1\nDUMP\nCOLLECT\nNO\nQUIT\n",
            )
        },
    );
    assert!(rt;
        asked
            .0
            .bytes()
            .starts_with(b"OK 0\nOK 3 0 0\nOK 15\nP1\n3 2\n100\n000\nOK ")
    );
    assert!(rt;
        asked
            .0
            .bytes()
            .ends_with(b" 0 0\nERR 11 UnknownCommand\nBYE\n")
    );
    same(
        &rt,
        served.0.bytes(),
        told(alloc, port, "SERVED 5 2\n")?.as_bytes(),
        "bytes",
    );
    assert!(rt; asked.1 == 0 && served.1 == 0);
    Ok(())
}

#[test]
fn no_server_is_told(rt: HostRuntime) -> Result<(), Fail> {
    let alloc = rt.alloc();
    let listener = TcpListener::bind(&rt, local(0))?;
    let port = listener.local_addr()?.port();
    drop(listener);
    let mut reader = MemorySource::new(b"PIN\n");
    let mut writer = MemorySink::new(alloc);
    let status = ask(&rt, alloc, port, &mut reader, &mut writer, &mut Deaf);
    same(&rt, status, 1, "status");
    same(&rt, writer.bytes(), b"FAULT net\n".as_slice(), "bytes");
    Ok(())
}
