//! Queries over served streams: a fresh pin answers, and answers again, as the map's bitmap does.

use super::{serve, setting};
use crate::compare::{holds, same};
use crate::opened::{blank, spotted};
use map_core::Setting;
use metric::Edge;
use proto::{Answer, Bordered, End, Line, Text, answer_of, parse_line, reply_text};
use std::alloc::Global;
use std::test::Fail;

/// Queries of a map of 130 by 70, of near and far cells; some are refused.
const QUERIES: [&[u8]; 24] = [
    b"AT euclid2 0 0",
    b"AT city 129 69",
    b"AT chess 64 64",
    b"AT euclid2 63 63",
    b"AT city 130 0",
    b"AT chess 65535 65536",
    b"RECT euclid2 0 0 130 70",
    b"RECT city 100 2 101 70",
    b"RECT chess 63 63 65 65",
    b"RECT euclid2 129 0 131 1",
    b"RECT city 5 5 5 6",
    b"RECT chess 0 69 130 70",
    b"PATH euclid2 0 0 129 0 129 69",
    b"PATH city 64 64",
    b"PATH chess 0 0 1 1",
    b"PATH euclid2 0 0 0 70",
    b"PATH city",
    b"PATH chess 127 3 127 66 2 66",
    b"CLEAROF euclid2 1 0 0 129 0 129 69",
    b"CLEAROF city 30 64 64 64 0",
    b"CLEAROF chess 4294967295 3 3",
    b"CLEAROF euclid2 900 129 69 0 69",
    b"CLEAROF city 5 0 0 7",
    b"CLEAROF chess 2 127 3 127 66 2 66",
];

/// One obstacle per how many cells, and the map's edge.
const MAPS: [(u32, Edge); 8] = [
    (0, Edge::Open),
    (9, Edge::Open),
    (300, Edge::Open),
    (4_000, Edge::Open),
    (0, Edge::Wall),
    (9, Edge::Wall),
    (300, Edge::Wall),
    (4_000, Edge::Wall),
];

/// Appends the line of a query to what is read, and its answer on a map to what is written.
fn add_query(
    alloc: Global,
    map: Bordered<'_>,
    line: &[u8],
    text: &mut Text,
    read: &mut Vec<u8>,
    written: &mut Vec<u8>,
) -> Result<(), Fail> {
    read.extend_from_slice(line)?;
    read.extend_from_slice(b"\n")?;
    let mut map = map;
    let answer = match parse_line(alloc, line) {
        Ok(Line::Query(query)) => answer_of(alloc, &mut map, &query),
        Ok(_) => return Err(Fail::from("another line")),
        Err(refusal) => Answer::Refused(refusal),
    };
    reply_text(&answer, text);
    Ok(written.extend_from_slice(text.as_bytes())?)
}

/// A client's lines and their answers: each query twice by a fresh pin, and then all of them by one
/// pin.
fn lines_of(
    alloc: Global,
    map: Bordered<'_>,
    read: &mut Vec<u8>,
    written: &mut Vec<u8>,
) -> Result<(), Fail> {
    let mut text = Text::new(alloc)?;
    for query in &QUERIES {
        read.extend_from_slice(b"PIN\n")?;
        written.extend_from_slice(b"OK 0\n")?;
        for _ in 0..2 {
            add_query(alloc, map, query, &mut text, read, written)?;
        }
        read.extend_from_slice(b"UNPIN\n")?;
        written.extend_from_slice(b"OK 0\n")?;
    }
    read.extend_from_slice(b"PIN\n")?;
    written.extend_from_slice(b"OK 0\n")?;
    for query in &QUERIES {
        add_query(alloc, map, query, &mut text, read, written)?;
    }
    Ok(())
}

#[test]
fn streams_ask_fresh_pins(rt: HostRuntime) -> Result<(), Fail> {
    for (rare, edge) in MAPS {
        let bitmap = spotted(&rt, rt.alloc(), ([130, 70], rare))?;
        let (mut read, mut written) = (Vec::new(rt.alloc()), Vec::new(rt.alloc()));
        let map = Bordered {
            bitmap: &bitmap,
            edge,
        };
        lines_of(rt.alloc(), map, &mut read, &mut written)?;
        let setting = Setting {
            edge,
            ..setting(8, 1)
        };
        let blank = blank(&rt, rt.alloc(), setting, ([130, 70], rare))?;
        let run = serve(&rt, rt.alloc(), blank, (&read, None, None))?;
        holds(&rt, run.written == written, ("another text", rare, edge));
        same(&rt, run.end, End::EndOfInput, (rare, edge));
    }
    Ok(())
}
