//! Worked streams: what is read, and what is written.

use super::{SQUARE, serve, setting};
use crate::compare::{holds, same};
use crate::opened::{Spotted, blank};
use map_core::Setting;
use metric::Edge;
use proto::End;
use std::alloc::Global;
use std::test::Fail;

/// A map, and its edge.
type Map = (Spotted, Edge);

/// A map of 64 by 64 cells without obstacles.
const OPEN: Map = (SQUARE, Edge::Open);

/// A map of 3 by 2 with an obstacle in its first cell.
const CORNER: Map = (([3, 2], 11), Edge::Open);

/// A map of 6 by 4 with an obstacle at `(2, 1)`.
const MIDDLE: Map = (([6, 4], 186), Edge::Open);

/// A map of 5 by 3 without obstacles, with a wall.
const FRAMED: Map = (([5, 3], 0), Edge::Wall);

/// Queries of that map, and its dump, which has only the map.
const BLANK: [(&[u8], &[u8]); 16] = [
    (b"PIN\n", b"OK 0\n"),
    (b"AT euclid2 0 0\n", b"OK 1 -1 0\n"),
    (b"AT euclid2 1 0\n", b"OK 1 1 -1\n"),
    (b"AT euclid2 4 0\n", b"OK 1 4 -1\n"),
    (b"AT euclid2 0 1\n", b"OK 1 -1 1\n"),
    (b"AT euclid2 1 1\n", b"OK 4 -1 1\n"),
    (b"AT euclid2 2 1\n", b"OK 4 2 -1\n"),
    (b"AT euclid2 4 1\n", b"OK 1 5 1\n"),
    (b"AT euclid2 2 2\n", b"OK 1 2 3\n"),
    (b"AT chess 2 1\n", b"OK 2 0 -1\n"),
    (b"AT city 5 1\n", b"ERR 1 OutOfRange\n"),
    (b"RECT city 1 1 4 2\n", b"OK 2 1 1 -1 1\n"),
    (b"PATH chess 2 1 1 1\n", b"OK 2 2 1 0 -1\n"),
    (b"CLEAROF euclid2 4 2 1\n", b"OK CLEAR\n"),
    (b"CLEAROF euclid2 5 2 1\n", b"OK 4 2 1 2 -1\n"),
    (b"DUMP\n", b"OK 25\nP1\n5 3\n00000\n00000\n00000\n"),
];

/// A pin queried before and after a publish, and one of the published version: its obstacle ties
/// with the frame, or is nearer.
const PUBLISHED: [(&[u8], &[u8]); 12] = [
    (b"PIN\n", b"OK 0\n"),
    (b"AT euclid2 2 1\n", b"OK 4 2 -1\n"),
    (b"PAINT 2 1 3 2\n", b"OK 1 1\n"),
    (b"PUBLISH\n", b"OK 2 1\n"),
    (b"AT euclid2 2 1\n", b"OK 4 2 -1\n"),
    (b"UNPIN\n", b"OK 0\n"),
    (b"PIN\n", b"OK 1\n"),
    (b"AT euclid2 2 1\n", b"OK 0 2 1\n"),
    (b"AT euclid2 1 1\n", b"OK 1 2 1\n"),
    (b"AT city 2 0\n", b"OK 1 2 -1\n"),
    (b"AT city 3 1\n", b"OK 1 2 1\n"),
    (b"AT city 3 0\n", b"OK 1 3 -1\n"),
];

/// As many letters as the longest line has bytes.
const LETTERS: [u8; 16_384] = [b'A'; 16_384];

/// A stream: its name, its map, what is read and what is written for it; its end, how many bytes
/// are left, and how many commands were accepted.
type Worked = (
    &'static str,
    Map,
    &'static [(&'static [u8], &'static [u8])],
    (End, usize, u32),
);

const WORKED: [Worked; 26] = [
    (
        "a pin and its end",
        OPEN,
        &[(
            b"PIN\nPIN\nAT euclid2 3 4\nUNPIN\nAT city 0 0\nQUIT\nPIN\n",
            b"OK 0\nERR 7 AlreadyPinned\nNONE\nOK 0\nERR 6 NotPinned\nBYE\n",
        )],
        (End::Quit, 4, 0),
    ),
    (
        "a stamp",
        OPEN,
        &[(
            b"STAMP 2 1 11\nP1\n2 2\n1001PUBLISH\nPIN\nAT chess 0 0\nQUIT\n",
            b"OK 1 2\nOK 2 1\nOK 1\nOK 2 2 1\nBYE\n",
        )],
        (End::Quit, 0, 2),
    ),
    (
        "a dump",
        CORNER,
        &[(b"PIN\nDUMP\n", b"OK 0\nOK 15\nP1\n3 2\n100\n000\n")],
        (End::EndOfInput, 0, 0),
    ),
    (
        "every command with a pin",
        OPEN,
        &[(
            b"PIN\nPAINT 0 0 1 1\nSTAMP 2 1 11\nP1\n2 2\n1001PUBLISH\nREVERT\nCOLLECT\nRECT euclid2 0 0 1 1\nPATH city 0 0\nCLEAROF city 1 0 0\nQUIT\n",
            b"OK 0\nOK 1 1\nOK 2 2\nOK 3 1\nOK 4\nOK 5 0 0\nNONE\nNONE\nOK CLEAR\nBYE\n",
        )],
        (End::Quit, 0, 5),
    ),
    (
        "an end within a line",
        OPEN,
        &[(b"PIN\nUNP", b"OK 0\n")],
        (End::EndOfInput, 0, 0),
    ),
    (
        "an end within a stamp",
        OPEN,
        &[(b"STAMP 2 1 11\nP1\n2 2\n100", b"")],
        (End::EndOfInput, 0, 0),
    ),
    (
        "an end before the bytes of a stamp",
        OPEN,
        &[(b"STAMP 2 1 11\n", b"")],
        (End::EndOfInput, 0, 0),
    ),
    (
        "an end after the first of them",
        OPEN,
        &[(b"STAMP 2 1 11\nP", b"")],
        (End::EndOfInput, 0, 0),
    ),
    (
        "too many bytes",
        OPEN,
        &[(b"STAMP 0 0 17100001\nQUIT\n", b"ERR 14 TooMuchData\n")],
        (End::TooMuchData, 5, 0),
    ),
    (
        "queries on a drawn map",
        MIDDLE,
        &[(
            b"PIN\nPATH city 0 0 5 0 5 3\nPATH city 0 0 1 1\nPATH city\nRECT euclid2 0 2 6 4\nRECT euclid2 0 0 7 4\nCLEAROF city 2 0 0 5 0 5 3\nAT chess 6 0\nQUIT\n",
            b"OK 0\nOK 1 2 0 2 1\nERR 9 Crooked 1\nERR 8 BadPath\nOK 1 2 2 2 1\nERR 1 OutOfRange\nOK 1 2 0 2 1\nERR 1 OutOfRange\nBYE\n",
        )],
        (End::Quit, 0, 0),
    ),
    (
        "queries without a pin",
        OPEN,
        &[(
            b"PATH city\nAT euclid2 4096 0\nAT euclid 0 0\nUNPIN\nDUMP\nRECT city 0 0 1 1\nCLEAROF city 1\n",
            b"ERR 6 NotPinned\nERR 6 NotPinned\nERR 12 BadArguments\nERR 6 NotPinned\nERR 6 NotPinned\nERR 6 NotPinned\nERR 6 NotPinned\n",
        )],
        (End::EndOfInput, 0, 0),
    ),
    (
        "stamps that are refused",
        OPEN,
        &[(
            b"STAMP 0 0 3\nP9\nSTAMP 63 63 11\nP1\n2 2\n1001STAMP 0 0 0\nSTAMP 0 0\nSTAMP 4096 0 7\nP1 1 11REVERT\n",
            b"ERR 15 BadImage BadMagic\nERR 1 OutOfRange\nERR 15 BadImage Truncated\nERR 12 BadArguments\nERR 15 BadImage Truncated\nOK 1\n",
        )],
        (End::EndOfInput, 0, 1),
    ),
    (
        "lines with a CR",
        OPEN,
        &[(
            b"PIN\r\nUNPIN\r\nPIN\r\r\nQUIT\r\n",
            b"OK 0\nOK 0\nERR 11 UnknownCommand\nBYE\n",
        )],
        (End::Quit, 0, 0),
    ),
    (
        "too many bytes, and nothing after them",
        OPEN,
        &[(b"STAMP 0 0 17100001\n", b"ERR 14 TooMuchData\n")],
        (End::TooMuchData, 0, 0),
    ),
    (
        "a pin that later versions don't move",
        OPEN,
        &[(
            b"PIN\nPAINT 0 0 1 1\nPUBLISH\nAT city 0 0\nUNPIN\nPIN\nAT city 3 4\n",
            b"OK 0\nOK 1 1\nOK 2 1\nNONE\nOK 0\nOK 1\nOK 7 0 0\n",
        )],
        (End::EndOfInput, 0, 2),
    ),
    (
        "a pin that a checkpoint doesn't move",
        OPEN,
        &[(
            b"PAINT 0 0 1 1\nPUBLISH\nPIN\nAT city 3 4\nCHECKPOINT\nAT city 3 4\nCHECKPOINT\nQUIT\n",
            b"OK 1 1\nOK 2 1\nOK 1\nOK 7 0 0\nOK 3\nOK 7 0 0\nOK 4\nBYE\n",
        )],
        (End::Quit, 0, 4),
    ),
    (
        "the longest line",
        OPEN,
        &[
            (&LETTERS, b""),
            (b"\nQUIT\n", b"ERR 11 UnknownCommand\nBYE\n"),
        ],
        (End::Quit, 0, 0),
    ),
    (
        "a blank before the word",
        OPEN,
        &[(b" PIN\nQUIT\n", b"ERR 11 UnknownCommand\nBYE\n")],
        (End::Quit, 0, 0),
    ),
    (
        "small letters",
        OPEN,
        &[(b"paint 0 0 1 1\nQUIT\n", b"ERR 11 UnknownCommand\nBYE\n")],
        (End::Quit, 0, 0),
    ),
    (
        "an argument too many",
        OPEN,
        &[(b"PIN 1\nQUIT\n", b"ERR 12 BadArguments\nBYE\n")],
        (End::Quit, 0, 0),
    ),
    (
        "two blanks",
        OPEN,
        &[(b"PAINT 0 0  1 1\nQUIT\n", b"ERR 12 BadArguments\nBYE\n")],
        (End::Quit, 0, 0),
    ),
    (
        "eleven digits",
        OPEN,
        &[(
            b"PAINT 00000000000 0 1 1\nQUIT\n",
            b"ERR 12 BadArguments\nBYE\n",
        )],
        (End::Quit, 0, 0),
    ),
    (
        "a number of over 32 bits",
        OPEN,
        &[(
            b"PAINT 4294967296 0 1 1\nQUIT\n",
            b"ERR 12 BadArguments\nBYE\n",
        )],
        (End::Quit, 0, 0),
    ),
    (
        "a line too long",
        OPEN,
        &[(&LETTERS, b""), (b"A\nQUIT\n", b"ERR 13 LineTooLong\n")],
        (End::LineTooLong, 6, 0),
    ),
    (
        "a blank map in its frame",
        FRAMED,
        &BLANK,
        (End::EndOfInput, 0, 0),
    ),
    (
        "a pin sees the frame before and after a publish",
        FRAMED,
        &PUBLISHED,
        (End::EndOfInput, 0, 2),
    ),
];

/// All that is read, and all that is written for it.
fn joined(alloc: Global, lines: &[(&[u8], &[u8])]) -> Result<(Vec<u8>, Vec<u8>), Fail> {
    let (mut read, mut written) = (Vec::new(alloc), Vec::new(alloc));
    for (line, reply) in lines {
        read.extend_from_slice(line)?;
        written.extend_from_slice(reply)?;
    }
    Ok((read, written))
}

#[test]
fn worked_streams(rt: HostRuntime) -> Result<(), Fail> {
    for (name, (map, edge), lines, (end, left, entries)) in WORKED {
        let (read, written) = joined(rt.alloc(), lines)?;
        let setting = Setting {
            edge,
            ..setting(2, 1)
        };
        let blank = blank(&rt, rt.alloc(), setting, map)?;
        let run = serve(&rt, rt.alloc(), blank, (&read, None, None))?;
        holds(&rt, run.written == written, ("another text", name));
        same(&rt, run.end, end, name);
        same(&rt, (run.left, run.entries), (left, entries), name);
    }
    Ok(())
}
