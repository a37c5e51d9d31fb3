//! Lines on standard error for mistakes that persons make. They add to what standard output says,
//! and no clause speaks of them.

use crate::arguments::{Fault, Options};
use clap::error::ErrorKind;
use std::io::IsTerminal;
use std::rt::HostRuntime;

/// A process whose standard input may be a terminal.
pub trait Typed {
    /// Whether a person types standard input.
    fn is_typed(&self) -> bool;
}

impl Typed for HostRuntime {
    fn is_typed(&self) -> bool {
        self.stdin().is_terminal()
    }
}

/// What the words ask for, as far as a hint needs it.
#[derive(Clone, Copy)]
pub enum Asked {
    /// A table of distances.
    Table,
    /// The answer to a query line.
    Query,
    /// A server on this port.
    Serve(u16),
    /// Replies of the server on this port.
    Ask(u16),
    /// Nothing that can be run, since a word is one too many.
    Excess,
    /// A command that the program doesn't have.
    Unknown,
    /// Something else, or nothing that can be run.
    Other,
}

impl Asked {
    /// What these words ask for.
    pub fn by(said: &Result<Options<'_>, Fault<'_>>) -> Self {
        match said {
            Ok(Options::Dist(options)) if options.query.is_some() => Asked::Query,
            Ok(Options::Dist(_)) => Asked::Table,
            Ok(Options::Serve(options)) => Asked::Serve(options.port),
            Ok(Options::Ask(options)) => Asked::Ask(options.port),
            Err(Fault::Words(fault)) => Asked::in_vain(fault.kind()),
            _ => Asked::Other,
        }
    }

    /// What words ask for that have this mistake.
    fn in_vain(mistake: ErrorKind) -> Self {
        match mistake {
            ErrorKind::UnknownArgument => Asked::Excess,
            ErrorKind::InvalidSubcommand => Asked::Unknown,
            _ => Asked::Other,
        }
    }
}

/// Says what is waited for, if a map is to be read from a terminal.
pub fn tell_waiting(rt: &(impl Typed + Eprint), asked: Asked) {
    let command = match asked {
        Asked::Table | Asked::Query => "dist",
        Asked::Serve(_) => "serve",
        _ => return,
    };
    if rt.is_typed() {
        let _ = eprintln!(rt;
            "clearmap: waiting for a PBM image on standard input; \
            to read a file: clearmap {} < map.pbm",
            command
        );
    }
}

/// Says how a run is cured whose output starts with these bytes.
pub fn tell_cure(rt: &impl Eprint, asked: Asked, start: &[u8]) {
    let _ = match asked {
        Asked::Table | Asked::Query | Asked::Serve(_)
            if start.starts_with(b"ERR 15 BadImage BadMagic\n".as_slice()) => {
            eprintln!(rt;
                "clearmap: standard input isn't a PBM image, which begins with P1 or P4; \
                convert it: clearmap-ros pbm map.yaml, or by netpbm: \
                anytopnm map.png | ppmtopgm | pgmtopbm -threshold -value 0.9"
            )
        }
        Asked::Query
            if start.starts_with(b"ERR 12 ".as_slice())
                || start.starts_with(b"ERR 11 ".as_slice()) => {
            eprintln!(rt;
                "clearmap: a query is AT METRIC X Y, RECT METRIC X0 Y0 X1 Y1, \
                PATH METRIC X Y .. or CLEAROF METRIC D X Y .., \
                where METRIC is euclid2, city or chess"
            )
        }
        Asked::Serve(_) if start.starts_with(b"ERR 16 ".as_slice()) => {
            eprintln!(rt;
                "clearmap: --blocks is from the map's tiles of 64 by 64 cells to 16384, \
                --versions from 2 to 64, --log from 1 to 1048576"
            )
        }
        Asked::Serve(port) if start.starts_with(b"FAULT net\n".as_slice()) => {
            eprintln!(rt;
                "clearmap: can't listen on port {} of this machine: it is taken, \
                or below 1024 and not yours to use",
                port
            )
        }
        Asked::Ask(port) if start.starts_with(b"FAULT net\n".as_slice()) => {
            eprintln!(rt;
                "clearmap: no server answers on port {} of this machine",
                port
            )
        }
        Asked::Excess => {
            eprintln!(rt;
                "clearmap: a map is read from standard input: clearmap dist < map.pbm; \
                a query is one word, in quotes: --query 'AT euclid2 3 4'"
            )
        }
        Asked::Unknown => {
            eprintln!(rt;
                "clearmap: clearmap-backup, clearmap-gateway, clearmap-publish, clearmap-ros, \
                clearmap-ros-node and clearmap-view are programs of their own"
            )
        }
        _ => return,
    };
}
