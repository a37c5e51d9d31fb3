//! The program's commands and their flags, in the order of the help.

/// What a flag takes.
#[derive(Clone, Copy)]
pub enum Takes<'a> {
    /// No value.
    Nothing,
    /// A value, which the help calls so.
    Value(&'a str),
    /// A value, which has to be given.
    Required(&'a str),
    /// A value, which the help calls so, and its default.
    Default(&'a str, &'a str),
}

/// A flag of a command.
#[derive(Clone, Copy)]
pub struct Flag<'a> {
    pub name: &'a str,
    pub takes: Takes<'a>,
    pub help: &'a str,
}

/// A command of the program.
#[derive(Clone, Copy)]
pub struct Entry<'a> {
    pub name: &'a str,
    pub usage: &'a str,
    pub about: &'a str,
    pub after_help: &'a str,
    pub flags: &'a [Flag<'a>],
}

/// The flag `--edge`.
const EDGE: Flag<'static> = Flag {
    name: "edge",
    takes: Takes::Default("EDGE", "open"),
    help: "What the border is: open, or a wall, of obstacles one cell outside",
};

/// The commands.
pub const COMMANDS: [Entry<'static>; 4] = [
    Entry {
        name: "dist",
        usage: "clearmap dist [OPTIONS] < IMAGE",
        about: "Print each cell's distance to the nearest obstacle of the image on standard input",
        after_help: "Standard input is an image, PBM plain (P1) or raw (P4), 1 to 4096 pixels a side; a black pixel is an\nobstacle. Each line of the answer is a row of distances, and '-' stands where there is no obstacle.\nStatus 1: a fault of the image or the line is one line in its place, as 'ERR 15 BadImage BadMagic', or a\nstandard stream failed. Status 2: the command line was refused.\n\nExamples:\n  clearmap dist --metric chess < map.pbm\n  clearmap dist --query 'AT euclid2 3 4' < map.pbm\n  clearmap dist --edge wall --nearest < map.pbm\n  clearmap dist --workers 4 < map.pbm",
        flags: &[
            Flag {
                name: "metric",
                takes: Takes::Default("METRIC", "euclid2"),
                help: "The distance, in cells: euclid2 (straight, squared), city or chess",
            },
            Flag {
                name: "nearest",
                takes: Takes::Nothing,
                help: "Print each entry as distance/x/y, with its nearest obstacle",
            },
            Flag {
                name: "query",
                takes: Takes::Value("LINE"),
                help: "Print only the answer to LINE, as 'AT city 3 4'; there are AT, RECT, PATH and CLEAROF",
            },
            Flag {
                name: "workers",
                takes: Takes::Default("NUMBER", "1"),
                help: "Workers that share the rows of 4194304 cells or more, 1 to 16",
            },
            EDGE,
        ],
    },
    Entry {
        name: "serve",
        usage: "clearmap serve [OPTIONS] --connections <NUMBER> < IMAGE",
        about: "Serve the map on standard input to connections on 127.0.0.1, line by line",
        after_help: "Standard input is an image, PBM plain (P1) or raw (P4), 1 to 4096 pixels a side; a black pixel is an\nobstacle. The line 'LISTENING <port>' comes once connections are accepted, and 'SERVED <connections>\n<log length>' at the end. A fault is one line on standard output in place of these, with status 1:\n'ERR 15 ..' of the image, 'FAULT net' of the port, 'ERR 16 ..' of a setting, or 'ERR 5 Memory'.\nA connection that fails counts as served.\n\nExamples:\n  clearmap serve --connections 2 < map.pbm\n  clearmap serve --connections 1000 --port 7400 --workers 8 --versions 32 < map.pbm",
        flags: &[
            Flag {
                name: "connections",
                takes: Takes::Required("NUMBER"),
                help: "How many connections are served before the run ends, 1 to 1000000",
            },
            Flag {
                name: "port",
                takes: Takes::Default("NUMBER", "0"),
                help: "The port to listen on; at 0 the system picks one",
            },
            Flag {
                name: "blocks",
                takes: Takes::Default("NUMBER", "16384"),
                help: "How many blocks of 64 by 64 cells the kept versions and the draft may use",
            },
            Flag {
                name: "versions",
                takes: Takes::Default("NUMBER", "8"),
                help: "How many versions are kept at most, until COLLECT frees those without a pin",
            },
            Flag {
                name: "log",
                takes: Takes::Default("NUMBER", "100000"),
                help: "How many commands are accepted between two checkpoints, at most",
            },
            Flag {
                name: "workers",
                takes: Takes::Default("NUMBER", "4"),
                help: "How many connections are served at once, 1 to 16",
            },
            EDGE,
        ],
    },
    Entry {
        name: "ask",
        usage: "clearmap ask --port <NUMBER> < LINES",
        about: "Send the lines on standard input to a server, and print each reply",
        after_help: "After a line 'STAMP x y n' come the n bytes of its image. Each line is answered before the next is\nsent. The run ends after BYE, or at the end of standard input; a last line without a line feed isn't\nsent. Without a server, or where it ends before a reply that is due, 'FAULT net' is printed, with\nstatus 1. Where all workers of the server are taken, it waits until one is free.\n\nExamples:\n  printf 'PIN\\nAT euclid2 3 4\\nQUIT\\n' | clearmap ask --port 7400\n  printf 'PAINT 0 0 8 8\\nPUBLISH\\nCOLLECT\\nQUIT\\n' | clearmap ask --port 7400",
        flags: &[Flag {
            name: "port",
            takes: Takes::Required("NUMBER"),
            help: "The server's port, 1 to 65535",
        }],
    },
    Entry {
        name: "steps",
        usage: "clearmap steps < EVENTS",
        about: "Do the events on standard input in a map with numbered versions, one word at a time",
        after_help: "The first line is OPEN and six numbers: the columns and rows of a blank map, its blocks,\nversions, sessions and the length of its log. Each line after it is one of these, and gets\none answer line:\n  A r      reader r announces the newest version that it has seen, and those after it\n  L r      it loads the newest version, and holds it if it has announced\n  M r k    it looks up the block of position k\n  T r b i  it looks at row i of block b\n  E r      it announces the version that it holds, and no other\n  V r      it leaves\n  C LINE   the keeper gets a command: PAINT x0 y0 x1 y1, CLEAR x0 y0 x1 y1, PUBLISH, REVERT, COLLECT,\n           CHECKPOINT\n  K n      the keeper does the next n steps of its command\n\nExample:\n  printf 'OPEN 64 64 3 2 1 10\\nC PAINT 0 0 1 1\\nK 1\\n' | clearmap steps",
        flags: &[],
    },
];
