//! Says on standard error which commands a server refused.

use ask::Hearer;
use command_line::Typed;
use std::str;
use words::split_line;

/// The most bytes of a line that are said.
const MOST_SAID: usize = 60;

/// Says which commands were refused, by their number and line, unless a person types them, who sees
/// both.
#[derive(Drop)]
pub struct Refused<'a, R> {
    rt: &'a R,
    commands: u64,
}

impl<'a, R> Refused<'a, R> {
    /// Has heard of no command yet.
    pub fn new(rt: &'a R) -> Self {
        Refused { rt, commands: 0 }
    }
}

impl<'a, R: Eprint + Typed> Hearer for Refused<'a, R> {
    fn heard(&mut self, request: &[u8], reply: &[u8]) {
        self.commands = self.commands.saturating_add(1);
        if !reply.starts_with(b"ERR ".as_slice()) || self.rt.is_typed() {
            return;
        }
        let _ = eprintln!(self.rt;
            "clearmap: command {}, {}: {}",
            self.commands,
            said(request),
            said(reply)
        );
    }
}

/// The first line of some bytes, or what is said of one that isn't text; of a long one the front.
fn said(bytes: &[u8]) -> &str {
    let line = match split_line(bytes) {
        Some((line, _)) => line,
        None => bytes,
    };
    let front = line.get(..MOST_SAID).unwrap_or(line);
    str::from_utf8(front).unwrap_or("which isn't text")
}
