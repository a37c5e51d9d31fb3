//! Runs the process's words on its standard streams.

ghost use Rattle.metric.specs.Stream.{CanFail};

use crate::refused::Refused;
use crate::serve::serve;
use ask::net::ask;
use command_line::{
    Asked, Fault, Options, Typed, options, refuse, tell_cure, tell_fault, tell_waiting, texts_of,
    words_of,
};
use engines::run_said;
use metric::{NoMemory, Source};
use std::fs::{File, Files};
use std::io;
use std::io::Write;
use std::net::{Net, TcpListener, TcpStream};
use std::rt::Env;
use std::sync::Wait;
use std::thread::Threads;
use std::time::Clock;
use streams::{DONE, ErrorSink, Held, Noted, REFUSED, ReaderSource, WriterSink};

/// Runs what the process's words name, on the standard streams. Returns the exit status. Standard
/// streams that are closed stay closed: nothing that is opened takes their place.
///
/// A command reads standard input and writes standard output. If one of them is closed, it does
/// nothing, and the status is 1.
pub fn run_process<R>(rt: &R) -> u8
where
    R: Env
        + Files<File = File>
        + Input
        + Print
        + Eprint
        + AllocGlobal
        + Clock
        + Net<Listener = TcpListener, Stream = TcpStream>
        + Wait
        + Threads
        + Typed
        + Sync,
{
    let held = Held::open(rt);
    match words_of(rt) {
        Ok(words) => match run_words(rt, words.as_slice(), &held) {
            Ok(status) => status,
            Err(refused) => refuse(rt, refused),
        },
        Err(fault) => tell_fault(rt, &fault),
    }
}

/// Runs what these words name. Returns the exit status.
fn run_words<R>(rt: &R, words: &[String], held: &Held) -> Result<u8, NoMemory>
where
    R: Input
        + Print
        + Eprint
        + AllocGlobal
        + Clock
        + Net<Listener = TcpListener, Stream = TcpStream>
        + Wait
        + Threads
        + Typed
        + Sync,
{
    let alloc = rt.alloc();
    let texts = texts_of(alloc, words)?;
    let mut reader = ReaderSource::new(alloc, rt.reader())?;
    let mut writer = Noted::new(WriterSink::new(alloc, io::writer(rt))?);
    let said = options(alloc, texts.as_slice());
    Ok(run_hinted(rt, held, said, &mut reader, &mut writer))
}

/// Runs what words have said, if the streams that it needs are open, or reports why they are
/// refused, with hints to who has typed them. Returns the exit status.
fn run_hinted<R, S: Source, W: Write + Drop>(
    rt: &R,
    held: &Held,
    said: Result<Options<'_>, Fault<'_>>,
    reader: &mut S,
    writer: &mut Noted<W>,
) -> u8
where
    R: Eprint
        + AllocGlobal
        + Clock
        + Net<Listener = TcpListener, Stream = TcpStream>
        + Wait
        + Threads
        + Typed
        + Sync,
    requires reader { CanFail (S.failed_reads reader.old) }
    requires writer { CanFail writer.old }
{
    if held.lacks_input_or_output() && said.is_ok() {
        return REFUSED;
    }
    let asked = Asked::by(&said);
    tell_waiting(rt, asked);
    let alloc = rt.alloc();
    let status = match said {
        Ok(Options::Serve(options)) => serve(rt, alloc, &options, reader, writer),
        Ok(Options::Ask(options)) => {
            ask(
                rt,
                alloc,
                options.port,
                reader,
                writer,
                &mut Refused::new(rt),
            )
        }
        said => run_said(rt, alloc, said, reader, writer, &mut ErrorSink::new(rt)),
    };
    if status != DONE {
        tell_cure(rt, asked, writer.start());
    }
    status
}
