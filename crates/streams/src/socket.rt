//! A TCP connection as a stream. Contracts don't see its bytes: only tests cover what becomes of
//! them.

ghost use Rattle.std.specs.Prelude.{◌≡◌, ◌+◌, ◌≤◌, length, IfOk, IfSome, None};
ghost use Rattle.metric.specs.Stream.{CanFail, Counts, StopsAt};

use memchr::memchr;
use metric::{NoMemory, ReadFault, Refusal, Sink, Source, Stream, WriteFault, buffered_reader};
use std::alloc::Global;
use std::io;
use std::io::{BufRead, BufReader, ErrorKind, Read, Write};
use std::marker::Model;
use std::net::{Ipv4Addr, Shutdown, SocketAddr, SocketAddrV4, TcpStream};
use std::time::Duration;

/// The most bytes read ahead, and the most bytes of replies gathered before they are sent.
const ROOM: usize = 65536;

/// How long a closing connection waits for the next bytes of its peer, in milliseconds.
const PATIENCE: u64 = 100;

/// The most bytes of one read of a closing connection.
const LAST_ROOM: usize = 4096;

/// The most reads of a closing connection: 32 MiB in all.
const LAST_READS: u32 = 8192;

/// A port of this machine, which no other machine can reach.
pub fn local(port: u16) -> SocketAddr {
    SocketAddr::V4(SocketAddrV4::new(Ipv4Addr::LOCALHOST, port))
}

/// What a stream reads from and writes to: a connection, or none until there is memory for its
/// buffers.
#[derive(Drop)]
struct Connection(Option<TcpStream>);

impl Read for Connection {
    fn read(&mut self, bytes: &mut [u8]) -> io::Result<usize> {
        match &mut self.0 {
            Some(stream) => stream.read(bytes),
            None => Ok(0),
        }
    }
}

impl Connection {
    /// Sends all bytes.
    fn write_all(&mut self, bytes: &[u8]) -> Result<(), WriteFault> {
        match &mut self.0 {
            Some(stream) => stream.write_all(bytes).or(Err(WriteFault)),
            None => Err(WriteFault),
        }
    }
}

/// Why a connection isn't a stream.
#[derive(Drop)]
pub enum NoSocket {
    /// It is broken.
    Broken,
    /// There is no memory for its buffers.
    Memory(TcpStream, NoMemory),
}

impl NoSocket {
    /// Tells the peer if memory has run out, and ends the connection.
    pub fn tell(self) {
        if let NoSocket::Memory(mut stream, refused) = self
            && writeln!(stream, "{}", Refusal::from(refused)).is_ok()
        {
            end(&mut stream);
        }
    }
}

/// A connection that is read ahead, and whose replies gather until the next read that could wait,
/// until they are `ROOM` bytes, or until its end.
///
/// A send that fails is a failed call of the stream, even if a read sends before it waits.
/// Contracts see the count of failed calls.
pub struct Socket {
    reader: BufReader<Connection>,
    replies: Vec<u8>,
    failed_reads: u64,
    failed_writes: u64,
}

impl Model for Socket {
    ghost use Rattle.std.specs.Prelude.{ℕ};

    ghost Value = { ℕ × ℕ };

    ghost view = { λ s. (s.failed_reads, s.failed_writes) };
}

impl Socket {
    /// The connection as a stream without a failed call. It sends replies without delay
    /// (TCP_NODELAY).
    pub fn new(alloc: Global, stream: TcpStream) -> Result<Self, NoSocket>
        ensures { IfOk result (λ socket. socket ≡ (0, 0)) }
    {
        if stream.set_nodelay(true).is_err() {
            return Err(NoSocket::Broken);
        }
        let (mut reader, replies) = match buffers(alloc) {
            Ok(buffers) => buffers,
            Err(refused) => return Err(NoSocket::Memory(stream, refused)),
        };
        reader.get_mut().0 = Some(stream);
        Ok(Socket {
            reader,
            replies,
            failed_reads: 0,
            failed_writes: 0,
        })
    }

    /// Sends the gathered replies. If that fails, they are lost.
    fn send(&mut self) -> Result<(), WriteFault>
        ensures { self.new ≡ self.old }
    {
        if self.replies.is_empty() {
            return Ok(());
        }
        let sent = self.reader.get_mut().write_all(self.replies.as_slice());
        self.replies.clear();
        sent
    }

    /// Sends the replies and reads ahead, if nothing is left to take.
    fn ready(&mut self) -> Result<(), ReadFault>
        ensures { self.new ≡ self.old }
    {
        if self.reader.buffer().is_empty() {
            self.send().or(Err(ReadFault))?;
            fill(&mut self.reader)?;
        }
        Ok(())
    }

    /// Takes the next bytes into the front of the block, none after a first `stop` if that is
    /// given. Returns how many, and counts a read that fails.
    fn read_block(&mut self, stop: Option<u8>, block: &mut [u8]) -> Result<usize, ReadFault>
        requires { CanFail self.old.0 }
        ensures counts { Counts self.old.0 result self.new.0 }
        ensures writes { self.new.1 ≡ self.old.1 }
        ensures fits { IfOk result (λ count. count ≤ length block.new) }
        ensures stops { IfOk result (λ count. IfSome stop (λ stop. StopsAt stop count block.new)) }
    {
        if self.ready().is_err() {
            self.failed_reads += 1;
            return Err(ReadFault);
        }
        let held = self.reader.buffer();
        let front = &held[..held.len().min(block.len())];
        let count = match stop {
            Some(stop) => count_until(stop, front),
            None => front.len(),
        };
        block[..count].copy_from_slice(&front[..count]);
        self.reader.consume(count);
        Ok(count)
    }

    /// Gathers a reply, or sends it if it is long.
    fn put(&mut self, bytes: &[u8]) -> Result<(), WriteFault>
        ensures { self.new ≡ self.old }
    {
        if ROOM.saturating_sub(self.replies.len()) < bytes.len() {
            self.send()?;
        }
        if ROOM < bytes.len() {
            return self.reader.get_mut().write_all(bytes);
        }
        self.replies.extend_from_slice(bytes).or(Err(WriteFault))
    }
}

impl Source for Socket {
    ghost rest = { λ _. None };

    ghost failed_reads = { λ s. s.0 };

    ghost written = { λ s. (None, s.1) };

    fn next_byte(&mut self) -> Result<Option<u8>, ReadFault> {
        let mut byte = [0];
        let count = self.next_block(byte.as_mut_slice())?;
        Ok(if count == 0 { None } else { Some(byte[0]) })
    }

    fn next_block(&mut self, block: &mut [u8]) -> Result<usize, ReadFault> {
        self.read_block(None, block)
    }

    fn next_until(&mut self, stop: u8, block: &mut [u8]) -> Result<usize, ReadFault> {
        self.read_block(Some(stop), block)
    }

    fn failed_reads(&self) -> u64 {
        self.failed_reads
    }
}

impl Sink for Socket {
    ghost held = { λ _. None };

    ghost failed_writes = { λ s. s.1 };

    ghost unread = { λ s. (None, s.0) };

    fn write_all(&mut self, bytes: &[u8]) -> Result<(), WriteFault> {
        if self.put(bytes).is_err() {
            self.failed_writes += 1;
            return Err(WriteFault);
        }
        Ok(())
    }

    fn flush(&mut self) -> Result<(), WriteFault> {
        if self.send().is_err() {
            self.failed_writes += 1;
            return Err(WriteFault);
        }
        Ok(())
    }

    fn failed_writes(&self) -> u64 {
        self.failed_writes
    }
}

impl Stream for Socket {
    ghost use Rattle.std.specs.Prelude.{refl};
    ghost use Rattle.metric.specs.Wire.{silent};

    ghost wire = { λ s. silent s.0 s.1 };

    ghost shown = { λ s. refl };

    ghost reading = { λ s. refl };

    ghost writing = { λ s. refl };
}

/// The number of bytes up to and including the first `stop`, or of all bytes if there is none.
fn count_until(stop: u8, bytes: &[u8]) -> usize
    ensures within { result ≤ length bytes.now }
    ensures stops { StopsAt stop result bytes.now }
{
    match memchr(stop, bytes) {
        Some(place) => place + 1,
        None => bytes.len(),
    }
}

/// Reads ahead if nothing is left to take. Retries a read that a signal interrupts.
fn fill(reader: &mut BufReader<Connection>) -> Result<(), ReadFault> {
    for _ in 0..u64::MAX {
        match reader.fill_buf() {
            Ok(_) => return Ok(()),
            Err(fault) if fault.kind() == ErrorKind::Interrupted => {}
            Err(_) => break,
        }
    }
    Err(ReadFault)
}

/// The buffers of a connection, without it.
fn buffers(alloc: Global) -> Result<(BufReader<Connection>, Vec<u8>), NoMemory> {
    let replies = Vec::with_capacity(alloc, ROOM)?;
    let reader = buffered_reader(alloc, ROOM, Connection(None))?;
    Ok((reader, replies))
}

/// Sends the gathered replies and ends the connection so that its peer gets the last reply.
impl Drop for Socket {
    fn drop(mut self) {
        let sent = self.send();
        let Socket {
            reader,
            replies: _,
            failed_reads: _,
            failed_writes: _,
        } = self;
        if sent.is_ok()
            && let Connection(Some(mut stream)) = reader.into_inner()
        {
            end(&mut stream);
        }
    }
}

/// Ends the writing side, then reads and drops what the peer still sends: closing with unread bytes
/// would cost the peer the last reply. Bounded in bytes and in time.
fn end(stream: &mut TcpStream) {
    let patience = Some(Duration::from_millis(PATIENCE));
    if stream.shutdown(Shutdown::Write).is_err() || stream.set_read_timeout(patience).is_err() {
        return;
    }
    let mut bytes = [0; LAST_ROOM];
    for _ in 0..LAST_READS {
        if let Ok(0) | Err(_) = stream.read(bytes.as_mut_slice()) {
            return;
        }
    }
}
