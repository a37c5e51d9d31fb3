//! The connections of a listener, one after another.

ghost use Rattle.std.specs.Prelude.{◌≡◌, IfSome};

use crate::server::pause::Pause;
use crate::workers::Streams;
use std::alloc::Global;
use std::net::{TcpListener, TcpStream};
use std::time::Clock;
use streams::Socket;

/// The next connections of a listener, up to a number. One that can't be accepted counts too, and a
/// wait follows it.
#[derive(Drop)]
pub struct Accepted<'a, C> {
    alloc: Global,
    clock: &'a C,
    listener: TcpListener,
    left: u32,
    pause: Pause,
}

impl<'a, C: Clock> Accepted<'a, C> {
    /// This many connections of this listener, with the clock for its waits.
    pub fn of(alloc: Global, clock: &'a C, listener: TcpListener, connections: u32) -> Self {
        Accepted {
            alloc,
            clock,
            listener,
            left: connections,
            pause: Pause::new(),
        }
    }

    /// The next connection; none, after a wait, if it can't be accepted.
    fn accept(&mut self) -> Option<TcpStream>
        ensures { self.new.left ≡ self.old.left }
    {
        match self.listener.accept() {
            Ok((connection, _)) => {
                self.pause.reset();
                Some(connection)
            }
            Err(_) => {
                self.pause.wait(self.clock);
                None
            }
        }
    }
}

/// The connection as a stream. Reports to one for which there is no memory, and ends it.
fn stream_of(alloc: Global, connection: TcpStream) -> Option<Socket>
    ensures { IfSome result (λ socket. socket ≡ (0, 0)) }
{
    match Socket::new(alloc, connection) {
        Ok(socket) => Some(socket),
        Err(broken) => {
            broken.tell();
            None
        }
    }
}

impl<C: Clock> Streams for Accepted<'_, C> {
    type S = Socket;

    ghost fresh = { λ socket. socket ≡ (0, 0) };

    fn next(&mut self) -> Option<Socket> {
        'connections: while 0 < self.left {
            self.left -= 1;
            if let Some(connection) = self.accept()
                && let Some(socket) = stream_of(self.alloc, connection)
            {
                return Some(socket);
            }
        }
        None
    }
}
