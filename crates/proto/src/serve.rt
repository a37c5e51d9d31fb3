//! Serves streams: answers each line, with the bytes that it counts.

ghost use Rattle.std.specs.Prelude.{◌≡◌, ◌≢◌, Some};
ghost use Rattle.proto.specs.Callers.{free};
ghost use Rattle.proto.specs.Served.{IsServed};
ghost use Rattle.line_io.specs.Wire.{CanGoOn};

mod caller;
mod service;

use caller::Caller;
use line_io::End;
use metric::Stream;
use service::Service;
use session::{Session, Store};
use shelf::StoreName;
use std::alloc::Global;
use std::sync::Wait;

/// Serves a stream of protocol lines with a session: reads each line to its LF, with the bytes that
/// it counts, and answers it before it reads the next.
///
/// What it reads is the lines and counted bytes that it answers, one after another, and a tail that
/// the end tells; what it writes is the texts of their answers, and a last text. Commands wait for
/// the store's lock, and are entries of its log by this session: `made` rises by the number of
/// accepted commands, whether or not the reply could be written. Each end unpins; QUIT does so
/// before its reply. After QUIT's LF it reads nothing.
///
/// After a failed call of the stream it doesn't call the stream again. It ends with `Memory` only
/// if out of memory for the buffers of a line and a reply line, and has then read and written
/// nothing.
pub fn serve_stream<Id: StoreName, R: Wait, S: Stream>(
    rt: &R,
    alloc: Global,
    store: &Store<Id>,
    session: Session<Id>,
    stream: &mut S,
) -> (Session<Id>, End)
    requires { CanGoOn (S.wire stream.old) }
    ensures served { result.1 ≢ End.Memory
        → IsServed Id.store (Some result.1) (S.wire stream.old) (free session)
        (S.wire stream.new) (free result.0) }
    ensures session { result.1 ≡ End.Memory → result.0 ≡ session }
    ensures untouched { result.1 ≡ End.Memory → S.wire stream.new ≡ S.wire stream.old }
{
    let mut service = match Service::new(rt, alloc, store) {
        Ok(service) => service,
        Err(refused) => return (session, End::from(refused)),
    };
    let mut caller = Caller::new(session);
    'lines: for _ in rt.forever() {
        let (next, end) = service.serve_line(caller, stream);
        caller = next;
        if let Some(end) = end {
            return (caller.into_session(), end);
        }
    }
    unreachable!()
}
