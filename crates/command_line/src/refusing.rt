//! Reports why words are refused, or prints the help or the version that they ask for.

ghost use Rattle.std.specs.Prelude.{◌≡◌, ◌≢◌, ◌+◌, ◌≤◌};
ghost use Rattle.metric.specs.Stream.{CanFail};
ghost use Rattle.command_line.specs.Told.{Begins, IsFaultTold, IsStatusOf};

use crate::arguments::Fault;
use metric::{NoMemory, Refusal, Sink};
use std::alloc::Global;
use streams::{DONE, REFUSED, write_refusal, write_text};

/// The status of a command line that was refused.
const MISTAKEN: u8 = 2;

/// The status of a run whose words are refused.
fn status_of(fault: &Fault<'_>) -> u8
    ensures { IsStatusOf fault.now result }
{
    match fault {
        Fault::Memory => REFUSED,
        Fault::Words(error) => { if error.use_stderr() { MISTAKEN } else { DONE } }
        Fault::UnknownMetric { .. }
        | Fault::UnknownEdge { .. }
        | Fault::BadNumber { .. }
        | Fault::NoCommand
        | Fault::Unreadable(_) => MISTAKEN,
    }
}

/// The text to print: that of `clap` as it is, and any other with the program's name.
fn text_of(alloc: Global, fault: &Fault<'_>) -> Result<String, NoMemory> {
    match fault {
        Fault::Words(error) => Ok(format!(in alloc; "{error}")?),
        other => Ok(format!(in alloc; "clearmap: {other}\n")?),
    }
}

/// Reports on `errors` why words are refused, or prints on the writer what they ask for. Returns
/// the status.
pub fn tell<W: Sink, E: Sink>(
    alloc: Global,
    fault: &Fault<'_>,
    writer: &mut W,
    errors: &mut E,
) -> u8
    requires writer { CanFail (W.failed_writes writer.old) }
    requires errors { CanFail (E.failed_writes errors.old) }
    ensures told { W.failed_writes writer.new ≡ W.failed_writes writer.old
        → E.failed_writes errors.new ≡ E.failed_writes errors.old
        → IsFaultTold fault.now (W.held writer.old) (W.held writer.new) (E.held errors.old)
        (E.held errors.new) result }
    ensures failed_write { W.failed_writes writer.new ≢ W.failed_writes writer.old
        → Begins (W.held writer.old) (W.held writer.new) × (E.held errors.new ≡ E.held errors.old)
        × (result ≡ 1) }
    ensures failed_error { E.failed_writes errors.new ≢ E.failed_writes errors.old
        → Begins (E.held errors.old) (E.held errors.new) × (W.held writer.new ≡ W.held writer.old)
        × (result ≡ 1) }
    ensures one_failure { W.failed_writes writer.new + E.failed_writes errors.new
        ≤ W.failed_writes writer.old + E.failed_writes errors.old + 1 }
{
    if let Fault::Memory = fault {
        return write_refusal(writer, Refusal::Memory).unwrap_or(REFUSED);
    }
    let text = match text_of(alloc, fault) {
        Ok(text) => text,
        Err(refused) => return write_refusal(writer, Refusal::from(refused)).unwrap_or(REFUSED),
    };
    let status = status_of(fault);
    if status == MISTAKEN {
        write_text(errors, text.as_bytes(), status).unwrap_or(REFUSED)
    } else {
        write_text(writer, text.as_bytes(), status).unwrap_or(REFUSED)
    }
}
