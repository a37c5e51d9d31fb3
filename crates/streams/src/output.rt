//! Writes a text, or the line of a refusal.

ghost use Rattle.std.specs.Prelude.{◌≡◌, ◌∷◌, ◌++◌, [], IfOk, OnOk, OnErr};
ghost use Rattle.metric.specs.Stream.{Appends, AppendsFront, Counts, CanFail};
ghost use Rattle.metric.specs.Refusal.{refusal_text, refusal_title};
ghost use Rattle.streams.specs.Refusals.{HasWordsAlone, name_text, net_text};

use crate::REFUSED;
use metric::{PbmFault, Refusal, Sink, WriteFault};

/// Writes a text, and returns the status that goes with it.
pub fn write_text<W: Sink>(writer: &mut W, text: &[u8], status: u8) -> Result<u8, WriteFault>
    requires { CanFail (W.failed_writes writer.old) }
    ensures status { IfOk result (λ told. told ≡ status) }
    ensures whole { OnOk result (Appends (W.held writer.old) text.now (W.held writer.new)) }
    ensures front { OnErr result (AppendsFront (W.held writer.old) text.now (W.held writer.new)) }
    ensures counts { Counts (W.failed_writes writer.old) result (W.failed_writes writer.new) }
{
    writer.write_all(text)?;
    writer.flush()?;
    Ok(status)
}

/// Writes the line of a refusal that has no number in it, and returns the status of a refused run.
/// It allocates no memory.
pub fn write_refusal<W: Sink>(writer: &mut W, refusal: Refusal) -> Result<u8, WriteFault>
    requires can_fail { CanFail (W.failed_writes writer.old) }
    requires words { HasWordsAlone refusal }
    ensures status { IfOk result (λ status. status ≡ 1) }
    ensures whole { OnOk result
        (Appends (W.held writer.old) (refusal_text refusal ++ 10 ∷ []) (W.held writer.new)) }
    ensures front { OnErr result
        (AppendsFront (W.held writer.old) (refusal_text refusal ++ 10 ∷ []) (W.held writer.new)) }
    ensures counts { Counts (W.failed_writes writer.old) result (W.failed_writes writer.new) }
{
    write_words(writer, refusal.title().as_bytes(), name_behind(refusal))?;
    writer.flush()?;
    Ok(REFUSED)
}

/// Writes the line of a network fault, and returns the status of a refused run.
pub fn write_net_fault<W: Sink>(writer: &mut W) -> Result<u8, WriteFault>
    requires { CanFail (W.failed_writes writer.old) }
    ensures status { IfOk result (λ status. status ≡ 1) }
    ensures whole { OnOk result (Appends (W.held writer.old) net_text (W.held writer.new)) }
    ensures front { OnErr result (AppendsFront (W.held writer.old) net_text (W.held writer.new)) }
    ensures counts { Counts (W.failed_writes writer.old) result (W.failed_writes writer.new) }
{
    write_text(writer, b"FAULT net\n", REFUSED)
}

/// The name after the title of a refusal that has no number, if it has one.
fn name_behind(refusal: Refusal) -> Option<&'static str>
    requires { HasWordsAlone refusal }
    ensures { refusal_text refusal ≡ refusal_title refusal ++ name_text result }
{
    match refusal {
        Refusal::BadImage(PbmFault::Memory) => None,
        Refusal::BadImage(fault) => Some(fault.name()),
        Refusal::BadSetting(field) => Some(field.name()),
        _ => None,
    }
}

/// Writes a title, the name after it if there is one, and LF.
fn write_words<W: Sink>(writer: &mut W, title: &[u8], name: Option<&str>) -> Result<(), WriteFault>
    requires { CanFail (W.failed_writes writer.old) }
    ensures whole { OnOk result
        (Appends (W.held writer.old) ((title.now ++ name_text name.entry) ++ 10 ∷ [])
        (W.held writer.new)) }
    ensures front { OnErr result
        (AppendsFront (W.held writer.old) ((title.now ++ name_text name.entry) ++ 10 ∷ [])
        (W.held writer.new)) }
    ensures counts { Counts (W.failed_writes writer.old) result (W.failed_writes writer.new) }
{
    match name {
        Some(name) => write_named(writer, title, name.as_bytes()),
        None => write_pair(writer, title, b"\n"),
    }
}

/// Writes a title, a blank, a name and LF.
fn write_named<W: Sink>(writer: &mut W, title: &[u8], name: &[u8]) -> Result<(), WriteFault>
    requires { CanFail (W.failed_writes writer.old) }
    ensures whole { OnOk result
        (Appends (W.held writer.old) ((title.now ++ 32 ∷ []) ++ (name.now ++ 10 ∷ []))
        (W.held writer.new)) }
    ensures front { OnErr result
        (AppendsFront (W.held writer.old) ((title.now ++ 32 ∷ []) ++ (name.now ++ 10 ∷ []))
        (W.held writer.new)) }
    ensures counts { Counts (W.failed_writes writer.old) result (W.failed_writes writer.new) }
{
    write_pair(writer, title, b" ")?;
    write_pair(writer, name, b"\n")
}

/// Writes two texts, one after the other.
fn write_pair<W: Sink>(writer: &mut W, first: &[u8], second: &[u8]) -> Result<(), WriteFault>
    requires { CanFail (W.failed_writes writer.old) }
    ensures whole { OnOk result
        (Appends (W.held writer.old) (first.now ++ second.now) (W.held writer.new)) }
    ensures front { OnErr result
        (AppendsFront (W.held writer.old) (first.now ++ second.now) (W.held writer.new)) }
    ensures counts { Counts (W.failed_writes writer.old) result (W.failed_writes writer.new) }
{
    writer.write_all(first)?;
    writer.write_all(second)
}
