//! The process's words, and the reports why they can't be run.

ghost use Rattle.std.specs.Prelude.{◌≡◌};

use crate::arguments::Fault;
use crate::refusing::tell;
use metric::{NoMemory, Refusal};
use std::alloc::Global;
use std::rt::Env;
use std::{env, io};
use streams::{ErrorSink, REFUSED, WriterSink};

/// The process's words.
pub fn words_of<R: Env + AllocGlobal>(rt: &R) -> Result<Vec<String>, Fault<'static>> {
    Ok(env::args(rt)?.collect(rt.alloc()).map_err(NoMemory::from)?)
}

/// The texts of some words.
pub fn texts_of(alloc: Global, words: &[String]) -> Result<Vec<&str>, NoMemory> {
    Ok(words.iter().map(|word| word.as_str()).collect(alloc)?)
}

/// Reports why the process's words can't be read. Returns the exit status.
pub fn tell_fault<R: Print + Eprint + AllocGlobal>(rt: &R, fault: &Fault<'_>) -> u8 {
    let alloc = rt.alloc();
    match WriterSink::new(alloc, io::writer(rt)) {
        Ok(mut writer) => tell(alloc, fault, &mut writer, &mut ErrorSink::new(rt)),
        Err(refused) => refuse(rt, refused),
    }
}

/// Reports that a run is refused because there is no memory for a stream. Returns the exit status.
pub fn refuse(rt: &impl Print, refused: NoMemory) -> u8
    ensures { result ≡ 1 }
{
    let _ = rt.println(Refusal::from(refused));
    REFUSED
}
