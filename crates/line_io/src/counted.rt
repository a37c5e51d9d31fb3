//! The bytes that a line counts; they follow it.

ghost use Rattle.std.specs.Prelude.{◌≡◌, ◌<◌, ◌≤◌, [], vec_capacity, IfOk, IfErr};
ghost use Rattle.line_io.specs.Counted.{HasCounted, HasPassed, IsCutShort};
ghost use Rattle.line_io.specs.Lines.{IsCutOff};
ghost use Rattle.line_io.specs.Wire.{CanGoOn};

use crate::end::End;
use crate::wire::take_block;
use metric::{NoMemory, Stream};
use std::alloc::Global;

/// The most bytes taken at once.
const BLOCK: usize = 4096;

/// The bytes that a line counts, or the growth that was refused to keep them.
pub type Counted = Result<Vec<u8>, NoMemory>;

/// Reads `count` bytes, and keeps them if there is memory for them. If the stream ends before the
/// last of them, returns how.
pub fn read_counted<S: Stream>(alloc: Global, stream: &mut S, count: u32) -> Result<Counted, End>
    requires { CanGoOn (S.wire stream.old) }
    ensures counted { IfOk result
        (λ kept. HasCounted count kept (S.wire stream.old) (S.wire stream.new)) }
    ensures cut { IfErr result
        (λ end. IsCutShort count end (S.wire stream.old) (S.wire stream.new)) }
{
    match Vec::with_capacity(alloc, count as usize) {
        Ok(room) => keep(stream, room, count),
        Err(refused) => skip(stream, count, refused.into()),
    }
}

/// Reads `count` bytes into a buffer with capacity for them.
fn keep<S: Stream>(stream: &mut S, room: Vec<u8>, count: u32) -> Result<Counted, End>
    requires stream { CanGoOn (S.wire stream.old) }
    requires room { count ≤ vec_capacity room }
    requires empty { room.items ≡ [] }
    ensures counted { IfOk result
        (λ kept. HasCounted count kept (S.wire stream.old) (S.wire stream.new)) }
    ensures cut { IfErr result
        (λ end. IsCutShort count end (S.wire stream.old) (S.wire stream.new)) }
{
    let (mut bytes, count) = (room, count as usize);
    'takes: while bytes.len() < count {
        let mut block = [0; BLOCK];
        let most = (count - bytes.len()).min(BLOCK);
        let taken = take_block(stream, &mut block[..most])?;
        let _ = bytes.extend_from_slice(&block[..taken]);
    }
    Ok(Ok(bytes))
}

/// Reads `count` bytes and drops them, since a growth was refused.
fn skip<S: Stream>(stream: &mut S, count: u32, refused: NoMemory) -> Result<Counted, End>
    requires { CanGoOn (S.wire stream.old) }
    ensures counted { IfOk result
        (λ kept. HasCounted count kept (S.wire stream.old) (S.wire stream.new)) }
    ensures cut { IfErr result
        (λ end. IsCutShort count end (S.wire stream.old) (S.wire stream.new)) }
{
    let mut left = count as usize;
    'passes: while left > 0 {
        left -= pass_over(stream, left)?;
    }
    Ok(Err(refused))
}

/// Reads up to `most` bytes and drops them. Returns how many.
fn pass_over<S: Stream>(stream: &mut S, most: usize) -> Result<usize, End>
    requires wire { CanGoOn (S.wire stream.old) }
    requires some { 0 < most }
    ensures passed { IfOk result
        (λ count. HasPassed count (S.wire stream.old) (S.wire stream.new)) }
    ensures within { IfOk result (λ count. count ≤ most) }
    ensures cut { IfErr result (λ end. IsCutOff end (S.wire stream.old) [] (S.wire stream.new)) }
{
    let mut block = [0; BLOCK];
    let few = most.min(BLOCK);
    let block = &mut block[..few];
    take_block(stream, block)
}
