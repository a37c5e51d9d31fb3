//! Reads a line, or a number of bytes, into a buffer.

ghost use Rattle.std.specs.Prelude.{◌≡◌, ◌≢◌, ◌+◌, ◌≤◌, ◌++◌, ◌∷◌, [], ℕ, List, IfOk, OnOk};
ghost use Rattle.std.specs.Prelude.{OnErr, Err, length, vec_len};
ghost use Rattle.metric.specs.Stream.{CanFail, Takes};
ghost use Rattle.streams.specs.Gathered.{Gathers, GathersAll, PutsCount, PutsFewer};
ghost use Rattle.streams.specs.Gathered.{PutsLine, PutsUnended, TakesAtMost, TakesFew};
ghost use Rattle.streams.specs.declared.gather.PartStop.TheVariants.{Ended, Failed};

use metric::{NoMemory, Source};

/// The most bytes of one read.
const BLOCK: usize = 4096;

/// Why not everything was read.
#[derive(Clone, Copy)]
pub enum PartStop {
    /// The stream ended too early.
    Ended,
    /// A read failed.
    Failed,
    /// There was no memory for the bytes read.
    Memory(NoMemory),
}

/// A growth that was refused.
impl From<NoMemory> for PartStop {
    ghost use Rattle.streams.specs.declared.gather.PartStop.TheVariants.{Memory};

    ghost from_gives = { λ refused stop. stop ≡ Memory refused };

    fn from(refused: NoMemory) -> PartStop {
        PartStop::Memory(refused)
    }
}

/// Appends a line with its LF to the buffer.
pub fn read_line<R: Source>(reader: &mut R, bytes: &mut Vec<u8>) -> Result<(), PartStop>
    requires { CanFail (R.failed_reads reader.old) }
    ensures all { OnOk result (Gathers (R.rest reader.old) bytes.old.items bytes.new.items
        (R.rest reader.new)) }
    ensures taken { (taken : List ℕ) × Takes (R.rest reader.old) taken (R.rest reader.new) }
    ensures counts { result ≢ Err Failed → R.failed_reads reader.new ≡ R.failed_reads reader.old }
    ensures failed { result ≡ Err Failed
        → R.failed_reads reader.new ≡ R.failed_reads reader.old + 1 }
    ensures written { R.written reader.new ≡ R.written reader.old }
    ensures line { OnOk result (PutsLine bytes.old.items bytes.new.items) }
    ensures part { OnErr result (TakesAtMost (λ line. 0) (R.rest reader.old) (R.rest reader.new)) }
    ensures ended { result ≡ Err Ended → PutsUnended bytes.old.items bytes.new.items
        × GathersAll (R.rest reader.old) bytes.old.items bytes.new.items (R.rest reader.new) }
{
    'bytes: for _ in 0..u64::MAX {
        if read_byte(reader, bytes)? == b'\n' {
            return Ok(());
        }
    }
    unreachable!()
}

/// Appends the next `count` bytes to the buffer.
pub fn read_count<R: Source>(
    reader: &mut R,
    bytes: &mut Vec<u8>,
    count: u32,
) -> Result<(), PartStop>
    requires { CanFail (R.failed_reads reader.old) }
    ensures all { OnOk result (Gathers (R.rest reader.old) bytes.old.items bytes.new.items
        (R.rest reader.new)) }
    ensures taken { (taken : List ℕ) × Takes (R.rest reader.old) taken (R.rest reader.new) }
    ensures counts { result ≢ Err Failed → R.failed_reads reader.new ≡ R.failed_reads reader.old }
    ensures failed { result ≡ Err Failed
        → R.failed_reads reader.new ≡ R.failed_reads reader.old + 1 }
    ensures written { R.written reader.new ≡ R.written reader.old }
    ensures count { OnOk result (PutsCount count bytes.old.items bytes.new.items) }
    ensures part { OnErr result (TakesFew count (R.rest reader.old) (R.rest reader.new)) }
    ensures ended { result ≡ Err Ended → PutsFewer count bytes.old.items bytes.new.items
        × GathersAll (R.rest reader.old) bytes.old.items bytes.new.items (R.rest reader.new) }
{
    if count == 0 {
        return Ok(());
    }
    let mut block = [0; BLOCK];
    let mut done = 0;
    'turns: while done < count {
        let most = (count - done).min(BLOCK as u32);
        done += read_block(reader, bytes, &mut block[..most as usize])?;
    }
    Ok(())
}

/// Appends the next bytes to the buffer, at least one and at most as many as `block` has places,
/// and returns how many.
fn read_block<R: Source>(
    reader: &mut R,
    bytes: &mut Vec<u8>,
    block: &mut [u8],
) -> Result<u32, PartStop>
    requires fails { CanFail (R.failed_reads reader.old) }
    requires some { 1 ≤ length block.old }
    requires few { length block.old ≤ 4096 }
    ensures all { OnOk result (Gathers (R.rest reader.old) bytes.old.items bytes.new.items
        (R.rest reader.new)) }
    ensures counts { result ≢ Err Failed → R.failed_reads reader.new ≡ R.failed_reads reader.old }
    ensures failed { result ≡ Err Failed
        → R.failed_reads reader.new ≡ R.failed_reads reader.old + 1 }
    ensures written { R.written reader.new ≡ R.written reader.old }
    ensures some { IfOk result (λ count. 1 ≤ count) }
    ensures few { IfOk result (λ count. count ≤ length block.old) }
    ensures count { IfOk result (λ count. PutsCount count bytes.old.items bytes.new.items) }
    ensures part { OnErr result
        (TakesFew (length block.old) (R.rest reader.old) (R.rest reader.new)) }
    ensures ended { result ≡ Err Ended → (bytes.new.items ≡ bytes.old.items)
        × GathersAll (R.rest reader.old) bytes.old.items bytes.new.items (R.rest reader.new) }
{
    match reader.next_block(block) {
        Ok(0) => Err(PartStop::Ended),
        Ok(count) => {
            let block = &block[..count];
            bytes.extend_from_slice(block).map_err(NoMemory::from)?;
            Ok(count as u32)
        }
        Err(_) => Err(PartStop::Failed),
    }
}

/// Appends the next byte to the buffer.
fn read_byte<R: Source>(reader: &mut R, bytes: &mut Vec<u8>) -> Result<u8, PartStop>
    requires { CanFail (R.failed_reads reader.old) }
    ensures all { OnOk result (Gathers (R.rest reader.old) bytes.old.items bytes.new.items
        (R.rest reader.new)) }
    ensures counts { result ≢ Err Failed → R.failed_reads reader.new ≡ R.failed_reads reader.old }
    ensures failed { result ≡ Err Failed
        → R.failed_reads reader.new ≡ R.failed_reads reader.old + 1 }
    ensures written { R.written reader.new ≡ R.written reader.old }
    ensures byte { IfOk result (λ byte. bytes.new.items ≡ bytes.old.items ++ byte ∷ []) }
    ensures len { OnOk result (vec_len bytes.new ≡ vec_len bytes.old + 1) }
    ensures part { OnErr result (TakesFew 1 (R.rest reader.old) (R.rest reader.new)) }
    ensures ended { result ≡ Err Ended → (bytes.new.items ≡ bytes.old.items)
        × GathersAll (R.rest reader.old) bytes.old.items bytes.new.items (R.rest reader.new) }
{
    match reader.next_byte() {
        Ok(Some(byte)) => {
            bytes.push(byte).map_err(NoMemory::from)?;
            Ok(byte)
        }
        Ok(None) => Err(PartStop::Ended),
        Err(_) => Err(PartStop::Failed),
    }
}
