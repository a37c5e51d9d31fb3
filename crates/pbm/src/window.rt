//! A window on the bytes of a source, refilled as its bytes are taken.

ghost use Rattle.std.specs.Prelude.{◌≡◌, ℕ, ◌*◌, ◌<◌, ◌≤◌, List, [], Option, false, drop};
ghost use Rattle.std.specs.Prelude.{length, vec_len, IfErr, OnOk};
ghost use Rattle.metric.specs.Stream.{CanFail};

use metric::{NoMemory, PbmFault, ReadFault, Source};
use std::alloc::Global;

/// The most bytes of one read.
pub const BLOCK: usize = 65_536;

/// Why no image was read from a source.
#[derive(Clone, Copy, Debug, PartialEq, Eq)]
pub enum ImageStop {
    /// A read failed.
    Failed,
    /// There was no memory for the bytes read.
    Memory(NoMemory),
    /// The image has this fault, or there was no memory for its bitmap.
    Fault(PbmFault),
}

/// A growth that was refused.
impl From<NoMemory> for ImageStop {
    ghost use Rattle.pbm.specs.declared.window.ImageStop.TheVariants.{Memory};

    ghost from_gives = { λ refused stop. stop ≡ Memory refused };

    fn from(refused: NoMemory) -> ImageStop {
        ImageStop::Memory(refused)
    }
}

/// A read that failed.
impl From<ReadFault> for ImageStop {
    ghost use Rattle.pbm.specs.declared.window.ImageStop.TheVariants.{Failed};

    ghost from_gives = { λ _ stop. stop ≡ Failed };

    fn from(_failed: ReadFault) -> ImageStop {
        ImageStop::Failed
    }
}

/// A fault of the image.
impl From<PbmFault> for ImageStop {
    ghost use Rattle.pbm.specs.declared.window.ImageStop.TheVariants.{Fault};

    ghost from_gives = { λ fault stop. stop ≡ Fault fault };

    fn from(fault: PbmFault) -> ImageStop {
        ImageStop::Fault(fault)
    }
}

/// Drops the first `count` bytes.
fn drop_front(bytes: &mut Vec<u8>, count: usize)
    requires { count ≤ vec_len bytes.old }
    ensures { bytes.new.items ≡ drop count bytes.old.items }
{
    let left = bytes.len() - count;
    bytes.copy_within(count.., 0);
    bytes.truncate(left);
}

/// The bytes read from a source and not yet taken, and the block that each read fills.
#[derive(Drop)]
pub struct Window {
    pub bytes: Vec<u8>,
    pub start: usize,
    pub ended: bool,
    pub block: [u8; BLOCK],
}

impl Window {
    ghost use Rattle.metric.specs.Stream.{AreAll};
    ghost use Rattle.pbm.specs.Windows.{CountsReads, IsFaultOf, IsOpen, ReadsOn, unread};

    /// A window that has read nothing.
    pub fn new(alloc: Global) -> Self
        ensures open { (rest : Option (List ℕ)) → IsOpen result rest }
        ensures empty { unread result ≡ [] }
    {
        Window {
            bytes: Vec::new(alloc),
            start: 0,
            ended: false,
            block: [0; BLOCK],
        }
    }

    /// The bytes not yet taken.
    pub fn unread(&self) -> &[u8]
        requires { self.now.start ≤ vec_len self.now.bytes }
        ensures { result.now ≡ unread self.now }
    {
        &self.bytes[self.start..]
    }

    /// Takes `count` bytes.
    pub fn take(&mut self, count: usize)
        requires inside { self.old.start ≤ vec_len self.old.bytes }
        requires many { count ≤ length (unread self.old) }
        ensures taken { unread self.new ≡ drop count (unread self.old) }
        ensures open { (rest : Option (List ℕ)) → IsOpen self.old rest → IsOpen self.new rest }
    {
        self.start += count;
    }

    /// Reads the next bytes, through the block, and appends them to the unread ones. Reads none
    /// only at the end.
    fn read_block<R: Source>(&mut self, reader: &mut R) -> Result<(), ImageStop>
        requires can_fail { CanFail (R.failed_reads reader.old) }
        requires open { IsOpen self.old (R.rest reader.old) }
        requires before { self.old.ended ≡ false }
        ensures open { IsOpen self.new (R.rest reader.new) }
        ensures reads { OnOk result
            (ReadsOn (R.rest reader.old) self.old (R.rest reader.new) self.new) }
        ensures more { OnOk result (self.new.ended ≡ false
            → length (unread self.old) < length (unread self.new)) }
        ensures fault { IfErr result (λ stop. IsFaultOf stop (λ met. ⊥)) }
        ensures counts { CountsReads (R.failed_reads reader.old) result
            (R.failed_reads reader.new) }
    {
        let count = reader.next_block(self.block.as_mut_slice())?;
        let block = &self.block[..count];
        self.bytes.extend_from_slice(block).map_err(NoMemory::from)?;
        self.ended = count == 0;
        Ok(())
    }

    /// Reads on until more than `wanted` bytes are unread, or the source has ended.
    pub fn fill<R: Source>(&mut self, reader: &mut R, wanted: usize) -> Result<(), ImageStop>
        requires can_fail { CanFail (R.failed_reads reader.old) }
        requires open { IsOpen self.old (R.rest reader.old) }
        ensures open { IsOpen self.new (R.rest reader.new) }
        ensures reads { OnOk result
            (ReadsOn (R.rest reader.old) self.old (R.rest reader.new) self.new) }
        ensures more { OnOk result (self.new.ended ≡ false → wanted < length (unread self.new)) }
        ensures fault { IfErr result (λ stop. IsFaultOf stop (λ met. ⊥)) }
        ensures counts { CountsReads (R.failed_reads reader.old) result
            (R.failed_reads reader.new) }
    {
        'turns: while !self.ended && self.bytes.len() - self.start <= wanted {
            self.read_block(reader)?;
        }
        Ok(())
    }

    /// Drops the bytes taken, and reads on until the unread bytes have more than doubled and are at
    /// least a block, or the source has ended.
    pub fn refill<R: Source>(&mut self, reader: &mut R) -> Result<(), ImageStop>
        requires can_fail { CanFail (R.failed_reads reader.old) }
        requires open { IsOpen self.old (R.rest reader.old) }
        ensures open { IsOpen self.new (R.rest reader.new) }
        ensures reads { OnOk result
            (ReadsOn (R.rest reader.old) self.old (R.rest reader.new) self.new) }
        ensures more { OnOk result (self.new.ended ≡ false
            → 2 * length (unread self.old) < length (unread self.new)) }
        ensures block { OnOk result (self.new.ended ≡ false → 65535 < length (unread self.new)) }
        ensures fault { IfErr result (λ stop. IsFaultOf stop (λ met. ⊥)) }
        ensures counts { CountsReads (R.failed_reads reader.old) result
            (R.failed_reads reader.new) }
    {
        drop_front(&mut self.bytes, self.start);
        self.start = 0;
        let wanted = (2 * self.bytes.len()).max(BLOCK - 1);
        self.fill(reader, wanted)
    }

    /// Reads on until at least `count` bytes are unread, or the source has ended.
    pub fn hold<R: Source>(&mut self, reader: &mut R, count: usize) -> Result<(), ImageStop>
        requires can_fail { CanFail (R.failed_reads reader.old) }
        requires open { IsOpen self.old (R.rest reader.old) }
        requires few { count ≤ 65536 }
        ensures open { IsOpen self.new (R.rest reader.new) }
        ensures reads { OnOk result
            (ReadsOn (R.rest reader.old) self.old (R.rest reader.new) self.new) }
        ensures more { OnOk result (self.new.ended ≡ false → count ≤ length (unread self.new)) }
        ensures fault { IfErr result (λ stop. IsFaultOf stop (λ met. ⊥)) }
        ensures counts { CountsReads (R.failed_reads reader.old) result
            (R.failed_reads reader.new) }
    {
        if self.ended || self.unread().len() >= count {
            return Ok(());
        }
        self.refill(reader)
    }

    /// Reads on after this fault, since the part may be longer than the unread bytes; if the source
    /// has ended, the fault is the image's.
    pub fn read_after<R: Source>(
        &mut self,
        reader: &mut R,
        fault: PbmFault,
    ) -> Result<(), ImageStop>
        requires can_fail { CanFail (R.failed_reads reader.old) }
        requires open { IsOpen self.old (R.rest reader.old) }
        ensures open { IsOpen self.new (R.rest reader.new) }
        ensures reads { OnOk result
            (ReadsOn (R.rest reader.old) self.old (R.rest reader.new) self.new) }
        ensures before { OnOk result (self.old.ended ≡ false) }
        ensures more { OnOk result (self.new.ended ≡ false
            → length (unread self.old) < length (unread self.new)) }
        ensures fault { IfErr result
            (λ stop. IsFaultOf stop (λ met. (met ≡ fault) × AreAll (R.rest reader.old) [])) }
        ensures counts { CountsReads (R.failed_reads reader.old) result
            (R.failed_reads reader.new) }
    {
        if self.ended {
            return Err(ImageStop::Fault(fault));
        }
        self.refill(reader)
    }
}
