//! The copy of a version that a pin reads into, which a session keeps from one pin to the next.

ghost use Rattle.std.specs.Prelude.{◌≡◌, ◌≢◌, ℕ, ◌<◌, None, IfOk, IfSome, IsOk, true, false};
ghost use Rattle.std.specs.Int.{bit_at};
ghost use Rattle.bits.specs.Cells.{IsBitmap, IsSide};
ghost use Rattle.bits.specs.Tiles.{tiles_down};

use crate::copy::VersionCopy;
use bits::Bitmap;
use metric::NoMemory;
use std::alloc::Global;
use std::marker::Model;

/// The size of a store's map, and a copy of that size if a pin has left one. Contracts see the
/// size, and whether there is a copy.
#[derive(Drop)]
pub struct Room {
    width: u16,
    height: u16,
    copy: Option<Box<VersionCopy>>,
}

impl Model for Room {
    ghost use Rattle.std.specs.Prelude.{◌≡◌, IfSome, is_some};
    ghost use Rattle.copies.specs.Copies.{RoomView};

    ghost Value = { RoomView };

    ghost view = { λ r. record {
      width = r.width;
      height = r.height;
      has_copy = is_some r.copy;
    } };

    ghost invariant = { λ r. IfSome r.copy (λ copy. (copy.value.bitmap.width ≡ r.width)
        × (copy.value.bitmap.height ≡ r.height)) };
}

/// The copy that a pin has left, of which no band is read any more, or a new one of this size. One
/// that is there is taken without memory.
fn renewed(
    left: Option<Box<VersionCopy>>,
    alloc: Global,
    width: u16,
    height: u16,
) -> Result<Box<VersionCopy>, NoMemory>
    requires width { IsSide width }
    requires height { IsSide height }
    requires left { IfSome left (λ copy. (copy.value.bitmap.width ≡ width)
        × (copy.value.bitmap.height ≡ height)) }
    ensures bitmap { IfOk result (λ copy. IsBitmap copy.value.bitmap) }
    ensures size { IfOk result (λ copy. (copy.value.bitmap.width ≡ width)
        × (copy.value.bitmap.height ≡ height)) }
    ensures unread { IfOk result (λ copy. (k : ℕ) → k < tiles_down copy.value.bitmap.height
        → bit_at copy.value.unread k ≡ 1) }
    ensures free { left ≢ None → IsOk result }
{
    if let Some(mut copy) = left {
        copy.renew();
        return Ok(copy);
    }
    let bitmap = Bitmap::blank(alloc, width, height)?;
    Ok(Box::new(alloc, VersionCopy::fresh(bitmap))?)
}

impl Room {
    /// Only the size: the first pin makes the copy.
    pub fn empty(width: u16, height: u16) -> Room
        ensures { result ≡ record { width = width; height = height; has_copy = false } }
    {
        Room {
            width,
            height,
            copy: None,
        }
    }

    /// Holds this copy, which a pin has left.
    pub fn with(copy: Box<VersionCopy>) -> Room
        ensures { result ≡ record {
          width = copy.value.bitmap.width;
          height = copy.value.bitmap.height;
          has_copy = true;
        } }
    {
        Room {
            width: copy.bitmap.width(),
            height: copy.bitmap.height(),
            copy: Some(copy),
        }
    }

    /// A copy of this size of which no band has been read, in a bitmap with any cells: the one that
    /// a pin has left, which takes no memory, or a new one. Fails only when out of memory.
    pub fn take(&mut self, alloc: Global) -> Result<Box<VersionCopy>, NoMemory>
        requires width { IsSide self.old.width }
        requires height { IsSide self.old.height }
        ensures room { self.new ≡ record {
          width = self.old.width;
          height = self.old.height;
          has_copy = false;
        } }
        ensures free { self.old.has_copy ≡ true → IsOk result }
        ensures bitmap { IfOk result (λ copy. IsBitmap copy.value.bitmap) }
        ensures size { IfOk result (λ copy. (copy.value.bitmap.width ≡ self.old.width)
            × (copy.value.bitmap.height ≡ self.old.height)) }
        ensures unread { IfOk result (λ copy. (k : ℕ) → k < tiles_down copy.value.bitmap.height
            → bit_at copy.value.unread k ≡ 1) }
    {
        renewed(self.copy.take(), alloc, self.width, self.height)
    }
}
