//! The faults of an image's text.

ghost use Rattle.std.specs.Prelude.{◌≡◌, Some};
ghost use Rattle.metric.specs.Fault.{fault_name};
ghost use Rattle.metric.specs.declared.fault.PbmFault.TheVariants.{Memory};

use crate::no_memory::NoMemory;
use std::fmt;

/// Why an image was refused: the first fault from its front.
#[derive(Clone, Copy, Debug, PartialEq, Eq)]
pub enum PbmFault {
    /// The first two bytes aren't a magic number.
    BadMagic,
    /// No whitespace follows the magic number or a number.
    MissingSpace,
    /// A comment stands where none is allowed.
    BadComment,
    /// A number doesn't start with a digit.
    BadNumber,
    /// The width or the height is 0.
    ZeroSize,
    /// The width or the height is over 4096.
    TooLarge,
    /// A byte of a plain raster isn't a pixel.
    BadPixel,
    /// The input ends too early.
    Truncated,
    /// A byte that isn't whitespace follows the last pixel of a plain image.
    JunkNotSpaced,
    /// There was no memory for the bitmap.
    Memory,
}

/// There was no memory for the bitmap.
impl From<NoMemory> for PbmFault {
    ghost from_gives = { λ _ fault. fault ≡ Memory };

    fn from(_refused: NoMemory) -> PbmFault {
        PbmFault::Memory
    }
}

impl PbmFault {
    /// The fault's name, as a refusal spells it.
    pub fn name(self) -> &'static str
        ensures { result.now ≡ fault_name self }
    {
        match self {
            PbmFault::BadMagic => "BadMagic",
            PbmFault::MissingSpace => "MissingSpace",
            PbmFault::BadComment => "BadComment",
            PbmFault::BadNumber => "BadNumber",
            PbmFault::ZeroSize => "ZeroSize",
            PbmFault::TooLarge => "TooLarge",
            PbmFault::BadPixel => "BadPixel",
            PbmFault::Truncated => "Truncated",
            PbmFault::JunkNotSpaced => "JunkNotSpaced",
            PbmFault::Memory => "Memory",
        }
    }
}

impl fmt::Display for PbmFault {
    ghost output = { λ fault. Some (fault_name fault) };

    fn fmt<W: fmt::Write>(&self, f: &mut fmt::Formatter<W>) -> fmt::Result {
        f.write_str(self.name())
    }
}
