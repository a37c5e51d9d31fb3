//! The refusals of all crates, in the order of their numbers.

ghost use Rattle.std.specs.Prelude.{◌≡◌, Some};
ghost use Rattle.metric.specs.Refusal.{refusal_text, refusal_title};
ghost use Rattle.metric.specs.Fault.{field_name};
ghost use Rattle.metric.specs.declared.refusal.Refusal.TheVariants.{Memory};

use crate::fault::PbmFault;
use crate::no_memory::NoMemory;
use std::fmt;

/// A setting of a store, as a refusal names it.
#[derive(Clone, Copy, Debug, PartialEq, Eq)]
pub enum Field {
    Blocks,
    Versions,
    Sessions,
    Log,
}

/// Why a call was refused. Unless a call says otherwise, it has then changed nothing.
#[derive(Clone, Copy, Debug, PartialEq, Eq)]
pub enum Refusal {
    /// A cell, a rectangle or a stamp isn't wholly within the map.
    OutOfRange,
    /// A change needs more new blocks than are free.
    BlocksFull { needed: u32, free: u32 },
    /// Every slot for versions is in use.
    VersionsFull,
    /// The log has as many entries as its limit allows.
    LogFull,
    /// An allocation was refused.
    Memory,
    /// A query came without a pin.
    NotPinned,
    /// A pin came while one was held.
    AlreadyPinned,
    /// A path has no points, or over 1000.
    BadPath,
    /// The point of this index, from 0, is in neither the row nor the column of the point before
    /// it.
    Crooked { index: u32 },
    /// The first word of a line isn't a command.
    UnknownCommand,
    /// A command has the wrong number or form of arguments.
    BadArguments,
    /// A line has over 16,384 bytes.
    LineTooLong,
    /// A stamp has over 17,100,000 bytes.
    TooMuchData,
    /// An image was refused.
    BadImage(PbmFault),
    /// The first of the four settings that is out of its limits.
    BadSetting(Field),
    /// The log has had as many entries as places can number.
    PlacesUsed,
}

/// A growth that was refused. Nothing else makes `Memory`: callers pass it on with `?`.
impl From<NoMemory> for Refusal {
    ghost from_gives = { λ _ refusal. refusal ≡ Memory };

    fn from(_refused: NoMemory) -> Refusal {
        Refusal::Memory
    }
}

impl Field {
    /// The setting's name, as a refusal spells it.
    pub fn name(self) -> &'static str
        ensures { result.now ≡ field_name self }
    {
        match self {
            Field::Blocks => "Blocks",
            Field::Versions => "Versions",
            Field::Sessions => "Sessions",
            Field::Log => "Log",
        }
    }
}

impl Refusal {
    /// `ERR`, the refusal's number and its name.
    ///
    /// An image for which there was no memory is reported as out of memory.
    pub fn title(self) -> &'static str
        ensures { result.now ≡ refusal_title self }
    {
        match self {
            Refusal::OutOfRange => "ERR 1 OutOfRange",
            Refusal::BlocksFull { .. } => "ERR 2 BlocksFull",
            Refusal::VersionsFull => "ERR 3 VersionsFull",
            Refusal::LogFull => "ERR 4 LogFull",
            Refusal::Memory | Refusal::BadImage(PbmFault::Memory) => "ERR 5 Memory",
            Refusal::NotPinned => "ERR 6 NotPinned",
            Refusal::AlreadyPinned => "ERR 7 AlreadyPinned",
            Refusal::BadPath => "ERR 8 BadPath",
            Refusal::Crooked { .. } => "ERR 9 Crooked",
            Refusal::UnknownCommand => "ERR 11 UnknownCommand",
            Refusal::BadArguments => "ERR 12 BadArguments",
            Refusal::LineTooLong => "ERR 13 LineTooLong",
            Refusal::TooMuchData => "ERR 14 TooMuchData",
            Refusal::BadImage(_) => "ERR 15 BadImage",
            Refusal::BadSetting(_) => "ERR 16 BadSetting",
            Refusal::PlacesUsed => "ERR 17 PlacesUsed",
        }
    }
}

/// The refusal's line, without its LF: its title and its details.
impl fmt::Display for Refusal {
    ghost output = { λ refusal. Some (refusal_text refusal) };

    fn fmt<W: fmt::Write>(&self, f: &mut fmt::Formatter<W>) -> fmt::Result {
        f.write_str(self.title())?;
        match *self {
            Refusal::BlocksFull { needed, free } => write!(f, " {needed} {free}"),
            Refusal::Crooked { index } => write!(f, " {index}"),
            Refusal::BadImage(PbmFault::Memory) => Ok(()),
            Refusal::BadImage(fault) => write!(f, " {fault}"),
            Refusal::BadSetting(field) => {
                let name = field.name();
                write!(f, " {name}")
            }
            _ => Ok(()),
        }
    }
}
