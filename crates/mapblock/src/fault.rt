// Faults of a block, and how a refusal is handed on.
ghost use Rattle.std.specs.Prelude.{◌≡◌, drop};
ghost use Rattle.wire.specs.Formats.{prefixed};
ghost use Rattle.mapblock.specs.Numbers.{refusal_number};
ghost use Rattle.mapblock.specs.Refusals.{Behind};
ghost use Rattle.mapblock.specs.Told.{told_run, refused_behind};
ghost use Rattle.mapblock.specs.declared.fault.Fault.TheVariants.{Ends};

use wire::fields::{EndsAt, run_at};
use wire::number::Number;

// What may be wrong with a block, field by field.
#[derive(Clone, Copy, Debug, PartialEq, Eq, Hash)]
pub enum Fault {
    // The bytes end inside a field, or an inventory has no end line.
    Ends,
    Version,
    // Nine fields with a fixed value have another.
    ContentWidth,
    ParamsWidth,
    MetadataVersion,
    PrivateByte,
    ByteOf23,
    TimerByte,
    ObjectVersion,
    MappingVersion,
    TimerRowLength,
    // What a row gives, by itself or beside the rows before it.
    PositionAbove,
    PositionTwice,
    IdTwice,
    // What is wrong with the block as a whole.
    BytesAfter,
    IdUnmapped,
}

// Gives the number of a fault, as specs/Numbers.antt has it.
pub fn refusal_number(fault: Fault) -> u32
    ensures { result ≡ refusal_number fault }
{
    match fault {
        Fault::Ends => 1,
        Fault::Version => 2,
        Fault::ContentWidth => 31,
        Fault::ParamsWidth => 32,
        Fault::MetadataVersion => 33,
        Fault::PrivateByte => 34,
        Fault::ByteOf23 | Fault::TimerByte => 35,
        Fault::ObjectVersion => 36,
        Fault::MappingVersion => 37,
        Fault::TimerRowLength => 38,
        Fault::PositionAbove => 4,
        Fault::PositionTwice => 5,
        Fault::IdTwice => 6,
        Fault::BytesAfter => 7,
        Fault::IdUnmapped => 8,
    }
}

// A fault, and the offset of the byte at which it stands, from the first byte that a reading was given.
#[derive(Clone, Copy, Debug, PartialEq, Eq, Hash)]
pub struct Refusal {
    pub fault: Fault,
    pub offset: usize,
}

impl Refusal {
    ghost use Rattle.std.specs.Prelude.{◌≡◌, ◌+◌};
    ghost use Rattle.wire.specs.Ranges.{InReach};
    ghost use Rattle.mapblock.specs.declared.fault.Fault.TheVariants.{Ends};
    ghost use Rattle.mapblock.specs.Refusals.{refusal_at};

    // Makes the refusal of bytes that end within the field at an offset.
    pub fn ends(offset: usize) -> Refusal
        ensures { result ≡ refusal_at Ends offset }
    {
        Refusal {
            fault: Fault::Ends,
            offset,
        }
    }

    // Tells of the same fault from so many bytes before. An offset that no slice can have stays at the largest, and nothing is promised of it.
    pub fn behind(self, length: usize) -> Refusal
        ensures { InReach (length + self.offset)
            → result ≡ refusal_at self.fault (length + self.offset) }
    {
        Refusal {
            offset: length.saturating_add(self.offset),
            ..self
        }
    }
}

// Tells of a refusal from so many bytes before, for a reader that began behind them.
pub fn behind<T>(length: usize, read: Result<T, Refusal>) -> Result<T, Refusal>
    ensures { Behind length read result }
{
    match read {
        Ok(value) => Ok(value),
        Err(refusal) => Err(refusal.behind(length)),
    }
}

// Reads the run behind its length, a number of that type, at a place, and refuses bytes that end inside it.
pub fn whole_run_at<L: Number>(s: &[u8], at: usize) -> Result<usize, Refusal>
    ensures { told_run L.WIDTH (drop at s.now) result
        ≡ refused_behind at ((prefixed {ends = Ends} L.WIDTH).read (drop at s.now)) }
{
    match run_at::<L>(s, at) {
        Ok(n) => Ok(n),
        Err(EndsAt(p)) => Err(Refusal::ends(p).behind(at)),
    }
}

impl From<EndsAt> for Refusal {
    ghost use Rattle.mapblock.specs.declared.fault.Fault.TheVariants.{Ends};
    ghost use Rattle.mapblock.specs.Refusals.{refusal_at};

    ghost from_gives = { λ p r. r ≡ refusal_at Ends p.0 };

    fn from(end: EndsAt) -> Refusal {
        Refusal::ends(end.0)
    }
}

// A fault that stands at the first byte.
impl From<Fault> for Refusal {
    ghost use Rattle.mapblock.specs.Refusals.{refusal_at};

    ghost from_gives = { λ f r. r ≡ refusal_at f 0 };

    fn from(fault: Fault) -> Refusal {
        Refusal { fault, offset: 0 }
    }
}
