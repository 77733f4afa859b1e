ghost use Rattle.std.specs.Prelude.{◌≡◌, Some, MatchResult, ◌≢◌};
ghost use Rattle.std.specs.Fmt.{padded};
ghost use Rattle.block.specs.declared.fault.Code.{Code};
ghost use Rattle.block.specs.Faults.{code_number, code_words, part_name, spot_text, fault_text};

use crate::ids::Id;
use crate::number::UnknownNumber;
use std::error::Error;
use std::fmt;

// What was wrong. The codes stand in the order of their numbers, from 1.
#[derive(Clone, Copy, PartialEq, Eq, Debug)]
pub enum Code {
    OutOfRange = 1,
    Overlap,
    Disagreement,
    Content,
    NoSuchList,
    BeyondLength,
    NotKnown,
    NotListed,
    TooManyRedone,
    LimitPassed,
    Misplaced,
    Backwards,
}

impl Code {
    // All codes, in the order of their numbers.
    pub const ALL: [Code; 12] = [
        Code::OutOfRange,
        Code::Overlap,
        Code::Disagreement,
        Code::Content,
        Code::NoSuchList,
        Code::BeyondLength,
        Code::NotKnown,
        Code::NotListed,
        Code::TooManyRedone,
        Code::LimitPassed,
        Code::Misplaced,
        Code::Backwards,
    ];

    // What the fault means, in words.
    pub fn words(self) -> &'static str
        ensures { result.now ≡ code_words self }
    {
        match self {
            Code::OutOfRange => "a field is out of range",
            Code::Overlap => "runs of one client overlap or leave a gap",
            Code::Disagreement => "records disagree",
            Code::Content => "content does not match its run",
            Code::NoSuchList => "no such list",
            Code::BeyondLength => "beyond the length of the list",
            Code::NotKnown => "the clock is not known",
            Code::NotListed => "known, but in no list that fits",
            Code::TooManyRedone => "too many successors in a row",
            Code::LimitPassed => "a limit would be passed",
            Code::Misplaced => "not allowed at this unit",
            Code::Backwards => "the range ends before it starts",
        }
    }
}

// The fault's number, by which a planner tells faults apart.
impl From<Code> for u8 {
    ghost from_gives = { λ code number. number ≡ code_number code };

    fn from(code: Code) -> u8 {
        code as u8
    }
}

// The code with this number; refused where no fault has it.
impl TryFrom<u8> for Code {
    type Error = UnknownNumber;

    ghost try_from_gives = { λ number r. MatchResult r (λ code. code_number code ≡ number) (λ e. (e.number ≡ number) × ((code : Code) → code_number code ≢ number)) };

    fn try_from(number: u8) -> Result<Code, UnknownNumber> {
        let unknown = UnknownNumber { number };
        let place = number.checked_sub(1).ok_or(unknown)?;
        Code::ALL.get(place as usize).copied().ok_or(unknown)
    }
}

impl fmt::Display for Code {
    ghost output = { λ code. Some (code_words code) };

    ghost styled_output = { λ code spec. Some (padded spec (code_words code)) };

    fn fmt<W: fmt::Write>(&self, f: &mut fmt::Formatter<W>) -> fmt::Result {
        f.pad(self.words())
    }
}

// The part of the product that found a fault.
#[derive(Clone, Copy, PartialEq, Eq, Debug)]
pub enum Part {
    Tables,
    Clip,
    Cursor,
    Mark,
    Range,
    Edit,
}

impl Part {
    pub fn name(self) -> &'static str
        ensures { result.now ≡ part_name self }
    {
        match self {
            Part::Tables => "tables",
            Part::Clip => "clip",
            Part::Cursor => "cursor",
            Part::Mark => "mark",
            Part::Range => "range",
            Part::Edit => "edit",
        }
    }
}

impl fmt::Display for Part {
    ghost output = { λ part. Some (part_name part) };

    ghost styled_output = { λ part spec. Some (padded spec (part_name part)) };

    fn fmt<W: fmt::Write>(&self, f: &mut fmt::Formatter<W>) -> fmt::Result {
        f.pad(self.name())
    }
}

// Where a fault lies: nowhere in particular, in a record of one of the tables, at a byte of the
// content, at a list, or at a unit.
#[derive(Clone, Copy, PartialEq, Eq, Debug)]
pub enum Spot {
    Nowhere,
    RunRecord(u32),
    ListRecord(u32),
    ClientRecord(u32),
    EntryRecord(u32),
    Byte(u32),
    List(u32),
    Unit(Id),
}

// A refusal: what was wrong, the part that found it, where it lies, and how many clips the refusal
// passed on its way up, 255 at most.
#[derive(Clone, Copy, PartialEq, Eq, Debug)]
pub struct Fault {
    pub code: Code,
    pub part: Part,
    pub spot: Spot,
    pub clips: u8,
}

impl Fault {
    // A fault that has passed no clip.
    pub fn new(part: Part, code: Code, spot: Spot) -> Fault
        ensures { result ≡ record { code = code; part = part; spot = spot; clips = 0 } }
    {
        Fault {
            code,
            part,
            spot,
            clips: 0,
        }
    }
}

impl Error for Fault {}

impl fmt::Display for Spot {
    ghost output = { λ spot. Some (spot_text spot) };

    fn fmt<W: fmt::Write>(&self, f: &mut fmt::Formatter<W>) -> fmt::Result {
        match *self {
            Spot::Nowhere => write!(f, "no place"),
            Spot::RunRecord(i) => write!(f, "run record {i}"),
            Spot::ListRecord(i) => write!(f, "list record {i}"),
            Spot::ClientRecord(i) => write!(f, "client record {i}"),
            Spot::EntryRecord(i) => write!(f, "entry record {i}"),
            Spot::Byte(i) => write!(f, "byte {i}"),
            Spot::List(l) => write!(f, "list {l}"),
            Spot::Unit(id) => write!(f, "unit {id}"),
        }
    }
}

// One line: `fault 6: beyond the length of the list (cursor, list 0)`.
impl fmt::Display for Fault {
    ghost output = { λ fault. Some (fault_text fault) };

    fn fmt<W: fmt::Write>(&self, f: &mut fmt::Formatter<W>) -> fmt::Result {
        let Fault {
            code,
            part,
            spot,
            clips,
        } = *self;
        let number = u8::from(code);
        write!(f, "fault {number}: {code} ({part}, {spot}")?;
        match clips {
            0 => write!(f, ")"),
            1 => write!(f, ", under 1 clip)"),
            n => write!(f, ", under {n} clips)"),
        }
    }
}
