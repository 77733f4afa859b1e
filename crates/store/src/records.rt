ghost use Rattle.std.specs.Prelude.{◌≡◌, ◌&&◌, if◌then◌else◌};
ghost use Rattle.block.specs.Kinds.{is_counted};
ghost use Rattle.store.specs.Clocks.{end_of};
ghost use Rattle.store.specs.Kinds.{kind_of, entries_of};
ghost use Rattle.store.specs.Records.{held, run_at, list_at, entry_at, bytes_of};

use crate::kinds::entries_of;
use block::ids::Id;
use block::kind::Kind;

// A run of units, as the store keeps it. Runs, lists and entries are named by their numbers, and not by
// references, since the tables are lent and may be damaged.
#[derive(Clone, Copy, Debug, Default, PartialEq, Eq)]
pub struct RunRecord {
    pub id: Id,
    pub len: u32,
    // the number of the kind; a damaged store holds any byte
    pub kind: u8,
    pub live: bool,
    pub list: Option<u32>,
    pub left: Option<u32>,
    pub right: Option<u32>,
    // the successor
    pub redone: Option<Id>,
    // the first entry of the content
    pub entry: u32,
}

impl RunRecord {
    // The run's kind; the last one for a number past all kinds.
    pub fn kind(self) -> Kind
        ensures { result ≡ kind_of self.kind }
    {
        Kind::try_from(self.kind).unwrap_or(Kind::Skip)
    }

    // How many entries of the content it has.
    pub fn entries(self) -> u32
        ensures { result ≡ entries_of (kind_of self.kind) self.len }
    {
        entries_of(self.kind(), self.len)
    }

    // How many visible units it has. `Description` says the same of a run that was described, whose kind is
    // a `Kind` already.
    pub fn visible_len(self) -> u32
        ensures { result ≡ (if self.live && is_counted (kind_of self.kind) then self.len else 0) }
    {
        if self.live && self.kind().is_countable() {
            self.len
        } else {
            0
        }
    }

    // The clock after its last unit.
    pub fn end(self) -> u64
        ensures { result ≡ end_of self }
    {
        self.id.clock as u64 + self.len as u64
    }
}

// A list: its leftmost run, the unit that holds it (none: a root), and how many visible units it has.
#[derive(Clone, Copy, Debug, Default, PartialEq, Eq)]
pub struct ListRecord {
    pub start: Option<u32>,
    pub holder: Option<Id>,
    pub len: u32,
}

// A client, with the clock up to which its units are known.
#[derive(Clone, Copy, Debug, Default, PartialEq, Eq)]
pub struct ClientRecord {
    pub client: u64,
    pub known: u32,
}

// An entry of the content: its first byte, and how many bytes it has.
#[derive(Clone, Copy, Debug, Default, PartialEq, Eq)]
pub struct EntryRecord {
    pub start: u32,
    pub len: u32,
}

// The records in use, and the bytes of the content.
#[derive(Clone, Copy)]
pub struct View<'a> {
    pub runs: &'a [RunRecord],
    pub lists: &'a [ListRecord],
    pub clients: &'a [ClientRecord],
    pub entries: &'a [EntryRecord],
    pub bytes: &'a [u8],
}

impl<'a> View<'a> {
    // The run with this number; past those in use, one with no units and no list.
    pub fn run(&self, i: usize) -> RunRecord
        ensures { result ≡ run_at (held self.now) i }
    {
        self.runs.get(i).copied().unwrap_or_default()
    }

    // The list with this number; past those in use, an empty root.
    pub fn list(&self, l: usize) -> ListRecord
        ensures { result ≡ list_at (held self.now) l }
    {
        self.lists.get(l).copied().unwrap_or_default()
    }

    // The entry with this number; past those in use, one with no bytes.
    pub fn entry(&self, e: usize) -> EntryRecord
        ensures { result ≡ entry_at (held self.now) e }
    {
        self.entries.get(e).copied().unwrap_or_default()
    }

    // The bytes of an entry, as far as there are such bytes.
    pub fn bytes_of(&self, entry: EntryRecord) -> &'a [u8]
        ensures { result.now ≡ bytes_of (held self.now) entry }
    {
        let rest = self.bytes.get(entry.start as usize..).unwrap_or(&[]);
        rest.get(..entry.len as usize).unwrap_or(rest)
    }
}
