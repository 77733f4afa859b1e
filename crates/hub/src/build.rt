use crate::parse;
use crate::trouble::Trouble;
use block::ids::Id;
use block::kind::Kind;
use std::alloc::Global;
use std::collections::BTreeMap;
use store::records::{ClientRecord, EntryRecord, ListRecord, RunRecord, View};

// A number of records, if it fits 32 bits.
fn small(count: usize, reason: &'static str) -> Result<u32, Trouble> {
    u32::try_from(count).map_err(|_| Trouble::Line(reason))
}

// Tables that are filled line by line.
#[derive(Drop)]
pub(crate) struct Store {
    runs: Vec<RunRecord>,
    lists: Vec<ListRecord>,
    clients: Vec<ClientRecord>,
    entries: Vec<EntryRecord>,
    bytes: Vec<u8>,
    // the rightmost run of each list that has runs
    ends: BTreeMap<u32, u32>,
}

impl Store {
    pub(crate) fn new(heap: Global) -> Store {
        Store {
            runs: Vec::new(heap),
            lists: Vec::new(heap),
            clients: Vec::new(heap),
            entries: Vec::new(heap),
            bytes: Vec::new(heap),
            ends: BTreeMap::new(heap),
        }
    }

    // The tables, lent.
    pub(crate) fn view(&self) -> View<'_> {
        View {
            runs: self.runs.as_slice(),
            lists: self.lists.as_slice(),
            clients: self.clients.as_slice(),
            entries: self.entries.as_slice(),
            bytes: self.bytes.as_slice(),
        }
    }

    // A new, empty list: a root, or one that a unit holds.
    pub(crate) fn add_list(&mut self, holder: Option<Id>) -> Result<(), Trouble> {
        self.lists.push(ListRecord {
            holder,
            ..ListRecord::default()
        })?;
        Ok(())
    }

    // A new entry with these bytes.
    fn add_entry(&mut self, bytes: &[u8]) -> Result<(), Trouble> {
        let start = small(self.bytes.len(), "too many bytes")?;
        let len = small(bytes.len(), "too many bytes")?;
        self.bytes.extend_from_slice(bytes)?;
        self.entries.push(EntryRecord { start, len })?;
        Ok(())
    }

    // Stores the content of a run, and says how many units it has.
    fn add_content(&mut self, kind: Kind, content: &str) -> Result<u32, Trouble> {
        match kind {
            Kind::Gc | Kind::Deleted | Kind::Skip => {
                parse::number(content, "this kind wants a count")
            }
            Kind::List => Ok(1),
            Kind::Text => {
                self.add_entry(content.as_bytes())?;
                small(content.chars().count(), "too long")
            }
            Kind::Json | Kind::Any => {
                for part in content.split('|') {
                    self.add_entry(part.trim().as_bytes())?;
                }
                small(content.split('|').count(), "too long")
            }
            Kind::Binary | Kind::Embed | Kind::Format | Kind::Doc => {
                self.add_entry(content.as_bytes())?;
                Ok(1)
            }
        }
    }

    // The client's known clock grows to this clock. The records are searched, since a view lends them as a slice.
    fn know(&mut self, client: u64, clock: u32) -> Result<(), Trouble> {
        match self
            .clients
            .iter_mut()
            .find(|record| record.client == client)
        {
            Some(record) => record.known = record.known.max(clock),
            None => self.clients.push(ClientRecord {
                client,
                known: clock,
            })?,
        }
        Ok(())
    }

    // A new run at the right end of a list, or of no list.
    pub(crate) fn add_run(
        &mut self,
        list: Option<u32>,
        id: Id,
        kind: Kind,
        live: bool,
        content: &str,
    ) -> Result<(), Trouble> {
        let here = small(self.runs.len(), "too many runs")?;
        let entry = small(self.entries.len(), "too many runs")?;
        if list.is_some_and(|l| l as usize >= self.lists.len()) {
            return Err(Trouble::Line("no such list"));
        }
        let left = list.and_then(|l| self.ends.get(&l).copied());
        let len = self.add_content(kind, content)?;
        self.know(id.client, id.clock.saturating_add(len))?;
        let run = RunRecord {
            id,
            len,
            kind: u8::from(kind),
            live,
            list,
            left,
            entry,
            ..RunRecord::default()
        };
        self.runs.push(run)?;
        let Some(l) = list else {
            return Ok(());
        };
        self.ends.insert(l, here)?;
        self.attach(l, left, here, run.visible_len());
        Ok(())
    }

    // Joins a new run to its left neighbour or its list, and counts its visible units.
    fn attach(&mut self, list: u32, left: Option<u32>, here: u32, visible: u32) {
        if let Some(record) = self.lists.get_mut(list as usize) {
            record.len = record.len.saturating_add(visible);
            record.start = record.start.or(Some(here));
        }
        if let Some(run) = left.and_then(|i| self.runs.get_mut(i as usize)) {
            run.right = Some(here);
        }
    }

    // The run that begins with this unit gets a successor. The records are searched, as for clients.
    pub(crate) fn redo(&mut self, id: Id, successor: Id) -> Result<(), Trouble> {
        let run = self
            .runs
            .iter_mut()
            .find(|run| run.id == id)
            .ok_or(Trouble::Line("no run begins with this unit"))?;
        run.redone = Some(successor);
        Ok(())
    }
}
