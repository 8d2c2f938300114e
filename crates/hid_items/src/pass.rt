ghost use Rattle.std.specs.Prelude.{◌≡◌, ◌+◌, ◌<◌, ◌≤◌, [], ◌∷◌, length, drop, OnOk, IfOk, IfErr, MatchResult};
ghost use Rattle.hid_items.specs.State.{start, after};
ghost use Rattle.hid_items.specs.Lengths.{id_bits};
ghost use Rattle.hid_items.specs.Item.{Ends, items_from};
ghost use Rattle.hid_items.specs.declared.item.Item.TheVariants.{Field, ReportId, Push, Pop, EndCollection};
ghost use Rattle.hid_items.specs.Reports.{fault_in, rows_after, pass, TellsFault};

use crate::item::{Item, ReportKind, data_size, item_at};
use crate::reports::Reports;
use crate::state::ItemState;
use crate::{ItemFault, ReportLen};
use arrayvec::ArrayVec;

/// One pass over the items of a descriptor.
#[derive(Drop)]
pub(crate) struct Pass {
    state: ItemState,
    reports: Reports,
}

/// How many bits a report may have, with its id.
const BIT_LIMIT: u64 = 512;

impl Pass {
    pub(crate) fn new() -> Self
        ensures state { result.state ≡ start }
        ensures reports { result.reports ≡ [] }
    {
        Pass {
            state: ItemState::new(),
            reports: Reports::new(),
        }
    }

    /// Reads and takes the item at `place`, by its prefix and the bytes behind it, and gives the size of
    /// its data.
    #[tactic(auto, using(crate::proofs::Steps::step_rules))]
    pub(crate) fn step(&mut self, place: u16, prefix: u8, behind: &[u8]) -> Result<usize, ItemFault>
        requires few_open { self.old.state.open_collections ≤ place }
        requires in_range { place < 512 }
        ensures on { IfOk result (λ size. pass self.old.state self.old.reports (items_from 0 place (prefix ∷ behind.now)) ≡ pass self.new.state self.new.reports (items_from 0 (place + 1 + size) (drop size behind.now))) }
        ensures size { IfOk result (λ size. size ≤ length behind.now) }
        ensures small { IfOk result (λ size. size ≤ 4) }
        ensures open { OnOk result (self.new.state.open_collections ≤ place + 1) }
        ensures fault { IfErr result (λ fault. pass self.old.state self.old.reports (items_from 0 place (prefix ∷ behind.now)) ≡ Err fault) }
    {
        let item = item_at(place, prefix, behind)?;
        self.take(place, item)?;
        Ok(data_size(prefix))
    }

    /// Takes the item at `place`, or tells the fault that stands there.
    fn take(&mut self, place: u16, item: Item) -> Result<(), ItemFault>
        requires few_open { self.old.state.open_collections ≤ place }
        requires in_range { place < 512 }
        ensures fault { TellsFault result (fault_in self.old.state self.old.reports place item) }
        ensures state { OnOk result (self.new.state ≡ after self.old.state item) }
        ensures reports { OnOk result (self.new.reports ≡ rows_after self.old.state item self.old.reports) }
    {
        match item {
            Item::Field(kind) => self.field(place, kind),
            Item::ReportSize(size) => {
                self.state.set_size(size);
                Ok(())
            }
            Item::ReportCount(count) => {
                self.state.set_count(count);
                Ok(())
            }
            Item::ReportId(id) => self.report_id(place, id),
            Item::Push => self.push(place),
            Item::Pop => self.pop(place),
            Item::Collection => {
                self.state.open();
                Ok(())
            }
            Item::EndCollection => self.end_collection(place),
            Item::Other => Ok(()),
        }
    }

    fn field(&mut self, place: u16, kind: ReportKind) -> Result<(), ItemFault>
        ensures fault { TellsFault result (fault_in self.old.state self.old.reports place (Field kind)) }
        ensures state { OnOk result (self.new.state ≡ self.old.state) }
        ensures reports { OnOk result (self.new.reports ≡ rows_after self.old.state (Field kind) self.old.reports) }
    {
        let globals = self.state.globals();
        let id = globals.id;
        if self.reports.refuses(id) {
            return Err(ItemFault::Ids(place));
        }
        let bits = u64::from(globals.size) * u64::from(globals.count);
        if id_bits(id) + u64::from(self.reports.bits(id, kind)) + bits > BIT_LIMIT {
            return Err(ItemFault::Size(place));
        }
        self.reports.add(kind, id, bits as u16);
        Ok(())
    }

    fn report_id(&mut self, place: u16, id: u32) -> Result<(), ItemFault>
        ensures fault { TellsFault result (fault_in self.old.state self.old.reports place (ReportId id)) }
        ensures state { OnOk result (self.new.state ≡ after self.old.state (ReportId id)) }
        ensures reports { OnOk result (self.new.reports ≡ self.old.reports) }
    {
        if id == 0 || id > 255 || self.reports.has(0) {
            return Err(ItemFault::Ids(place));
        }
        self.state.set_id(id as u8);
        Ok(())
    }

    fn push(&mut self, place: u16) -> Result<(), ItemFault>
        ensures fault { TellsFault result (fault_in self.old.state self.old.reports place Push) }
        ensures state { OnOk result (self.new.state ≡ after self.old.state Push) }
        ensures reports { OnOk result (self.new.reports ≡ self.old.reports) }
    {
        if self.state.is_full() {
            return Err(ItemFault::Stack(place));
        }
        self.state.push();
        Ok(())
    }

    fn pop(&mut self, place: u16) -> Result<(), ItemFault>
        ensures fault { TellsFault result (fault_in self.old.state self.old.reports place Pop) }
        ensures state { OnOk result (self.new.state ≡ after self.old.state Pop) }
        ensures reports { OnOk result (self.new.reports ≡ self.old.reports) }
    {
        if self.state.pop() {
            Ok(())
        } else {
            Err(ItemFault::Stack(place))
        }
    }

    fn end_collection(&mut self, place: u16) -> Result<(), ItemFault>
        ensures fault { TellsFault result (fault_in self.old.state self.old.reports place EndCollection) }
        ensures state { OnOk result (self.new.state ≡ after self.old.state EndCollection) }
        ensures reports { OnOk result (self.new.reports ≡ self.old.reports) }
    {
        if self.state.open_collections() == 0 {
            return Err(ItemFault::Nest(place));
        }
        self.state.close();
        Ok(())
    }

    /// The lengths at the end of the descriptor, which is at `place`.
    pub(crate) fn finish(&self, place: u16) -> Result<ArrayVec<ReportLen, 8>, ItemFault>
        ensures { MatchResult result (λ lengths. pass self.now.state self.now.reports (Ends place) ≡ Ok lengths.items) (λ fault. pass self.now.state self.now.reports (Ends place) ≡ Err fault) }
    {
        if self.state.open_collections() != 0 {
            return Err(ItemFault::Nest(place));
        }
        Ok(self.reports.lengths())
    }
}

/// The bits that a report's id takes in front of it.
fn id_bits(id: u8) -> u64
    ensures value { result ≡ id_bits id }
    ensures bound { result ≤ 8 }
{
    if id == 0 { 0 } else { 8 }
}
