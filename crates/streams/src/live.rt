// The live table: a taking stream over records that the host lends.

ghost use Rattle.std.specs.Prelude.{◌≡◌, ◌≤◌, true, List, [], length, take, refl};
ghost use Rattle.times.specs.Refusals.{refusal_in};
ghost use Rattle.streams.specs.Streams.{orderly, timely, up_to};
ghost use Rattle.streams.specs.Stacks.{Delay};
ghost use Rattle.streams.specs.Taking.{last_number_of, take_refusal, after_take, tick_refusal, after_tick, Prompt};
ghost use Rattle.streams.specs.Tables.{usable, table_parts, records_after};
ghost use Rattle.streams.specs.Fronts.{last_available, front_lawful};

use crate::making::TableOver;
use crate::stream::Stream;
use crate::taking::TakingStream;
use documents::document::Document;
use times::clock::ENTRY_LIMIT;
use times::refusal::Refusal;

// The most records that a table uses of those it is lent.
pub const MOST_SHOWN: usize = 4096;

// Documents in lent records: the first `used` are shown, and `moment` is the entry moment. The count stands beside
// the records, since their memory is the host's.
#[derive(Drop)]
pub struct LiveTable<'a> {
    records: &'a mut [Document],
    used: usize,
    moment: u32,
    ghost within: { used ≤ usable records.now },
    ghost ordered: { orderly 355199999 0 0 (take used records.now) ≡ true },
    ghost reached: { last_available 0 (take used records.now) ≤ moment },
    ghost entering: { moment ≤ 355199999 },
}

impl<'a> LiveTable<'a> {
    // The records in use.
    fn shown(&self) -> &[Document]
        ensures { result.now ≡ take self.now.used self.now.records.now }
    {
        &self.records[..self.used]
    }

    #[tactic(auto, using(crate::specs::Fronts::last_some, crate::specs::Fronts::last_none))]
    fn last_number(&self) -> u32
        ensures { result ≡ last_number_of (take self.now.used self.now.records.now) }
    {
        self.shown().last().map_or(0, |x| x.number)
    }
}

// An empty table at entry moment 0. What the records hold is kept until they are used.
impl<'a> TableOver<'a> for LiveTable<'a> {
    ghost use Rattle.streams.specs.Live.{table_of};

    fn over(records: &'a mut [Document]) -> LiveTable<'a>
        ensures parts { table_of result ≡ table_parts 0 records.old 0 }
        ensures nodes { ◌≡◌ {A = List Delay} [] [] }
        ensures bare { table_of result ≡ table_of result }
        ensures used { result.used ≡ 0 }
        ensures moment { result.moment ≡ 0 }
        ensures records { result.records.now ≡ records.old }
        ensures lender { result.records.ghost_name ≡ records.entry.ghost_name }
    {
        LiveTable {
            records,
            used: 0,
            moment: 0,
        }
    }
}

fn within_limit(time: Option<u32>) -> bool
    ensures { result ≡ up_to 355199999 time }
{
    time.is_none_or(|time| time <= ENTRY_LIMIT)
}

fn is_timely(x: &Document) -> bool
    ensures { result ≡ timely 355199999 x.now }
{
    x.available <= ENTRY_LIMIT
        && within_limit(x.begin)
        && within_limit(x.end)
        && within_limit(x.dur)
}

impl<'a> Stream for LiveTable<'a> {
    ghost use Rattle.streams.specs.Live.{table_of};

    ghost parts = { table_of };

    ghost lawful = { λ s. front_lawful s.used s.records.now s.moment s.within s.ordered s.entering };

    ghost nodes = { λ s. [] };

    ghost bare = { table_of };

    ghost stacked = { λ s. refl };

    fn count(&self) -> usize {
        self.used // every record in use is shown
    }

    fn document_at(&self, place: usize) -> Option<Document> {
        self.shown().get(place).copied()
    }

    fn settled_moment(&self) -> u32 {
        self.moment // settled as soon as it is entered
    }

    fn total_adjustment(&self) -> u32 {
        0 // nothing is delayed
    }
}

// Take and tick repeat the interface's promises at what a table means, and add what the lent records
// then hold, and that they are still the ones that were lent.
impl<'a> TakingStream for LiveTable<'a> {
    ghost use Rattle.streams.specs.Live.{table_of};

    fn entry_moment(&self) -> u32 {
        self.moment // the last that was taken or ticked
    }

    fn take(&mut self, document: Document) -> Result<(), Refusal>
        ensures answer { refusal_in result ≡ take_refusal (table_of self.old) document }
        ensures after { table_of self.new ≡ after_take (table_of self.old) document }
        ensures prompt { Prompt (table_of self.old) document }
        ensures nodes { ◌≡◌ {A = List Delay} [] [] }
        ensures bare { table_of self.new ≡ after_take (table_of self.old) document }
        ensures records { self.new.records.now ≡ records_after self.old.used self.old.records.now self.old.moment document }
        ensures lender { self.new.records.ghost_name ≡ self.old.records.ghost_name }
    {
        if document.number == 0 {
            return Err(Refusal::NotANumber);
        }
        if !is_timely(&document) {
            return Err(Refusal::PastEntryLimit);
        }
        if document.available < self.moment {
            return Err(Refusal::BeforeEntryMoment);
        }
        if document.number <= self.last_number() {
            return Err(Refusal::NumberNotAboveLast);
        }
        if self.used >= self.records.len() || self.used >= MOST_SHOWN {
            return Err(Refusal::NoRecordLeft);
        }
        self.records[self.used] = document;
        self.used += 1;
        self.moment = document.available;
        Ok(())
    }

    fn tick(&mut self, moment: u32) -> Result<(), Refusal>
        ensures answer { refusal_in result ≡ tick_refusal (table_of self.old) moment }
        ensures after { table_of self.new ≡ after_tick (table_of self.old) moment }
        ensures nodes { ◌≡◌ {A = List Delay} [] [] }
        ensures bare { table_of self.new ≡ after_tick (table_of self.old) moment }
        ensures records { self.new.records.now ≡ self.old.records.now }
        ensures lender { self.new.records.ghost_name ≡ self.old.records.ghost_name }
    {
        if moment < self.moment {
            return Err(Refusal::BeforeEntryMoment);
        }
        if moment > ENTRY_LIMIT {
            return Err(Refusal::TickPastEntryLimit);
        }
        self.moment = moment;
        Ok(())
    }
}
