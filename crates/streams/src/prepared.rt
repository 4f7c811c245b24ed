// The prepared list: a stream that does not take, over entries that the host lends.

ghost use Rattle.std.specs.Prelude.{◌≡◌, ◌≤◌, true, List, [], length, refl};
ghost use Rattle.streams.specs.Prepared.{fits as fits_after, is_prepared_of, prepared_parts, prepared_lawful, opened_parts, opening_refusal};

use crate::live::MOST_SHOWN;
use crate::making::{NotOpened, PreparedOver};
use crate::stream::Stream;
use documents::document::Document;
use times::clock::{ENTRY_LIMIT, LAST_MOMENT};
use times::refusal::Refusal;

// One line of a prepared list: when it begins and ends, and what is drawn.
#[derive(Clone, Copy, Debug, PartialEq, Eq)]
pub struct Entry {
    pub begin: u32,
    pub end: u32,
    pub content: u32,
}

// A list that was opened. Entry i, from 0, is document i + 1.
#[derive(Clone, Copy)]
pub struct Prepared<'a> {
    entries: &'a [Entry],
    ghost fine: { is_prepared_of entries.now ≡ true },
}

// Whether an entry may follow one that begins at `last`.
fn fits(last: u32, entry: &Entry) -> bool
    ensures { result ≡ fits_after last entry.now }
{
    last <= entry.begin && entry.begin < entry.end && entry.end <= ENTRY_LIMIT
}

// A rule of the project: opening looks at each entry in turn, in a loop that has the entry's place as its index.
fn is_prepared(entries: &[Entry]) -> bool
    ensures { result ≡ is_prepared_of entries.now }
{
    let mut last = 0;
    for (i, entry) in entries.iter().enumerate() {
        if i >= MOST_SHOWN || !fits(last, entry) {
            return false;
        }
        last = entry.begin;
    }
    true
}

impl<'a> PreparedOver<'a> for Prepared<'a> {
    fn open(entries: &'a [Entry]) -> Result<Prepared<'a>, NotOpened<Prepared<'a>>> {
        if is_prepared(entries) {
            Ok(Prepared { entries })
        } else {
            Err(NotOpened {
                refusal: Refusal::NotPrepared,
                list: Prepared { entries: &[] },
            })
        }
    }
}

impl<'a> Stream for Prepared<'a> {
    ghost parts = { λ s. prepared_parts s.entries.now };

    ghost lawful = { λ s. prepared_lawful s.entries.now s.fine };

    ghost nodes = { λ s. [] };

    ghost bare = { λ s. prepared_parts s.entries.now };

    ghost stacked = { λ s. refl };

    #[tactic(auto, using(crate::specs::Prepared::length_from))]
    fn count(&self) -> usize {
        self.entries.len() // every entry is shown
    }

    #[tactic(auto, using(crate::specs::Prepared::prepared_at, crate::specs::Prepared::prepared_past))]
    fn document_at(&self, place: usize) -> Option<Document> {
        self.entries.get(place).map(|entry| Document {
            number: place as u32 + 1,
            available: 0,
            begin: Some(entry.begin),
            end: Some(entry.end),
            dur: None,
            content: entry.content,
        })
    }

    fn settled_moment(&self) -> u32 {
        LAST_MOMENT + 1
    }

    fn total_adjustment(&self) -> u32 {
        0 // nothing is delayed
    }
}
