// How a reader goes through its text.

ghost use Rattle.std.specs.Prelude.{◌≡◌, ◌+◌, ◌^◌, ◌<◌, ◌≤◌, ◌≢◌, [], ◌∷◌, length, map, IfSome, MatchOption};
ghost use Rattle.fields.specs.Parts.{before, leading, parts, parts_at, first, rest, past_empty, Cut};
ghost use Rattle.std.specs.Bool.{⊤};
ghost use Rattle.std.specs.Iterator.{MakesProgress, item_count};
ghost use Rattle.fields.specs.Left.{left, part_of, part_in, GivesPart};

use super::{Field, Reader};

// The largest offset of a part's end.
const MOST_OFFSET: usize = isize::MAX as usize;

// How many bytes stand before the first separator, or in the whole text.
fn until(text: &[u8], separator: u8) -> usize
    ensures value { result ≡ before separator text.now }
    ensures bound { result ≤ length text.now }
{
    text.iter()
        .position(|b| *b == separator)
        .unwrap_or(text.len())
}

// How many separators a text begins with. It and `until` are a line each; one for both, given the test by a closure, is no plainer.
fn leading(text: &[u8], separator: u8) -> usize
    ensures value { result ≡ leading separator text.now }
    ensures bound { result ≤ length text.now }
{
    text.iter()
        .position(|b| *b != separator)
        .unwrap_or(text.len())
}

impl<'a> Reader<'a> {
    // All parts of a text that stands at an offset. A text whose offsets would pass `MOST_OFFSET`, which is
    // more than any memory holds, has none.
    #[tactic(auto, using(crate::proofs::Cuts::parts_few))]
    pub fn new(text: &'a [u8], base: usize, separator: u8) -> Reader<'a>
        ensures all { left result ≡ parts_at separator base text.now }
        ensures near { base + length text.now < 2 ^ 63 → left result ≡ parts separator base text.now }
        ensures law { Cut }
        ensures few { length (left result) ≤ length text.now + 1 }
    {
        if base.saturating_add(text.len()) > MOST_OFFSET {
            return Reader {
                text: &[],
                base: 0,
                place: 1,
                separator,
            };
        }
        Reader {
            text,
            base,
            place: 0,
            separator,
        }
    }

    // Goes past the empty parts that come next, but for the last of all, and answers how many they were. Over a run of
    // separators it takes a third of the time that `next` takes.
    pub fn skip_empty(&mut self) -> usize
        ensures parts { left self.new ≡ past_empty (left self.old) }
        ensures count { result + length (left self.new) ≡ length (left self.old) }
    {
        let Some(rest) = self.text.get(self.place..) else {
            return 0;
        };
        let count = leading(rest, self.separator);
        self.place += count;
        count
    }

    // Writes the parts that are left into `fields`, where they are as many. The room is lent by the caller,
    // since the borrow checker covers no array of fields whose length is a const parameter.
    pub fn fill(&mut self, fields: &mut [Field<'a>]) -> Option<()>
        ensures len { length fields.new ≡ length fields.old }
        ensures parts { MatchOption result (length (left self.old) ≢ length fields.old) (λ _. left self.old ≡ map part_of fields.new) }
    {
        for field in fields.iter_mut() {
            *field = self.next()?;
        }
        self.next().is_none().then_some(())
    }
}

impl<'a> Iterator for Reader<'a> {
    type Item = Field<'a>;

    ghost next_gives = { GivesPart };

    ghost remaining = { item_count left };

    // The next part, until none is left.
    fn next(&mut self) -> Option<Field<'a>>
        ensures steps { GivesPart self.old result self.new }
        ensures goes { MakesProgress (λ _. ⊤) (item_count left) self.old result self.new }
        ensures small { IfSome result (λ f. f.offset + length f.bytes.now < 2 ^ 63) }
        ensures first { part_in result ≡ first (left self.old) }
        ensures rest { left self.new ≡ rest (left self.old) }
        ensures fewer { length (left self.new) ≤ length (left self.old) }
        ensures cases { MatchOption result (left self.old ≡ []) (λ f. left self.old ≡ part_of f ∷ left self.new) }
    {
        let rest = self.text.get(self.place..)?;
        let len = until(rest, self.separator);
        let offset = self.base + self.place;
        self.place += len + 1;
        Some(Field {
            bytes: &rest[..len],
            offset,
        })
    }
}
