// Elements: their computed times, and what the elements read so far amount to.

ghost use Rattle.std.specs.Prelude.{◌≡◌, ◌+◌, ◌-◌, slice_index_or};
ghost use Rattle.fields.specs.Faults.{judged, told};
ghost use Rattle.documents.specs.Elements.{begin_of, end_of, least_of, most_of, up_to_limit, cut_to, root, time_at_of};
ghost use Rattle.fields.specs.Left.{part_of};
ghost use Rattle.documents.specs.Reading.{element_times_of};
ghost use Rattle.documents.specs.Outlines.{start as start_outline, grown};

use fields::fault::{FieldFault, Rejection, optional_time, placed};
use fields::reader::Field;
use times::clock::ENTRY_LIMIT;

// The computed times of an element. An absent end is that of an element with no end around it.
#[derive(Clone, Copy, Debug, PartialEq, Eq)]
pub struct Computed {
    pub begin: u32,
    pub end: Option<u32>,
}

// One element: how deep it stands, the times that it writes, and its computed times.
#[derive(Clone, Copy, Debug, PartialEq, Eq)]
pub struct Element {
    // a number, for the rule counts with it, and a narrower type would ask more of callers
    pub depth: u8,
    pub begin: Option<u32>,
    pub end: Option<u32>,
    pub computed: Computed,
}

// What is kept of the elements read so far: the depth of the last one, the computed times of the last
// one of each depth, from 0 for the body's parent, and the document's begin and end.
#[derive(Clone, Copy, Debug, PartialEq, Eq)]
pub struct Outline {
    // 0 before the first element: a number, as an element's, for the same reason
    pub depth: u8,
    // by depth, in fixed memory: there is no heap, and an outline is copied
    pub levels: [Computed; 5],
    pub begin: Option<u32>,
    pub end: Option<u32>,
}

// The body's parent.
const ROOT: Computed = Computed {
    begin: 0,
    end: None,
};

// A sum of two times, unless it passes the entry limit.
fn sum_of(a: u32, b: u32) -> Result<u32, FieldFault>
    ensures { judged result ≡ up_to_limit (a + b) }
{
    a.checked_add(b)
        .filter(|sum| *sum <= ENTRY_LIMIT)
        .ok_or(FieldFault::Limit)
}

fn computed_begin(parent: Computed, written: Option<u32>) -> Result<u32, FieldFault>
    ensures { judged result ≡ begin_of parent written }
{
    written.map_or(Ok(parent.begin), |time| sum_of(parent.begin, time))
}

// The line of `earlier` in questions: one for both is no plainer, since `map_or` is the whole of it and each cites its
// own definition.
fn cut_to(end: Option<u32>, time: u32) -> u32
    ensures { result ≡ cut_to end time }
{
    end.map_or(time, |end| time.min(end))
}

fn computed_end(parent: Computed, written: Option<u32>) -> Result<Option<u32>, FieldFault>
    ensures { judged result ≡ end_of parent written }
{
    let Some(time) = written else {
        return Ok(parent.end);
    };
    let own = sum_of(parent.begin, time)?;
    Ok(Some(cut_to(parent.end, own)))
}

fn least(so_far: Option<u32>, written: Option<u32>, computed: u32) -> Option<u32>
    ensures { result ≡ least_of so_far written computed }
{
    if written.is_none() {
        return so_far;
    }
    Some(so_far.map_or(computed, |least| least.min(computed)))
}

fn most(so_far: Option<u32>, written: Option<u32>, computed: Option<u32>) -> Option<u32>
    ensures { result ≡ most_of so_far written computed }
{
    if written.is_none() {
        return so_far;
    }
    so_far.max(computed)
}

// A time that may be absent, at its line.
pub fn time_at(line: usize, field: Field) -> Result<Option<u32>, Rejection>
    ensures { told result ≡ time_at_of line (part_of field.entry) }
{
    Ok(placed(line, field.offset, optional_time(field.bytes))?)
}

// The element of a depth under a parent, from the fields of its begin and end.
pub fn element_times(
    line: usize,
    depth: u8,
    parent: Computed,
    begin: Field,
    end: Field,
) -> Result<Element, Rejection>
    ensures { told result ≡ element_times_of line depth parent (part_of begin.entry) (part_of end.entry) }
{
    let written_begin = time_at(line, begin)?;
    let written_end = time_at(line, end)?;
    let computed = Computed {
        begin: placed(line, begin.offset, computed_begin(parent, written_begin))?,
        end: placed(line, end.offset, computed_end(parent, written_end))?,
    };
    Ok(Element {
        depth,
        begin: written_begin,
        end: written_end,
        computed,
    })
}

impl Outline {
    // Before the first element.
    pub fn start() -> Outline
        ensures { result ≡ start_outline }
    {
        Outline {
            depth: 0,
            levels: [ROOT; 5],
            begin: None,
            end: None,
        }
    }

    // The computed times of the parent of an element of a depth.
    pub fn parent_of(self, depth: u8) -> Computed
        ensures { result ≡ slice_index_or self.levels (depth - 1) root }
    {
        let parent = depth.saturating_sub(1) as usize;
        self.levels.get(parent).copied().unwrap_or(ROOT)
    }

    // One element more. A depth past the last place leaves the levels as they are.
    pub fn with(self, element: Element) -> Outline
        ensures { result ≡ grown self element }
    {
        let at = element.depth as usize;
        let mut levels = self.levels;
        if at < levels.len() {
            // no `get_mut`: tried, and what it leaves in the other places no proof knows
            levels[at] = element.computed;
        }
        Outline {
            depth: element.depth,
            levels,
            begin: least(self.begin, element.begin, element.computed.begin),
            end: most(self.end, element.end, element.computed.end),
        }
    }
}
