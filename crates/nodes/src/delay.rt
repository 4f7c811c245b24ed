// Approving an adjustment, and what every delay node does with one; the nodes themselves stand below.

ghost use Rattle.std.specs.Prelude.{◌≡◌, ◌+◌, ◌-◌, ◌≤◌, min, true};
ghost use Rattle.streams.specs.Streams.{up_to, timely};
ghost use Rattle.streams.specs.Stacks.{later, held, retimed};
ghost use Rattle.nodes.specs.Approvals.{told_approval, approval_of};

pub mod chosen;
pub mod delayed;
mod delaying;
pub mod holder;
pub mod pile;
pub mod retimer;

use documents::document::Document;
use streams::due::due_moment;
use streams::stream::Stream;
use times::refusal::Refusal;

// The most that one node may add.
pub const MOST_ADJUSTMENT: u32 = 600_000;

// The most that the nodes of a stack may add together.
pub const MOST_TOTAL: u32 = 4_800_000;

// An adjustment that was approved. `approve` is the only way to one.
#[derive(Clone, Copy, Debug, PartialEq, Eq)]
pub struct Adjustment {
    amount: u32,
}

// Approves an adjustment against a stream, in milliseconds.
pub fn approve<S: Stream>(stream: &S, amount: u32) -> Result<Adjustment, Refusal>
    ensures { told_approval result ≡ approval_of (S.Stream.parts stream.now).total amount }
{
    if amount > MOST_ADJUSTMENT {
        return Err(Refusal::AdjustmentTooLarge);
    }
    if stream.total_adjustment().saturating_add(amount) > MOST_TOTAL {
        return Err(Refusal::TotalTooLarge);
    }
    Ok(Adjustment { amount })
}

impl Adjustment {
    // What is in force over a stream: the smaller of the approved amount and what its total leaves.
    pub fn in_force<S: Stream>(self, below: &S) -> u32
        ensures { result ≡ min self.amount (4800000 - (S.Stream.parts below.now).total) }
    {
        self.in_force_over(below.total_adjustment()).by
    }

    // The same over a stream of this total.
    fn in_force_over(self, total: u32) -> InForce
        ensures { result.by ≡ min self.amount (4800000 - total) }
    {
        InForce {
            by: self.amount.min(MOST_TOTAL.saturating_sub(total)),
        }
    }

    // The total of a node with this adjustment over a stream of this total.
    fn total_over(self, below: u32) -> u32
        ensures { result ≡ below + min self.amount (4800000 - below) }
    {
        below + self.in_force_over(below).by
    }
}

// An adjustment in force: never so large that a shown time and it pass the largest number.
#[derive(Clone, Copy)]
struct InForce {
    by: u32,
    ghost small: { by ≤ 4800000 },
}

impl InForce {
    // A time that is there, moved.
    fn moved(self, time: Option<u32>) -> Option<u32>
        requires { up_to 359999999 time ≡ true }
        ensures { result ≡ later self.by time }
    {
        time.map(|time| time + self.by)
    }

    // A document as a holder shows it.
    fn hold(self, x: &Document) -> Document
        requires { timely 359999999 x.now ≡ true }
        ensures { result ≡ held self.by x.now }
    {
        Document {
            available: x.available + self.by,
            begin: self.moved(x.begin),
            end: self.moved(x.end),
            ..*x
        }
    }

    // A document as a retimer shows it.
    fn retime(self, x: &Document) -> Document
        requires { timely 359999999 x.now ≡ true }
        ensures { result ≡ retimed self.by x.now }
    {
        Document {
            begin: Some(due_moment(x) + self.by),
            end: self.moved(x.end),
            ..*x
        }
    }
}
