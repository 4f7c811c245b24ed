// Why a text is not taken: from a time's fault to the field's, to the place in the text, to the
// record that hand-in answers. Each step is a `From`, so `?` carries a fault whole.

ghost use Rattle.std.specs.Prelude.{◌≡◌};
ghost use Rattle.fields.specs.Faults.{refusal_for, cause_for, rejection_of, rejection_by, placed_as, judged, time_field_of, optional_time_of};
ghost use Rattle.fields.specs.declared.fault.FieldFault.TheVariants.{Time};

use times::clock::{TimeFault, read_time};
use times::refusal::Refusal;

// Why a field is refused.
#[derive(Clone, Copy, Debug, PartialEq, Eq)]
pub enum FieldFault {
    // not a number of its range
    Number,
    // not a time, and why
    Time(TimeFault),
    // an unknown level, or one out of place
    Level,
    // a computed time past the entry limit
    Limit,
}

impl From<TimeFault> for FieldFault {
    ghost from_gives = { λ t f. f ≡ Time t };

    fn from(fault: TimeFault) -> FieldFault {
        Self::Time(fault)
    }
}

impl FieldFault {
    // The refusal that a field's fault is.
    pub fn refusal(self) -> Refusal
        ensures { result ≡ refusal_for self }
    {
        match self {
            FieldFault::Number => Refusal::NotANumber,
            FieldFault::Time(_) => Refusal::NotATime,
            FieldFault::Level => Refusal::LevelOutOfPlace,
            FieldFault::Limit => Refusal::PastEntryLimit,
        }
    }

    // The time's fault inside it, if it is one.
    pub fn cause(self) -> Option<TimeFault>
        ensures { result ≡ cause_for self }
    {
        match self {
            FieldFault::Time(fault) => Some(fault),
            _ => None,
        }
    }
}

// A field's fault and where the field stands: its line, from 1, and its offset in the text.
#[derive(Clone, Copy, Debug, PartialEq, Eq)]
pub struct PlacedFault {
    pub line: usize,
    pub offset: usize,
    pub fault: FieldFault,
}

// Why a text was not taken: the refusal, its line from 1, its byte offset, and the time's fault with
// a refused time. Where no line is to blame, line and byte are 0.
#[derive(Clone, Copy, Debug, PartialEq, Eq)]
pub struct Rejection {
    pub refusal: Refusal,
    pub line: usize,
    pub byte: usize,
    pub cause: Option<TimeFault>,
}

impl From<PlacedFault> for Rejection {
    ghost from_gives = { λ p r. r ≡ rejection_of p };

    fn from(placed: PlacedFault) -> Rejection {
        Rejection {
            refusal: placed.fault.refusal(),
            line: placed.line,
            byte: placed.offset,
            cause: placed.fault.cause(),
        }
    }
}

impl From<Refusal> for Rejection {
    ghost from_gives = { λ e r. r ≡ rejection_by e };

    fn from(refusal: Refusal) -> Rejection {
        Rejection {
            refusal,
            line: 0,
            byte: 0,
            cause: None,
        }
    }
}

// What judging a field answered, with the place where the field stands.
pub fn placed<T>(
    line: usize,
    offset: usize,
    answer: Result<T, FieldFault>,
) -> Result<T, PlacedFault>
    ensures { result ≡ placed_as line offset answer }
{
    answer.map_err(|fault| PlacedFault {
        line,
        offset,
        fault,
    })
}

// A time that must be there.
pub fn time_field(bytes: &[u8]) -> Result<u32, FieldFault>
    ensures { judged result ≡ time_field_of bytes.now }
{
    Ok(read_time(bytes)?)
}

// A time that may be absent, which is written as nothing.
pub fn optional_time(bytes: &[u8]) -> Result<Option<u32>, FieldFault>
    ensures { judged result ≡ optional_time_of bytes.now }
{
    if bytes.is_empty() {
        return Ok(None);
    }
    Ok(Some(read_time(bytes)?))
}
