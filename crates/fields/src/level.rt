// The levels of a document's elements.

ghost use Rattle.std.specs.Prelude.{◌≡◌};
ghost use Rattle.std.specs.Str.{bytes_eq};
ghost use Rattle.fields.specs.Faults.{judged};
ghost use Rattle.fields.specs.Levels.{level_of, depth_of, level_fits_of, level_field_of};

use crate::fault::FieldFault;

// An element's level. Its number is its depth.
#[derive(Clone, Copy, Debug, PartialEq, Eq)]
pub enum Level {
    Body = 1,
    Div = 2,
    P = 3,
    Span = 4,
}

impl Level {
    // The level of a name; only lower case counts.
    pub fn named(name: &[u8]) -> Option<Level>
        ensures { result ≡ level_of name.now }
    {
        match name {
            b"body" => Some(Level::Body),
            b"div" => Some(Level::Div),
            b"p" => Some(Level::P),
            b"span" => Some(Level::Span),
            _ => None,
        }
    }

    // How deep the level stands: 1 for the body to 4 for a span.
    pub fn depth(self) -> u8
        ensures { result ≡ depth_of self }
    {
        self as u8
    }
}

// Whether two texts are the same.
pub fn is_text(bytes: &[u8], expected: &[u8]) -> bool
    ensures { result ≡ bytes_eq bytes.now expected.now }
{
    bytes == expected
}

// Whether an element of a depth may follow one of the depth `before`, which is 0 before the first.
fn level_fits(before: u8, depth: u8) -> bool
    ensures { result ≡ level_fits_of before depth }
{
    if before == 0 {
        depth == 1
    } else {
        2 <= depth && depth - 1 <= before
    }
}

// The depth that a level's field names, where it may follow an element of the depth `before`.
// A depth is a number, for the rule counts with it, and a narrower type would ask more of callers.
pub fn level_field(before: u8, name: &[u8]) -> Result<u8, FieldFault>
    ensures { judged result ≡ level_field_of before name.now }
{
    Level::named(name)
        .map(Level::depth)
        .filter(|depth| level_fits(before, *depth))
        .ok_or(FieldFault::Level)
}
