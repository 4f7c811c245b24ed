// The lines of a script.

ghost use Rattle.std.specs.Prelude.{◌≡◌, ◌+◌, ◌≤◌, true, length};
ghost use Rattle.fields.specs.Left.{left};
ghost use Rattle.scripts.specs.Lines.{last_only};

pub mod reading;

use fields::reader::Reader;

// A line without its line feed: where it begins, its number from 1, whether it has its line feed, and where
// the next line begins. Without a line feed a line still has its bytes, so `ended` is no `Option` of them.
#[derive(Clone, Copy, Debug, PartialEq, Eq)]
pub struct Line<'a> {
    pub bytes: &'a [u8],
    pub offset: usize,
    pub number: usize,
    pub ended: bool,
    pub past: usize,
}

// A borrowed script, read line by line; `number` lines were handed out.
#[derive(Drop)]
pub struct Script<'a> {
    text: &'a [u8],
    lines: Reader<'a>,
    number: usize,
    ghost counted: { number + length (left lines) ≤ 1048577 },
    ghost small: { length text.now ≤ 1048576 },
    ghost last: { last_only (length text.now) (left lines) ≡ true },
}
