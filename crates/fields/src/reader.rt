// Lines and fields: the parts of a text between separators.

ghost use Rattle.std.specs.Prelude.{◌+◌, ◌^◌, ◌<◌, ◌≤◌, length};

pub mod reading;

// A part of a text, with its offset: how many bytes of the whole text stand before it.
#[derive(Clone, Copy, Debug, PartialEq, Eq)]
pub struct Field<'a> {
    pub bytes: &'a [u8],
    pub offset: usize,
}

// Hands out the parts of a borrowed text between separators: its lines at line feeds, a line's fields
// at commas. `base` is the text's own offset, `place` where the next part begins.
#[derive(Drop)]
pub struct Reader<'a> {
    text: &'a [u8],
    base: usize,
    place: usize,
    separator: u8,
    ghost small: { base + length text.now < 2 ^ 63 },
    ghost within: { place ≤ length text.now + 1 },
}
