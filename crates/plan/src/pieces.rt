// The pieces of an input between its blank lines.

ghost use Rattle.std.specs.Prelude.{◌≤◌, length};

pub mod cutting;

// A piece: a part of the input that no blank line interrupts, with its offset.
#[derive(Clone, Copy, Debug, PartialEq, Eq)]
pub struct Piece<'a> {
    pub bytes: &'a [u8],
    pub offset: usize,
}

// Hands out the pieces of a borrowed input, one by one; `place` is where the next one is looked for.
#[derive(Drop)]
pub struct Pieces<'a> {
    input: &'a [u8],
    place: usize,
    ghost within: { place ≤ length input.now },
}
