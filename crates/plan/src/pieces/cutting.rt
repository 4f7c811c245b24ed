// How the pieces are found.

ghost use Rattle.std.specs.Prelude.{◌≡◌, ◌+◌, ◌<◌, ◌≤◌, [], ◌∷◌, length, drop, MatchOption, ◌≢◌, slice_index};
ghost use Rattle.std.specs.Bool.{⊤};
ghost use Rattle.std.specs.Iterator.{MakesProgress, YieldsFirstBy, item_count};
ghost use Rattle.fields.specs.Parts.{rest};
ghost use Rattle.plan.specs.Pieces.{kept, pieces_of, Pieced};
ghost use Rattle.plan.specs.Cutting.{line_end_of, feeds_of, left_at, piece_at, empty_at};
ghost use Rattle.plan.specs.Left.{left, piece_of};

use super::{Piece, Pieces};

// How long the first line is, its line feed included.
fn first_line(bytes: &[u8]) -> usize
    ensures value { result ≡ line_end_of bytes.now }
    ensures bound { result ≤ length bytes.now }
{
    bytes
        .iter()
        .position(|&b| b == b'\n')
        .map_or(bytes.len(), |i| i + 1)
}

// How many line feeds stand in front.
fn feeds(bytes: &[u8]) -> usize
    ensures value { result ≡ feeds_of bytes.now }
    ensures bound { result ≤ length bytes.now }
    ensures stop { result < length bytes.now → slice_index bytes.now result ≢ 10 }
{
    bytes
        .iter()
        .position(|&b| b != b'\n')
        .unwrap_or(bytes.len())
}

impl<'a> Pieces<'a> {
    // All pieces of an input.
    pub fn new(input: &'a [u8]) -> Pieces<'a>
        ensures all { left result ≡ pieces_of input.now }
        ensures law { Pieced }
        ensures few { length (left result) ≤ length input.now }
    {
        Pieces { input, place: 0 }
    }

    // Past the blank lines.
    fn skip_blank(&mut self)
        ensures value { left self.new ≡ left self.old }
        ensures stop { self.new.place < length self.new.input.now → slice_index self.new.input.now self.new.place ≢ 10 }
    {
        self.place += feeds(&self.input[self.place..]);
    }

    // Where the piece that begins here ends: at a blank line or at the input's end. No chain is plainer: each step begins
    // where the last one ended, and only the first byte of a line is looked at.
    fn piece_end(&self) -> usize
        requires within { self.now.place < length self.now.input.now }
        requires shown { slice_index self.now.input.now self.now.place ≢ 10 }
        ensures bound { result ≤ length self.now.input.now }
        ensures some { self.now.place < result }
        ensures cut { left_at self.now.place self.now.input.now ≡ piece_at self.now.place result self.now.input.now ∷ rest (left_at result self.now.input.now) }
        ensures stop { left_at result self.now.input.now ≡ empty_at result ∷ rest (left_at result self.now.input.now) }
    {
        let input = self.input;
        let mut place = self.place + first_line(&input[self.place..]);
        while place < input.len() && input[place] != b'\n' {
            place += first_line(&input[place..]);
        }
        place
    }
}

impl<'a> Iterator for Pieces<'a> {
    type Item = Piece<'a>;

    ghost next_gives = { YieldsFirstBy piece_of left };

    ghost remaining = { item_count left };

    // The next piece, until none is left.
    fn next(&mut self) -> Option<Piece<'a>>
        ensures steps { YieldsFirstBy piece_of left self.old result self.new }
        ensures goes { MakesProgress (λ _. ⊤) (item_count left) self.old result self.new }
        ensures cases { MatchOption result (left self.old ≡ []) (λ p. left self.old ≡ piece_of p ∷ left self.new) }
        ensures rest { left self.new ≡ rest (left self.old) }
    {
        self.skip_blank();
        let start = self.place;
        if start == self.input.len() {
            return None;
        }
        let end = self.piece_end();
        self.place = end;
        Some(Piece {
            bytes: &self.input[start..end],
            offset: start,
        })
    }
}
