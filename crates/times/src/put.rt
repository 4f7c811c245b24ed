// Writing text into an output from its back to its front.
//
// A `BackWriter` is lent an output and a place in it, and puts one text after another right before that place,
// each in front of the one before. Where there is no room for all of a text, its last bytes are put, so every
// call is good on every input, and a host that measured first loses nothing. Numbers come out of a division
// last digit first, and a schedule is found last document first: so neither needs memory of its own.

ghost use Rattle.std.specs.Prelude.{◌≡◌, ◌≤◌, true, [], ◌∷◌, length, is_ok, decimal};
ghost use Rattle.times.specs.Clock.{time_text};
ghost use Rattle.times.specs.Refusals.{outcome, into};

use crate::clock::time_bytes;
use crate::refusal::Refusal;

const TEN: u64 = 10;

// An output that is filled from its back: what is put next ends right before `end`, which is where what was put
// last begins. An `end` behind the output's last byte stands for the output's length. A format's lines are put by it and
// not by `Display`, which writes from the front and promises no byte.
#[derive(Drop)]
pub struct BackWriter<'a> {
    out: &'a mut [u8],
    end: usize,
}

impl<'a> BackWriter<'a> {
    ghost use Rattle.times.specs.Put.{Puts};

    // A writer that puts its first text right before a place of the output.
    pub fn new(out: &'a mut [u8], end: usize) -> BackWriter<'a>
        ensures place { result.end ≡ end }
        ensures holds { result.out.now ≡ out.old }
        ensures lender { result.out.ghost_name ≡ out.entry.ghost_name }
    {
        BackWriter { out, end }
    }

    // Where what was put begins.
    pub fn begin(&self) -> usize
        ensures { result ≡ self.now.end }
    {
        self.end // what is put next ends here
    }

    // A text.
    pub fn put_bytes(&mut self, text: &[u8])
        ensures { Puts text.now self.old self.new }
    {
        let room = self.end.min(self.out.len());
        let lost = text.len().saturating_sub(room);
        let kept = &text[lost..];
        let start = room - kept.len();
        self.out[start..room].copy_from_slice(kept);
        self.end = start;
    }

    // One byte.
    pub fn put_byte(&mut self, byte: u8)
        ensures { Puts (byte ∷ []) self.old self.new }
    {
        self.put_bytes(&[byte]);
    }

    // A number in decimal.
    pub fn put_number(&mut self, number: u64)
        ensures { Puts (decimal number) self.old self.new }
    {
        let mut left = number;
        while left >= TEN {
            self.put_byte(b'0' + (left % TEN) as u8);
            left /= TEN;
        }
        self.put_byte(b'0' + left as u8);
    }

    // A moment as a clock time.
    pub fn put_time(&mut self, moment: u32)
        ensures { Puts (time_text moment) self.old self.new }
    {
        self.put_bytes(&time_bytes(moment));
    }
}

// Copies a text into the front of an output that has room for it, and answers how long it is.
pub fn copy_front(text: &[u8], out: &mut [u8]) -> Result<usize, Refusal>
    ensures text { outcome result out.new ≡ into text.now out.old }
    ensures fits { length text.now ≤ length out.old → is_ok result ≡ true }
{
    let length = text.len();
    if out.len() < length {
        return Err(Refusal::OutputTooShort);
    }
    out[..length].copy_from_slice(text);
    Ok(length)
}

// How many digits a number has in decimal.
#[tactic(auto, using(crate::proofs::Puts::length_power, crate::proofs::Puts::length_zero))]
pub fn digits(number: u64) -> usize
    ensures value { result ≡ length (decimal number) }
    ensures bound { result ≤ 20 }
{
    match number.checked_ilog10() { // no `map_or`: behind its closure the proof lost what the power bounds
        Some(power) => power as usize + 1,
        None => 1,
    }
}
