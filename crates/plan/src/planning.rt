// The plan of an input: its schedule, and a line for each piece that hand-in refuses.
//
// The lines of refused pieces come after a text whose length is known only at the end, so the input is
// handed in twice, each time to an empty table: once to measure, once to write.

ghost use Rattle.std.specs.Prelude.{◌≡◌, ◌+◌, ◌*◌, ◌≤◌, true, ◌++◌, length, take, drop, is_ok};
ghost use Rattle.times.specs.Put.{put_before};
ghost use Rattle.times.specs.Refusals.{outcome, into};
ghost use Rattle.fields.specs.Faults.{told};
ghost use Rattle.questions.specs.Texts.{schedule_text_of};
ghost use Rattle.plan.specs.Pieces.{pieces_of};
ghost use Rattle.plan.specs.Lines.{rejection_text};
ghost use Rattle.plan.specs.Plans.{handed_in_of, refusal_text, refusals_text, refusal_names, plan_text, plan_in, plan_of};

use crate::columns::{line_length, put_field, put_rejection};
use crate::pieces::Pieces;
use documents::document::Document;
use fields::fault::Rejection;
use questions::schedule::text::{put_schedule, text_length};
use questions::window::Window;
use streams::hand_in::hand_in;
use streams::live::LiveTable;
use streams::making::TableOver;
use streams::stream::Stream;
use streams::taking::TakingStream;
use times::clock::ENTRY_LIMIT;
use times::put::{BackWriter, copy_front};
use times::refusal::Refusal;

// The longest input that is read.
pub const INPUT_LIMIT: usize = 65_536;

const TABLE_RECORDS: usize = 256;

const NAMES: &[u8] = b"document,refusal,line,byte,cause\n";

// What is printed of an input that is too long.
const TOO_LONG: &[u8] = b"number,begin,end,content\ndocument,refusal,line,byte,cause\n0,1,0,0,0\n";

// Puts the line of a refused piece before a place of the output.
// It makes its writer: tried with one as parameter, and the proof of `note` did not close over the output that it lends.
fn put_line(out: &mut [u8], end: usize, document: usize, why: Rejection)
    ensures { out.new ≡ put_before end (rejection_text document why) out.old }
{
    let mut writer = BackWriter::new(out, end);
    put_rejection(&mut writer, why);
    put_field(&mut writer, document as u64, b',');
}

// Puts the line of a piece that was refused at a place of the output, and answers where the next line
// goes. Where the output ends before that, what it holds in front is not kept: it is only measured then.
// Output and place stay two: a second writer, from the front, is no plainer for the one loop that would have it.
fn note(out: &mut [u8], at: usize, document: usize, answer: Result<(), Rejection>) -> usize
    requires { at ≤ 8000000 }
    ensures next { result ≡ at + length (refusal_text document (told answer)) }
    ensures bound { result ≤ at + 105 }
    ensures front { result ≤ length out.old → take result out.new ≡ take at out.old ++ refusal_text document (told answer) }
    ensures back { drop result out.new ≡ drop result out.old }
{
    match answer {
        Ok(()) => at,
        Err(why) => {
            let end = at + line_length(document, why);
            put_line(out, end, document, why);
            end
        }
    }
}

// Puts the schedule and the names line of the refused pieces before a place of the output.
// It makes its writer, as `put_line` does: the proof of `write` did not close otherwise. Stream and window are two, as in questions.
fn put_front<S: Stream>(stream: &S, window: Window, out: &mut [u8], end: usize)
    ensures { out.new ≡ put_before end (schedule_text_of window (S.Stream.parts stream.now).shown ++ refusal_names) out.old }
{
    let mut writer = BackWriter::new(out, end);
    writer.put_bytes(NAMES);
    put_schedule(stream, window, &mut writer);
}

// Records that a live table is lent; what they hold is of no account.
fn blank_records() -> [Document; 256]
    ensures { length result ≡ 256 }
{
    [Document::default(); TABLE_RECORDS]
}

// An input that is not too long: every place in its plan is then small enough to count to.
#[derive(Clone, Copy)]
struct Input<'a> {
    bytes: &'a [u8],
    ghost short: { length bytes.now ≤ 65536 },
}

impl<'a> Input<'a> {
    // Hands in all pieces, in their order, and writes the lines of the refused ones from a place of the
    // output on. It answers where they end, also where they find no room: an output of no bytes measures.
    fn hand_in_all<T: TakingStream>(self, stream: &mut T, from: usize, out: &mut [u8]) -> usize
        requires near { from ≤ 1000000 }
        ensures after { T.Stream.parts stream.new ≡ handed_in_of (T.Stream.parts stream.old) (pieces_of self.entry.bytes.now) }
        ensures end { result ≡ from + length (refusals_text 1 (T.Stream.parts stream.old) (pieces_of self.entry.bytes.now)) }
        ensures bound { result ≤ from + 6881280 }
        ensures written { result ≤ length out.old → out.new ≡ take from out.old ++ (refusals_text 1 (T.Stream.parts stream.old) (pieces_of self.entry.bytes.now) ++ drop result out.old) }
    {
        let mut at = from;
        for (before, piece) in Pieces::new(self.bytes).enumerate() {
            let answer = hand_in(stream, piece.bytes);
            at = note(out, at, before + 1, answer);
        }
        at
    }

    // Where the lines of refused pieces begin and end in its plan.
    fn measure<T: TakingStream>(self, stream: &mut T, window: Window) -> (usize, usize)
        ensures begins { result.0 ≡ length (schedule_text_of window (handed_in_of (T.Stream.parts stream.old) (pieces_of self.entry.bytes.now)).shown ++ refusal_names) }
        ensures ends { result.1 ≡ result.0 + length (refusals_text 1 (T.Stream.parts stream.old) (pieces_of self.entry.bytes.now)) }
        ensures first { result.0 ≤ 1000000 }
        ensures bound { result.1 ≤ 7300000 }
    {
        let mut nothing: [u8; 0] = [];
        let refused = self.hand_in_all(stream, 0, &mut nothing);
        let begin = text_length(stream, window) + NAMES.len();
        (begin, begin + refused)
    }

    // Writes its plan into the front of an output that has room for it, where the lines of
    // refused pieces begin at a known place.
    fn write<T: TakingStream>(self, stream: &mut T, window: Window, begin: usize, out: &mut [u8])
        requires near { begin ≤ 1000000 }
        requires begins { begin ≡ length (schedule_text_of window (handed_in_of (T.Stream.parts stream.old) (pieces_of self.bytes.now)).shown ++ refusal_names) }
        requires room { begin + length (refusals_text 1 (T.Stream.parts stream.old) (pieces_of self.bytes.now)) ≤ length out.old }
        ensures { out.new ≡ plan_text window (handed_in_of (T.Stream.parts stream.old) (pieces_of self.entry.bytes.now)).shown (refusals_text 1 (T.Stream.parts stream.old) (pieces_of self.entry.bytes.now)) ++ drop (begin + length (refusals_text 1 (T.Stream.parts stream.old) (pieces_of self.entry.bytes.now))) out.old }
    {
        self.hand_in_all(stream, begin, out);
        put_front(stream, window, out, begin);
    }

    // Its plan in a window, over an empty table of its own for each pass.
    fn plan_within(self, window: Window, out: &mut [u8]) -> Result<usize, Refusal>
        ensures text { outcome result out.new ≡ into (plan_in window 256 self.entry.bytes.now) out.old }
        ensures fits { 7300000 ≤ length out.old → is_ok result ≡ true }
    {
        let mut records = blank_records();
        let mut table = LiveTable::over(&mut records);
        let (begin, length) = self.measure(&mut table, window);
        if out.len() < length {
            return Err(Refusal::OutputTooShort);
        }
        let mut records = blank_records();
        let mut table = LiveTable::over(&mut records);
        self.write(&mut table, window, begin, out);
        Ok(length)
    }
}

// How long an output is that has room for every plan.
pub fn plan_limit() -> usize
    ensures { result ≡ 7300000 }
{
    7_300_000
}

// The plan of an input, into the front of the output; it answers how long the plan is. An output of
// `plan_limit` bytes is always long enough.
pub fn plan(input: &[u8], out: &mut [u8]) -> Result<usize, Refusal>
    ensures text { outcome result out.new ≡ into (plan_of input.now) out.old }
    ensures fits { 7300000 ≤ length out.old → is_ok result ≡ true }
{
    if input.len() > INPUT_LIMIT {
        return copy_front(TOO_LONG, out);
    }
    let window = Window::new(0, ENTRY_LIMIT)?;
    Input { bytes: input }.plan_within(window, out)
}
