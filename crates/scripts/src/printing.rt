// The printed line of a reply, put from the back to the front.

ghost use Rattle.std.specs.Prelude.{◌≡◌, ◌≤◌, ◌∷◌, length};
ghost use Rattle.times.specs.Put.{Puts};
ghost use Rattle.stacks.specs.Calls.{told_reply};
ghost use Rattle.scripts.specs.Printing.{mark_text, done_text, shown_text, lasts_text, answer_text, reply_text, node_text, unreadable_text};

use plan::columns::{put_field, put_rejection};
use stacks::calls::Reply;
use times::put::BackWriter;

// A question's mark, and the line's end.
fn put_mark(writer: &mut BackWriter, settled: bool)
    ensures puts { Puts (mark_text settled) writer.old writer.new }
    ensures few { length (mark_text settled) ≤ 8 }
{
    if settled {
        writer.put_bytes(b"settled\n");
    } else {
        writer.put_bytes(b"open\n");
    }
}

// The answer of a call that was not refused.
fn put_done(writer: &mut BackWriter, handed_in: bool)
    ensures puts { Puts (done_text handed_in) writer.old writer.new }
    ensures few { length (done_text handed_in) ≤ 8 }
{
    if handed_in {
        writer.put_bytes(b"0,0,0,0\n");
    } else {
        writer.put_bytes(b"0\n");
    }
}

// Two numbers and a mark.
fn put_lasts(writer: &mut BackWriter, a: u32, b: u32, settled: bool)
    ensures puts { Puts (lasts_text a b settled) writer.old writer.new }
    ensures few { length (lasts_text a b settled) ≤ 50 }
{
    put_mark(writer, settled);
    put_field(writer, b as u64, b',');
    put_field(writer, a as u64, b',');
}

// The active number and its content, or none, and a mark.
fn put_shown(writer: &mut BackWriter, shown: Option<(u32, u32)>, settled: bool)
    ensures puts { Puts (shown_text shown settled) writer.old writer.new }
    ensures few { length (shown_text shown settled) ≤ 50 }
{
    match shown {
        Some((number, content)) => put_lasts(writer, number, content, settled),
        None => {
            put_mark(writer, settled);
            writer.put_bytes(b"none,");
        }
    }
}

// The answer of a call that is no refused hand-in.
fn put_answer(writer: &mut BackWriter, handed_in: bool, reply: Reply)
    ensures puts { Puts (answer_text handed_in (told_reply reply)) writer.old writer.new }
    ensures few { length (answer_text handed_in (told_reply reply)) ≤ 84 }
{
    match reply {
        Reply::Done => put_done(writer, handed_in),
        Reply::Refused(refusal) => put_field(writer, refusal.number() as u64, b'\n'),
        Reply::NotHandedIn(why) => put_rejection(writer, why),
        Reply::DoesNotTake => writer.put_bytes(b"\n"),
        Reply::Shows(shown, settled) => put_shown(writer, shown, settled),
        Reply::Lasts(begin, last, settled) => put_lasts(writer, begin, last, settled),
    }
}

// The line of a call's reply. Whether a text was handed in is the caller's to say: what is replied to one that was
// taken is no other reply than a take's.
pub fn put_reply(writer: &mut BackWriter, count: usize, handed_in: bool, reply: Reply)
    ensures puts { Puts (reply_text count handed_in (told_reply reply)) writer.old writer.new }
    ensures few { length (reply_text count handed_in (told_reply reply)) ≤ 105 }
{
    put_answer(writer, handed_in, reply);
    put_field(writer, count as u64, b',');
}

// The line of a node: 0, or the number of its refusal, a number by a rule of the project: no public call asks more than it did.
pub fn put_node(writer: &mut BackWriter, count: usize, refusal: u8)
    ensures puts { Puts (node_text count refusal) writer.old writer.new }
    ensures few { length (node_text count refusal) ≤ 42 }
{
    put_field(writer, refusal as u64, b'\n');
    put_field(writer, count as u64, b',');
}

// The number of the line that ended the reading.
pub fn put_unreadable(writer: &mut BackWriter, line: usize)
    ensures puts { Puts (unreadable_text line) writer.old writer.new }
    ensures few { length (unreadable_text line) ≤ 32 }
{
    put_field(writer, line as u64, b'\n');
    writer.put_bytes(b"unreadable,");
}
