// The schedule as text: a names line, then a line for each interval. Stream and window are two parameters, as they are of the questions.

ghost use Rattle.std.specs.Prelude.{◌≡◌, ◌≤◌, length};
ghost use Rattle.times.specs.Refusals.{outcome, into};
ghost use Rattle.times.specs.Put.{Puts};
ghost use Rattle.questions.specs.Texts.{interval_text, interval_length, schedule_text_of};

use super::{Interval, Walk};
use crate::window::Window;
use streams::stream::Stream;
use times::put::{BackWriter, digits};
use times::refusal::Refusal;

const NAMES: &[u8] = b"number,begin,end,content\n";

// How long an interval's line is.
fn line_length(interval: Interval) -> usize
    ensures value { result ≡ interval_length interval }
    ensures bound { result ≤ 68 }
{
    digits(interval.number as u64) + digits(interval.content as u64) + 28
}

// Puts an interval's line.
fn put_line(writer: &mut BackWriter, interval: Interval)
    ensures { Puts (interval_text interval) writer.old writer.new }
{
    writer.put_byte(b'\n');
    writer.put_number(interval.content as u64);
    writer.put_byte(b',');
    writer.put_time(interval.end);
    writer.put_byte(b',');
    writer.put_time(interval.begin);
    writer.put_byte(b',');
    writer.put_number(interval.number as u64);
}

// How long the schedule's text is.
pub fn text_length<S: Stream>(stream: &S, window: Window) -> usize
    ensures value { result ≡ length (schedule_text_of window (S.Stream.parts stream.now).shown) }
    ensures bound { result ≤ 300000 }
{
    let mut n = NAMES.len(); // no `sum`, which would want a bound on all lines at once
    for listed in Walk::over(stream, window) {
        n += line_length(listed);
    }
    n
}

// Puts the schedule's text.
pub fn put_schedule<S: Stream>(stream: &S, window: Window, writer: &mut BackWriter)
    ensures { Puts (schedule_text_of window (S.Stream.parts stream.now).shown) writer.old writer.new }
{
    for interval in Walk::over(stream, window) {
        put_line(writer, interval);
    }
    writer.put_bytes(NAMES);
}

// Writes the schedule's text into the front of the output, and answers how long it is.
pub fn schedule_text<S: Stream>(
    stream: &S,
    window: Window,
    out: &mut [u8],
) -> Result<usize, Refusal>
    ensures { outcome result out.new ≡ into (schedule_text_of window (S.Stream.parts stream.now).shown) out.old }
{
    let n = text_length(stream, window);
    if out.len() < n {
        return Err(Refusal::OutputTooShort);
    }
    put_schedule(stream, window, &mut BackWriter::new(out, n));
    Ok(n)
}
