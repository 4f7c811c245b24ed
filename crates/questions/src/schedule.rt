// The schedule of a stream: when each document is on screen in a window.
//
// The documents are walked from the last to the first, since what cuts a document short is the least
// resolved begin among those after it: one number carries it, so neither memory nor a second look at a
// document is needed. Outputs are filled from the back. Stream and window are two parameters, as they are of the questions.

ghost use Rattle.std.specs.Prelude.{◌≡◌, ◌≤◌, List, length};
ghost use Rattle.std.specs.Iterator.{at_most};
ghost use Rattle.std.specs.Option.{option_to_list};
ghost use Rattle.std.specs.Map.Iter.{TakesLast, GivesInReverse};
ghost use Rattle.times.specs.Refusals.{outcome, into};
ghost use Rattle.questions.specs.declared.schedule.Interval.{Interval};
ghost use Rattle.questions.specs.Schedules.{schedule_of, Timetable};
ghost use Rattle.questions.specs.Walks.{interval_before_of, intervals_before};

pub mod text;

use crate::shown::Shown;
use crate::window::Window;
use documents::document::Document;
use std::marker::Model;
use streams::stream::Stream;
use times::refusal::Refusal;

// When one document is on screen.
#[derive(Clone, Copy, Debug, PartialEq, Eq)]
pub struct Interval {
    pub number: u32,
    pub begin: u32,
    pub end: u32,
    pub content: u32,
}

// The interval of a document whose followers begin at `least` or later, if it is listed.
fn interval_before(window: Window, least: u32, document: &Document) -> Option<Interval>
    ensures { option_to_list result ≡ interval_before_of window least document.now }
{
    let begin = window.resolved_begin(document);
    let end = window.own_end(document).min(least);
    (begin < end).then_some(Interval {
        number: document.number,
        begin,
        end,
        content: document.content,
    })
}

// A walk over the documents of a stream, from the last to the first. `least` is the least resolved begin of
// those it has passed, or the window's end. A contract sees the intervals still to come, by rising number;
// the walk hands out the last of them first.
#[derive(Drop)]
pub(crate) struct Walk<'a, S: Stream> {
    documents: Shown<'a, S>,
    window: Window,
    least: u32,
}

impl<'a, S: Stream> Model for Walk<'a, S> {
    ghost Value = { List Interval };

    ghost view = { λ a. intervals_before a.window a.least a.documents };
}

impl<'a, S: Stream> Walk<'a, S> {
    pub(crate) fn over(stream: &'a S, window: Window) -> Walk<'a, S>
        ensures intervals { result ≡ schedule_of window (S.Stream.parts stream.now).shown }
        ensures few { length result ≤ 4096 }
        ensures runs { GivesInReverse Interval }
    {
        Walk {
            documents: Shown::of(stream),
            window,
            least: window.end(),
        }
    }
}

impl<'a, S: Stream> Iterator for Walk<'a, S> {
    type Item = Interval;

    ghost next_gives = { TakesLast (λ i. i) };

    ghost remaining = { λ s. at_most (length s) };

    fn next(&mut self) -> Option<Interval> {
        // no `find_map`: a proof knows nothing of `least` once a closure has changed it
        while let Some(document) = self.documents.next_back() {
            let interval = interval_before(self.window, self.least, &document);
            self.least = self.window.resolved_begin(&document).min(self.least);
            if interval.is_some() {
                return interval;
            }
        }
        None
    }
}

// Lists the intervals by rising number in the front of the output, and answers how many there are.
pub fn schedule<S: Stream>(
    stream: &S,
    window: Window,
    out: &mut [Interval],
) -> Result<usize, Refusal>
    ensures lists { outcome result out.new ≡ into (schedule_of window (S.Stream.parts stream.now).shown) out.old }
    ensures laws { Timetable window (S.Stream.parts stream.now).shown (schedule_of window (S.Stream.parts stream.now).shown) }
{
    let n = Walk::over(stream, window).count();
    if out.len() < n {
        return Err(Refusal::OutputTooShort);
    }
    for (place, interval) in (0..n).rev().zip(Walk::over(stream, window)) {
        // from the last record to the first, by place: of what an adapter of `iter_mut` lends no proof knows what it holds
        out[place] = interval;
    }
    Ok(n)
}
