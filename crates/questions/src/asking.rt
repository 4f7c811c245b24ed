// The active question and the interval question, over any stream. Stream and window stay two parameters: a struct of
// both is no plainer, since it would be made for each call and taken apart in it.

ghost use Rattle.std.specs.Prelude.{◌≡◌, None, nat_eq};
ghost use Rattle.questions.specs.Resolved.{resolved_end_of};
ghost use Rattle.questions.specs.Asking.{found, active_of, interval_of, told_active, told_interval};
ghost use Rattle.questions.specs.Scans.{last_begun_of, unless_ended_of};

use crate::shown::Shown;
use crate::window::Window;
use documents::document::Document;
use streams::stream::Stream;
use times::clock::LAST_MOMENT;
use times::refusal::Refusal;

// The last document that is begun by a moment: no greater number is begun.
fn last_begun<S: Stream>(stream: &S, window: Window, moment: u32) -> Option<Document>
    ensures { result ≡ last_begun_of window moment None (S.Stream.parts stream.now).shown }
{
    Shown::of(stream)
        .filter(|document| window.resolved_begin(document) <= moment)
        .last()
}

// A document's number and content, unless it has ended by itself.
fn unless_ended(window: Window, moment: u32, last: Option<Document>) -> Option<(u32, u32)>
    ensures { result ≡ unless_ended_of window moment last }
{
    last.filter(|document| moment < window.own_end(document))
        .map(|document| (document.number, document.content))
}

// Which document is on screen at a moment, if any, and whether that is settled. The answer is a pair by a rule of
// the project: the mark says nothing of whether there is a document.
pub fn active<S: Stream>(
    stream: &S,
    window: Window,
    moment: u32,
) -> Result<(Option<(u32, u32)>, bool), Refusal>
    ensures { told_active result ≡ active_of (S.Stream.parts stream.now) window moment }
{
    if moment > LAST_MOMENT {
        return Err(Refusal::PastLastMoment);
    }
    let last = last_begun(stream, window, moment);
    Ok((
        unless_ended(window, moment, last),
        moment < stream.settled_moment(),
    ))
}

// The document of a number.
fn numbered<S: Stream>(stream: &S, number: u32) -> Option<Document>
    ensures { result ≡ found (λ d. nat_eq d.number number) (S.Stream.parts stream.now).shown }
{
    Shown::of(stream).find(|document| document.number == number)
}

// A document's own end, or an earlier one at which a greater number begins.
fn resolved_end<S: Stream>(stream: &S, window: Window, document: &Document) -> u32
    ensures { result ≡ resolved_end_of window (S.Stream.parts stream.now).shown document.now }
{
    Shown::of(stream)
        .filter(|later| document.number < later.number)
        .map(|later| window.resolved_begin(&later))
        .fold(window.own_end(document), |end, begin| begin.min(end))
}

// The resolved begin and end of a number, and whether they are settled: three values by a rule of the project, as above.
pub fn interval<S: Stream>(
    stream: &S,
    window: Window,
    number: u32,
) -> Result<(u32, u32, bool), Refusal>
    ensures { told_interval result ≡ interval_of (S.Stream.parts stream.now) window number }
{
    let document = numbered(stream, number).ok_or(Refusal::NumberNotShown)?;
    let end = resolved_end(stream, window, &document);
    Ok((
        window.resolved_begin(&document),
        end,
        end <= stream.settled_moment(),
    ))
}
