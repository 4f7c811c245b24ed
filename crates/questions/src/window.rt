// Windows, and a document's own times in one.

ghost use Rattle.std.specs.Prelude.{◌≡◌};
ghost use Rattle.questions.specs.Resolved.{told_window, window_for, resolved_begin_of, earlier_of, plus, own_end_of};

use documents::document::Document;
use streams::due::due_moment;
use times::clock::LAST_MOMENT;
use times::refusal::Refusal;

// A stretch of time that begins before it ends, and ends by the last moment. `Window::new` is the only
// way to one.
#[derive(Clone, Copy, Debug, PartialEq, Eq)]
pub struct Window {
    begin: u32,
    end: u32,
}

impl Window {
    // The window from a begin to an end, or a refusal.
    pub fn new(begin: u32, end: u32) -> Result<Window, Refusal>
        ensures { told_window result ≡ window_for begin end }
    {
        if begin < end && end <= LAST_MOMENT {
            Ok(Window { begin, end })
        } else {
            Err(Refusal::NotAWindow)
        }
    }

    pub fn begin(self) -> u32
        ensures { result ≡ self.begin }
    {
        self.begin
    }

    pub fn end(self) -> u32
        ensures { result ≡ self.end }
    {
        self.end
    }

    // The latest of the document's available, its begin if any, and the window's begin.
    pub fn resolved_begin(self, document: &Document) -> u32
        ensures { result ≡ resolved_begin_of self document.now }
    {
        due_moment(document).max(self.begin)
    }

    // The earliest of the resolved begin plus dur if any, the document's end if any, and the window's end.
    pub fn own_end(self, document: &Document) -> u32
        ensures { result ≡ own_end_of self document.now }
    {
        let end = earlier(self.end, document.end);
        ended_after(end, self.resolved_begin(document), document.dur)
    }
}

// The line of `cut_to` in documents: one for both is no plainer, since `map_or` is the whole of it and each cites its own
// definition.
fn earlier(moment: u32, other: Option<u32>) -> u32
    ensures { result ≡ earlier_of moment other }
{
    other.map_or(moment, |other| moment.min(other))
}

// A moment, or an earlier one that lies `dur` after `from`.
fn ended_after(moment: u32, from: u32, dur: Option<u32>) -> u32
    ensures { result ≡ earlier_of moment (plus from dur) }
{
    earlier(moment, dur.map(|dur| from.saturating_add(dur)))
}
