// What a list of calls can be sent to.

ghost use Rattle.std.specs.Prelude.{◌≡◌};
ghost use Rattle.stacks.specs.Calls.{told_reply, reply, follow, PromptCall};
ghost use Rattle.stacks.specs.Still.{still, still_lawful, still_stacked};

use crate::calls::{Call, Reply};
use crate::making::{AskedOver, TakingOver};
use documents::document::Document;
use questions::asking::{active, interval};
use streams::hand_in::hand_in;
use streams::stream::Stream;
use streams::taking::TakingStream;

// A stream that answers calls, one after another.
pub trait Stack: Stream {
    fn serve(&mut self, call: &Call) -> Reply
        ensures answer { told_reply result ≡ reply (Self.Stream.parts self.old) call.now }
        ensures after { Self.Stream.parts self.new ≡ follow (Self.Stream.parts self.old) call.now }
        ensures prompt { PromptCall (Self.Stream.parts self.old) call.now }
        ensures nodes { Self.Stream.nodes self.new ≡ Self.Stream.nodes self.old }
        ensures bare { Self.Stream.bare self.new ≡ follow (Self.Stream.bare self.old) call.now };
}

// A stack over a stream that takes. It and the one below forward the same four calls, and differ in the
// parts that they show: one struct over both would need a trait that brings those parts with three laws,
// two types that stand for its two ways, and a field that holds nothing, more than the calls it saves.
#[derive(Drop)]
pub struct Taking<S> {
    stack: S,
}

// A stack that is only asked: its stream does not take, or is not to.
#[derive(Drop)]
pub struct Asked<S> {
    stack: S,
}

impl<S: TakingStream> TakingOver<S> for Taking<S> {
    fn over(stream: S) -> Taking<S> {
        Taking { stack: stream }
    }
}

impl<S: Stream> AskedOver<S> for Asked<S> {
    fn over(stream: S) -> Asked<S> {
        Asked { stack: stream }
    }
}

impl<S: Stream> Stream for Taking<S> {
    ghost parts = { λ s. S.Stream.parts s.stack };

    ghost lawful = { λ s. S.Stream.lawful s.stack };

    ghost nodes = { λ s. S.Stream.nodes s.stack };

    ghost bare = { λ s. S.Stream.bare s.stack };

    ghost stacked = { λ s. S.Stream.stacked s.stack };

    fn count(&self) -> usize {
        self.stack.count() // as many as the taking stream shows
    }

    fn document_at(&self, place: usize) -> Option<Document> {
        self.stack.document_at(place) // as the taking stream shows it
    }

    fn settled_moment(&self) -> u32 {
        self.stack.settled_moment() // moves on with what is taken
    }

    fn total_adjustment(&self) -> u32 {
        self.stack.total_adjustment() // taking leaves it
    }
}

impl<S: Stream> Stream for Asked<S> {
    ghost parts = { λ s. still (S.Stream.parts s.stack) };

    ghost lawful = { λ s. still_lawful (S.Stream.parts s.stack) (S.Stream.lawful s.stack) };

    ghost nodes = { λ s. S.Stream.nodes s.stack };

    ghost bare = { λ s. still (S.Stream.bare s.stack) };

    ghost stacked = { λ s. still_stacked (S.Stream.nodes s.stack) (S.Stream.parts s.stack) (S.Stream.bare s.stack) (S.Stream.stacked s.stack) };

    fn count(&self) -> usize {
        self.stack.count() // stays the same, since nothing is taken
    }

    fn document_at(&self, place: usize) -> Option<Document> {
        self.stack.document_at(place) // the same each time it is asked
    }

    fn settled_moment(&self) -> u32 {
        self.stack.settled_moment() // stays where it was
    }

    fn total_adjustment(&self) -> u32 {
        self.stack.total_adjustment() // that of the nodes, as ever
    }
}

impl<S: TakingStream> Stack for Taking<S> {
    fn serve(&mut self, call: &Call) -> Reply {
        // asked for its promise, that the stream does take: a refused text calls nothing else
        let _ = self.stack.entry_moment();
        match call {
            Call::HandIn(text) => hand_in(&mut self.stack, text).into(),
            Call::Take(document) => self.stack.take(*document).into(),
            Call::Tick(moment) => self.stack.tick(*moment).into(),
            Call::Active(window, moment) => active(&self.stack, *window, *moment).into(),
            Call::Interval(window, number) => interval(&self.stack, *window, *number).into(),
        }
    }
}

impl<S: Stream> Stack for Asked<S> {
    fn serve(&mut self, call: &Call) -> Reply {
        match call {
            Call::Active(window, moment) => active(&self.stack, *window, *moment).into(),
            Call::Interval(window, number) => interval(&self.stack, *window, *number).into(),
            Call::HandIn(_) | Call::Take(_) | Call::Tick(_) => Reply::DoesNotTake,
        }
    }
}
