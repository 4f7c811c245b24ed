// The documents that a stream shows, one after another.

ghost use Rattle.std.specs.Prelude.{◌≡◌, ◌≤◌, List, length, take, drop};
ghost use Rattle.std.specs.Iterator.{at_most};
ghost use Rattle.documents.specs.declared.document.Document.{Document};
ghost use Rattle.std.specs.Map.Iter.{TakesFirst, TakesLast, GivesInOrder, GivesInReverse};

use documents::document::Document;
use std::marker::Model;
use std::ops::Range;
use streams::stream::Stream;

// The documents of a stream at some places in a row. A contract sees the list of those that are left.
#[derive(Drop)]
pub(crate) struct Shown<'a, S: Stream> {
    stream: &'a S,
    places: Range<usize>,
}

impl<'a, S: Stream> Model for Shown<'a, S> {
    ghost Value = { List Document };

    ghost view = { λ a. drop a.places.start (take a.places.end (S.Stream.parts a.stream.now).shown) };

    ghost invariant = { λ a. a.places.end ≤ length (S.Stream.parts a.stream.now).shown };
}

impl<'a, S: Stream> Shown<'a, S> {
    pub(crate) fn of(stream: &'a S) -> Shown<'a, S>
        ensures documents { result ≡ (S.Stream.parts stream.now).shown }
        ensures runs { GivesInOrder Document }
    {
        Shown {
            stream,
            places: 0..stream.count(),
        }
    }
}

impl<'a, S: Stream> Iterator for Shown<'a, S> {
    type Item = Document;

    ghost next_gives = { TakesFirst (λ d. d) };

    ghost remaining = { λ s. at_most (length s) };

    fn next(&mut self) -> Option<Document> {
        self.stream.document_at(self.places.next()?)
    }
}

impl<'a, S: Stream> DoubleEndedIterator for Shown<'a, S> {
    ghost next_back_gives = { TakesLast (λ d. d) };

    fn next_back(&mut self) -> Option<Document> {
        self.stream.document_at(self.places.next_back()?)
    }
}
