// What the calls that make a stream promise of it.
//
// Each maker is a trait with no ghost member of its own, so that its text says all: the parts of the new
// stream, the nodes that it is made of, and the bare stream below them.

ghost use Rattle.std.specs.Prelude.{◌≡◌, [], MatchResult};
ghost use Rattle.times.specs.Refusals.{number_of};
ghost use Rattle.streams.specs.Prepared.{opened_parts, opening_refusal};
ghost use Rattle.streams.specs.Tables.{table_parts};

use crate::prepared::Entry;
use crate::stream::Stream;
use documents::document::Document;
use times::refusal::Refusal;

// A stream over records that a host lends: it shows nothing yet, has no nodes, and is its own bare stream.
pub trait TableOver<'a>: Stream + Sized {
    fn over(records: &'a mut [Document]) -> Self
        ensures parts { Self.Stream.parts result ≡ table_parts 0 records.old 0 }
        ensures nodes { Self.Stream.nodes result ≡ [] }
        ensures bare { Self.Stream.bare result ≡ Self.Stream.parts result };
}

// Why entries are refused, with the empty list that stands in for theirs: a host that has to go on may ask that one.
#[derive(Drop)]
pub struct NotOpened<P> {
    pub refusal: Refusal,
    pub list: P,
}

// A stream over prepared entries that a host lends: no nodes, its own bare stream.
pub trait PreparedOver<'a>: Stream + Sized {
    // Opens the list, or says why the entries are refused.
    fn open(entries: &'a [Entry]) -> Result<Self, NotOpened<Self>>
        ensures refusal { MatchResult result (λ _. opening_refusal entries.now ≡ 0) (λ e. opening_refusal entries.now ≡ number_of e.refusal) }
        ensures parts { MatchResult result (λ list. Self.Stream.parts list ≡ opened_parts entries.now) (λ e. Self.Stream.parts e.list ≡ opened_parts entries.now) }
        ensures nodes { MatchResult result (λ list. Self.Stream.nodes list ≡ []) (λ e. Self.Stream.nodes e.list ≡ []) }
        ensures bare { MatchResult result (λ list. Self.Stream.bare list ≡ Self.Stream.parts list) (λ e. Self.Stream.bare e.list ≡ Self.Stream.parts e.list) };
}
