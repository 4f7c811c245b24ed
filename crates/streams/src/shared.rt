// A stream that is shared or lent is that stream to whoever asks it: nodes can be tried over one that others
// keep, and may stand over one that its host goes on using.

ghost use Rattle.std.specs.Prelude.{◌≡◌};

use crate::reach::Reaches;
use crate::stream::Stream;
use documents::document::Document;

impl<R: Reaches> Stream for R
where
    R::Seen: Stream,
{
    ghost parts = { λ r. R.Seen.Stream.parts (R.seen r) };

    ghost lawful = { λ r. R.Seen.Stream.lawful (R.seen r) };

    ghost nodes = { λ r. R.Seen.Stream.nodes (R.seen r) };

    ghost bare = { λ r. R.Seen.Stream.bare (R.seen r) };

    ghost stacked = { λ r. R.Seen.Stream.stacked (R.seen r) };

    fn count(&self) -> usize {
        self.reach().count()
    }

    fn document_at(&self, place: usize) -> Option<Document> {
        self.reach().document_at(place)
    }

    fn settled_moment(&self) -> u32 {
        self.reach().settled_moment()
    }

    fn total_adjustment(&self) -> u32 {
        self.reach().total_adjustment()
    }
}
