// The reading interface.

ghost use Rattle.std.specs.Prelude.{◌≡◌, List, length};
ghost use Rattle.std.specs.List.{slice_get};
ghost use Rattle.streams.specs.Streams.{Parts, Lawful};
ghost use Rattle.streams.specs.Stacks.{Delay, stack};

use documents::document::Document;

// A stream of documents. Asking it changes nothing.
pub trait Stream {
    // what the stream means: its shown list, settled moment and total adjustment, and where it takes
    // documents its entry moment, records left and appearance
    ghost parts: { Self → Parts };

    // the laws, owed by every implementation
    ghost lawful: { (s : Self) → Lawful (parts s) };

    // the delay nodes that the stream is made of, the uppermost first
    ghost nodes: { Self → List Delay };

    // the parts of the bare stream below all nodes
    ghost bare: { Self → Parts };

    // the stream is its nodes over the bare stream
    ghost stacked: { (s : Self) → parts s ≡ stack (nodes s) (bare s) };

    // How many documents are shown.
    fn count(&self) -> usize
        ensures { result ≡ length (parts self.now).shown };

    // The document at a place of the shown list, from 0.
    fn document_at(&self, place: usize) -> Option<Document>
        ensures { result ≡ slice_get (parts self.now).shown place };

    // The moment before which no later document changes what is on screen.
    fn settled_moment(&self) -> u32
        ensures { result ≡ (parts self.now).settled };

    // By how much the documents are delayed in all.
    fn total_adjustment(&self) -> u32
        ensures { result ≡ (parts self.now).total };
}
