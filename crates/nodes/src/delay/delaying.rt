// What stands over a stream and delays it. The module is private, so the kinds in this crate are all there are.

ghost use Rattle.std.specs.Prelude.{◌≡◌, ◌+◌, ◌≤◌, List, true};
ghost use Rattle.streams.specs.Streams.{timely};
ghost use Rattle.streams.specs.Stacks.{Delay};
ghost use Rattle.nodes.specs.Delayings.{total_of, altered_of};

use documents::document::Document;

pub trait Delaying {
    // the delay nodes that it stands for, the uppermost first
    ghost delays: { Self → List Delay };

    // The total over a stream of this total.
    fn total_over(&self, below: u32) -> u32
        ensures { result ≡ total_of (delays self.now) below };

    // A document of a stream of this total, as it is shown.
    fn alter(&self, below: u32, document: Document) -> Document
        requires capped { below ≤ 4800000 }
        requires times { timely (355199999 + below) document ≡ true }
        ensures { result ≡ altered_of (delays self.now) below document };
}
