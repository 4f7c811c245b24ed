// What the calls that make a node promise of it: that node on top of the nodes below, over the same bare
// stream. A node that did not read the stream below could not keep this.

ghost use Rattle.std.specs.Prelude.{◌≡◌, ◌∷◌};
ghost use Rattle.streams.specs.Stacks.{holding, retiming, delayed};
ghost use Rattle.nodes.specs.Choosing.{chosen_parts, chosen_nodes};
ghost use Rattle.nodes.specs.Piles.{standing, pile_parts, pile_nodes};

use crate::delay::Adjustment;
use crate::delay::pile::{Node, Nodes};
use streams::stream::Stream;

// A holder over a stream. It and the retimer have a trait each: one trait over both is no plainer, since what tells them
// apart would stand in a ghost member of each kind, and not in the promise of the call.
pub trait HolderOver<S: Stream>: Stream + Sized {
    fn over(below: S, adjustment: Adjustment) -> Self
        ensures parts { Self.Stream.parts result ≡ delayed (holding adjustment.amount) (S.Stream.parts below) }
        ensures nodes { Self.Stream.nodes result ≡ holding adjustment.amount ∷ S.Stream.nodes below }
        ensures bare { Self.Stream.bare result ≡ S.Stream.bare below };
}

// A retimer over a stream.
pub trait RetimerOver<S: Stream>: Stream + Sized {
    fn over(below: S, adjustment: Adjustment) -> Self
        ensures parts { Self.Stream.parts result ≡ delayed (retiming adjustment.amount) (S.Stream.parts below) }
        ensures nodes { Self.Stream.nodes result ≡ retiming adjustment.amount ∷ S.Stream.nodes below }
        ensures bare { Self.Stream.bare result ≡ S.Stream.bare below };
}

// A chosen node over a stream, or none.
pub trait ChosenOver<S: Stream>: Stream + Sized {
    fn over(below: S, choice: Option<Node>) -> Self
        ensures parts { Self.Stream.parts result ≡ chosen_parts choice (S.Stream.parts below) }
        ensures nodes { Self.Stream.nodes result ≡ chosen_nodes choice (S.Stream.nodes below) }
        ensures bare { Self.Stream.bare result ≡ S.Stream.bare below };
}

// Several nodes over a stream, the lowest first.
pub trait PileOver<S: Stream>: Stream + Sized {
    fn over(below: S, nodes: Nodes) -> Self
        ensures parts { Self.Stream.parts result ≡ pile_parts (standing nodes) (S.Stream.parts below) }
        ensures nodes { Self.Stream.nodes result ≡ pile_nodes (standing nodes) (S.Stream.nodes below) }
        ensures bare { Self.Stream.bare result ≡ S.Stream.bare below };
}
