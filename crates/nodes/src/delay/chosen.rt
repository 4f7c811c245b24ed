// A place in a stack for a node that is chosen at run time: a holder, a retimer, or none. A host that builds
// its stack from a configuration has as many of these as it allows nodes.

ghost use Rattle.std.specs.Prelude.{◌≡◌, []};
ghost use Rattle.nodes.specs.Choosing.{chosen_nodes};

use super::delayed::Delayed;
use super::delaying::Delaying;
use super::pile::Node;
use crate::making::ChosenOver;
use documents::document::Document;
use streams::stream::Stream;

// The stream below, by value, and the node over it, if there is one.
pub type Chosen<S> = Delayed<S, Option<Node>>;

impl<S: Stream> ChosenOver<S> for Chosen<S> {
    fn over(below: S, choice: Option<Node>) -> Chosen<S> {
        Delayed {
            below,
            delaying: choice,
        }
    }
}

impl Delaying for Option<Node> {
    ghost delays = { λ c. chosen_nodes c [] };

    fn total_over(&self, below: u32) -> u32 {
        self.map_or(below, |node| node.total_over(below))
    }

    fn alter(&self, below: u32, document: Document) -> Document {
        self.map_or(document, |node| node.alter(below, document))
    }
}
