// A pile: nodes that are chosen at run time, as one stream over the stream below. A host that builds its stack
// from a configuration, and does not know when it is compiled how many nodes there will be, has one of these.

ghost use Rattle.std.specs.Prelude.{◌≡◌, ◌+◌, ◌<◌, ◌≤◌, true, [], ◌∷◌, ◌++◌, length, MatchOption};
ghost use Rattle.streams.specs.Stacks.{approved};
ghost use Rattle.nodes.specs.Piles.{delay_of, standing, pile_nodes};

use super::Adjustment;
use super::delayed::Delayed;
use super::delaying::Delaying;
use crate::making::PileOver;
use documents::document::Document;
use streams::stream::Stream;

// The most nodes of a pile.
pub const MOST_NODES: usize = 8;

// One node of a pile.
#[derive(Clone, Copy, Debug, PartialEq, Eq)]
pub enum Node {
    Holder(Adjustment),
    Retimer(Adjustment),
}

impl Node {
    fn adjustment(self) -> Adjustment
        ensures { result.amount ≡ approved (delay_of self) }
    {
        match self {
            Node::Holder(adjustment) | Node::Retimer(adjustment) => adjustment,
        }
    }
}

impl Delaying for Node {
    ghost delays = { λ n. delay_of n ∷ [] };

    fn total_over(&self, below: u32) -> u32 {
        self.adjustment().total_over(below)
    }

    fn alter(&self, below: u32, document: Document) -> Document {
        let by = self.adjustment().in_force_over(below);
        match self {
            Node::Holder(_) => by.hold(&document),
            Node::Retimer(_) => by.retime(&document),
        }
    }
}

// The nodes of a pile, the lowest first: a row of eight with a count, since a part without a heap has no list that
// grows, and the nodes are copied.
#[derive(Clone, Copy)]
pub struct Nodes {
    nodes: [Node; 8],
    count: usize,
}

impl Nodes {
    pub fn none() -> Nodes
        ensures { standing result ≡ [] }
    {
        Nodes {
            nodes: [Node::Holder(Adjustment { amount: 0 }); MOST_NODES],
            count: 0,
        }
    }

    // One node more on top, unless eight stand.
    pub fn with(self, node: Node) -> Option<Nodes>
        ensures { MatchOption result (8 ≤ length (standing self)) (λ more. (length (standing self) < 8) × (standing more ≡ standing self ++ node ∷ [])) }
    {
        if self.count >= MOST_NODES {
            return None;
        }
        let mut nodes = self.nodes;
        nodes[self.count] = node;
        Some(Nodes {
            nodes,
            count: self.count + 1,
        })
    }

    fn all(&self) -> &[Node]
        ensures { result.now ≡ standing self.now }
    {
        &self.nodes[..self.count.min(MOST_NODES)]
    }
}

// Nodes over the stream below, by value.
pub type Pile<S> = Delayed<S, Nodes>;

impl<S: Stream> PileOver<S> for Pile<S> {
    #[tactic(auto, using(crate::proofs::Piling::pile_stack, crate::proofs::Piling::pile_over))]
    fn over(below: S, nodes: Nodes) -> Pile<S> {
        Delayed {
            below,
            delaying: nodes,
        }
    }
}

impl Delaying for Nodes {
    ghost delays = { λ ns. pile_nodes (standing ns) [] };

    #[tactic(auto, using(crate::proofs::Piling::pile_more))]
    fn total_over(&self, below: u32) -> u32 {
        let mut total = below;
        for node in self.all() {
            total = node.total_over(total); // which the next one stands over
        }
        total
    }

    #[tactic(auto, using(crate::proofs::Piling::pile_more, crate::proofs::Over::total_most, crate::proofs::Over::timely_over))]
    fn alter(&self, below: u32, document: Document) -> Document {
        let mut total = below;
        let mut x = document;
        for node in self.all() {
            x = node.alter(total, x);
            total = node.total_over(total);
        }
        x
    }
}
