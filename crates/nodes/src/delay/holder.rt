// The holder: it holds every document back, explicitly timed ones too.

ghost use Rattle.std.specs.Prelude.{◌≡◌, [], ◌∷◌};
ghost use Rattle.streams.specs.Stacks.{holding};

use super::Adjustment;
use super::delayed::Delayed;
use super::delaying::Delaying;
use crate::making::HolderOver;
use documents::document::Document;
use streams::stream::Stream;

// The adjustment that was approved for a holder.
#[derive(Clone, Copy, Debug, PartialEq, Eq)]
pub struct Holding {
    adjustment: Adjustment,
}

// The stream below, by value, with this adjustment over it.
pub type Holder<S> = Delayed<S, Holding>;

impl<S: Stream> HolderOver<S> for Holder<S> {
    fn over(below: S, adjustment: Adjustment) -> Holder<S> {
        Delayed {
            below,
            delaying: Holding { adjustment },
        }
    }
}

impl Delaying for Holding {
    ghost delays = { λ d. holding d.adjustment.amount ∷ [] };

    fn total_over(&self, below: u32) -> u32 {
        self.adjustment.total_over(below)
    }

    fn alter(&self, below: u32, document: Document) -> Document {
        self.adjustment.in_force_over(below).hold(&document)
    }
}
