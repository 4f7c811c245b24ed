// The retimer: it keeps when a document is available, and has it begin later. What it shares with the holder stands in
// `delayed` and `Adjustment`. A type of its own beside the holder's is no plainer as one with a mark of the kind: `Holder::over`
// could then mean either maker.

ghost use Rattle.std.specs.Prelude.{◌≡◌, [], ◌∷◌};
ghost use Rattle.streams.specs.Stacks.{retiming};

use super::Adjustment;
use super::delayed::Delayed;
use super::delaying::Delaying;
use crate::making::RetimerOver;
use documents::document::Document;
use streams::stream::Stream;

// The adjustment that was approved for a retimer.
#[derive(Clone, Copy, Debug, PartialEq, Eq)]
pub struct Retiming {
    adjustment: Adjustment,
}

// The stream below, by value, with this adjustment over it.
pub type Retimer<S> = Delayed<S, Retiming>;

impl<S: Stream> RetimerOver<S> for Retimer<S> {
    fn over(below: S, adjustment: Adjustment) -> Retimer<S> {
        Delayed {
            below,
            delaying: Retiming { adjustment },
        }
    }
}

impl Delaying for Retiming {
    ghost delays = { λ d. retiming d.adjustment.amount ∷ [] };

    fn total_over(&self, below: u32) -> u32 {
        self.adjustment.total_over(below)
    }

    fn alter(&self, below: u32, document: Document) -> Document {
        self.adjustment.in_force_over(below).retime(&document)
    }
}
