// A stream that is delayed by what stands over it: one node, or none, or several.

ghost use Rattle.std.specs.Prelude.{◌≡◌, ◌++◌};
ghost use Rattle.streams.specs.Stacks.{stack};
ghost use Rattle.nodes.specs.Delayings.{stack_lawful, stack_over};

use super::delaying::Delaying;
use documents::document::Document;
use streams::stream::Stream;
use streams::taking::TakingStream;
use times::refusal::Refusal;

// The stream below, by value, and what delays it.
#[derive(Drop)]
pub struct Delayed<S, D> {
    pub(crate) below: S,
    pub(crate) delaying: D,
}

impl<S: Stream, D: Delaying> Stream for Delayed<S, D> {
    ghost parts = { λ s. stack (D.delays s.delaying) (S.Stream.parts s.below) };

    ghost lawful = { λ s. stack_lawful (D.delays s.delaying) (S.Stream.parts s.below) (S.Stream.lawful s.below) };

    ghost nodes = { λ s. D.delays s.delaying ++ S.Stream.nodes s.below };

    ghost bare = { λ s. S.Stream.bare s.below };

    ghost stacked = { λ s. stack_over (D.delays s.delaying) (S.Stream.nodes s.below) (S.Stream.parts s.below) (S.Stream.bare s.below) (S.Stream.stacked s.below) };

    #[tactic(auto, using(crate::proofs::Over::over_count))]
    fn count(&self) -> usize {
        self.below.count()
    }

    #[tactic(auto, using(crate::proofs::Over::over_at, crate::proofs::Over::over_none))]
    fn document_at(&self, place: usize) -> Option<Document> {
        let x = self.below.document_at(place)?;
        Some(self.delaying.alter(self.below.total_adjustment(), x))
    }

    #[tactic(auto, using(crate::proofs::Over::over_settled, crate::proofs::Over::total_least, crate::proofs::Over::total_most))]
    fn settled_moment(&self) -> u32 {
        let total = self.below.total_adjustment();
        self.below.settled_moment() + (self.delaying.total_over(total) - total)
    }

    #[tactic(auto, using(crate::proofs::Over::over_total))]
    fn total_adjustment(&self) -> u32 {
        self.delaying.total_over(self.below.total_adjustment())
    }
}

impl<S: TakingStream, D: Delaying> TakingStream for Delayed<S, D> {
    #[tactic(auto, using(crate::proofs::Over::over_entry))]
    fn entry_moment(&self) -> u32 {
        self.below.entry_moment()
    }

    #[tactic(auto, using(crate::proofs::Over::over_refusal, crate::proofs::Over::over_after, crate::proofs::Over::over_prompt))]
    fn take(&mut self, document: Document) -> Result<(), Refusal> {
        self.below.take(document)
    }

    #[tactic(auto, using(crate::proofs::Over::over_tick_refusal, crate::proofs::Over::over_tick))]
    fn tick(&mut self, moment: u32) -> Result<(), Refusal> {
        self.below.tick(moment)
    }
}
