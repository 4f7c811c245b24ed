// A taking stream that is lent takes as that stream does, so that a node may stand over a table that its host keeps.

ghost use Rattle.std.specs.Prelude.{◌≡◌};

use crate::stream::Stream;
use crate::taking::TakingStream;
use documents::document::Document;
use times::refusal::Refusal;

impl<'b, S: TakingStream> TakingStream for &'b mut S {
    fn entry_moment(&self) -> u32 {
        S::entry_moment(&**self)
    }

    fn take(&mut self, document: Document) -> Result<(), Refusal> {
        S::take(&mut **self, document)
    }

    fn tick(&mut self, moment: u32) -> Result<(), Refusal> {
        S::tick(&mut **self, moment)
    }
}
