// The taking interface.

ghost use Rattle.std.specs.Prelude.{◌≡◌, Some};
ghost use Rattle.times.specs.Refusals.{refusal_in};
ghost use Rattle.streams.specs.Taking.{entry_moment_of, take_refusal, after_take, tick_refusal, after_tick, Prompt};

use crate::stream::Stream;
use documents::document::Document;
use times::refusal::Refusal;

// A stream that takes documents in the order in which they become available.
pub trait TakingStream: Stream {
    // No document that becomes available before this moment is taken any more.
    fn entry_moment(&self) -> u32
        ensures { entry_moment_of (Self.Stream.parts self.now) ≡ Some result };

    // Takes a document, or refuses and changes nothing.
    fn take(&mut self, document: Document) -> Result<(), Refusal>
        ensures answer { refusal_in result ≡ take_refusal (Self.Stream.parts self.old) document }
        ensures after { Self.Stream.parts self.new ≡ after_take (Self.Stream.parts self.old) document }
        ensures prompt { Prompt (Self.Stream.parts self.old) document }
        ensures nodes { Self.Stream.nodes self.new ≡ Self.Stream.nodes self.old }
        ensures bare { Self.Stream.bare self.new ≡ after_take (Self.Stream.bare self.old) document };

    // Moves the entry moment on, or refuses and changes nothing.
    fn tick(&mut self, moment: u32) -> Result<(), Refusal>
        ensures answer { refusal_in result ≡ tick_refusal (Self.Stream.parts self.old) moment }
        ensures after { Self.Stream.parts self.new ≡ after_tick (Self.Stream.parts self.old) moment }
        ensures nodes { Self.Stream.nodes self.new ≡ Self.Stream.nodes self.old }
        ensures bare { Self.Stream.bare self.new ≡ after_tick (Self.Stream.bare self.old) moment };
}
