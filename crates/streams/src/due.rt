// When a document is due: the moment from which it has both arrived and begun.

ghost use Rattle.std.specs.Prelude.{◌≡◌};
ghost use Rattle.streams.specs.Streams.{due};

use documents::document::Document;

// The later of a document's available and begin.
pub fn due_moment(document: &Document) -> u32
    ensures { result ≡ due document.now }
{
    document
        .begin
        .map_or(document.available, |begin| document.available.max(begin))
}
