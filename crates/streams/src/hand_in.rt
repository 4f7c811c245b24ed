// Hand-in: reads a text and takes its document.

ghost use Rattle.std.specs.Prelude.{◌≡◌};
ghost use Rattle.fields.specs.Faults.{told};
ghost use Rattle.streams.specs.Handing.{hand_in_told, hand_in_after, PromptHandIn};

use crate::stream::Stream;
use crate::taking::TakingStream;
use documents::text::read_document;
use fields::fault::Rejection;

// Takes the document that a text carries. A refused text or document changes nothing.
pub fn hand_in<T: TakingStream>(stream: &mut T, text: &[u8]) -> Result<(), Rejection>
    ensures answer { told result ≡ hand_in_told (T.Stream.parts stream.old) text.now }
    ensures after { T.Stream.parts stream.new ≡ hand_in_after (T.Stream.parts stream.old) text.now }
    ensures prompt { PromptHandIn (T.Stream.parts stream.old) text.now }
    ensures nodes { T.Stream.nodes stream.new ≡ T.Stream.nodes stream.old }
    ensures bare { T.Stream.bare stream.new ≡ hand_in_after (T.Stream.bare stream.old) text.now }
{
    let document = read_document(text)?;
    stream.take(document)?;
    Ok(())
}
