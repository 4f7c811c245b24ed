// Streams of live documents: what one means, how one is asked, how one takes documents.
//
// `stream::Stream` is the reading interface, `taking::TakingStream` builds on it, `live::LiveTable` is
// the taking stream that keeps its documents in records lent by the host, and `hand_in::hand_in` reads
// a text and takes the document, over any taking stream. `due::due_moment` says when a document is due.
//
// A reader must believe, in specs/: `Parts` and `Lawful` (what a stream means, and its laws),
// `take_refusal`, `after_take`, `tick_refusal` and `after_tick` (what a call answers and changes),
// `table_parts` and `table_of` (what a live table means), `hand_in_told` and `hand_in_after`; and, for the delay nodes that
// come above, `stack` (what nodes make of the parts of a bare stream).

#![tactic(auto)]

pub mod due;
pub mod hand_in;
pub mod lent;
pub mod live;
pub mod making;
pub mod prepared;
mod reach;
pub mod shared;
pub mod stream;
pub mod taking;
