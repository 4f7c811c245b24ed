// Delay nodes: a holder and a retimer, each over any stream.
//
// An adjustment is approved first, against a stream; a node is then made from it, which cannot refuse. A
// node is a stream over any stream, and a taking stream over any taking stream, so nodes stand on nodes. All
// of them are one struct, `delay::delayed::Delayed`, each with what stands in it over the stream below.
//
// A reader must believe, in specs/: `approval_of` (which adjustments are approved), and in `streams` the
// definitions `adjustment`, `held`, `retimed`, `delayed` and `stack` (what a node makes of what is below); for nodes chosen
// at run time `delay_of`, `chosen_parts`, `standing` and `pile_parts`.

#![tactic(auto)]

pub mod delay;
pub mod making;
