// A document of EBU-TT Live's timing model, and the text that carries it.
//
// `text::read_document` reads a text of up to 4,096 bytes into a `Document`, or says which refusal
// applies first, with its line, byte and time cause.
//
// A reader must believe, in specs/: `begin_of` and `end_of` (computed times), `nearest_in`, `least_begin` and
// `greatest_end`, and `read_document_of`, which says for every list of bytes which document or which refusal
// comes. Above it stand laws in the subject's words (Laws): which texts are accepted, with which values.

#![tactic(auto)]

pub mod document;
pub mod element;
pub mod text;
