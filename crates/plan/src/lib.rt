// What `showplan` computes: from the bytes of an input to the bytes of its plan.
//
// `pieces` cuts the input at its blank lines, and `planning::plan` writes the schedule and a line for
// each refused piece; `columns` has the printed columns. A program reads, calls `plan` and writes, and does nothing else.
//
// A reader must believe, in specs/: `pieces_of` (Pieces), `refusal_text`, `plan_text` and `plan_of` (Plans).

#![tactic(auto)]

pub mod columns;
pub mod input;
pub mod pieces;
pub mod planning;
