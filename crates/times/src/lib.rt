// Clock times, refusals, and the writing of both as text.
//
// A moment is a whole number of milliseconds from 00:00:00.000. This crate reads and writes it as
// `hh:mm:ss.fff`, has the one list of refusals that every call of the part answers with, and puts
// bytes, numbers and times into an output that a host lends.
//
// A reader must believe, in specs/: `number_of` and `cause_of` (the fixed number of each refusal and of
// each cause of a time), `read_time_of`, `time_text` and the two limits (Clock), `outcome` and `into` (what a
// call that fills an output answers and leaves), `put_before` and `Puts` (what a writer leaves).

#![tactic(auto)]

pub mod clock;
pub mod put;
pub mod refusal;
