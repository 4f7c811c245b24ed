// What a window shows of a stream: resolved times, and the schedule.
//
// `window::Window` is a stretch of time, in which each document has a resolved begin, an own end and a
// resolved end. `schedule::schedule` lists when each document is on screen, and `schedule::text`
// writes that list, over any stream, into memory that the host lends.
//
// A reader must believe, in specs/: `window_for` (which windows can be made), `resolved_begin_of`, `own_end_of`
// and `resolved_end_of` (Resolved), `schedule_of` and `Timetable` (Schedules: the list, and the laws that it
// keeps), `interval_text` and `schedule_text_of` (Texts).

#![tactic(auto)]

pub mod asking;
pub mod schedule;
mod shown;
pub mod window;
