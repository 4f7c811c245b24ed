// The parts of a text, and what a field says.
//
// `reader` hands out lines and fields as the parts of the text that they are, with their offset; nothing
// is copied. `number`, `level` and `fault` judge one field: a number, a level, a time. A fault is carried
// by `?` from a time to its field, to the field's place, and to the record that hand-in answers.
//
// A reader must believe, in specs/: `parts` (what stands between separators) and its law `Cut`, `past_empty`,
// `number_field_of`, `level_of` and `level_fits_of`, `time_field_of` and `optional_time_of`, and `told`, in which each
// refusal has its fixed number, line, byte and cause.

#![tactic(auto)]

pub mod fault;
pub mod level;
pub mod number;
pub mod reader;
