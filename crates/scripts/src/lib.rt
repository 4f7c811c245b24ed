// Scripts: a recorded feed as lines of text, for a program that runs it through a stack.
//
// `lines` hands out the lines of a script and the texts between them, as the parts of the script that
// they are; `command` says what one line says; `printing` puts the printed line of a reply.
//
// A reader must believe, in specs/: `script_lines` and `text_end` (Lines), `start_of` and `command_of`
// (Commands), `reply_text`, `node_text` and `unreadable_text` (Printing).

#![tactic(auto)]

pub mod command;
pub mod lines;
pub mod printing;
