// Stacks of delay nodes, and what one promises over every run of calls.
//
// `stack::Stack` is what a list of calls can be sent to: a stack that takes, or one that only answers.
// `sending::send` sends a list to a stack and to a second stream beside it and keeps every reply; its
// contract carries the promise of a stack.
//
// A reader must believe, in specs/: `reply`, `follow`, `run` and `replies` (Calls: the book, and what it
// answers), `Served` (Sendings), and `Promise` (what a stack promises).

#![tactic(auto)]

pub mod calls;
pub mod making;
pub mod sending;
pub mod stack;
