// One call that sends a list of calls to a stack, and to a second stream beside it.

ghost use Rattle.std.specs.Prelude.{◌≡◌, ◌≤◌, length};
ghost use Rattle.stacks.specs.Calls.{PromptRun};
ghost use Rattle.stacks.specs.Sendings.{Served, sent, sending, told_sending};
ghost use Rattle.stacks.specs.Promise.{Promise};

use crate::calls::{Call, Reply};
use crate::stack::Stack;
use times::refusal::Refusal;

// Sends each call, and keeps its reply at the same place.
fn send_each<D: Stack>(stack: &mut D, calls: &[Call], replies: &mut [Reply])
    requires { length calls.now ≤ length replies.old }
    ensures served { Served D.Stream calls.now stack.old stack.new replies.old replies.new }
    ensures prompt { PromptRun (D.Stream.parts stack.old) calls.now }
{
    // By index: after `iter_mut().zip(calls)` the proof knows nothing of what was written.
    for (i, call) in calls.iter().enumerate() {
        replies[i] = stack.serve(call);
    }
}

// Sends a list of calls to a stack and to a second stream, and keeps every reply of both. Where there is
// too little room for the replies nothing is sent. It answers how many calls were sent.
pub fn send<D: Stack, B: Stack>(
    stack: &mut D,
    second: &mut B,
    calls: &[Call],
    replies: &mut [Reply],
    others: &mut [Reply],
) -> Result<usize, Refusal>
    ensures result { told_sending result ≡ sending calls.now replies.old others.old }
    ensures stack { Served D.Stream (sent calls.now replies.old others.old) stack.old stack.new replies.old replies.new }
    ensures second { Served B.Stream (sent calls.now replies.old others.old) second.old second.new others.old others.new }
    ensures promise { Promise D.Stream B.Stream (sent calls.now replies.old others.old) stack.old stack.new replies.new second.old second.new others.new }
{
    if replies.len() < calls.len() || others.len() < calls.len() {
        return Err(Refusal::OutputTooShort);
    }
    send_each(stack, calls, replies);
    send_each(second, calls, others);
    Ok(calls.len())
}
