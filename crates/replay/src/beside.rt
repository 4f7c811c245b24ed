// A stack and the second stream beside it, which is sent the same calls.

ghost use Rattle.std.specs.Prelude.{◌≡◌};
ghost use Rattle.stacks.specs.Calls.{told_reply, reply, follow};
ghost use Rattle.replay.specs.Replays.{reply_to, follow_to};
ghost use Rattle.replay.specs.Walks.{told_ask};

use stacks::calls::{Call, Reply};
use stacks::sending::send;
use stacks::stack::Stack;
use times::refusal::Refusal;

#[derive(Drop)]
pub struct Beside<D, B> {
    pub stack: D,
    pub second: B,
}

impl<D: Stack, B: Stack> Beside<D, B> {
    // Sends one call, as a list of one, to both, and answers the stack's reply.
    fn sent(&mut self, call: Call) -> Reply
        ensures reply { told_reply result ≡ reply (D.Stream.parts self.old.stack) call.entry }
        ensures book { D.Stream.parts self.new.stack ≡ follow (D.Stream.parts self.old.stack) call.entry }
    {
        let calls = [call];
        let mut replies = [Reply::Done];
        let mut others = [Reply::Done];
        let _ = send(
            &mut self.stack,
            &mut self.second,
            &calls,
            &mut replies,
            &mut others,
        );
        replies[0]
    }

    // Answers what a line asks: a refused one is not sent.
    pub fn answer(&mut self, asked: Result<Call, Refusal>) -> Reply
        ensures reply { told_reply result ≡ reply_to (D.Stream.parts self.old.stack) (told_ask asked.entry) }
        ensures book { D.Stream.parts self.new.stack ≡ follow_to (D.Stream.parts self.old.stack) (told_ask asked.entry) }
    {
        match asked {
            Ok(call) => self.sent(call),
            Err(refusal) => Reply::Refused(refusal),
        }
    }
}
