// What can be sent to a stack, and what it replies. Each result of a stream becomes a reply by `From`.

ghost use Rattle.std.specs.Prelude.{◌≡◌};
ghost use Rattle.times.specs.Refusals.{refusal_in};
ghost use Rattle.fields.specs.Faults.{told};
ghost use Rattle.questions.specs.Asking.{told_active, told_interval};
ghost use Rattle.stacks.specs.Calls.{told_reply, answered, handed_answer};

use documents::document::Document;
use fields::fault::Rejection;
use questions::window::Window;
use times::refusal::Refusal;

// One call on a stack.
#[derive(Clone, Copy, Debug, PartialEq, Eq)]
pub enum Call<'a> {
    // a text, read and taken
    HandIn(&'a [u8]),
    Take(Document),
    // the moment that the entry has come to
    Tick(u32),
    // which document is active in a window at a moment
    Active(Window, u32),
    // when the document of a number is on screen in a window
    Interval(Window, u32),
}

// What is answered to it. A mark stands beside a value, as a rule of the project: each answer says of
// itself whether it is settled.
#[derive(Clone, Copy, Debug, PartialEq, Eq)]
pub enum Reply {
    // a hand-in, a take or a tick that was not refused
    Done,
    Refused(Refusal),
    // a refused hand-in, with its line, byte and cause
    NotHandedIn(Rejection),
    // a hand-in, a take or a tick on a stream that does not take
    DoesNotTake,
    // the active number and its content, and the mark settled
    Shows(Option<(u32, u32)>, bool),
    // resolved begin and end, and the mark settled
    Lasts(u32, u32, bool),
}

impl From<Result<(), Refusal>> for Reply {
    ghost from_gives = { λ answer r. told_reply r ≡ answered (refusal_in answer) };

    fn from(answer: Result<(), Refusal>) -> Reply {
        match answer {
            Ok(()) => Reply::Done,
            Err(refusal) => Reply::Refused(refusal), // whatever was refused
        }
    }
}

impl From<Result<(), Rejection>> for Reply {
    ghost from_gives = { λ answer r. told_reply r ≡ handed_answer (told answer) };

    fn from(answer: Result<(), Rejection>) -> Reply {
        match answer {
            Ok(()) => Reply::Done,
            Err(why) => Reply::NotHandedIn(why),
        }
    }
}

impl From<Result<(Option<(u32, u32)>, bool), Refusal>> for Reply {
    ghost from_gives = { λ answer r. told_reply r ≡ told_active answer };

    fn from(answer: Result<(Option<(u32, u32)>, bool), Refusal>) -> Reply {
        match answer {
            Ok((shown, settled)) => Reply::Shows(shown, settled),
            Err(refusal) => Reply::Refused(refusal),
        }
    }
}

impl From<Result<(u32, u32, bool), Refusal>> for Reply {
    ghost from_gives = { λ answer r. told_reply r ≡ told_interval answer };

    fn from(answer: Result<(u32, u32, bool), Refusal>) -> Reply {
        match answer {
            Ok((begin, end, settled)) => Reply::Lasts(begin, end, settled),
            Err(refusal) => Reply::Refused(refusal),
        }
    }
}
