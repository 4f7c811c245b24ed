// A script that is read, and its line in hand.

ghost use Rattle.std.specs.Prelude.{◌≡◌, ◌+◌, ◌≤◌, false, length, MatchOption};
ghost use Rattle.std.proofs.Props.{props};
ghost use Rattle.scripts.specs.Lines.{readable_of, script_lines, is_blank, skip_blank_of, text_end, after_text, between};
ghost use Rattle.scripts.specs.Left.{line_of, lines_left};

use scripts::lines::{Line, Script};

// The line in hand is not blank, and there is none only where no line is left.
#[derive(Drop)]
pub struct Reading<'a> {
    pub script: Script<'a>,
    pub line: Option<Line<'a>>,
    ghost shown: { MatchOption line (length (lines_left script) ≡ 0) (λ l. is_blank (line_of l) ≡ false) } by { Prim.hlevel props },
}

impl<'a> Reading<'a> {
    ghost use Rattle.replay.specs.Walks.{waiting};

    // A script, with its first line in hand.
    pub fn new(input: &'a [u8]) -> Reading<'a>
        ensures lines { waiting result ≡ skip_blank_of (script_lines input.now) }
        ensures number { result.script.number + length (lines_left result.script) ≡ length (script_lines input.now) }
        ensures text { result.script.text.now ≡ readable_of input.now }
    {
        let mut script = Script::new(input);
        let line = script.next_line();
        Reading { script, line }
    }

    // Takes the next line in hand. In line, since every line goes through it: as a call of its own it shows in the time.
    #[inline(always)]
    pub fn advance(&mut self)
        ensures lines { waiting self.new ≡ skip_blank_of (lines_left self.old.script) }
        ensures text { self.new.script.text ≡ self.old.script.text }
    {
        self.line = self.script.next_line();
    }

    // The text that begins at a place and goes on to the next blank line or to the script's end.
    pub fn text_from(&mut self, from: usize) -> &'a [u8]
        ensures value { result.now ≡ between from (text_end (length self.old.script.text.now) (lines_left self.old.script)) self.old.script.text.now }
        ensures lines { lines_left self.new.script ≡ after_text (lines_left self.old.script) }
        ensures text { self.new.script.text ≡ self.old.script.text }
    {
        self.script.text_from(from)
    }
}
