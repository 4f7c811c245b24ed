// How a script is read.

ghost use Rattle.std.specs.Prelude.{◌≡◌, ◌+◌, ◌≤◌, false, [], ◌∷◌, length, IfSome, MatchOption};
ghost use Rattle.scripts.specs.Lines.{readable_of, script_lines, is_blank, skip_blank_of, tail, text_end, after_text, between};
ghost use Rattle.scripts.specs.Left.{line_of, lines_left, pending};

use super::{Line, Script};
use fields::reader::Reader;

// The longest script that is read.
pub const SCRIPT_LIMIT: usize = 1_048_576;

const LINE_FEED: u8 = b'\n';

// A script, or nothing of one that is too long.
fn readable(text: &[u8]) -> &[u8]
    ensures { result.now ≡ readable_of text.now }
{
    if text.len() <= SCRIPT_LIMIT {
        text
    } else {
        &text[0..0]
    }
}

// The part of a text from one place to another.
fn part(text: &[u8], from: usize, to: usize) -> &[u8]
    requires { to ≤ length text.now }
    ensures { result.now ≡ between from to text.now }
{
    text.get(from..to).unwrap_or(&[])
}

// Each method says of the text that it stays, since it lends the whole script for change. A script is no iterator, which would
// be no plainer: a text ends at a blank line, which the lines that are asked for skip, so the same lines are walked in two ways.
impl<'a> Script<'a> {
    // All lines of a script. A longer one than the longest has none.
    pub fn new(text: &'a [u8]) -> Script<'a>
        ensures lines { lines_left result ≡ script_lines text.now }
        ensures number { result.number ≡ 0 }
        ensures text { result.text.now ≡ readable_of text.now }
    {
        let text = readable(text);
        Script {
            text,
            lines: Reader::new(text, 0, LINE_FEED),
            number: 0,
        }
    }

    // The next line, blank ones too.
    fn any_line(&mut self) -> Option<Line<'a>>
        ensures cases { MatchOption result (lines_left self.old ≡ []) (λ l. lines_left self.old ≡ line_of l ∷ lines_left self.new) }
        ensures rest { lines_left self.new ≡ tail (lines_left self.old) }
        ensures text { self.new.text ≡ self.old.text }
        ensures number { self.new.number + length (lines_left self.new) ≡ self.old.number + length (lines_left self.old) }
        ensures inside { IfSome result (λ l. l.offset ≤ length self.old.text.now) }
    {
        let part = self.lines.next()?;
        if part.offset >= self.text.len() {
            return None;
        }
        self.number += 1;
        Some(Line {
            bytes: part.bytes,
            offset: part.offset,
            number: self.number,
            ended: part.offset + part.bytes.len() < self.text.len(),
            past: part.offset + part.bytes.len() + 1,
        })
    }

    // The next line that is not blank.
    pub fn next_line(&mut self) -> Option<Line<'a>>
        ensures lines { pending result (lines_left self.new) ≡ skip_blank_of (lines_left self.old) }
        ensures line { MatchOption result (lines_left self.new ≡ []) (λ l. is_blank (line_of l) ≡ false) }
        ensures text { self.new.text ≡ self.old.text }
        ensures number { self.new.number + length (lines_left self.new) ≡ self.old.number + length (lines_left self.old) }
    {
        while let Some(line) = self.any_line() {
            if !line.bytes.is_empty() {
                return Some(line);
            }
            self.number += self.lines.skip_empty(); // the blank lines after it, all at once
        }
        None
    }

    // How many lines were handed out.
    pub fn count(&self) -> usize
        ensures { result ≡ self.now.number }
    {
        self.number // blank ones too
    }

    // The text that begins at a place and goes on to the next blank line or to the script's end.
    pub fn text_from(&mut self, from: usize) -> &'a [u8]
        ensures value { result.now ≡ between from (text_end (length self.old.text.now) (lines_left self.old)) self.old.text.now }
        ensures lines { lines_left self.new ≡ after_text (lines_left self.old) }
        ensures text { self.new.text ≡ self.old.text }
    {
        let text = self.text;
        while let Some(line) = self.any_line() {
            if line.bytes.is_empty() {
                return part(text, from, line.offset);
            }
        }
        part(text, from, text.len())
    }
}
