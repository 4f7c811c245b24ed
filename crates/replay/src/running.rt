// A script's stack and its calls: from the bytes of a script to the bytes that are printed.

ghost use Rattle.std.specs.Prelude.{◌≡◌, ℕ, ◌+◌, ◌≤◌, false, List, [], ◌++◌, length, Some, None, true, min, IfOk, MatchResult, vec_len, OnOk};
ghost use Rattle.questions.specs.Resolved.{window_for};
ghost use Rattle.questions.specs.Texts.{schedule_text_of};
ghost use Rattle.times.specs.Put.{put_before};
ghost use Rattle.scripts.specs.Lines.{ScriptLine};
ghost use Rattle.scripts.specs.Commands.{command_of};
ghost use Rattle.scripts.specs.Left.{line_of, lines_left};
ghost use Rattle.plan.specs.Plans.{empty_table};
ghost use Rattle.streams.specs.Prepared.{is_prepared_of, prepared_parts};
ghost use Rattle.streams.specs.Stacks.{Delay};
ghost use Rattle.replay.specs.Replays.{node_lines, call_lines, hands_in_of, run_to, node_names, call_names, calls_text, whole_window, stop_text, run_text, prepared_text, start_text, lines_text, replay_of};
ghost use Rattle.replay.specs.declared.running.NotPut.TheVariants.{Refused};
ghost use Rattle.replay.specs.Readings.{NodeLines, read_nodes_of, entry_in, read_entries_of, node_in, with_node, delays_of, active_in_of, interval_in_of, step_of, with_step, read_calls_of};
ghost use Rattle.replay.specs.Walks.{waiting, told_node, putting_of, with_put, told_ask, with_ask};

use crate::beside::Beside;
use crate::output::Output;
use crate::reading::Reading;
use documents::document::Document;
use nodes::delay::approve;
use nodes::delay::pile::{Node, Nodes, Pile};
use nodes::making::PileOver;
use questions::schedule::text::{put_schedule, text_length};
use questions::window::Window;
use scripts::command::{Command, Start, read_command, read_start};
use scripts::lines::Line;
use scripts::lines::reading::SCRIPT_LIMIT;
use stacks::calls::Call;
use stacks::making::{AskedOver, TakingOver};
use stacks::stack::{Asked, Stack, Taking};
use std::alloc::{AllocError, Global};
use streams::live::LiveTable;
use streams::making::{PreparedOver, TableOver};
use streams::prepared::{Entry, Prepared};
use streams::stream::Stream;
use streams::taking::TakingStream;
use times::clock::LAST_MOMENT;
use times::put::BackWriter;
use times::refusal::Refusal;

// The entry of a line, if it is one.
fn entry_of(line: Line) -> Option<Entry>
    ensures { result ≡ entry_in (command_of (line_of line.entry)) }
{
    match read_command(line) {
        Some(Command::Entry(entry)) => Some(entry),
        _ => None,
    }
}

// Why a line puts no node on those that stand.
#[derive(Clone, Copy)]
enum NotPut {
    // its adjustment was refused
    Refused(Refusal),
    // it is no node line: it says something else, or its node would be one too many
    NoNode,
}

impl From<Refusal> for NotPut {
    ghost from_gives = { λ e r. r ≡ Refused e };

    fn from(refusal: Refusal) -> NotPut {
        NotPut::Refused(refusal)
    }
}

// The node of a line over a stack, if it is approved there.
fn node_over<S: Stream>(stack: &S, line: Line) -> Result<Node, NotPut>
    ensures { told_node result ≡ putting_of (S.Stream.parts stack.now).total (node_in (command_of (line_of line.entry))) }
{
    match read_command(line) {
        Some(Command::Holder(amount)) => Ok(Node::Holder(approve(stack, amount)?)),
        Some(Command::Retimer(amount)) => Ok(Node::Retimer(approve(stack, amount)?)),
        _ => Err(NotPut::NoNode),
    }
}

// Puts the node of a line on those that stand, if it is approved over them.
fn put_on<S: Stream>(bare: &S, standing: Nodes, line: Line) -> Result<Nodes, NotPut>
    ensures { (here : List ScriptLine) (more : List Delay → NodeLines) → with_node (S.Stream.parts bare.now) (node_in (command_of (line_of line.entry))) (delays_of standing) here more ≡ with_put result (delays_of standing) here more }
{
    let stack = Pile::over(bare, standing);
    let node = node_over(&stack, line)?;
    standing.with(node).ok_or(NotPut::NoNode)
}

// The active question in a window, unless it is none. It and the next are a line each; one for both, given the call to make
// by a closure, is no plainer.
fn active_in<'a>(begin: u32, end: u32, moment: u32) -> Result<Call<'a>, Refusal>
    ensures { told_ask result ≡ active_in_of (window_for begin end) moment }
{
    Ok(Call::Active(Window::new(begin, end)?, moment))
}

// The interval question in a window, unless it is none.
fn interval_in<'a>(begin: u32, end: u32, number: u32) -> Result<Call<'a>, Refusal>
    ensures { told_ask result ≡ interval_in_of (window_for begin end) number }
{
    Ok(Call::Interval(Window::new(begin, end)?, number))
}

// Whether a line hands in a text.
fn hands_in(asked: &Result<Call, Refusal>) -> bool
    ensures { result ≡ hands_in_of (told_ask asked.now) }
{
    matches!(asked, Ok(Call::HandIn(_)))
}

// Puts the schedule's text of a stack right before a place of an output. It makes its writer, as `put_front` of plan does:
// made in `schedule_of`, the proof did not close over the output that it lends.
fn put_text<D: Stream>(stack: &D, window: Window, out: &mut [u8], end: usize)
    ensures { out.new ≡ put_before end (schedule_text_of window (D.Stream.parts stack.now).shown) out.old }
{
    put_schedule(stack, window, &mut BackWriter::new(out, end));
}

// The schedule's text of a stack in the window from 0 to the last moment.
fn schedule_of<D: Stream>(heap: Global, stack: &D) -> Result<Vec<u8>, AllocError>
    ensures { IfOk result (λ v. v.items ≡ schedule_text_of whole_window (D.Stream.parts stack.now).shown) }
{
    let Ok(window) = Window::new(0, LAST_MOMENT) else {
        return Ok(Vec::new(heap));
    };
    let length = text_length(stack, window);
    let mut text = vec![in heap; 0u8; length]?;
    put_text(stack, window, text.as_mut_slice(), length);
    Ok(text)
}

// Records that a live table is lent; what they hold is of no account.
fn blank_records(heap: Global, count: u32) -> Result<Vec<Document>, AllocError>
    ensures { IfOk result (λ v. vec_len v ≡ count) }
{
    vec![in heap; Document::default(); count as usize]
}

// What a run has at hand: where its memory is from, the script that it reads, and what it prints.
#[derive(Drop)]
struct Run<'a> {
    heap: Global,
    reading: Reading<'a>,
    out: Output,
}

// Each method says of the script's text that it stays, since it lends the whole run for change.
impl<'a> Run<'a> {
    // Reads the entries, to the first line that is none.
    fn read_entries(&mut self, entries: &mut Vec<Entry>) -> Result<(), AllocError>
        ensures entries { OnOk result (entries.new.items ≡ entries.old.items ++ (read_entries_of (waiting self.old.reading)).entries) }
        ensures rest { OnOk result (waiting self.new.reading ≡ (read_entries_of (waiting self.old.reading)).rest) }
        ensures text { self.new.reading.script.text ≡ self.old.reading.script.text }
        ensures out { self.new.out ≡ self.old.out }
    {
        while let Some(entry) = self.reading.line.and_then(entry_of) {
            entries.push(entry)?;
            self.reading.advance();
        }
        Ok(())
    }

    // Reads the node lines, to the first line that is none, and writes a reply for each. It answers the nodes that stand.
    fn read_nodes<S: Stream>(&mut self, bare: &S) -> Result<Nodes, AllocError>
        ensures replies { OnOk result (self.new.out.bytes.items ≡ self.old.out.bytes.items ++ (node_names ++ node_lines 1 (read_nodes_of (S.Stream.parts bare.now) [] (waiting self.old.reading)).replies)) }
        ensures standing { IfOk result (λ s. delays_of s ≡ (read_nodes_of (S.Stream.parts bare.now) [] (waiting self.old.reading)).standing) }
        ensures rest { OnOk result (waiting self.new.reading ≡ (read_nodes_of (S.Stream.parts bare.now) [] (waiting self.old.reading)).rest) }
        ensures text { self.new.reading.script.text ≡ self.old.reading.script.text }
    {
        self.out.heading(b"node,reply\n")?;
        let mut standing = Nodes::none();
        while let Some(line) = self.reading.line {
            let refused = match put_on(bare, standing, line) {
                Ok(more) => {
                    standing = more;
                    None
                }
                Err(NotPut::Refused(refusal)) => Some(refusal),
                Err(NotPut::NoNode) => return Ok(standing),
            };
            self.out.node(refused)?;
            self.reading.advance();
        }
        Ok(standing)
    }

    // The call of a line, with its text if it hands one in, or the refusal of a question in what is no window; none where
    // it is no call that the stream takes. `takes` is a flag: it is no plainer as a type, which would be named at each of the
    // three calls and mean no more there. In line for the same reason as `advance`.
    #[inline(always)]
    fn call_of(&mut self, line: Line<'a>, takes: bool) -> Option<Result<Call<'a>, Refusal>>
        ensures call { with_step (step_of takes (command_of (line_of line.entry))) line.entry.number (read_calls_of self.old.reading.script.text.now takes None (lines_left self.old.reading.script)) (read_calls_of self.old.reading.script.text.now takes (Some line.entry.past) (lines_left self.old.reading.script)) ≡ with_ask result line.entry.number (read_calls_of self.old.reading.script.text.now takes None (lines_left self.new.reading.script)) }
        ensures fewer { length (lines_left self.new.reading.script) ≤ length (lines_left self.old.reading.script) }
        ensures text { self.new.reading.script.text ≡ self.old.reading.script.text }
        ensures out { self.new.out ≡ self.old.out }
    {
        match read_command(line) {
            Some(Command::Active(begin, end, moment)) => Some(active_in(begin, end, moment)),
            Some(Command::Interval(begin, end, number)) => Some(interval_in(begin, end, number)),
            Some(Command::Take(document)) if takes => Some(Ok(Call::Take(document))),
            Some(Command::Tick(moment)) if takes => Some(Ok(Call::Tick(moment))),
            Some(Command::Text) if takes => Some(Ok(Call::HandIn(
                self.reading.text_from(line.past),
            ))),
            _ => None,
        }
    }

    // Sends the calls, and writes a reply for each. A question in what is no window is not sent. It answers the number of
    // the line that ended the reading, if one did.
    fn run_calls<D: Stack, B: Stack>(
        &mut self,
        beside: &mut Beside<D, B>,
        takes: bool,
    ) -> Result<Option<usize>, AllocError>
        ensures lines { OnOk result (self.new.out.bytes.items ≡ self.old.out.bytes.items ++ (call_names ++ call_lines 1 (D.Stream.parts beside.old.stack) (read_calls_of self.old.reading.script.text.now takes None (waiting self.old.reading)).calls)) }
        ensures book { OnOk result (D.Stream.parts beside.new.stack ≡ run_to (D.Stream.parts beside.old.stack) (read_calls_of self.old.reading.script.text.now takes None (waiting self.old.reading)).calls) }
        ensures stops { IfOk result (λ s. s ≡ (read_calls_of self.old.reading.script.text.now takes None (waiting self.old.reading)).stops) }
    {
        self.out.heading(b"call,reply\n")?;
        while let Some(line) = self.reading.line {
            let Some(asked) = self.call_of(line, takes) else {
                return Ok(Some(line.number));
            };
            let reply = beside.answer(asked);
            self.out.reply(hands_in(&asked), reply)?;
            self.reading.advance();
        }
        Ok(None)
    }

    // Writes the line that ended the reading, if one did.
    fn write_stop(&mut self, stops: Option<usize>) -> Result<(), AllocError>
        ensures { OnOk result (self.new.out.bytes.items ≡ self.old.out.bytes.items ++ stop_text stops) }
    {
        if let Some(number) = stops {
            self.out.unreadable(number)?;
        }
        Ok(())
    }

    // Runs the calls on a stack, and writes its schedule afterwards.
    fn run_stack<D: Stack, B: Stack>(
        &mut self,
        beside: &mut Beside<D, B>,
        takes: bool,
    ) -> Result<(), AllocError>
        ensures { OnOk result (self.new.out.bytes.items ≡ self.old.out.bytes.items ++ calls_text (D.Stream.parts beside.old.stack) (read_calls_of self.old.reading.script.text.now takes None (waiting self.old.reading))) }
    {
        let stops = self.run_calls(beside, takes)?;
        let schedule = schedule_of(self.heap, &beside.stack)?;
        self.out.text(schedule.as_slice())?;
        self.write_stop(stops)
    }

    // Runs the nodes and calls over a stream that takes.
    fn run_taking<S: TakingStream, B: TakingStream>(
        &mut self,
        bare: &mut S,
        second: &mut B,
    ) -> Result<(), AllocError>
        ensures { OnOk result (self.new.out.bytes.items ≡ self.old.out.bytes.items ++ run_text self.old.reading.script.text.now true (S.Stream.parts bare.old) (waiting self.old.reading)) }
    {
        let nodes = self.read_nodes(&*bare)?;
        let stack = Taking::over(Pile::over(bare, nodes));
        let second = Taking::over(second);
        self.run_stack(&mut Beside { stack, second }, true)
    }

    // Runs the nodes and questions over a stream that does not take. It and the last are alike but for the stack that they
    // make: one for both is no plainer, since the stack would be made by a trait of its own for the two.
    fn run_asked<S: Stream, B: Stream>(
        &mut self,
        bare: &mut S,
        second: &mut B,
    ) -> Result<(), AllocError>
        requires { (S.Stream.parts bare.old).entry ≡ None }
        ensures { OnOk result (self.new.out.bytes.items ≡ self.old.out.bytes.items ++ run_text self.old.reading.script.text.now false (S.Stream.parts bare.old) (waiting self.old.reading)) }
    {
        let nodes = self.read_nodes(&*bare)?;
        let stack = Asked::over(Pile::over(bare, nodes));
        let second = Asked::over(second);
        self.run_stack(&mut Beside { stack, second }, false)
    }

    // Runs the script over a live table of so many records, with another one beside it.
    fn run_live(&mut self, count: u32) -> Result<(), AllocError>
        ensures { OnOk result (self.new.out.bytes.items ≡ self.old.out.bytes.items ++ run_text self.old.reading.script.text.now true (empty_table (min count 4096)) (waiting self.old.reading)) }
    {
        let mut records = blank_records(self.heap, count)?;
        let mut others = blank_records(self.heap, count)?;
        let mut table = LiveTable::over(records.as_mut_slice());
        let mut second = LiveTable::over(others.as_mut_slice());
        self.run_taking(&mut table, &mut second)
    }

    // Runs the script over the prepared list of its entries, with another one beside it.
    fn run_prepared(&mut self) -> Result<(), AllocError>
        ensures { OnOk result (self.new.out.bytes.items ≡ self.old.out.bytes.items ++ prepared_text self.old.reading.script.text.now (read_entries_of (waiting self.old.reading))) }
    {
        let mut entries = Vec::new(self.heap);
        self.read_entries(&mut entries)?;
        let Ok(mut list) = Prepared::open(entries.as_slice()) else {
            return self.out.text(b"stream,18\n"); // the one refusal that opening has
        };
        let mut second = list;
        self.run_asked(&mut list, &mut second)
    }

    // Runs the script after its first line, which names this stream; what is printed then does not tell that line's number.
    fn run_start(&mut self, start: Start) -> Result<(), AllocError>
        ensures { (n : ℕ) → OnOk result (self.new.out.bytes.items ≡ self.old.out.bytes.items ++ start_text self.old.reading.script.text.now n (Some start) (waiting self.old.reading)) }
    {
        match start {
            Start::Live(count) => self.run_live(count),
            Start::Prepared => self.run_prepared(),
        }
    }

    // Runs the script, from its first line on; one that has none has no line after those that were handed out.
    fn run_script(&mut self) -> Result<(), AllocError>
        ensures { OnOk result (self.new.out.bytes.items ≡ self.old.out.bytes.items ++ lines_text self.old.reading.script.text.now (self.old.reading.script.number + 1) (waiting self.old.reading)) }
    {
        let Some(line) = self.reading.line else {
            let count = self.reading.script.count();
            return self.out.unreadable(count + 1);
        };
        let Some(start) = read_start(line) else {
            return self.out.unreadable(line.number);
        };
        self.reading.advance();
        self.run_start(start)
    }
}

// What `replay` prints of a script.
#[tactic(auto, using(crate::proofs::Runs::whole_run, crate::proofs::Runs::too_long))]
pub fn replay(heap: Global, input: &[u8]) -> Result<Vec<u8>, AllocError>
    ensures { IfOk result (λ v. v.items ≡ replay_of input.now) }
{
    let mut run = Run {
        heap,
        reading: Reading::new(input),
        out: Output::new(heap),
    };
    if input.len() > SCRIPT_LIMIT {
        run.out.unreadable(0)?;
    } else {
        run.run_script()?;
    }
    let Run { out, .. } = run;
    Ok(out.into_bytes())
}
