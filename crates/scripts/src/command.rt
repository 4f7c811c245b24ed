// What a line of a script says.

ghost use Rattle.std.specs.Prelude.{◌≡◌, OnSome};
ghost use Rattle.fields.specs.Parts.{first, rest};
ghost use Rattle.fields.specs.Left.{left};
ghost use Rattle.scripts.specs.Commands.{number_in, optional_in, none_in, one_in, three_in, times_in, document_in, said_by, start_by, start_of, command_of};
ghost use Rattle.scripts.specs.Left.{line_of};

use crate::lines::Line;
use documents::document::Document;
use fields::level::is_text;
use fields::number::read_number;
use fields::reader::Reader;
use streams::prepared::Entry;

// The most records that a live table may be handed.
const MOST_RECORDS: u32 = 65_536;

const COMMA: u8 = b',';

// What the first line may be.
#[derive(Clone, Copy, Debug, PartialEq, Eq)]
pub enum Start {
    // a live table over so many records
    Live(u32),
    Prepared,
}

// What every other line may be. Questions have a window's begin and end first.
#[derive(Clone, Copy, Debug, PartialEq, Eq)]
pub enum Command {
    Entry(Entry),
    Holder(u32),
    Retimer(u32),
    Take(Document),
    Tick(u32),
    Active(u32, u32, u32),
    Interval(u32, u32, u32),
    Text,
}

// A number in the next field.
fn number(fields: &mut Reader) -> Option<u32>
    ensures value { result ≡ number_in (first (left fields.old)) }
    ensures rest { left fields.new ≡ rest (left fields.old) }
{
    read_number(0, fields.next()?.bytes).ok()
}

// A number in the next field, which may be blank.
fn optional(fields: &mut Reader) -> Option<Option<u32>>
    ensures value { result ≡ optional_in (first (left fields.old)) }
    ensures rest { left fields.new ≡ rest (left fields.old) }
{
    let field = fields.next()?;
    if field.bytes.is_empty() {
        return Some(None);
    }
    read_number(0, field.bytes).ok().map(Some)
}

// No field at all.
fn none(fields: &mut Reader) -> Option<()>
    ensures { result ≡ none_in (left fields.old) }
{
    fields.next().is_none().then_some(())
}

// One number and no field after it.
fn one(fields: &mut Reader) -> Option<u32>
    ensures { result ≡ one_in (left fields.old) }
{
    let n = number(fields)?;
    none(fields)?;
    Some(n)
}

// Three numbers and no field after them. No `fill`: a number is read where its field is, so nothing keeps the fields.
fn three(fields: &mut Reader) -> Option<(u32, u32, u32)>
    ensures { result ≡ three_in (left fields.old) }
{
    let a = number(fields)?;
    let b = number(fields)?;
    let c = one(fields)?;
    Some((a, b, c))
}

// Begin, end and dur, each of which may be blank.
fn times(fields: &mut Reader) -> Option<(Option<u32>, Option<u32>, Option<u32>)>
    ensures value { result ≡ times_in (left fields.old) }
    ensures rest { OnSome result (left fields.new ≡ rest (rest (rest (left fields.old)))) }
{
    let begin = optional(fields)?;
    let end = optional(fields)?;
    let dur = optional(fields)?;
    Some((begin, end, dur))
}

// The fields of a document and none after them.
fn document(fields: &mut Reader) -> Option<Document>
    ensures { result ≡ document_in (left fields.old) }
{
    let number_field = number(fields)?;
    let available = number(fields)?;
    let (begin, end, dur) = times(fields)?;
    let content = one(fields)?;
    Some(Document {
        number: number_field,
        available,
        begin,
        end,
        dur,
        content,
    })
}

// What a line's first field and the fields after it say.
fn worded(word: &[u8], fields: &mut Reader) -> Option<Command>
    ensures { result ≡ said_by word.now (left fields.old) }
{
    // a chain of tests: of a `match` on the words the proof did not close, since `search` gave up at the longer ones
    let command = if is_text(word, b"entry") {
        let (begin, end, content) = three(fields)?;
        Command::Entry(Entry {
            begin,
            end,
            content,
        })
    } else if is_text(word, b"holder") {
        Command::Holder(one(fields)?)
    } else if is_text(word, b"retimer") {
        Command::Retimer(one(fields)?)
    } else if is_text(word, b"take") {
        Command::Take(document(fields)?)
    } else if is_text(word, b"tick") {
        Command::Tick(one(fields)?)
    } else if is_text(word, b"active") {
        let (begin, end, moment) = three(fields)?;
        Command::Active(begin, end, moment)
    } else if is_text(word, b"interval") {
        let (begin, end, number) = three(fields)?;
        Command::Interval(begin, end, number)
    } else if is_text(word, b"text") {
        none(fields)?;
        Command::Text
    } else {
        return None;
    };
    Some(command)
}

// What the first field of a script's first line and the fields after it say.
fn start_worded(word: &[u8], fields: &mut Reader) -> Option<Start>
    ensures { result ≡ start_by word.now (left fields.old) }
{
    // a chain of tests, as for the other lines
    if is_text(word, b"live") {
        one(fields)
            .filter(|records| *records <= MOST_RECORDS)
            .map(Start::Live)
    } else if is_text(word, b"prepared") {
        none(fields).map(|()| Start::Prepared)
    } else {
        None
    }
}

// What the first line of a script says. It and the next function are one but for the words; a closure for the words is no
// plainer, since the promise would be of whatever the closure may answer.
pub fn read_start(line: Line) -> Option<Start>
    ensures { result ≡ start_of (line_of line.entry) }
{
    if !line.ended {
        return None;
    }
    let mut fields = Reader::new(line.bytes, 0, COMMA);
    let word = fields.next()?;
    start_worded(word.bytes, &mut fields)
}

// What any other line says.
pub fn read_command(line: Line) -> Option<Command>
    ensures { result ≡ command_of (line_of line.entry) }
{
    if !line.ended {
        return None;
    }
    let mut fields = Reader::new(line.bytes, 0, COMMA);
    let word = fields.next()?;
    // by `?`, so that a line that says nothing leaves here: handed on, what it says would be put together as a command's is,
    // before each test of a word, and every line would pay for that
    let command = worded(word.bytes, &mut fields)?;
    Some(command)
}
