// The text of a document: two names lines, a value line, and a line for each element.

ghost use Rattle.std.specs.Prelude.{◌≡◌, ◌+◌, ◌^◌, ◌<◌, ◌≤◌, false, [], length, map, None, MatchOption, ◌==◌};
ghost use Rattle.fields.specs.Faults.{told};
ghost use Rattle.fields.specs.Parts.{parts};
ghost use Rattle.fields.specs.Left.{left, part_of, part_in};
ghost use Rattle.documents.specs.Reading.{names, value_fields_of, value_parts, read_document_of};
ghost use Rattle.documents.specs.Laws.{Accepting, Bounding};
ghost use Rattle.documents.specs.Outlines.{element_after, outline_of, read_lines_of};

use crate::document::Document;
use crate::element::{Element, Outline, element_times, time_at};
use fields::fault::{Rejection, placed, time_field};
use fields::level::{is_text, level_field};
use fields::number::read_number;
use fields::reader::{Field, Reader};
use times::refusal::Refusal;

// The longest text that is read.
pub const TEXT_LIMIT: usize = 4096;

const LINE_FEED: u8 = b'\n';

const COMMA: u8 = b',';

// The line of the first element.
const FIRST_ELEMENT: usize = 4;

// A line that a reader handed out, so a reader of its fields can count to its end.
#[derive(Clone, Copy)]
struct Line<'a> {
    part: Field<'a>,
    ghost near: { part.offset + length part.bytes.now < 2 ^ 63 },
}

impl<'a> Line<'a> {
    // Writes the line's fields into `fields`, where they are as many.
    fn fill(self, fields: &mut [Field<'a>]) -> Option<()>
        ensures len { length fields.new ≡ length fields.old }
        ensures parts { MatchOption result ((length (parts 44 self.entry.part.offset self.entry.part.bytes.now) == length fields.old) ≡ false) (λ _. parts 44 self.entry.part.offset self.entry.part.bytes.now ≡ map part_of fields.new) }
    {
        Reader::new(self.part.bytes, self.part.offset, COMMA).fill(fields)
    }
}

// The value line's four values.
#[derive(Clone, Copy, Debug, PartialEq, Eq)]
pub struct Values {
    pub number: u32,
    pub available: u32,
    pub content: u32,
    pub dur: Option<u32>,
}

// A refusal that is not a field's.
fn rejection(refusal: Refusal, line: usize, byte: usize) -> Rejection
    ensures { result ≡ record { refusal = refusal; line = line; byte = byte; cause = None } }
{
    Rejection {
        refusal,
        line,
        byte,
        cause: None,
    }
}

fn check_names(
    len: usize,
    line: usize,
    expected: &[u8],
    part: Option<Field>,
) -> Result<(), Rejection>
    ensures { told result ≡ names len line expected.now (part_in part.entry) }
{
    let Some(found) = part else {
        return Err(rejection(Refusal::NamesLine, line, len));
    };
    if is_text(found.bytes, expected) {
        Ok(())
    } else {
        Err(rejection(Refusal::NamesLine, line, found.offset))
    }
}

fn value_fields(n: Field, a: Field, c: Field, d: Field) -> Result<Values, Rejection>
    ensures { told result ≡ value_fields_of (part_of n.entry) (part_of a.entry) (part_of c.entry) (part_of d.entry) }
{
    let number = placed(2, n.offset, read_number(1, n.bytes))?;
    let available = placed(2, a.offset, time_field(a.bytes))?;
    let content = placed(2, c.offset, read_number(0, c.bytes))?;
    let dur = time_at(2, d)?;
    Ok(Values {
        number,
        available,
        content,
        dur,
    })
}

fn read_values(line: Line) -> Result<Values, Rejection>
    ensures { told result ≡ value_parts line.entry.part.offset (parts 44 line.entry.part.offset line.entry.part.bytes.now) }
{
    let mut fields = [line.part; 4];
    let Some(()) = line.fill(&mut fields) else {
        return Err(rejection(Refusal::FieldCount, 2, line.part.offset));
    };
    let [n, a, c, d] = fields;
    value_fields(n, a, c, d)
}

fn read_element(number: usize, outline: Outline, line: Line) -> Result<Element, Rejection>
    ensures { told result ≡ element_after number outline (part_of line.entry.part) }
{
    let mut fields = [line.part; 3];
    let Some(()) = line.fill(&mut fields) else {
        return Err(rejection(Refusal::FieldCount, number, line.part.offset));
    };
    let [level, begin, end] = fields;
    let depth = placed(
        number,
        level.offset,
        level_field(outline.depth, level.bytes),
    )?;
    element_times(number, depth, outline.parent_of(depth), begin, end)
}

// The elements, from line 4 on. The first is read by itself, for there must be one.
fn read_elements(len: usize, lines: &mut Reader) -> Result<Outline, Rejection>
    requires { length (left lines.old) ≤ 4097 }
    ensures { told result ≡ outline_of len (left lines.old) }
{
    let Some(part) = lines.next() else {
        return Err(rejection(Refusal::LevelOutOfPlace, FIRST_ELEMENT, len));
    };
    let start = Outline::start();
    let mut outline = start.with(read_element(FIRST_ELEMENT, start, Line { part })?);
    for (i, part) in lines.enumerate() {
        outline = outline.with(read_element(FIRST_ELEMENT + 1 + i, outline, Line { part })?);
    }
    Ok(outline)
}

fn read_lines(len: usize, lines: &mut Reader) -> Result<Document, Rejection>
    requires { length (left lines.old) ≤ 4097 }
    ensures { told result ≡ read_lines_of len (left lines.old) }
{
    check_names(len, 1, b"number,available,content,dur", lines.next())?;
    let Some(part) = lines.next() else {
        return Err(rejection(Refusal::FieldCount, 2, len));
    };
    let values = read_values(Line { part })?;
    check_names(len, 3, b"level,begin,end", lines.next())?;
    let outline = read_elements(len, lines)?;
    Ok(Document {
        number: values.number,
        available: values.available,
        begin: outline.begin,
        end: outline.end,
        dur: values.dur,
        content: values.content,
    })
}

// The document that a text carries, or the refusal that applies first.
pub fn read_document(text: &[u8]) -> Result<Document, Rejection>
    ensures reads { told result ≡ read_document_of text.now }
    ensures accepting { Accepting }
    ensures bounding { Bounding }
{
    let len = text.len();
    if len == 0 || len > TEXT_LIMIT || text[len - 1] != LINE_FEED {
        return Err(Refusal::NotAText.into());
    }
    let mut lines = Reader::new(&text[..len - 1], 0, LINE_FEED);
    read_lines(len, &mut lines)
}
