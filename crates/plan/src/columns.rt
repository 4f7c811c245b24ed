// The columns of a printed line: numbers with commas between them, put from the back to the front.

ghost use Rattle.std.specs.Prelude.{◌≡◌, ◌≤◌, [], ◌∷◌, ◌++◌, length, decimal, Option};
ghost use Rattle.times.specs.Put.{Puts};
ghost use Rattle.times.specs.declared.clock.TimeFault.{TimeFault};
ghost use Rattle.fields.specs.Faults.{cause_number_of};
ghost use Rattle.plan.specs.Lines.{rejection_fields, rejection_length};

use fields::fault::Rejection;
use times::clock::TimeFault;
use times::put::{BackWriter, digits};

// The number of a time cause, 0 where there is none.
fn cause_number(cause: Option<TimeFault>) -> u8
    ensures { result ≡ cause_number_of cause }
{
    cause.map_or(0, |fault| fault.cause())
}

// Puts a number and the byte after it.
pub fn put_field(writer: &mut BackWriter, number: u64, after: u8)
    ensures puts { Puts (decimal number ++ (after ∷ [])) writer.old writer.new }
    ensures few { length (decimal number ++ (after ∷ [])) ≤ 21 }
{
    writer.put_byte(after);
    writer.put_number(number);
}

// Puts the four numbers of a refused text and the line's end: refusal, line, byte and cause.
pub fn put_rejection(writer: &mut BackWriter, why: Rejection)
    ensures puts { Puts (rejection_fields why) writer.old writer.new }
    ensures few { length (rejection_fields why) ≤ 84 }
{
    put_field(writer, cause_number(why.cause) as u64, b'\n');
    put_field(writer, why.byte as u64, b',');
    put_field(writer, why.line as u64, b',');
    put_field(writer, why.refusal.number() as u64, b',');
}

// How long the line of a refused piece is.
pub fn line_length(document: usize, why: Rejection) -> usize
    ensures value { result ≡ rejection_length document why }
    ensures bound { result ≤ 105 }
{
    let numbers = digits(document as u64) + digits(why.refusal.number() as u64);
    numbers
        + digits(why.line as u64)
        + digits(why.byte as u64)
        + digits(cause_number(why.cause) as u64)
        + 5
}
