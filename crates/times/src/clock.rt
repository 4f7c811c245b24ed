// Reading and writing a clock time, `hh:mm:ss.fff`.

ghost use Rattle.std.specs.Prelude.{◌≡◌, ◌+◌, ◌<◌, true, length};
ghost use Rattle.times.specs.Refusals.{outcome};
ghost use Rattle.times.specs.Clock.{cause_of, told, read_time_of, is_digit_of, shaped, pair, time_text, write_time_of, RoundTrip};

use crate::put::copy_front;
use crate::refusal::Refusal;

// The latest moment that may enter the part: 98:39:59.999.
pub const ENTRY_LIMIT: u32 = 355_199_999;

// The latest moment that may be written or asked for: 99:59:59.999.
pub const LAST_MOMENT: u32 = 359_999_999;

// How many bytes a written time has.
pub const TIME_LENGTH: usize = 12;

const MOST_SIXTIETHS: u32 = 59;

// Why a text is not a time. The causes are judged in this order, each over the whole text.
#[derive(Clone, Copy, Debug, PartialEq, Eq)]
pub enum TimeFault {
    // not twelve bytes
    Length = 1,
    // a byte is not the digit, colon or point expected
    Shape = 2,
    // minutes or seconds over 59
    Sixty = 3,
    // past the entry limit
    Limit = 4,
}

impl TimeFault {
    // The fixed number of the cause.
    pub fn cause(self) -> u8
        ensures { result ≡ cause_of self }
    {
        self as u8
    }
}

// Whether a byte is a decimal digit.
pub fn is_digit(b: u8) -> bool
    ensures { result ≡ is_digit_of b }
{
    b.is_ascii_digit()
}

fn has_shape(text: &[u8]) -> bool
    requires { length text.now ≡ 12 }
    ensures { result ≡ shaped text.now }
{
    is_digit(text[0])
        && is_digit(text[1])
        && text[2] == b':'
        && is_digit(text[3])
        && is_digit(text[4])
        && text[5] == b':'
        && is_digit(text[6])
        && is_digit(text[7])
        && text[8] == b'.'
        && is_digit(text[9])
        && is_digit(text[10])
        && is_digit(text[11])
}

fn two_digits(a: u8, b: u8) -> u32
    requires tens { is_digit_of a ≡ true }
    requires units { is_digit_of b ≡ true }
    ensures value { result ≡ pair a b }
    ensures bound { result < 100 }
{
    10 * (a - b'0') as u32 + (b - b'0') as u32
}

// The moment that a text names, up to the entry limit.
#[tactic(auto, using(crate::proofs::Shape::digits))]
pub fn read_time(text: &[u8]) -> Result<u32, TimeFault>
    ensures { told result ≡ read_time_of text.now }
{
    if text.len() != TIME_LENGTH {
        return Err(TimeFault::Length);
    }
    if !has_shape(text) {
        return Err(TimeFault::Shape);
    }
    let hours = two_digits(text[0], text[1]);
    let minutes = two_digits(text[3], text[4]);
    let seconds = two_digits(text[6], text[7]);
    if minutes > MOST_SIXTIETHS || seconds > MOST_SIXTIETHS {
        return Err(TimeFault::Sixty);
    }
    let millis = 100 * (text[9] - b'0') as u32 + two_digits(text[10], text[11]);
    let moment = 3_600_000 * hours + (60_000 * minutes + (1000 * seconds + millis));
    if moment > ENTRY_LIMIT {
        return Err(TimeFault::Limit);
    }
    Ok(moment)
}

// The twelve bytes of a moment. They are a clock time up to the last moment; past it the first
// byte is no digit any more.
pub fn time_bytes(moment: u32) -> [u8; 12]
    ensures { result ≡ time_text moment }
{
    [
        b'0' + (moment / 36_000_000) as u8,
        b'0' + (moment / 3_600_000 % 10) as u8,
        b':',
        b'0' + (moment / 600_000 % 6) as u8,
        b'0' + (moment / 60_000 % 10) as u8,
        b':',
        b'0' + (moment / 10_000 % 6) as u8,
        b'0' + (moment / 1000 % 10) as u8,
        b'.',
        b'0' + (moment / 100 % 10) as u8,
        b'0' + (moment / 10 % 10) as u8,
        b'0' + (moment % 10) as u8,
    ]
}

// Writes a moment up to the last moment into the first twelve bytes of the output.
pub fn write_time(moment: u32, out: &mut [u8]) -> Result<usize, Refusal>
    ensures writes { outcome result out.new ≡ write_time_of moment out.old }
    ensures trip { RoundTrip }
{
    if moment > LAST_MOMENT {
        return Err(Refusal::PastLastMoment);
    }
    copy_front(&time_bytes(moment), out)
}
