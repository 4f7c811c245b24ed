// Numbers in decimal.

ghost use Rattle.std.specs.Prelude.{◌≡◌, ◌≤◌, length};
ghost use Rattle.fields.specs.Faults.{judged};
ghost use Rattle.fields.specs.Numbers.{digits_from, number_field_of};

use crate::fault::FieldFault;
use times::clock::is_digit;

const MOST_DIGITS: usize = 10;

// The number that ten digits or fewer write, if they all are digits.
fn digits(bytes: &[u8]) -> Option<u64>
    requires { length bytes.now ≤ 10 }
    ensures { result ≡ digits_from 0 bytes.now }
{
    let mut total: u64 = 0;
    for b in bytes {
        if !is_digit(*b) {
            return None;
        }
        total = 10 * total + u64::from(*b - b'0');
    }
    Some(total)
}

// A number from `low` to the largest of 32 bits, in one to ten digits without a leading zero.
pub fn read_number(low: u32, bytes: &[u8]) -> Result<u32, FieldFault>
    ensures { judged result ≡ number_field_of low bytes.now }
{
    if !(1..=MOST_DIGITS).contains(&bytes.len()) || bytes.len() >= 2 && bytes[0] == b'0' {
        return Err(FieldFault::Number);
    }
    digits(bytes)
        .and_then(|n| u32::try_from(n).ok())
        .filter(|n| *n >= low)
        .ok_or(FieldFault::Number)
}
