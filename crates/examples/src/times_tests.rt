// Clock times: every cause, both limits, and what writing leaves in the output.

use crate::numbers::number;
use times::clock::{read_time, write_time};

// The moment that a text reads as, and the number of the cause: one of them is 0.
fn reading(text: &[u8]) -> (u32, u8) {
    match read_time(text) {
        Ok(moment) => (moment, 0),
        Err(fault) => (0, fault.cause()),
    }
}

// The number of the refusal, or 0.
fn writing(moment: u32, out: &mut [u8]) -> u8 {
    number(write_time(moment, out))
}

#[test]
fn times_are_read(rt: HostRuntime) {
    assert_eq!(rt; reading(b"00:00:00.000"), (0, 0));
    assert_eq!(rt; reading(b"06:30:04.320"), (23_404_320, 0));
    assert_eq!(rt; reading(b"98:39:59.999"), (355_199_999, 0));
}

#[test]
fn each_cause_comes_in_its_turn(rt: HostRuntime) {
    assert_eq!(rt; reading(b""), (0, 1));
    assert_eq!(rt; reading(b"1:00:00.000"), (0, 1));
    assert_eq!(rt; reading(b"00:00:00.0000"), (0, 1));
    assert_eq!(rt; reading(b"00:00:00,000"), (0, 2));
    assert_eq!(rt; reading(b"00:60:00.00x"), (0, 2));
    assert_eq!(rt; reading(b"00:00:61.000"), (0, 3));
    assert_eq!(rt; reading(b"99:60:00.000"), (0, 3));
    assert_eq!(rt; reading(b"98:40:00.000"), (0, 4));
}

#[test]
fn a_time_is_written_into_the_first_twelve_bytes(rt: HostRuntime) {
    let mut out = *b"..............";
    assert_eq!(rt; writing(23_404_320, &mut out), 0);
    assert!(rt; out == *b"06:30:04.320..");
    let mut last = *b"............";
    assert_eq!(rt; writing(359_999_999, &mut last), 0);
    assert!(rt; last == *b"99:59:59.999");
}

#[test]
fn a_refused_writing_keeps_the_output(rt: HostRuntime) {
    let mut out = *b"...........";
    assert_eq!(rt; writing(360_000_000, &mut out), 15);
    assert_eq!(rt; writing(0, &mut out), 17);
    assert!(rt; out == *b"...........");
}
