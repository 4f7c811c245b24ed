// Windows, and the schedule of three and of four documents.

use crate::numbers::{count, number};
use documents::document::Document;
use questions::schedule::text::schedule_text;
use questions::schedule::{Interval, schedule};
use questions::window::Window;
use std::test::Fail;
use streams::live::LiveTable;
use streams::making::TableOver;
use streams::taking::TakingStream;
use times::refusal::Refusal;

// The number of the refusal of a window, or 0.
fn window_refusal(begin: u32, end: u32) -> u8 {
    number(Window::new(begin, end))
}

// The three documents of the worked example, and a fourth that ends before it is available.
fn three(table: &mut LiveTable) -> Result<(), Refusal> {
    let one = Document {
        number: 1,
        content: 11,
        ..Document::default()
    };
    let two = Document {
        number: 2,
        available: 5_000,
        dur: Some(3_000),
        content: 12,
        ..Document::default()
    };
    let three = Document {
        number: 3,
        available: 6_000,
        begin: Some(12_000),
        end: Some(15_000),
        content: 13,
        ..Document::default()
    };
    table.take(one)?;
    table.take(two)?;
    table.take(three)
}

fn fourth() -> Document {
    Document {
        number: 4,
        available: 10_000,
        end: Some(9_000),
        content: 14,
        ..Document::default()
    }
}

// An interval as its four numbers.
fn shown(interval: Interval) -> (u32, u32, u32, u32) {
    (
        interval.number,
        interval.begin,
        interval.end,
        interval.content,
    )
}

#[test]
fn windows(rt: HostRuntime) {
    assert_eq!(rt; window_refusal(0, 355_199_999), 0);
    assert_eq!(rt; window_refusal(359_999_998, 359_999_999), 0);
    assert_eq!(rt; window_refusal(5_000, 5_000), 14);
    assert_eq!(rt; window_refusal(6_000, 5_000), 14);
    assert_eq!(rt; window_refusal(0, 360_000_000), 14);
}

#[test]
fn three_documents_are_listed(rt: HostRuntime) -> Result<(), Fail> {
    let mut records = [Document::default(); 4];
    let mut table = LiveTable::over(&mut records);
    assert!(rt; three(&mut table).is_ok());
    let Ok(window) = Window::new(0, 20_000) else {
        return Err(Fail::new("no window"));
    };
    let other = Interval {
        number: 9,
        begin: 9,
        end: 9,
        content: 9,
    };
    let mut out = [other; 4];
    assert_eq!(rt; count(schedule(&table, window, &mut out)), 3);
    assert_eq!(rt; shown(out[0]), (1, 0, 5_000, 11));
    assert_eq!(rt; shown(out[1]), (2, 5_000, 8_000, 12));
    assert_eq!(rt; shown(out[2]), (3, 12_000, 15_000, 13));
    assert_eq!(rt; shown(out[3]), (9, 9, 9, 9));
    assert_eq!(rt; count(schedule(&table, window, &mut out[0..2])), 1017);
    Ok(())
}

#[test]
fn a_document_that_never_shows_still_cuts(rt: HostRuntime) -> Result<(), Fail> {
    let mut records = [Document::default(); 4];
    let mut table = LiveTable::over(&mut records);
    assert!(rt; three(&mut table).is_ok());
    assert!(rt; table.take(fourth()).is_ok());
    let Ok(window) = Window::new(0, 20_000) else {
        return Err(Fail::new("no window"));
    };
    let mut out = [0u8; 100];
    assert_eq!(rt; count(schedule_text(&table, window, &mut out)), 87);
    assert!(rt;
        &out[0..87]
            == b"number,begin,end,content\n1,00:00:00.000,00:00:05.000,11\n2,00:00:05.000,00:00:08.000,12\n".as_slice()
    );
    assert_eq!(rt; count(schedule_text(&table, window, &mut out[0..86])), 1017);
    Ok(())
}
