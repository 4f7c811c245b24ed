// A live table over two records, call by call; and hand-in.

use crate::numbers::number;
use documents::document::Document;
use streams::hand_in::hand_in;
use streams::live::LiveTable;
use streams::making::TableOver;
use streams::stream::Stream;
use streams::taking::TakingStream;

// A document with no times but its available, and with a dur.
fn document(number: u32, available: u32, dur: Option<u32>) -> Document {
    Document {
        number,
        available,
        dur,
        ..Document::default()
    }
}

fn handed(table: &mut LiveTable, text: &[u8]) -> (u8, usize, usize) {
    match hand_in(table, text) {
        Ok(()) => (0, 0, 0),
        Err(why) => (why.refusal.number(), why.line, why.byte),
    }
}

#[test]
fn a_table_refuses_in_order(rt: HostRuntime) {
    let mut records = [document(0, 0, None); 2];
    let mut table = LiveTable::over(&mut records);
    assert_eq!(rt; number(table.tick(1_000)), 0);
    assert_eq!(rt; number(table.take(document(3, 999, None))), 8);
    assert_eq!(rt; number(table.take(document(0, 999, None))), 4);
    assert_eq!(rt; number(table.take(document(3, 1_000, None))), 0);
    assert_eq!(rt; number(table.take(document(3, 1_000, None))), 9);
    assert_eq!(rt; number(table.take(document(3, 900, None))), 8);
    assert_eq!(rt; number(table.take(document(9, 6_000, Some(3_000)))), 0);
    assert_eq!(rt; number(table.take(document(9, 7_000, None))), 9);
    assert_eq!(rt; number(table.take(document(10, 7_000, None))), 10);
}

#[test]
fn a_full_table_still_ticks(rt: HostRuntime) {
    let mut records = [document(0, 0, None); 1];
    let mut table = LiveTable::over(&mut records);
    assert_eq!(rt; number(table.take(document(9, 6_000, None))), 0);
    assert_eq!(rt;
        number(table.take(document(10, 7_000, Some(355_200_000)))),
        7
    );
    assert_eq!(rt; number(table.tick(5_999)), 8);
    assert_eq!(rt; number(table.tick(355_200_000)), 11);
    assert_eq!(rt; number(table.tick(355_199_999)), 0);
    assert_eq!(rt; table.entry_moment(), 355_199_999);
    assert_eq!(rt; table.settled_moment(), 355_199_999);
    assert_eq!(rt; table.total_adjustment(), 0);
    assert_eq!(rt; table.count(), 1);
}

#[test]
fn a_table_of_no_records_takes_nothing(rt: HostRuntime) {
    let mut records: [Document; 0] = [];
    let mut table = LiveTable::over(&mut records);
    assert_eq!(rt; number(table.take(document(1, 0, None))), 10);
    assert!(rt; table.document_at(0).is_none());
}

#[test]
fn hand_in_judges_the_text_first(rt: HostRuntime) {
    let mut records = [document(0, 0, None); 3];
    let mut table = LiveTable::over(&mut records);
    assert_eq!(rt; number(table.take(document(6, 20_000, None))), 0);
    assert_eq!(rt;
        handed(
            &mut table,
            b"number,available,content,dur\n7,00:00:10.000,12,\nlevel,begin,end\nbody,,\n",
        ),
        (8, 0, 0)
    );
    assert_eq!(rt;
        handed(
            &mut table,
            b"number,available,content,dur\n6,00:00:30.000,12,\nlevel,begin,end\nbody,,\n",
        ),
        (9, 0, 0)
    );
    assert_eq!(rt;
        handed(
            &mut table,
            b"number,available,content,dur\n6,00:00:10.000,12,\nlevel,begin,end\nbody,\n",
        ),
        (3, 4, 64)
    );
    assert_eq!(rt; table.count(), 1);
    assert_eq!(rt;
        handed(
            &mut table,
            b"number,available,content,dur\n7,00:00:20.000,12,\nlevel,begin,end\nbody,,\n",
        ),
        (0, 0, 0)
    );
    assert_eq!(rt; table.count(), 2);
}
