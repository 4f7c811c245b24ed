// Texts of documents: every refusal with its line, byte and cause, and the values of accepted ones.

use documents::document::Document;
use documents::text::read_document;

// The record of a refusal: number, line, byte, cause; all 0 for an accepted text.
fn record(text: &[u8]) -> (u8, usize, usize, u8) {
    match read_document(text) {
        Ok(_) => (0, 0, 0, 0),
        Err(why) => (
            why.refusal.number(),
            why.line,
            why.byte,
            why.cause.map_or(0, |fault| fault.cause()),
        ),
    }
}

// The document of a text, or one whose values are all 0 or absent.
fn document(text: &[u8]) -> Document {
    read_document(text).unwrap_or_default()
}

#[test]
fn the_example_is_read(rt: HostRuntime) {
    let text =
        b"number,available,content,dur\n7,00:00:10.000,12,\nlevel,begin,end\nbody,,\ndiv,00:00:11.000,\np,00:00:01.000,00:00:04.000\nspan,,00:00:05.000\n";
    let d = document(text);
    assert_eq!(rt; d.number, 7);
    assert_eq!(rt; d.available, 10_000);
    assert_eq!(rt; d.content, 12);
    assert_eq!(rt; d.dur, None);
    assert_eq!(rt; d.begin, Some(11_000));
    assert_eq!(rt; d.end, Some(15_000));
}

#[test]
fn sixty_one_seconds_are_placed_at_their_field(rt: HostRuntime) {
    let text =
        b"number,available,content,dur\n7,00:00:10.000,12,\nlevel,begin,end\nbody,,\ndiv,00:00:61.000,\np,00:00:01.000,00:00:04.000\nspan,,00:00:05.000\n";
    assert_eq!(rt; record(text), (5, 5, 75, 3));
}

#[test]
fn the_text_as_a_whole(rt: HostRuntime) {
    assert_eq!(rt; record(b""), (1, 0, 0, 0));
    assert_eq!(rt; record(b"number,available,content,dur"), (1, 0, 0, 0));
    let long = [10u8; 4097];
    assert_eq!(rt; record(&long), (1, 0, 0, 0));
    assert_eq!(rt; record(&long[0..4096]), (2, 1, 0, 0));
}

#[test]
fn names_lines(rt: HostRuntime) {
    assert_eq!(rt; record(b"number,available,content,dur\r\n"), (2, 1, 0, 0));
    assert_eq!(rt;
        record(b"number,available,content,dur\n7,00:00:10.000,12,\n"),
        (2, 3, 48, 0)
    );
    assert_eq!(rt;
        record(b"number,available,content,dur\n7,00:00:10.000,12,\n\n"),
        (2, 3, 48, 0)
    );
}

#[test]
fn field_counts(rt: HostRuntime) {
    assert_eq!(rt; record(b"number,available,content,dur\n"), (3, 2, 29, 0));
    assert_eq!(rt; record(b"number,available,content,dur\n\n"), (3, 2, 29, 0));
    assert_eq!(rt;
        record(b"number,available,content,dur\n7,00:00:10.000,12\n"),
        (3, 2, 29, 0)
    );
    assert_eq!(rt;
        record(b"number,available,content,dur\n7,00:00:10.000,12,\nlevel,begin,end\nbody,\n"),
        (3, 4, 64, 0)
    );
    assert_eq!(rt;
        record(b"number,available,content,dur\n7,00:00:10.000,12,\nlevel,begin,end\nbody,,\n\n"),
        (3, 5, 71, 0)
    );
}

#[test]
fn numbers(rt: HostRuntime) {
    assert_eq!(rt;
        record(b"number,available,content,dur\n0,00:00:10.000,12,\n"),
        (4, 2, 29, 0)
    );
    assert_eq!(rt;
        record(b"number,available,content,dur\n07,00:00:10.000,12,\n"),
        (4, 2, 29, 0)
    );
    assert_eq!(rt;
        record(b"number,available,content,dur\n4294967296,00:00:10.000,12,\n"),
        (4, 2, 29, 0)
    );
    assert_eq!(rt;
        record(b"number,available,content,dur\n7,00:00:10.000,,\n"),
        (4, 2, 44, 0)
    );
}

#[test]
fn times_in_the_value_line(rt: HostRuntime) {
    assert_eq!(rt;
        record(b"number,available,content,dur\n7,,12,\n"),
        (5, 2, 31, 1)
    );
    assert_eq!(rt;
        record(b"number,available,content,dur\n7,98:40:00.000,12,\n"),
        (5, 2, 31, 4)
    );
    assert_eq!(rt;
        record(b"number,available,content,dur\n7,00:00:10.000,12,3\n"),
        (5, 2, 47, 1)
    );
}

#[test]
fn levels(rt: HostRuntime) {
    assert_eq!(rt;
        record(b"number,available,content,dur\n7,00:00:10.000,12,\nlevel,begin,end\n"),
        (6, 4, 64, 0)
    );
    assert_eq!(rt;
        record(b"number,available,content,dur\n7,00:00:10.000,12,\nlevel,begin,end\ndiv,,\n"),
        (6, 4, 64, 0)
    );
    assert_eq!(rt;
        record(b"number,available,content,dur\n7,00:00:10.000,12,\nlevel,begin,end\nBody,,\n"),
        (6, 4, 64, 0)
    );
    assert_eq!(rt;
        record(b"number,available,content,dur\n7,00:00:10.000,12,\nlevel,begin,end\nbody,,\np,,\n"),
        (6, 5, 71, 0)
    );
}

#[test]
fn computed_times(rt: HostRuntime) {
    assert_eq!(rt;
        record(
            b"number,available,content,dur\n7,00:00:10.000,12,\nlevel,begin,end\nbody,98:00:00.000,\ndiv,00:40:00.000,\n",
        ),
        (7, 5, 87, 0)
    );
    assert_eq!(rt;
        record(
            b"number,available,content,dur\n7,00:00:10.000,12,\nlevel,begin,end\nbody,98:00:00.000,\ndiv,00:39:59.999,\n",
        ),
        (0, 0, 0, 0)
    );
    assert_eq!(rt;
        record(
            b"number,available,content,dur\n7,00:00:10.000,12,\nlevel,begin,end\nbody,98:00:00.000,\ndiv,00:40:00.000,1\n",
        ),
        (5, 5, 100, 1)
    );
    assert_eq!(rt;
        record(
            b"number,available,content,dur\n7,00:00:10.000,12,\nlevel,begin,end\nbody,98:00:00.000,98:30:00.000\ndiv,,00:40:00.000\n",
        ),
        (7, 5, 100, 0)
    );
}

#[test]
fn an_end_is_cut_to_the_parents(rt: HostRuntime) {
    let d = document(
        b"number,available,content,dur\n7,00:00:10.000,12,\nlevel,begin,end\nbody,00:00:10.000,00:00:20.000\ndiv,00:00:15.000,00:00:12.000\n",
    );
    assert_eq!(rt; d.begin, Some(10_000));
    assert_eq!(rt; d.end, Some(20_000));
}
