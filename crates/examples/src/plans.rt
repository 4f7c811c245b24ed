// The plan of an input, and how much output it needs.

use crate::numbers::count;
use plan::planning::plan;

#[test]
fn an_empty_input_needs_the_two_names_lines(rt: HostRuntime) {
    let mut out = [46u8; 59];
    assert_eq!(rt; count(plan(b"", &mut out)), 58);
    assert!(rt;
        &out[0..59] == b"number,begin,end,content\ndocument,refusal,line,byte,cause\n.".as_slice()
    );
    let mut short = [46u8; 57];
    assert_eq!(rt; count(plan(b"\n\n", &mut short)), 1017);
    assert!(rt; short[0] == 46 && short[56] == 46);
}

#[test]
fn a_longer_input_is_one_refusal(rt: HostRuntime) {
    let long = [10u8; 65_537];
    let mut out = [46u8; 68];
    assert_eq!(rt; count(plan(&long, &mut out)), 68);
    assert!(rt;
        &out[0..68]
            == b"number,begin,end,content\ndocument,refusal,line,byte,cause\n0,1,0,0,0\n".as_slice()
    );
    assert_eq!(rt; count(plan(&long[0..65_536], &mut out)), 58);
}
