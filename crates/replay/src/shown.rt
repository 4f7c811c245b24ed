// Whole scripts and what is printed of them, as docs/REPLAY.md has them.

use crate::running::replay;
use std::alloc::Global;

// Whether a script prints a text; false, too, where memory runs out.
fn prints(heap: Global, script: &[u8], text: &[u8]) -> bool {
    replay(heap, script).is_ok_and(|printed| printed.as_slice() == text)
}

#[test]
fn calls_are_numbered_and_answered(rt: HostRuntime) {
    assert!(rt;
        prints(
            rt.alloc(),
            b"live,1\ntext\n\ntick,5\n",
            b"node,reply\ncall,reply\n1,1,0,0,0\n2,0\nnumber,begin,end,content\n",
        )
    );
}

#[test]
fn a_prepared_list_answers_under_a_node(rt: HostRuntime) {
    assert!(rt;
        prints(
            rt.alloc(),
            b"prepared\nholder,5\nactive,0,9,8\n",
            b"node,reply\n1,0\ncall,reply\n1,none,settled\nnumber,begin,end,content\n",
        )
    );
}

#[test]
fn entries_that_are_no_list_are_refused(rt: HostRuntime) {
    assert!(rt; prints(rt.alloc(), b"prepared\nentry,5,5,7\nx\n", b"stream,18\n"));
}

#[test]
fn a_node_after_a_call_ends_the_reading(rt: HostRuntime) {
    assert!(rt;
        prints(
            rt.alloc(),
            b"live,0\ntake,1,0,,,,5\nholder,0\n",
            b"node,reply\ncall,reply\n1,10\nnumber,begin,end,content\nunreadable,3\n",
        )
    );
}
