//! The beginning of the text of seed 1, worked out by hand.

use drill_text::drill_text;

#[test]
fn the_text_of_seed_1_begins_as_drawn(rt: HostRuntime) {
    let Ok(text) = drill_text(rt.alloc(), 1) else {
        panic!(rt; "no memory");
    };
    let head =
        b"shape [4096]S;\nint:S a, b, c;\nmain() {\nint i;\nwith (S) {\na = pcoord(0);\nb = 496;\nc = 0;\na = a + b * 46;\n";
    assert!(rt; text.as_slice().starts_with(head));
}
