//! Files that are no program, whatever their bytes: the status of a refusal, and nothing put.

use crate::bench::{SOUND, command};

#[test]
fn any_bytes_are_refused_or_run(rt: HostRuntime) {
    for byte in 0..=255u8 {
        let text = [b'm', b'a', b'i', b'n', b'(', b')', b'{', byte, b'}'];
        let Ok(done) = command(&rt, rt.alloc(), &["a.cs"], text.as_slice(), SOUND) else {
            panic!(rt; "no memory");
        };
        assert!(rt; done.status == 0 || done.status == 3, "at {byte}");
        assert!(rt; done.out.taken().is_empty(), "at {byte}");
    }
}

static FIRST: &str =
    "shape [8]S;\nint:S v;\nmain() { with (S) { v = 3; v = v + v; printf(\"%d\\n\", += v); } }";

#[test]
fn a_program_that_breaks_off_is_refused(rt: HostRuntime) {
    let text = FIRST.as_bytes();
    for end in 0..text.len() {
        let Ok(done) = command(&rt, rt.alloc(), &["a.cs"], &text[..end], SOUND) else {
            panic!(rt; "no memory");
        };
        assert!(rt; done.status == 3 && done.out.taken().is_empty(), "at {end}");
    }
}
