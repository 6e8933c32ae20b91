//! An outside that fails: the status says so, and nothing more is put.

use crate::bench::{Answer, Done, Outside, SOUND, answers, command};

const FIRST: &str =
    "shape [8]S;\nint:S v;\nmain() { with (S) { v = 3; v = v + v; printf(\"%d\\n\", += v); } }";

const SUM: &str =
    "#include <stdio.h>\nshape [2][32768]ShapeA;\nint:ShapeA p1, p2, p3;\nint sum = 0;\nmain()\n{\nwith (ShapeA) {\np1 = 1;\np2 = 2;\np3 = p1 + p2;\nsum += p3;\nprintf(\"The sum is %d.\\n\", sum);\n}\n}\n";

const THREE_PUTS: &str = "main() { printf(\"a\"); printf(\"b\"); printf(\"c\"); }";

/// What a command comes to whose output or error output fails.
const WRITE_FAULT: Answer<'static> = Answer {
    status: 6,
    out: b"",
    err: b"",
};

#[test]
fn a_failed_put_is_a_write_fault(rt: HostRuntime) {
    let outside = Outside { out: &[1], ..SOUND };
    assert!(rt; answers(&rt, rt.alloc(), FIRST.as_bytes(), outside, WRITE_FAULT));
}

#[test]
fn a_failed_put_in_mid_stream_leaves_a_prefix(rt: HostRuntime) {
    let outside = Outside { out: &[2], ..SOUND };
    let answer = Answer {
        out: b"48",
        ..WRITE_FAULT
    };
    assert!(rt; answers(&rt, rt.alloc(), FIRST.as_bytes(), outside, answer));
}

#[test]
fn a_failed_put_on_the_error_output_is_a_write_fault(rt: HostRuntime) {
    let outside = Outside { err: &[1], ..SOUND };
    let text =
        b"shape [8]S; int:S p, q, d; int s;\nmain() { with (S) { p = pcoord(0);\ns = p;\n} }\n";
    assert!(rt; answers(&rt, rt.alloc(), text, outside, WRITE_FAULT));
}

/// Which call of the input fails, and then the output and the status.
static INPUTS: [(u64, &str, u8); 4] = [
    (1, "", 7),
    (2, "97 ", 7),
    (3, "97 98 ", 7),
    (4, "97 98 -1", 0),
];

#[test]
fn a_failed_input_is_an_input_fault(rt: HostRuntime) {
    for (call, out, status) in &INPUTS {
        let outside = Outside {
            input: b"ab",
            source: &[*call],
            ..SOUND
        };
        let text =
            b"main() { printf(\"%d \", getchar()); printf(\"%d \", getchar()); printf(\"%d\", getchar()); }";
        let answer = Answer {
            status: *status,
            out: out.as_bytes(),
            err: if *status == 7 { b"input fault\n" } else { b"" },
        };
        assert!(rt;
            answers(&rt, rt.alloc(), text, outside, answer),
            "call {call}"
        );
    }
}

/// Whether a command that puts `abc` by three puts left a prefix of it, where the call with this
/// number fails and keeps so many bytes.
fn left_a_prefix(done: &Done, call: u64, keep: u32) -> bool {
    let taken = done.out.taken();
    let ended = if done.status == 6 {
        call > 1 || taken.len() <= keep as usize
    } else {
        done.status == 0 && call > 1 && taken == b"abc".as_slice()
    };
    ended && b"abc".starts_with(taken) && done.err.taken().is_empty()
}

#[test]
fn a_failed_put_leaves_the_bytes_before_it(rt: HostRuntime) {
    for call in 1..=10u64 {
        for keep in 0..2u32 {
            let outside = Outside {
                out: &[call],
                keep,
                ..SOUND
            };
            let text = THREE_PUTS.as_bytes();
            let Ok(done) = command(&rt, rt.alloc(), &["a.cs"], text, outside) else {
                panic!(rt; "no memory");
            };
            assert!(rt;
                left_a_prefix(&done, call, keep),
                "call {call}, keep {keep}"
            );
        }
    }
}

/// Files, and what they print.
static FETCHED: [(&str, &str); 3] = [
    (FIRST, "48\n"),
    (SUM, "The sum is 196608.\n"),
    (THREE_PUTS, "abc"),
];

#[test]
fn a_file_is_fetched_once(rt: HostRuntime) {
    let unread = Answer {
        status: 5,
        out: b"",
        err: b"cannot read a.cs\n",
    };
    for (text, out) in &FETCHED {
        let read = Answer {
            status: 0,
            out: out.as_bytes(),
            err: b"",
        };
        for (call, answer) in [(1, unread), (2, read)] {
            let outside = Outside {
                shelf: &[call],
                ..SOUND
            };
            assert!(rt;
                answers(&rt, rt.alloc(), text.as_bytes(), outside, answer),
                "call {call}"
            );
        }
    }
}

#[test]
fn a_file_that_is_not_there_cannot_be_read(rt: HostRuntime) {
    let Ok(done) = command(&rt, rt.alloc(), &["b.cs"], FIRST.as_bytes(), SOUND) else {
        panic!(rt; "no memory");
    };
    let answer = Answer {
        status: 5,
        out: b"",
        err: b"cannot read b.cs\n",
    };
    assert!(rt; done.is(answer));
}
