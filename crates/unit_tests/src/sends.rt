use combine_core::{Add, Combine, Event, Message, MinOf, Phase};
use std::test::Fail;

fn deliver(worker: u32, index: u32) -> Event {
    Event::Deliver { worker, index }
}

// Three messages to two cells, of which the second is not the first in line.
#[test]
fn a_message_waits_for_those_before_it(rt: HostRuntime) -> Result<(), Fail> {
    let alloc = rt.alloc();
    let slots = vec![in alloc;
        Some(Message {
            sender: 0,
            target: 0,
            value: 1
        }),
        Some(Message {
            sender: 1,
            target: 0,
            value: 2
        }),
        Some(Message {
            sender: 2,
            target: 1,
            value: 9
        }),
    ]?;
    let mut phase = Phase::new(alloc, Add, vec![in alloc; 5, 0]?, slots)?;
    // each step, and whether it can be done
    let steps = [
        (Event::Claim { worker: 0 }, true),
        (deliver(0, 1), false),
        (deliver(0, 0), true),
        (deliver(0, 1), true),
        (Event::Split { worker: 0 }, true),
        (Event::Claim { worker: 1 }, true),
        (deliver(1, 2), false),
        (Event::Join { into: 1, from: 1 }, false),
        (Event::Join { into: 0, from: 1 }, true),
        (Event::Claim { worker: 1 }, false),
        (deliver(0, 2), true),
    ];
    for (event, done) in steps {
        assert_eq!(rt; phase.step(event)?, done);
    }
    Ok(())
}

#[test]
fn signed_words_are_ordered_as_numbers(rt: HostRuntime) -> Result<(), Fail> {
    let least = MinOf { signed: true };
    let minus_one = least.encode(3, u32::MAX);
    let cell = least.join(least.encode_home(7), minus_one);
    assert_eq!(rt; cell, minus_one);
    assert_eq!(rt; least.decode(7, cell), u32::MAX);
    Ok(())
}
