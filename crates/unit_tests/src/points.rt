use checkpoint::{Bits, LoadFault, Point, load, save};
use cstar_base::{Numbers, Winner, Word};
use std::alloc::Global;
use std::test::Fail;

/// The bytes of a point with one register, one return place, a listing of one byte and bits of two.
const BYTES: [u8; 49] = *b"PARISCP1\x01\x01\x07\x00\x00\x00\
    \x01\x00\x00\x00\x04\x03\x02\x01\x01\x00\x00\x00\x09\x00\x00\x00\
    \x01\x00\x00\x00\x00\x00\x00\x00x\x02\x00\x00\x00\x00\x00\x00\x00\xff\x01";

fn point(alloc: Global) -> Result<Point, Fail> {
    Ok(Point {
        winner: Winner::Low,
        ended: true,
        at: 7,
        regs: Numbers::of(vec![in alloc; 0x0102_0304]?),
        returns: Numbers::of(vec![in alloc; 9]?),
        listing: Word::of(vec![in alloc; b'x']?),
        bits: Bits::of(vec![in alloc; 255, 1]?),
    })
}

/// Where a load says that these bytes leave those of all points.
fn left_at(alloc: Global, bytes: &[u8]) -> Option<u32> {
    if bytes.len() > 100 {
        return None;
    }
    let copy = bytes.to_vec(alloc).ok()?;
    match load(alloc, copy) {
        Err(LoadFault::Bad { at }) => Some(at),
        Ok(_) | Err(LoadFault::Memory) => None,
    }
}

#[test]
fn saves(rt: HostRuntime) -> Result<(), Fail> {
    let point = point(rt.alloc())?;
    assert_eq!(rt; point.regs.list().len(), 1);
    assert_eq!(rt; point.returns.list().len(), 1);
    let saved = save(rt.alloc(), point)?;
    assert_eq!(rt; saved.as_slice(), BYTES.as_slice());
    Ok(())
}

#[test]
fn loads(rt: HostRuntime) -> Result<(), Fail> {
    let Ok(loaded) = load(rt.alloc(), BYTES.to_vec(rt.alloc())?) else {
        return Err("these bytes are a point's".into());
    };
    assert_eq!(rt; loaded.winner, Winner::Low);
    assert!(rt; loaded.ended);
    assert_eq!(rt; loaded.at, 7);
    assert_eq!(rt; loaded.regs.list(), [0x0102_0304].as_slice());
    assert_eq!(rt; loaded.returns.list(), [9].as_slice());
    assert_eq!(rt; loaded.listing.bytes(), b"x".as_slice());
    assert_eq!(rt; loaded.bits.bytes(), [255, 1].as_slice());
    Ok(())
}

#[test]
fn tells_where_bytes_leave(rt: HostRuntime) -> Result<(), Fail> {
    let rows: [(&[u8], u32); 5] = [
        (b"PARISCP2", 7),
        (b"PARISCP1\x02", 8),
        (b"PARISCP1\x00\x03", 9),
        (&BYTES[..48], 48),
        (b"PARISCP1\x00\x00\x00\x00\x00\x00\xff\xff\xff\xff", 18),
    ];
    for (bytes, at) in rows {
        assert_eq!(rt; left_at(rt.alloc(), bytes), Some(at));
    }
    let mut more = BYTES.to_vec(rt.alloc())?;
    more.push(0)?;
    assert_eq!(rt; left_at(rt.alloc(), more.as_slice()), Some(49));
    let mut long = BYTES.to_vec(rt.alloc())?;
    for place in 30..38 {
        long[place] = 255;
    }
    assert_eq!(rt; left_at(rt.alloc(), long.as_slice()), Some(49));
    Ok(())
}
