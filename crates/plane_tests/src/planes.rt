use bit_planes::{Block, Lanes, Rows};
use std::test::Fail;

/// 0, 1, 2 and so on.
fn counted() -> [u32; 512] {
    let mut v = [0; 512];
    for i in 0..512 {
        v[i] = i as u32;
    }
    v
}

#[test]
fn columns_hold_numbers(rt: HostRuntime) -> Result<(), Fail> {
    let column = Lanes::from_values(&counted(), 8);
    // The lanes whose number has a 1 at bit 3 are every second run of eight.
    let words = column.planes[3].bits.to_array();
    assert_eq!(rt; words[0], 0xFF00_FF00_FF00_FF00);
    assert_eq!(rt; words[7], 0xFF00_FF00_FF00_FF00);
    let v = column.values();
    assert_eq!(rt; v[77], 77);
    assert_eq!(rt; v[300], 44);
    Ok(())
}

#[test]
fn rows_multiply(rt: HostRuntime) -> Result<(), Fail> {
    let mut rows = Rows::from_values(&counted());
    rows.multiply(&Rows::repeated(1 << 24));
    let v = rows.values();
    assert_eq!(rt; v[77], 0x4D00_0000);
    // 300 is 256 + 44, and 2 to the 32 falls away.
    assert_eq!(rt; v[300], 0x2C00_0000);
    let column = Lanes::from_values(&counted(), 8);
    let mut low = Rows::of_field(&column.planes, 0, 8);
    low.multiply(&Rows::of_field(&column.planes, 2, 3));
    assert_eq!(rt; low.column(9).values()[300], 44 * 3);
    Ok(())
}

#[test]
fn blocks_hold_fields(rt: HostRuntime) -> Result<(), Fail> {
    let mut block = Block::new(rt.alloc(), 40)?;
    block.set_number(70, 3, 8, 300);
    assert_eq!(rt; block.number(70, 3, 8), 44);
    assert_eq!(rt; block.number(71, 3, 8), 0);
    // 44 has a 1 at bit 2, and row 70 stands in word 1.
    assert_eq!(rt; block.plane(5).to_array()[1], 1 << 6);
    block.set_lanes(20, &block.lanes(3, 8));
    assert_eq!(rt; block.lanes(20, 8).values()[70], 44);
    block.set_plane(3, block.plane(5));
    assert_eq!(rt; block.number(70, 3, 8), 45);
    Ok(())
}
