ghost use Rattle.std.specs.Prelude.{◌≡◌, ◌≤◌};

use bit_planes::plane::repeated;
use bit_planes::{Block, Lanes};
use lane_kernels::{
    Operand, Target, add, count, in_place, less, max, resize, shift_left, shift_right, write,
};
use std::simd::prelude::*;
use std::test::Fail;

/// The column with one number in every lane.
fn column(number: u32, len: u8) -> Lanes
    requires { (1 ≤ len) × (len ≤ 32) }
    ensures { result.len ≡ len }
{
    Lanes::from_values(&[number; 512], len)
}

fn every_lane_is(column: &Lanes, number: u32) -> bool {
    column.values().iter().all(|v| *v == number)
}

fn every_lane_is_set(plane: u64x8) -> bool {
    plane.to_array().iter().all(|word| *word == u64::MAX)
}

fn no_lane_is_set(plane: u64x8) -> bool {
    plane.to_array().iter().all(|word| *word == 0)
}

#[test]
fn kernels_in_every_lane(rt: HostRuntime) -> Result<(), Fail> {
    assert!(rt; every_lane_is(&add(&column(255, 8), &column(1, 8), true), 0));
    assert!(rt; every_lane_is_set(less(&column(128, 8), &column(127, 8), false)));
    assert!(rt; no_lane_is_set(less(&column(128, 8), &column(127, 8), true)));
    assert!(rt; every_lane_is(&max(&column(255, 8), &column(1, 8), false), 1));
    assert!(rt; every_lane_is(&max(&column(255, 8), &column(1, 8), true), 255));
    assert!(rt; every_lane_is(&resize(&column(8, 4), 8, false), 248));
    assert!(rt; every_lane_is(&resize(&column(8, 4), 8, true), 8));
    assert!(rt; every_lane_is(&shift_left(&column(1, 8), 8), 0));
    assert!(rt; every_lane_is(&shift_right(&column(128, 8), 8, false), 255));
    assert_eq!(rt; count(repeated(true)), 512);
    Ok(())
}

#[test]
fn kernels_in_place(rt: HostRuntime) -> Result<(), Fail> {
    let mut block = Block::new(rt.alloc(), 25)?;
    block.set_number(300, 0, 8, 200);
    block.set_number(301, 0, 8, 200);
    // Row 301 takes no part.
    block.set_number(300, 24, 1, 1);
    let to = Target::at(0, 8, block.plane(24));
    in_place::add(
        &mut block.planes,
        &to,
        &Operand::Field(0),
        &Operand::Constant(100),
    );
    assert_eq!(rt; block.number(300, 0, 8), 44);
    assert_eq!(rt; block.number(301, 0, 8), 200);
    let lanes = block.plane(24);
    write(&mut block.planes, 8, repeated(true), lanes);
    assert_eq!(rt; block.number(300, 8, 1), 1);
    assert_eq!(rt; block.number(301, 8, 1), 0);
    Ok(())
}

#[test]
fn products_in_place(rt: HostRuntime) -> Result<(), Fail> {
    let mut block = Block::new(rt.alloc(), 25)?;
    let to = Target::at(4, 16, repeated(true));
    in_place::put_values(&mut block.planes, &to, &[70_001; 512]);
    // 70,001 is 65,536 + 4,465.
    assert_eq!(rt; block.number(300, 4, 16), 4465);
    let field = Operand::Field(4);
    in_place::multiply(&mut block.planes, &to, &field, &Operand::Constant(3));
    assert_eq!(rt; block.number(300, 4, 16), 13_395);
    // 13,395 times itself is 179,426,025, and 53,993 modulo 65,536.
    in_place::multiply(&mut block.planes, &to, &field, &field);
    assert_eq!(rt; block.number(301, 4, 16), 53_993);
    assert_eq!(rt; block.number(301, 0, 4), 0);
    Ok(())
}
