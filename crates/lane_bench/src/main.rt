//! Measures the lane kernels over 64 blocks. With no arguments it prints what each kernel leaves in
//! one row, which is always the same; with any argument, the nanoseconds that it takes for one block.
#![tactic(auto)]

ghost use Rattle.std.specs.Prelude.{◌≡◌, ◌<◌, ◌≤◌, ◌+◌, vec_len};

use bit_planes::plane::repeated;
use bit_planes::{Block, Lanes};
use cstar_base::Memory;
use lane_kernels::{Operand, Target, compare, in_place, write};
use std::alloc::Global;
use std::time::Instant;
use std::{env, io};

const BLOCKS: u32 = 64;

const ROUNDS: u32 = 100;

/// Three fields of 32 bits, a flag, and the lanes that take part.
const PLANES: u32 = 98;

const FIRST: Operand = Operand::Field(0);

const SECOND: Operand = Operand::Field(32);

const RESULT: u32 = 64;

const FLAG: u32 = 96;

const TAKING_PART: u32 = 97;

/// The block and the row of which the program shows what the kernels left.
const SHOWN: (usize, u32) = (5, 208);

/// Numbers without a pattern that an eye would see.
fn scattered(n: u32, factor: u32) -> [u32; 512] {
    let mut v = [0; 512];
    for i in 0..512 {
        v[i] = n.wrapping_add(i as u32).wrapping_mul(factor);
    }
    v
}

/// The planes that the kernels work on.
#[derive(Drop)]
struct Bench {
    block: Block,
    ghost long: { vec_len block.planes ≡ 98 },
}

impl Bench {
    fn new(alloc: Global, n: u32) -> Result<Bench, Memory> {
        let mut block = Block::new(alloc, PLANES)?;
        block.set_lanes(0, &Lanes::from_values(&scattered(n, 0x9E37_79B1), 32));
        block.set_lanes(32, &Lanes::from_values(&scattered(n, 0x85EB_CA77), 32));
        let mut bench = Bench { block };
        for row in 0..512 {
            bench.mark(row);
        }
        Ok(bench)
    }

    /// Of three rows, one takes part.
    fn mark(&mut self, row: u32)
        requires { row < 512 }
    {
        self.block.set_number(row, TAKING_PART, 1, row % 3);
    }

    fn target(&self) -> Target
        ensures { (result.offset ≡ 64) × (result.len ≡ 32) }
    {
        Target::at(RESULT, 32, self.block.plane(TAKING_PART))
    }

    /// The first field as values, and back into the third.
    fn turn(&mut self) {
        let values = self.block.lanes(0, 32).values();
        self.block
            .set_lanes(RESULT, &Lanes::from_values(&values, 32));
    }

    fn add(&mut self) {
        let to = self.target();
        in_place::add(&mut self.block.planes, &to, &FIRST, &SECOND);
    }

    /// Whether the first field's number is below the second's, into the flag.
    fn less(&mut self) {
        let below = compare::less(&self.block.planes, &FIRST, &SECOND, 32, false);
        let lanes = self.block.plane(TAKING_PART);
        write(&mut self.block.planes, FLAG as usize, below, lanes);
    }

    /// Adds the first field, j bits up, where the second field has a 1 at bit j.
    fn add_product(&mut self, j: u8, len: u8)
        requires { (j < len) × (len ≤ 32) }
    {
        let lanes = self.block.plane(32 + u32::from(j));
        let to = Target::at(RESULT + u32::from(j), len - j, lanes);
        let sum = Operand::Field(RESULT + u32::from(j));
        in_place::add(&mut self.block.planes, &to, &sum, &FIRST);
    }

    /// The products of the first `len` bits of both fields, plane by plane.
    fn multiply_planes(&mut self, len: u8)
        requires { (1 ≤ len) × (len ≤ 32) }
    {
        let to = Target::at(RESULT, len, repeated(true));
        in_place::assign(&mut self.block.planes, &to, &Operand::Constant(0));
        for j in 0..len {
            self.add_product(j, len);
        }
    }

    /// A function of the first `len` bits of both fields, by values.
    fn by_values<F: Fn(u32, u32) -> u32>(&mut self, len: u8, f: &F)
        requires len { (1 ≤ len) × (len ≤ 32) }
        requires f { F.IsAlwaysCallable f.now }
    {
        let a = self.block.lanes(0, len).values();
        let b = self.block.lanes(32, len).values();
        let mut results = [0; 512];
        for i in 0..512 {
            results[i] = f(a[i], b[i]);
        }
        self.block
            .set_lanes(RESULT, &Lanes::from_values(&results, len));
    }

    fn apply(&mut self, kernel: Kernel, len: u8)
        requires { (1 ≤ len) × (len ≤ 32) }
    {
        match kernel {
            Kernel::Turn => self.turn(),
            Kernel::Add => self.add(),
            Kernel::Less => self.less(),
            Kernel::MultiplyPlanes => self.multiply_planes(len),
            Kernel::MultiplyValues => self.by_values(len, &|x, y| x.wrapping_mul(y)),
            Kernel::DivideValues => self.by_values(len, &|x, y| if y == 0 { 0 } else { x / y }),
            Kernel::ShiftValues => self.by_values(len, &|x, y| if y < 32 { x << y } else { 0 }),
        }
    }

    /// What the kernel left in a row.
    fn shown(&self, kernel: Kernel, row: u32, len: u8) -> u32
        requires row { row < 512 }
        requires len { (1 ≤ len) × (len ≤ 32) }
    {
        match kernel {
            Kernel::Less => self.block.number(row, FLAG, 1),
            _ => self.block.number(row, RESULT, len),
        }
    }
}

#[derive(Clone, Copy)]
enum Kernel {
    Turn,
    Add,
    Less,
    MultiplyPlanes,
    MultiplyValues,
    DivideValues,
    ShiftValues,
}

fn all_benches(alloc: Global) -> Result<Vec<Bench>, Memory> {
    let mut benches = Vec::new(alloc);
    for n in 0..BLOCKS {
        benches.push(Bench::new(alloc, n)?)?;
    }
    Ok(benches)
}

fn repeat(kernel: Kernel, len: u8, benches: &mut [Bench], rounds: u32)
    requires { (1 ≤ len) × (len ≤ 32) }
{
    for _ in 0..rounds {
        for bench in benches.iter_mut() {
            bench.apply(kernel, len);
        }
    }
}

/// One line: the kernel's name and length, and its time or what it left.
fn report(
    rt: &HostRuntime,
    name: &str,
    kernel: Kernel,
    len: u8,
    benches: &mut [Bench],
    timed: bool,
) -> io::Result<()>
    requires { (1 ≤ len) × (len ≤ 32) }
{
    if timed {
        let start = Instant::now(rt)?;
        repeat(kernel, len, benches, ROUNDS);
        let spent = start.elapsed(rt)?.as_nanos() / (BLOCKS as u128 * ROUNDS as u128);
        println!(rt; "{name} {len} {spent}")
    } else {
        repeat(kernel, len, benches, 1);
        let (block, row) = SHOWN;
        let left = benches
            .get(block)
            .map_or(0, |bench| bench.shown(kernel, row, len));
        println!(rt; "{name} {len} {left}")
    }
}

fn main(rt: HostRuntime) -> io::Result<()> {
    let timed = env::args(&rt)?.count() > 1;
    let Ok(mut benches) = all_benches(rt.alloc()) else {
        return println!(rt; "out of memory");
    };
    report(&rt, "turn", Kernel::Turn, 32, &mut benches, timed)?;
    report(&rt, "add", Kernel::Add, 32, &mut benches, timed)?;
    report(&rt, "less", Kernel::Less, 32, &mut benches, timed)?;
    for len in [8, 16, 32] {
        report(
            &rt,
            "multiply_planes",
            Kernel::MultiplyPlanes,
            len,
            &mut benches,
            timed,
        )?;
        report(
            &rt,
            "multiply_values",
            Kernel::MultiplyValues,
            len,
            &mut benches,
            timed,
        )?;
        report(
            &rt,
            "divide_values",
            Kernel::DivideValues,
            len,
            &mut benches,
            timed,
        )?;
        report(
            &rt,
            "shift_values",
            Kernel::ShiftValues,
            len,
            &mut benches,
            timed,
        )?;
    }
    Ok(())
}
