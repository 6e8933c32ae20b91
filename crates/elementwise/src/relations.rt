//! Relations of fields, of which an instruction makes a flag.

ghost use Rattle.std.specs.Prelude.{◌≡◌, ℕ, ◌<◌, ◌≤◌};
ghost use Rattle.bit_planes.specs.Bits.{bit};
ghost use Rattle.lane_kernels.specs.Kernels.{IsWithin};
ghost use Rattle.elementwise.specs.Relations.{relation_number};

use bit_planes::Plane;
use bit_planes::plane::opposite;
use lane_kernels::Operand;
use lane_kernels::compare::{equal, less};
use paris_code::Compare;
use std::simd::prelude::*;

/// A relation with its operands of `len` bits.
#[derive(Drop)]
pub(crate) struct Relation {
    pub relation: Compare,
    pub len: u8,
    pub a: Operand,
    pub b: Operand,
}

impl Relation {
    /// 1 in the lanes in which the relation holds.
    pub(crate) fn plane(&self, planes: &[Plane]) -> u64x8
        requires len { (1 ≤ self.now.len) × (self.now.len ≤ 32) }
        requires a { IsWithin self.now.a self.now.len planes.now }
        requires b { IsWithin self.now.b self.now.len planes.now }
        ensures { (i : ℕ) → i < 512 → bit result i ≡ relation_number self.now planes.now i }
    {
        let a = &self.a;
        let b = &self.b;
        let len = self.len;
        match self.relation {
            Compare::UEq => equal(planes, a, b, len),
            Compare::UNe => opposite(equal(planes, a, b, len)),
            Compare::SLt => less(planes, a, b, len, false),
            Compare::SLe => opposite(less(planes, b, a, len, false)),
            Compare::SGt => less(planes, b, a, len, false),
            Compare::SGe => opposite(less(planes, a, b, len, false)),
            Compare::ULt => less(planes, a, b, len, true),
            Compare::ULe => opposite(less(planes, b, a, len, true)),
            Compare::UGt => less(planes, b, a, len, true),
            Compare::UGe => opposite(less(planes, a, b, len, true)),
        }
    }
}
