//! The instructions.

ghost use Rattle.std.specs.Prelude.{◌≡◌};
ghost use Rattle.paris_code.specs.Kinds.{is_parallel};

use crate::operands::{
    Compare, Coordinate, Field, GridStep, Konst, Operation, Reduction, RegisterCoordinate,
    SignedCoordinate,
};
use cstar_base::{Direction, Elem, Inclusion, NumberFormat, Place, SegmentMode, Word};

/// An instruction. The operands stand in the order of the listing. An instruction on fields acts
/// at the active processors alone, unless its name says `Always`; the front end's instructions,
/// whose names begin with `Front`, act on registers.
#[derive(Drop)]
pub enum Instr {
    /// `dest` becomes `source`, read signed or unsigned, modulo the width of `dest`.
    Move {
        signed: bool,
        dest: Field,
        source: Field,
    },
    MoveConstant {
        dest: Field,
        value: Konst,
    },
    MoveZeroAlways {
        dest: Field,
    },
    MoveAlways {
        dest: Field,
        source: Field,
    },
    MyNewsCoordinate {
        dest: Field,
        axis: u32,
    },
    /// `dest` becomes the row-major number of the coordinates in `set`.
    MakeAddress {
        dest: Field,
        set: u16,
        coordinates: Vec<Coordinate>,
    },

    Operate {
        op: Operation,
        dest: Field,
        left: Field,
        right: Field,
    },
    OperateConstant {
        op: Operation,
        dest: Field,
        left: Field,
        right: Konst,
    },
    Negate {
        dest: Field,
        source: Field,
    },
    Lognot {
        dest: Field,
        source: Field,
    },

    /// The test flag becomes 1 where the relation holds, else 0.
    Compare {
        relation: Compare,
        left: Field,
        right: Field,
    },
    EqZero {
        source: Field,
    },
    NeZero {
        source: Field,
    },
    LoadTest {
        source: Field,
    },
    StoreTest {
        dest: Field,
    },
    LoadContext {
        source: Field,
    },
    StoreContext {
        dest: Field,
    },
    SetContext {
        set: u16,
    },
    LogandContextWithTest {
        set: u16,
    },
    LogandcContextWithTest {
        set: u16,
    },

    /// Fails where a coordinate is outside its extent in `set`.
    CheckTarget {
        set: u16,
        place: Place,
        coordinates: Vec<SignedCoordinate>,
    },
    /// Fails where the own coordinate and the step lead out of the grid on a listed axis.
    CheckGrid {
        set: u16,
        place: Place,
        steps: Vec<GridStep>,
    },
    /// Fails where `source` is 0.
    CheckDivisor {
        place: Place,
        source: Field,
    },

    GetFromNews {
        dest: Field,
        source: Field,
        axis: u32,
        by: Konst,
    },
    GetFromNewsAlways {
        dest: Field,
        source: Field,
        axis: u32,
        by: Konst,
    },
    Get {
        dest: Field,
        address: Field,
        source: Field,
    },
    SendWithOverwrite {
        dest: Field,
        kind: Elem,
        address: Field,
        source: Field,
    },
    SendWithCombiner {
        combiner: Reduction,
        dest: Field,
        kind: Elem,
        address: Field,
        source: Field,
    },
    /// The register `dest` becomes the fold of `source` over the active processors.
    Global {
        combiner: Reduction,
        dest: u32,
        source: Field,
    },
    Scan {
        combiner: Reduction,
        dest: Field,
        source: Field,
        axis: u32,
        direction: Direction,
        mode: SegmentMode,
        bit: Option<Field>,
        inclusion: Inclusion,
    },
    /// The register `dest` becomes `source` of the processor numbered by a register.
    ReadFromProcessor {
        signed: bool,
        dest: u32,
        processor: u32,
        source: Field,
    },
    WriteToProcessor {
        dest: Field,
        processor: u32,
        value: Konst,
    },

    FrontConst {
        dest: u32,
        value: u32,
    },
    FrontMove {
        dest: u32,
        source: u32,
    },
    FrontOperate {
        op: Operation,
        dest: u32,
        left: u32,
        right: u32,
    },
    FrontCompare {
        relation: Compare,
        dest: u32,
        left: u32,
        right: u32,
    },
    FrontNegate {
        dest: u32,
        source: u32,
    },
    FrontLognot {
        dest: u32,
        source: u32,
    },
    /// `dest` becomes `source` converted to `kind` and promoted again.
    FrontConvert {
        dest: u32,
        source: u32,
        kind: Elem,
    },
    FrontMakeAddress {
        dest: u32,
        set: u16,
        coordinates: Vec<u32>,
    },
    FrontCheckTarget {
        set: u16,
        place: Place,
        coordinates: Vec<RegisterCoordinate>,
    },
    FrontCheckDivisor {
        place: Place,
        source: u32,
    },
    FrontJump {
        target: u32,
    },
    FrontJumpZero {
        test: u32,
        target: u32,
    },
    FrontJumpNonzero {
        test: u32,
        target: u32,
    },
    /// Ends the run as stopped if no turn is left, else spends one.
    FrontTurn,
    FrontCall {
        unit: u32,
    },
    FrontReturn,
    FrontPutBytes {
        bytes: Word,
    },
    FrontPut {
        format: NumberFormat,
        source: u32,
    },
    /// `dest` becomes the next byte of the input, or 4294967295 at its end.
    FrontGetByte {
        dest: u32,
    },
    FrontHalt,
}

impl Instr {
    /// Whether the machine's phases do the instruction; else the front end does.
    pub fn parallel(&self) -> bool
        ensures { result ≡ is_parallel self.now }
    {
        !matches!(
            self,
            Instr::FrontConst { .. }
                | Instr::FrontMove { .. }
                | Instr::FrontOperate { .. }
                | Instr::FrontCompare { .. }
                | Instr::FrontNegate { .. }
                | Instr::FrontLognot { .. }
                | Instr::FrontConvert { .. }
                | Instr::FrontMakeAddress { .. }
                | Instr::FrontCheckTarget { .. }
                | Instr::FrontCheckDivisor { .. }
                | Instr::FrontJump { .. }
                | Instr::FrontJumpZero { .. }
                | Instr::FrontJumpNonzero { .. }
                | Instr::FrontTurn
                | Instr::FrontCall { .. }
                | Instr::FrontReturn
                | Instr::FrontPutBytes { .. }
                | Instr::FrontPut { .. }
                | Instr::FrontGetByte { .. }
                | Instr::FrontHalt
        )
    }
}
