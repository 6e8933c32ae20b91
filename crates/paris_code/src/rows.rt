//! The table of instructions: the operands of each, in the order of the listing.

ghost use Rattle.std.specs.Prelude.{◌≡◌, ◌≤◌, [], ◌∷◌, map};

use crate::instr::Instr;
use crate::operands::{Coordinate, Field, GridStep, Konst, RegisterCoordinate, SignedCoordinate};
use cstar_base::{Direction, Elem, Inclusion, Place, SegmentMode};

/// How long a field of an instruction is: 1 to 32 bits, so many, or as another field of it.
#[derive(Clone, Copy, PartialEq, Eq)]
pub enum Length {
    Any,
    Exactly(u8),
    Like(Field),
}

/// An operand. Axes and lists of coordinates and steps come behind the set of whose grid they are.
#[derive(Clone, Copy)]
pub enum Operand<'a> {
    /// A field.
    Bits(Field, Length),
    /// The bit of a scan, which is looked at in the modes that have segments.
    Bit(SegmentMode, Option<Field>),
    /// A register that is read.
    Register(u32),
    /// The register that is written.
    Result(u32),
    Constant(Konst),
    Set(u16),
    Axis(u16, u32),
    Immediate(u32),
    /// The instruction to which a jump leads.
    Target(u32),
    /// The unit that is called.
    Callee(u32),
    At(Place),
    Kind(Elem),
    Way(Direction),
    Mode(SegmentMode),
    Bound(Inclusion),
    Coordinates(u16, &'a [Coordinate]),
    Checked(u16, &'a [SignedCoordinate]),
    Steps(u16, &'a [GridStep]),
    Registers(u16, &'a [u32]),
    CheckedRegisters(u16, &'a [RegisterCoordinate]),
    Bytes(&'a [u8]),
}

impl<'a> Operand<'a> {
    fn any(field: Field) -> Operand<'a>
        ensures { result ≡ Operand.Bits field Length.Any }
    {
        Operand::Bits(field, Length::Any)
    }

    fn exactly(bits: u8, field: Field) -> Operand<'a>
        ensures { result ≡ Operand.Bits field (Length.Exactly bits) }
    {
        Operand::Bits(field, Length::Exactly(bits))
    }

    fn like(other: Field, field: Field) -> Operand<'a>
        ensures { result ≡ Operand.Bits field (Length.Like other) }
    {
        Operand::Bits(field, Length::Like(other))
    }
}

/// The most operands of an instruction; a list is one.
const MOST: usize = 7;

/// The operands of an instruction.
#[derive(Drop)]
pub struct Row<'a> {
    items: [Operand<'a>; MOST],
    count: usize,
    ghost bound: { count ≤ 7 },
}

impl<'a> Row<'a> {
    ghost use Rattle.paris_code.specs.Rows.{operands_in, row_shown, shown};

    fn none() -> Row<'a>
        ensures { row_shown result ≡ [] }
    {
        Row {
            items: [Operand::Set(0); MOST],
            count: 0,
        }
    }

    fn one(a: Operand<'a>) -> Row<'a>
        ensures { row_shown result ≡ shown a.entry ∷ [] }
    {
        Row {
            items: [a; MOST],
            count: 1,
        }
    }

    fn two(a: Operand<'a>, b: Operand<'a>) -> Row<'a>
        ensures { row_shown result ≡ shown a.entry ∷ (shown b.entry ∷ []) }
    {
        Row {
            items: [a, b, b, b, b, b, b],
            count: 2,
        }
    }

    fn three(a: Operand<'a>, b: Operand<'a>, c: Operand<'a>) -> Row<'a>
        ensures { row_shown result ≡ shown a.entry ∷ (shown b.entry ∷ (shown c.entry ∷ [])) }
    {
        Row {
            items: [a, b, c, c, c, c, c],
            count: 3,
        }
    }

    fn four(a: Operand<'a>, b: Operand<'a>, c: Operand<'a>, d: Operand<'a>) -> Row<'a>
        ensures { row_shown result ≡ shown a.entry ∷ (shown b.entry ∷ (shown c.entry ∷ (shown d.entry ∷ []))) }
    {
        Row {
            items: [a, b, c, d, d, d, d],
            count: 4,
        }
    }

    fn seven(items: [Operand<'a>; MOST]) -> Row<'a>
        ensures { row_shown result ≡ map shown items.entry }
    {
        Row { items, count: MOST }
    }

    /// The operands in their order.
    pub fn operands(&self) -> &[Operand<'a>]
        ensures { result.now ≡ operands_in self.now }
    {
        &self.items[..self.count]
    }
}

impl Instr {
    ghost use Rattle.paris_code.specs.Rows.{row_of, row_shown, target_of};

    /// The instruction to which a jump leads; none of another instruction.
    pub fn target(&self) -> Option<u32>
        ensures { result ≡ target_of self.now }
    {
        let row = self.row();
        for operand in row.operands() {
            if let Operand::Target(place) = operand {
                return Some(*place);
            }
        }
        None
    }

    /// The operands, in the order of the listing, each with what its place in the row says of it.
    pub fn row(&self) -> Row<'_>
        ensures { row_shown result ≡ row_of self.now }
    {
        match self {
            Instr::Move { dest, source, .. } => Row::two(
                Operand::any(*dest),
                Operand::any(*source),
            ),
            Instr::MoveAlways { dest, source }
            | Instr::Negate { dest, source }
            | Instr::Lognot { dest, source } => Row::two(
                Operand::any(*dest),
                Operand::like(*dest, *source),
            ),
            Instr::MoveConstant { dest, value } => Row::two(
                Operand::any(*dest),
                Operand::Constant(*value),
            ),
            Instr::MoveZeroAlways { dest } => Row::one(Operand::any(*dest)),
            Instr::MyNewsCoordinate { dest, axis } => Row::two(
                Operand::any(*dest),
                Operand::Axis(dest.set, *axis),
            ),
            Instr::MakeAddress {
                dest,
                set,
                coordinates,
            } => Row::three(
                Operand::any(*dest),
                Operand::Set(*set),
                Operand::Coordinates(*set, coordinates.as_slice()),
            ),
            Instr::Operate {
                dest,
                left,
                right,
                ..
            } => Row::three(
                Operand::any(*dest),
                Operand::like(*dest, *left),
                Operand::like(*dest, *right),
            ),
            Instr::OperateConstant {
                dest,
                left,
                right,
                ..
            } => Row::three(
                Operand::any(*dest),
                Operand::like(*dest, *left),
                Operand::Constant(*right),
            ),
            Instr::Compare { left, right, .. } => Row::two(
                Operand::any(*left),
                Operand::like(*left, *right),
            ),
            Instr::EqZero { source } | Instr::NeZero { source } => Row::one(Operand::any(*source)),
            Instr::LoadTest { source } | Instr::LoadContext { source } => Row::one(Operand::exactly(
                1, *source,
            )),
            Instr::StoreTest { dest } | Instr::StoreContext { dest } => Row::one(Operand::exactly(
                1, *dest,
            )),
            Instr::SetContext { set }
            | Instr::LogandContextWithTest { set }
            | Instr::LogandcContextWithTest { set } => Row::one(Operand::Set(*set)),
            Instr::CheckTarget {
                set,
                place,
                coordinates,
            } => Row::three(
                Operand::Set(*set),
                Operand::At(*place),
                Operand::Checked(*set, coordinates.as_slice()),
            ),
            Instr::CheckGrid { set, place, steps } => Row::three(
                Operand::Set(*set),
                Operand::At(*place),
                Operand::Steps(*set, steps.as_slice()),
            ),
            Instr::CheckDivisor { place, source } => Row::two(
                Operand::At(*place),
                Operand::any(*source),
            ),
            Instr::GetFromNews {
                dest,
                source,
                axis,
                by,
            }
            | Instr::GetFromNewsAlways {
                dest,
                source,
                axis,
                by,
            } => Row::four(
                Operand::any(*dest),
                Operand::like(*dest, *source),
                Operand::Axis(dest.set, *axis),
                Operand::Constant(*by),
            ),
            Instr::Get {
                dest,
                address,
                source,
            } => Row::three(
                Operand::any(*dest),
                Operand::any(*address),
                Operand::like(*dest, *source),
            ),
            Instr::SendWithOverwrite {
                dest,
                kind,
                address,
                source,
            } => Row::four(
                Operand::exactly(kind.bits, *dest),
                Operand::Kind(*kind),
                Operand::any(*address),
                Operand::like(*dest, *source),
            ),
            Instr::SendWithCombiner {
                dest,
                kind,
                address,
                source,
                ..
            } => Row::four(
                Operand::exactly(kind.bits, *dest),
                Operand::Kind(*kind),
                Operand::any(*address),
                Operand::exactly(32, *source),
            ),
            Instr::Global { dest, source, .. } => Row::two(
                Operand::Result(*dest),
                Operand::any(*source),
            ),
            Instr::Scan {
                dest,
                source,
                axis,
                direction,
                mode,
                bit,
                inclusion,
                ..
            } => Row::seven([
                Operand::exactly(32, *dest),
                Operand::exactly(32, *source),
                Operand::Axis(dest.set, *axis),
                Operand::Way(*direction),
                Operand::Mode(*mode),
                Operand::Bit(*mode, *bit),
                Operand::Bound(*inclusion),
            ]),
            Instr::ReadFromProcessor {
                dest,
                processor,
                source,
                ..
            } => Row::three(
                Operand::Result(*dest),
                Operand::Register(*processor),
                Operand::any(*source),
            ),
            Instr::WriteToProcessor {
                dest,
                processor,
                value,
            } => Row::three(
                Operand::any(*dest),
                Operand::Register(*processor),
                Operand::Constant(*value),
            ),
            Instr::FrontConst { dest, value } => Row::two(
                Operand::Result(*dest),
                Operand::Immediate(*value),
            ),
            Instr::FrontMove { dest, source }
            | Instr::FrontNegate { dest, source }
            | Instr::FrontLognot { dest, source } => Row::two(
                Operand::Result(*dest),
                Operand::Register(*source),
            ),
            Instr::FrontOperate {
                dest,
                left,
                right,
                ..
            }
            | Instr::FrontCompare {
                dest,
                left,
                right,
                ..
            } => Row::three(
                Operand::Result(*dest),
                Operand::Register(*left),
                Operand::Register(*right),
            ),
            Instr::FrontConvert { dest, source, kind } => Row::three(
                Operand::Result(*dest),
                Operand::Register(*source),
                Operand::Kind(*kind),
            ),
            Instr::FrontMakeAddress {
                dest,
                set,
                coordinates,
            } => Row::three(
                Operand::Result(*dest),
                Operand::Set(*set),
                Operand::Registers(*set, coordinates.as_slice()),
            ),
            Instr::FrontCheckTarget {
                set,
                place,
                coordinates,
            } => Row::three(
                Operand::Set(*set),
                Operand::At(*place),
                Operand::CheckedRegisters(*set, coordinates.as_slice()),
            ),
            Instr::FrontCheckDivisor { place, source } => Row::two(
                Operand::At(*place),
                Operand::Register(*source),
            ),
            Instr::FrontJump { target } => Row::one(Operand::Target(*target)),
            Instr::FrontJumpZero { test, target } | Instr::FrontJumpNonzero { test, target } =>
                Row::two(Operand::Register(*test), Operand::Target(*target)),
            Instr::FrontCall { unit } => Row::one(Operand::Callee(*unit)),
            Instr::FrontPutBytes { bytes } => Row::one(Operand::Bytes(bytes.bytes())),
            Instr::FrontPut { source, .. } => Row::one(Operand::Register(*source)),
            Instr::FrontGetByte { dest } => Row::one(Operand::Result(*dest)),
            Instr::FrontTurn | Instr::FrontReturn | Instr::FrontHalt => Row::none(),
        }
    }
}
