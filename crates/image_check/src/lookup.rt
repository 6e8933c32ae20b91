//! The sets, fields and registers that operands name.

ghost use Rattle.std.specs.Prelude.{◌≡◌, ◌↔◌, ◌<◌, ◌≤◌, IsTrue, length, map, MatchOption};
ghost use Rattle.std.specs.List.{slice_index_or};
ghost use Rattle.paris_code.specs.Shapes.{shape_of, no_shape, rank_at};
ghost use Rattle.paris_code.specs.RuleField.{Fits, FitsAt, FitsLike, KonstFits, CoordinateFits, ScanBitFits};
ghost use Rattle.paris_code.specs.RuleSet.{SetExists, FieldExists, IsAxis, CoordinateExists, BitExists};
ghost use Rattle.paris_code.specs.RuleOperands.{IsWith, CoordinateIsWith, AreTogether, BitIsWith};

use cstar_base::SegmentMode;
use paris_code::{Coordinate, Field, Konst, ShapeBits};

/// The shape of a set.
pub fn shape_at(shapes: &[ShapeBits], set: u16) -> Option<&ShapeBits>
    ensures { MatchOption result (length (map shape_of shapes.now) ≤ set) (λ s. (set < length (map shape_of shapes.now)) × (slice_index_or (map shape_of shapes.now) set no_shape ≡ shape_of s.now)) }
{
    shapes.get(set as usize)
}

pub fn set_exists(shapes: &[ShapeBits], set: u16) -> bool
    ensures { IsTrue result ↔ SetExists (map shape_of shapes.now) set }
{
    shape_at(shapes, set).is_some()
}

pub fn is_axis(shapes: &[ShapeBits], set: u16, axis: u32) -> bool
    ensures { IsTrue result ↔ IsAxis (map shape_of shapes.now) set axis }
{
    match shape_at(shapes, set) {
        Some(shape) => (axis as usize) < shape.extents.len(),
        None => false,
    }
}

/// Whether the set's grid has this many axes; one that does not exist has none.
pub fn is_rank(shapes: &[ShapeBits], set: u16, axes: usize) -> bool
    ensures { IsTrue result ↔ (axes ≡ rank_at (map shape_of shapes.now) set) }
{
    match shape_at(shapes, set) {
        Some(shape) => shape.extents.len() == axes,
        None => axes == 0,
    }
}

/// Whether the field has 1 to 32 bits that end within those of its set, or its set does not exist.
pub fn fits(shapes: &[ShapeBits], field: Field) -> bool
    ensures { IsTrue result ↔ Fits (map shape_of shapes.now) field }
{
    match shape_at(shapes, field.set) {
        Some(shape) => {
            1 <= field.len
                && field.len <= 32
                && u64::from(field.offset) + u64::from(field.len) <= u64::from(shape.bits)
        }
        None => true,
    }
}

/// Whether the field fits and has this length.
pub fn fits_at(shapes: &[ShapeBits], len: u8, field: Field) -> bool
    ensures { IsTrue result ↔ FitsAt (map shape_of shapes.now) len field }
{
    fits(shapes, field) && (field.len == len || !set_exists(shapes, field.set))
}

/// Whether the field fits and is as long as the other.
pub fn fits_like(shapes: &[ShapeBits], other: Field, field: Field) -> bool
    ensures { IsTrue result ↔ FitsLike (map shape_of shapes.now) other field }
{
    fits(shapes, field)
        && (field.len == other.len
            || !set_exists(shapes, field.set)
            || !set_exists(shapes, other.set))
}

pub fn konst_fits(slots: u32, konst: Konst) -> bool
    ensures { IsTrue result ↔ KonstFits slots konst }
{
    match konst {
        Konst::Imm(_) => true,
        Konst::Reg(register) => register < slots,
    }
}

pub fn coordinate_fits(shapes: &[ShapeBits], slots: u32, coordinate: Coordinate) -> bool
    ensures { IsTrue result ↔ CoordinateFits (map shape_of shapes.now) slots coordinate }
{
    match coordinate {
        Coordinate::Field(field) => fits(shapes, field),
        Coordinate::Reg(register) => register < slots,
    }
}

pub fn coordinate_exists(shapes: &[ShapeBits], coordinate: Coordinate) -> bool
    ensures { IsTrue result ↔ CoordinateExists (map shape_of shapes.now) coordinate }
{
    match coordinate {
        Coordinate::Field(field) => set_exists(shapes, field.set),
        Coordinate::Reg(_) => true,
    }
}

/// Whether two fields are of one set, or the set of one does not exist.
pub fn is_with(shapes: &[ShapeBits], field: Field, other: Field) -> bool
    ensures { IsTrue result ↔ IsWith (map shape_of shapes.now) field other }
{
    field.set == other.set || !set_exists(shapes, field.set) || !set_exists(shapes, other.set)
}

pub fn coordinate_is_with(shapes: &[ShapeBits], field: Field, coordinate: Coordinate) -> bool
    ensures { IsTrue result ↔ CoordinateIsWith (map shape_of shapes.now) field coordinate }
{
    match coordinate {
        Coordinate::Field(other) => is_with(shapes, field, other),
        Coordinate::Reg(_) => true,
    }
}

/// Whether two coordinates that are fields are of one set.
pub fn are_together(shapes: &[ShapeBits], one: Coordinate, other: Coordinate) -> bool
    ensures { IsTrue result ↔ AreTogether (map shape_of shapes.now) one other }
{
    match one {
        Coordinate::Field(field) => coordinate_is_with(shapes, field, other),
        Coordinate::Reg(_) => true,
    }
}

fn bit_fits(shapes: &[ShapeBits], bit: Option<Field>) -> bool
    ensures { IsTrue result ↔ MatchOption bit (Unit {0}) (λ f. FitsAt (map shape_of shapes.now) 1 f) }
{
    match bit {
        Some(field) => fits_at(shapes, 1, field),
        None => true,
    }
}

/// Whether the bit of a scan has length 1 and fits, where it is looked at.
pub fn scan_bit_fits(shapes: &[ShapeBits], mode: SegmentMode, bit: Option<Field>) -> bool
    ensures { IsTrue result ↔ ScanBitFits (map shape_of shapes.now) mode bit }
{
    match mode {
        SegmentMode::NoSegments => true,
        SegmentMode::StartBit => bit_fits(shapes, bit),
        SegmentMode::SegmentBit => bit_fits(shapes, bit),
    }
}

fn bit_exists(shapes: &[ShapeBits], bit: Option<Field>) -> bool
    ensures { IsTrue result ↔ MatchOption bit (Unit {0}) (λ f. FieldExists (map shape_of shapes.now) f) }
{
    match bit {
        Some(field) => set_exists(shapes, field.set),
        None => true,
    }
}

/// Whether the set of the bit of a scan exists, where it is looked at.
pub fn scan_bit_exists(shapes: &[ShapeBits], mode: SegmentMode, bit: Option<Field>) -> bool
    ensures { IsTrue result ↔ BitExists (map shape_of shapes.now) mode bit }
{
    match mode {
        SegmentMode::NoSegments => true,
        SegmentMode::StartBit => bit_exists(shapes, bit),
        SegmentMode::SegmentBit => bit_exists(shapes, bit),
    }
}

fn bit_is_with(shapes: &[ShapeBits], dest: Field, bit: Option<Field>) -> bool
    ensures { IsTrue result ↔ MatchOption bit ⊥ (λ f. IsWith (map shape_of shapes.now) dest f) }
{
    match bit {
        Some(field) => is_with(shapes, dest, field),
        None => false,
    }
}

/// Whether a scan in segments has a bit, of the scan's set.
pub fn scan_bit_is_with(
    shapes: &[ShapeBits],
    dest: Field,
    mode: SegmentMode,
    bit: Option<Field>,
) -> bool
    ensures { IsTrue result ↔ BitIsWith (map shape_of shapes.now) dest mode bit }
{
    match mode {
        SegmentMode::NoSegments => true,
        SegmentMode::StartBit => bit_is_with(shapes, dest, bit),
        SegmentMode::SegmentBit => bit_is_with(shapes, dest, bit),
    }
}
