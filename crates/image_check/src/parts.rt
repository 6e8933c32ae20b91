//! The shapes and the final variables of an image.

ghost use Rattle.std.specs.Prelude.{◌≡◌, ◌↔◌, ◌≤◌, ◌^◌, true, IsTrue, length, map, All, MatchOption};
ghost use Rattle.paris_code.specs.Shapes.{shape_of, shapes_of};
ghost use Rattle.paris_code.specs.RuleField.{Fits};
ghost use Rattle.paris_code.specs.RuleSet.{FieldExists};
ghost use Rattle.paris_code.specs.Sound.{field_of, IsShape, KeepsShapes};
ghost use Rattle.image_check.specs.Tables.{IsLeastRuleOfParts};

use crate::fault::Rule;
use crate::lookup::{fits, set_exists};
use paris_code::{Final, Image, ShapeBits};
use vp_sets::Geometry;

/// The most shapes that an image may have.
const MOST_SHAPES: usize = 65536;

/// The most bits that each processor of a set may have.
const MOST_BITS: u32 = 1 << 30;

fn is_shape(shape: &ShapeBits) -> bool
    ensures { IsTrue result ↔ IsShape (shape_of shape.now) }
{
    match Geometry::new(shape.extents.as_slice()) {
        Ok(_) => shape.bits <= MOST_BITS,
        Err(_) => false,
    }
}

fn all_are_shapes(shapes: &[ShapeBits]) -> bool
    ensures { IsTrue result ↔ All (λ s. IsShape (shape_of s)) shapes.now }
{
    shapes.iter().all(|s| is_shape(s))
}

fn keeps_shapes(shapes: &[ShapeBits]) -> bool
    ensures { IsTrue result ↔ KeepsShapes (map shape_of shapes.now) }
{
    shapes.len() <= MOST_SHAPES && all_are_shapes(shapes)
}

fn finals_fit(shapes: &[ShapeBits], finals: &[Final]) -> bool
    ensures { IsTrue result ↔ All (λ f. Fits (map shape_of shapes.now) (field_of f)) finals.now }
{
    finals.iter().all(|f| fits(shapes, f.field))
}

fn finals_exist(shapes: &[ShapeBits], finals: &[Final]) -> bool
    ensures { IsTrue result ↔ All (λ f. FieldExists (map shape_of shapes.now) (field_of f)) finals.now }
{
    finals.iter().all(|f| set_exists(shapes, f.field.set))
}

/// The least image rule that the shapes and the final variables break.
pub fn broken_part(image: &Image) -> Option<Rule>
    ensures { MatchOption result (KeepsShapes (shapes_of image.now) × All (λ f. FieldExists (shapes_of image.now) (field_of f) × Fits (shapes_of image.now) (field_of f)) image.now.finals.items) (IsLeastRuleOfParts image.now) }
{
    let shapes = image.shapes.as_slice();
    let finals = image.finals.as_slice();
    if !finals_fit(shapes, finals) {
        return Some(Rule::Field);
    }
    if !keeps_shapes(shapes) {
        return Some(Rule::Set);
    }
    if !finals_exist(shapes, finals) {
        return Some(Rule::Set);
    }
    None
}
