//! A law, which readers find here by name.

ghost use Rattle.checkpoint.specs.Bytes.{BytesDetermine};
ghost use Rattle.checkpoint.specs.declared.point.Point.{Point};

/// Two points have different bytes.
pub fn bytes_determine_point()
    ensures { (one other : Point) → BytesDetermine one other }
{}
