//! The listing of a plain image determines it. Readers find the law here by name.
#![tactic(auto)]

ghost use Rattle.paris_code.specs.declared.program.Image.{Image};
ghost use Rattle.plain_listings.specs.Contents.{DeterminesImage};

/// Of two plain images with the same listing, each holds what the other does, item by item.
pub fn listing_determines_image()
    ensures { (one other : Image) → DeterminesImage one other }
{}
