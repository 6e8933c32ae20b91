//! Listed images: that their numbers have 32 bits, and the law that the listing of a plain image
//! determines what its code means.
#![tactic(auto)]

ghost use Rattle.listed_images.specs.Meaning.{DeterminesMeaning};
ghost use Rattle.paris_code.specs.declared.program.Image.{Image};

mod words;

pub use words::have_words;

/// Two listable images with the same listing have the same sets, and their code means the same.
pub fn listing_determines_meaning()
    ensures { (one other : Image) → DeterminesMeaning one other }
{}
