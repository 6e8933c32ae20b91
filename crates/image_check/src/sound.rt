ghost use Rattle.std.specs.Prelude.{◌≡◌, MatchResult};
ghost use Rattle.paris_code.specs.Sound.{IsNumbered, IsSound};
ghost use Rattle.image_check.specs.Errors.{IsRefusalOf};

use crate::check::find_fault;
use crate::fault::CheckErr;
use paris_code::Image;
use std::alloc::Global;
use std::marker::Model;

/// An image that keeps all image rules. Contracts see it as the image.
#[derive(Drop)]
pub struct Sound {
    image: Image,
}

impl Model for Sound {
    ghost use Rattle.paris_code.specs.declared.program.Image.{Image};
    ghost use Rattle.paris_code.specs.Sound.{IsNumbered, IsSound};

    ghost Value = { Image };

    ghost view = { λ s. s.image };

    ghost invariant = { λ s. IsSound s.image × IsNumbered s.image };
}

impl Sound {
    pub fn image(&self) -> &Image
        ensures same { result.now ≡ self.now }
        ensures sound { IsSound self.now }
        ensures numbered { IsNumbered self.now }
    {
        &self.image
    }
}

/// Checks an image. Bad exactly where an image rule is broken, Memory at want of memory.
pub fn verify(alloc: Global, image: Image) -> Result<Sound, CheckErr>
    requires { IsNumbered image }
    ensures { MatchResult result (λ sound. (sound ≡ image) × IsSound image) (IsRefusalOf image) }
{
    let Ok(found) = find_fault(alloc, &image) else {
        return Err(CheckErr::Memory { image });
    };
    match found {
        None => Ok(Sound { image }),
        Some(fault) => Err(CheckErr::Bad {
            rule: fault.rule.number(),
            at: fault.at,
            image,
        }),
    }
}
