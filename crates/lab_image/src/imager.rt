ghost use Rattle.std.specs.Prelude.{◌≡◌};
ghost use Rattle.lab_image.specs.Images.{blank};

use crate::image::{Image, count_made};
use lab_core::{Lab, Observer};
use lab_model::Event;
use lab_sector::NoMemory;
use lab_target::Target;
use std::alloc::Global;

/// What stands on the disks of a run while it goes.
#[derive(Drop)]
pub(crate) struct Imager {
    /// What stands there, once the last event has come.
    pub(crate) image: Image,
    /// How many bios had been made when it came.
    pub(crate) made: u64,
}

impl Imager {
    /// Before the first event.
    pub(crate) fn new(alloc: Global) -> Imager
        ensures { result.image ≡ blank }
    {
        Imager {
            image: Image::new(alloc),
            made: 0,
        }
    }
}

impl<T: Target> Observer<T> for Imager {
    ghost use Rattle.std.specs.Prelude.{◌≡◌, length};
    ghost use Rattle.lab_image.specs.Images.{image_heard, image_seen};

    ghost awaits = { λ lab event before after.
        (after.image ≡ image_heard lab.state event before.image)
        × (after.made ≡ length lab.state.bios) };

    ghost sees = { λ lab event before after.
        after.image ≡ image_seen before.made lab.state before.image };

    fn about_to(&mut self, alloc: Global, lab: &Lab<T>, event: Event) -> Result<(), NoMemory> {
        self.made = count_made(lab.state());
        self.image.hear(alloc, lab.state(), event)
    }

    fn fired(&mut self, alloc: Global, lab: &Lab<T>, _event: Event) -> Result<(), NoMemory> {
        self.image.see(alloc, lab.state(), self.made)
    }
}
