ghost use Rattle.std.specs.Prelude.{◌≡◌, OnOk, length};
ghost use Rattle.lab_image.specs.Images.{blank, image_heard, image_seen};

use crate::store::Store;
use lab_model::Event;
use lab_sector::NoMemory;
use lab_state::State;
use lab_target::Target;
use std::alloc::Global;
use std::marker::Model;

/// What stands on the disks of a run, beside it, and what its living writes carry. A call that changes it keeps nothing
/// if it is refused.
#[derive(Drop)]
pub struct Image {
    /// By a disk and a sector of it.
    pub(crate) disks: Store,
    /// By a living write and a sector of it, counted from its first: what it carries.
    pub(crate) bios: Store,
}

impl Model for Image {
    ghost use Rattle.lab_image.specs.Images.{Image as Stands, image_code};

    ghost Value = { Stands };

    ghost coded = { image_code };

    ghost view = { λ image. record { disks = image.disks; bios = image.bios } };
}

impl Image {
    /// Before the first event no write stands anywhere.
    pub fn new(alloc: Global) -> Image
        ensures blank { result ≡ blank }
    {
        Image {
            disks: Store::new(alloc),
            bios: Store::new(alloc),
        }
    }

    /// Hears of an event in the state in which it comes: the event's bio is served or answered.
    pub fn hear<T: Target>(
        &mut self,
        alloc: Global,
        state: &State<T>,
        event: Event,
    ) -> Result<(), NoMemory>
        ensures heard { OnOk result (self.new ≡ image_heard state.now event self.old) }
    {
        match event {
            Event::Serve(number) => self.serve(alloc, state, number),
            Event::Finish(number) => self.finish(state, number),
            _ => Ok(()),
        }
    }

    /// Sees the state after an event, before which so many bios were made.
    pub fn see<T: Target>(
        &mut self,
        alloc: Global,
        state: &State<T>,
        made: u64,
    ) -> Result<(), NoMemory>
        ensures seen { OnOk result (self.new ≡ image_seen made state.now self.old) }
    {
        for place in made..count_made(state) {
            self.begin(alloc, state, place + 1)?;
        }
        Ok(())
    }
}

/// How many bios were made.
pub(crate) fn count_made<T: Target>(state: &State<T>) -> u64
    ensures { result ≡ length state.now.bios }
{
    state.traffic.count()
}
