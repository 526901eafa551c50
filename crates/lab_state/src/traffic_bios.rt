ghost use Rattle.std.specs.Prelude.{◌≡◌, ◌+◌, ◌<◌, ◌≤◌, ◌++◌, ◌∷◌, [], None, Some, IfSome, OnErr, option_map};
ghost use Rattle.std.specs.Prelude.{OnOk, length};
ghost use Rattle.std.specs.Option.{option_flatten};
ghost use Rattle.lab_model.specs.Answers.{recorded, HasPlaceIn};
ghost use Rattle.lab_model.specs.Bios.{Bio as Request};
ghost use Rattle.lab_model.specs.Guard.{due_of};
ghost use Rattle.lab_model.specs.Lists.{change_numbered, numbered};
ghost use Rattle.lab_model.specs.Sectors.{Sectors as Bytes, marked};
ghost use Rattle.lab_bios.specs.Recording.{told};
ghost use Rattle.lab_bios.specs.Views.{stage_of, with_stage};

use crate::dependents::depends_on;
use crate::flights::{counted_flight, land, take_off};
use crate::groups::{close_if_parent, leave};
use crate::index::{
    mark_bio, mark_new, mark_parent, told_new, unmark, wait_for, wait_no_more, waits,
};
use crate::traffic::Traffic;
use lab_bios::{Bio, Ended, Sectors, Stage, parent_number};
use lab_model::{Parent, Piece};
use lab_sector::NoMemory;
use lab_target::Target;

impl<T: Target> Traffic<T> {
    /// So many more bios need no more memory. Numbers from the greatest of 32 bits on are refused as memory is.
    pub fn reserve(&mut self, count: usize) -> Result<(), NoMemory>
        ensures room { OnOk result (count ≤ self.new.room) }
        ensures clock { self.new.clock ≡ self.old.clock }
        ensures bios { self.new.bios ≡ self.old.bios }
        ensures devices { self.new.devices ≡ self.old.devices }
    {
        let Some(last) = self.bios.count().checked_add(count as u64) else {
            return Err(NoMemory);
        };
        self.bios.reserve(count)?;
        self.waiting.reserve(count)?;
        self.ready.reserve(last)
    }

    /// The next number gets a bio, for which there is room.
    #[inline(always)]
    pub fn push_in_room(&mut self, bio: Bio)
        requires { 0 < self.old.room }
        ensures clock { self.new.clock ≡ self.old.clock }
        ensures bios { self.new.bios ≡ self.old.bios ++ Some bio ∷ [] }
        ensures devices { self.new.devices ≡ self.old.devices }
        ensures room { self.old.room ≤ self.new.room + 1 }
    {
        let parent = parent_number(bio.parent);
        let moment = waits(self.clock, &bio.stage);
        let told = told_new(self.clock, &self.devices, bio.device, &bio.stage);
        let flight = counted_flight(self.is_counted, bio.device, &bio.stage);
        let decider = depends_on(bio.device, &bio.stage);
        let is_first = self.bios.push_in_room(bio);
        let number = self.bios.count();
        wait_for(&mut self.waiting, number, moment);
        self.dependents.add(&self.bios, number, decider);
        self.held.take_in(&self.bios, number);
        close_if_parent(&self.bios, &mut self.groups, number);
        mark_new(
            self.clock,
            &self.bios,
            &self.devices,
            &mut self.ready,
            &mut self.groups,
            number,
            told,
        );
        mark_parent(
            self.clock,
            &self.bios,
            &self.devices,
            &mut self.ready,
            &mut self.groups,
            parent,
            is_first,
        );
        take_off(&mut self.devices, &mut self.is_counted, flight);
    }

    /// The next number gets a bio.
    pub fn push(&mut self, bio: Bio) -> Result<(), NoMemory>
        ensures clock { self.new.clock ≡ self.old.clock }
        ensures ok { OnOk result (self.new.bios ≡ self.old.bios ++ Some bio ∷ []) }
        ensures err { OnErr result (self.new.bios ≡ self.old.bios) }
        ensures devices { self.new.devices ≡ self.old.devices }
    {
        self.reserve(1)?;
        self.push_in_room(bio);
        Ok(())
    }

    /// The living bio of this number, if there is one, comes to another stage, at which it isn't held. The stage
    /// before is returned.
    pub fn set_stage(&mut self, number: u64, stage: Stage) -> Option<Stage>
        requires { due_of (stage_of stage) ≡ None }
        ensures before { option_map stage_of result
            ≡ option_map (λ bio. bio.stage) (option_flatten (numbered self.old.bios number)) }
        ensures clock { self.new.clock ≡ self.old.clock }
        ensures bios { self.new.bios
            ≡ change_numbered self.old.bios number (option_map (with_stage (stage_of stage))) }
        ensures devices { self.new.devices ≡ self.old.devices }
    {
        // So the counts of those in flight fit.
        prove!(self.bios.count() <= self.ready.reach());
        let device = self.bios.get(number)?.device;
        let flight = counted_flight(self.is_counted, device, &stage);
        let decider = depends_on(device, &stage);
        leave(&self.bios, &mut self.groups, number);
        self.held.let_go(&self.bios, number);
        self.dependents.forget(number);
        let before = self.bios.set_stage(number, stage)?;
        wait_no_more(&mut self.waiting, number, waits(self.clock, &before));
        self.dependents.add(&self.bios, number, decider);
        mark_bio(
            self.clock,
            &self.bios,
            &self.devices,
            &mut self.ready,
            &mut self.groups,
            number,
        );
        let landed = counted_flight(self.is_counted, device, &before);
        land(&mut self.devices, landed);
        take_off(&mut self.devices, &mut self.is_counted, flight);
        Some(before)
    }

    /// The living bio of this number, if there is one and it is in flight, records of its piece that it failed, or the
    /// sectors that it gave, in which the child's marks are made already. That changes nothing of what may come next.
    #[inline(always)]
    pub fn record(&mut self, number: u64, piece: Piece, failed: bool, sectors: Sectors)
        requires { IfSome (option_flatten (numbered self.old.bios number))
            (λ parent. HasPlaceIn piece (length sectors.items) parent parent.stage) }
        ensures clock { self.new.clock ≡ self.old.clock }
        ensures bios { (child : Request) → (given : Bytes)
            → sectors.items ≡ marked child.marks given → self.new.bios
            ≡ change_numbered self.old.bios number
            (option_map (recorded child piece (told failed given))) }
        ensures devices { self.new.devices ≡ self.old.devices }
    {
        self.bios.record(number, piece, failed, sectors);
    }

    /// The living bio of this number, if there is one, lives no more. Whom it answers to is returned, and the stage that
    /// it had come to.
    #[inline(always)]
    pub fn end(&mut self, number: u64) -> Option<(Parent, Stage)>
        ensures parent { option_map (λ ended. ended.0) result
            ≡ option_map (λ bio. bio.parent) (option_flatten (numbered self.old.bios number)) }
        ensures stage { option_map (λ ended. stage_of ended.1) result
            ≡ option_map (λ bio. bio.stage) (option_flatten (numbered self.old.bios number)) }
        ensures clock { self.new.clock ≡ self.old.clock }
        ensures gone { self.new.bios ≡ change_numbered self.old.bios number (λ _. None) }
        ensures devices { self.new.devices ≡ self.old.devices }
    {
        leave(&self.bios, &mut self.groups, number);
        self.held.let_go(&self.bios, number);
        let Ended {
            device,
            parent,
            stage,
            was_last,
        } = self.bios.end(number)?;
        wait_no_more(&mut self.waiting, number, waits(self.clock, &stage));
        self.dependents.forget(number);
        unmark(&mut self.ready, number);
        let above = parent_number(parent);
        mark_parent(
            self.clock,
            &self.bios,
            &self.devices,
            &mut self.ready,
            &mut self.groups,
            above,
            was_last,
        );
        let landed = counted_flight(self.is_counted, device, &stage);
        land(&mut self.devices, landed);
        Some((parent, stage))
    }
}
