ghost use Rattle.std.specs.Prelude.{◌≡◌, ◌%◌, None, OnOk, length, slice_get, true};
ghost use Rattle.lab_core.specs.Runs.{IsPaced, IsSeeded, choice};
ghost use Rattle.lab_core.specs.Watching.{IsWatched};
ghost use Rattle.lab_core.specs.Words.{drawn, seeded};

use crate::lab::Lab;
use crate::observer::Observer;
use lab_model::Event;
use lab_sector::NoMemory;
use lab_target::Target;
use rand_core::SeedableRng;
use rand_core::utils::NextWord;
use rand_pcg::Pcg32;
use std::alloc::Global;

impl<T: Target> Lab<T> {
    ghost use Rattle.lab_model.specs.Guard.{is_done};

    /// Fires at each place the event that the next word of the generator with this seed picks among those that may
    /// come, until all is done. Where memory runs out, the events so far stand.
    pub fn simulate(&mut self, alloc: Global, seed: u64) -> Result<(), NoMemory>
        ensures seeded { IsSeeded T.meaning seed self.old self.new }
        ensures done { OnOk result (is_done self.new.scenario self.new.state ≡ true) }
    {
        self.simulate_paced(alloc, seed, false)
    }

    /// Fires at each place the event that the next word of the generator with this seed picks among the choice
    /// there, promptly or not, until all is done. Where memory runs out, the events so far stand.
    pub(crate) fn simulate_paced(
        &mut self,
        alloc: Global,
        seed: u64,
        prompt: bool,
    ) -> Result<(), NoMemory>
        ensures paced { IsPaced T.meaning prompt seed self.old self.new }
        ensures done { OnOk result (is_done self.new.scenario self.new.state ≡ true) }
    {
        self.simulate_watched(alloc, seed, prompt, &mut ())
    }

    /// Fires at each place the event that the next word of the generator with this seed picks among the choice
    /// there, promptly or not, until all is done, and tells the observer of each. Where memory runs out, here or there,
    /// the events so far stand.
    pub fn simulate_watched<O: Observer<T>>(
        &mut self,
        alloc: Global,
        seed: u64,
        prompt: bool,
        observer: &mut O,
    ) -> Result<(), NoMemory>
        ensures paced { IsPaced T.meaning prompt seed self.old self.new }
        ensures done { OnOk result (is_done self.new.scenario self.new.state ≡ true) }
        ensures watched { OnOk result (IsWatched T.meaning O.awaits O.sees
            self.old observer.old self.new observer.new) }
    {
        let mut generator = seed_generator(seed);
        'events: while let Some(event) = self.pick(draw(&mut generator), prompt) {
            observer.about_to(alloc, self, event)?;
            self.fire(alloc, event)?;
            observer.fired(alloc, self, event)?;
        }
        Ok(())
    }

    /// The event that a word picks among the choice; `None` when all is done.
    fn pick(&self, word: u32, prompt: bool) -> Option<Event>
        ensures picked { result ≡ slice_get (choice self.now.scenario prompt self.now.state)
            (word % length (choice self.now.scenario prompt self.now.state)) }
        ensures done { result ≡ None → is_done self.now.scenario self.now.state ≡ true }
    {
        let front = self.count_front();
        let count = self.count_choice(self.count_from(front), prompt);
        if count == 0 {
            return None;
        }
        self.nth_behind_front(front, u64::from(word) % count)
    }
}

/// The generator with this seed.
fn seed_generator(seed: u64) -> Pcg32
    ensures { result ≡ seeded seed }
{
    Pcg32::seed_from_u64(seed)
}

/// The generator's next word.
fn draw(generator: &mut Pcg32) -> u32
    ensures { (result, generator.new) ≡ drawn generator.old }
{
    generator.next_word()
}
