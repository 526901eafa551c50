ghost use Rattle.std.specs.Prelude.{◌≡◌, ◌++◌, ◌+◌, ◌-◌, ◌∷◌, [], IfOk, OnOk, length};
ghost use Rattle.lab_sweep.specs.Sweep.{OutcomesFrom};
ghost use Rattle.lab_sweep.specs.Told.{IsOutcomeOf, Tells};
ghost use Rattle.lab_sweep.specs.declared.outcome.SeedOutcome.{SeedOutcome};

use crate::digest::Digests;
use crate::outcome::SeedOutcome;
use crate::progress::Progress;
use crate::run_text::digested_run;
use crate::seeds::Seeds;
use crate::told::outcome_in;
use lab_core::Lab;
use lab_rulebook::Accepted;
use lab_sector::NoMemory;
use lab_target::Target;
use std::alloc::Global;

/// The outcomes of the seeds so far, and the digests of their texts.
#[derive(Drop)]
pub(crate) struct Sweeper {
    /// Whether a digest is of what stands on the disks after a run, instead of its report.
    pub(crate) disks: bool,
    /// What is told of each seed's run, in order.
    pub(crate) outcomes: Vec<SeedOutcome>,
    /// The texts that came before.
    pub(crate) digests: Digests,
}

impl Sweeper {
    /// Before the first seed.
    pub(crate) fn new(alloc: Global, disks: bool) -> Sweeper
        ensures none { result.outcomes.items ≡ [] }
        ensures disks { result.disks ≡ disks }
    {
        Sweeper {
            disks,
            outcomes: Vec::new(alloc),
            digests: Digests::new(alloc),
        }
    }

    /// Puts the outcomes of the seeds from the first to the last where there are none, and hands the scenario back.
    pub(crate) fn add_all<T: Target, P: Progress>(
        &mut self,
        alloc: Global,
        accepted: Accepted<T>,
        seeds: Seeds,
        progress: &P,
    ) -> Result<Accepted<T>, NoMemory>
        requires { self.old.outcomes.items ≡ [] }
        ensures each { OnOk result (OutcomesFrom T.meaning accepted.scenario seeds.prompt
            self.old.disks seeds.first self.new.outcomes.items) }
        ensures count { OnOk result (length self.new.outcomes.items
            ≡ seeds.last + 1 - seeds.first) }
    {
        let accepted = self.add_before(alloc, accepted, seeds, progress)?;
        if seeds.first > seeds.last {
            return Ok(accepted);
        }
        let back = self.add_outcome(alloc, accepted, seeds.last, seeds.prompt)?;
        Ok(back)
    }

    /// Puts the outcomes of the seeds from the first to before the last where there are none, and hands the scenario
    /// back.
    fn add_before<T: Target, P: Progress>(
        &mut self,
        alloc: Global,
        accepted: Accepted<T>,
        seeds: Seeds,
        progress: &P,
    ) -> Result<Accepted<T>, NoMemory>
        requires { self.old.outcomes.items ≡ [] }
        ensures each { OnOk result (OutcomesFrom T.meaning accepted.scenario seeds.prompt
            self.old.disks seeds.first self.new.outcomes.items) }
        ensures count { OnOk result (length self.new.outcomes.items ≡ seeds.last - seeds.first) }
        ensures back { IfOk result (λ back. back.scenario ≡ accepted.scenario) }
        ensures disks { self.new.disks ≡ self.old.disks }
    {
        let mut accepted = accepted;
        for seed in seeds.first..seeds.last {
            progress.before(seed, seeds.first, seeds.last);
            accepted = self.add_outcome(alloc, accepted, seed, seeds.prompt)?;
        }
        Ok(accepted)
    }

    /// Puts the outcome of a seed, whose run is prompt or not, behind the others, and hands the scenario back for
    /// another run.
    fn add_outcome<T: Target>(
        &mut self,
        alloc: Global,
        accepted: Accepted<T>,
        seed: u64,
        prompt: bool,
    ) -> Result<Accepted<T>, NoMemory>
        ensures told { OnOk result ((outcome : SeedOutcome)
            × IsOutcomeOf T.meaning accepted.scenario prompt self.old.disks seed outcome
            × (self.new.outcomes.items ≡ self.old.outcomes.items ++ outcome ∷ [])) }
        ensures back { IfOk result (λ back. back.scenario ≡ accepted.scenario) }
        ensures disks { self.new.disks ≡ self.old.disks }
    {
        let (text, lab) = digested_run(alloc, accepted, seed, prompt, self.disks)?;
        match self.add_told(&lab, text, seed) {
            Ok(()) => Ok(lab.into_accepted()),
            Err(NoMemory) => {
                lab.discard();
                Err(NoMemory)
            }
        }
    }

    /// Puts what is told of a run, whose digest is of this text, behind the others.
    fn add_told<T: Target>(
        &mut self,
        lab: &Lab<T>,
        text: Vec<u8>,
        seed: u64,
    ) -> Result<(), NoMemory>
        ensures told { OnOk result ((outcome : SeedOutcome)
            × Tells seed text.items lab.now.history lab.now.state outcome
            × (self.new.outcomes.items ≡ self.old.outcomes.items ++ outcome ∷ [])) }
        ensures disks { self.new.disks ≡ self.old.disks }
    {
        let outcome = outcome_in(&mut self.digests, lab, text, seed)?;
        self.outcomes.push(outcome)?;
        Ok(())
    }
}
