ghost use Rattle.lab_dust.specs.BlockSet.{AddsOne, AlwaysRises, TakesOne};

/// The list of bad blocks is a set whose numbers rise, whatever a line takes and is told: so no block is counted or
/// told twice.
#[tactic(auto, using(crate::proofs::Rulesets::blocks_are_a_set))]
pub fn blocks_are_a_set()
    ensures rises { AlwaysRises }
    ensures added { AddsOne }
    ensures taken { TakesOne }
{}
