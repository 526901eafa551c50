ghost use Rattle.std.specs.Prelude.{◌≡◌};
ghost use Rattle.lab_findings.specs.Watched.{device_reach};

/// As many sectors as a device has at most: 64 lines of 1,099,511,627,776.
#[tactic(auto, unfolding(crate::specs::Watched::device_reach))]
pub(crate) fn device_reach() -> u64
    ensures { result ≡ device_reach }
{
    70_368_744_177_664
}
