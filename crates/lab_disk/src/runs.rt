ghost use Rattle.std.specs.Prelude.{◌≡◌, IfOk, replicate};
ghost use Rattle.std.specs.List.{concat};
ghost use Rattle.lab_text.specs.Runs.{runs_list};

use super::sector::Sector;
use lab_sector::NoMemory;
use lab_text::Runs;
use std::alloc::Global;

/// The longest runs of one value that the sectors' bytes are made of, in order.
pub fn runs_of_sectors(alloc: Global, sectors: &[Sector]) -> Result<Runs, NoMemory>
    ensures { IfOk result (λ runs. runs ≡ runs_list (concat sectors.now)) }
{
    let mut runs = Runs::none(alloc);
    for sector in sectors {
        sector.push_runs_to(&mut runs)?;
    }
    Ok(runs)
}

/// The runs of so many sectors of zero bytes. More bytes than 64 bits count are refused as want of
/// memory is.
pub fn runs_of_zeroes(alloc: Global, sectors: u64) -> Result<Runs, NoMemory>
    ensures { IfOk result
        (λ runs. runs ≡ runs_list (concat (replicate sectors (replicate 512 0)))) }
{
    let count = sectors.checked_mul(512).ok_or(NoMemory)?;
    let mut runs = Runs::none(alloc);
    runs.push(count, 0)?;
    Ok(runs)
}
