//! The numbers of the job `demo`.

ghost use Rattle.std.specs.Prelude.{◌≡◌, ◌<◌, ◌≤◌, ◌^◌, IfOk, nat_eq, slice_index_or};
ghost use Rattle.sbpl_cfg.specs.sbpl_fixed.Numbers.{whole_of};
ghost use Rattle.sbpl_job.specs.Jobs.{extent_in, seed_in};
ghost use Rattle.sbpl_job.specs.Words.{Names};

use crate::job::JobFault;
use sbpl_cfg::read_whole;

/// The most digits of a seed.
const MOST_DIGITS: usize = 20;

/// Whether a plus stands first.
fn has_plus(text: &str) -> bool
    ensures plus { result ≡ nat_eq (slice_index_or text.now 0 0) 43 }
{
    match text.as_bytes() {
        [] => false,
        [first, ..] => *first == b'+',
    }
}

/// A seed: one to twenty digits, below 2^64.
pub fn read_seed(text: &str) -> Result<u64, JobFault>
    ensures seed { Names (seed_in text.now) result }
    ensures range { IfOk result (λ s. s < 2 ^ 64) }
{
    // `parse` passes over a plus, which is not a digit.
    if text.len() > MOST_DIGITS || has_plus(text) {
        return Err(JobFault::Words);
    }
    match text.parse::<u64>() {
        Ok(seed) => Ok(seed),
        Err(_) => Err(JobFault::Words),
    }
}

/// A width or a height, 8 to 512 cells.
pub fn read_extent(text: &str) -> Result<u32, JobFault>
    ensures extent { Names (extent_in (whole_of text.now)) result }
    ensures range { IfOk result (λ n. (8 ≤ n) × (n ≤ 512)) }
{
    match read_whole(text.as_bytes()) {
        Ok(extent) if extent >= 8 && extent <= 512 => Ok(extent as u32),
        _ => Err(JobFault::Words),
    }
}
