ghost use Rattle.std.specs.Prelude.{◌≡◌, min};
ghost use Rattle.ps_sum.specs.Outs.{size_of};

use super::sums::PathSum;

// Sizes are told as this number where they are above it.
const CAP: u64 = 1_000_000_000_000;

impl PathSum {
    /// How many terms the phase and monomials the outputs have together; told as 10^12 where there
    /// are more.
    pub fn size(&self) -> u64
        ensures { result ≡ min (size_of self.now.phase self.now.outs) 1000000000000 }
    {
        let mut total = self.phase.count().min(CAP);
        for poly in self.outs.polys() {
            total = (total + poly.count().min(CAP)).min(CAP);
        }
        total
    }
}
