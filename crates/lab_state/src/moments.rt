ghost use Rattle.std.specs.Prelude.{◌≡◌, map, if◌then◌else◌};
ghost use Rattle.lab_logs.specs.Moments.{least_over};

use crate::state::State;
use lab_logs::lesser;
use lab_target::Target;

impl<T: Target> State<T> {
    ghost use Rattle.lab_model.specs.Guard.{next_moment};

    /// The least of the moments that stand, later than now.
    pub fn least_moment(&self) -> Option<u64>
        ensures { result ≡ next_moment self.now }
    {
        let held = self.traffic.least_due();
        lesser(
            self.traffic.clock(),
            self.moment,
            self.least_with_logs(held),
        )
    }

    /// The least of another moment and, once the logs have started, theirs that are later than now.
    fn least_with_logs(&self, other: Option<u64>) -> Option<u64>
        ensures { result ≡ (if self.now.started
            then least_over self.now.clock (map (λ log. log.moment) self.now.logs) other
            else other) }
    {
        if !self.started {
            return other;
        }
        self.logs.least_after(self.traffic.clock(), other)
    }
}
