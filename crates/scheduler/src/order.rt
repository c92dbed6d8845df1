//! The order in which pending jobs are served: by deadline, and due together by number.

ghost use Rattle.scheduler.specs.Places.{job_before, job_equal};
ghost use Rattle.ordering.proofs.Orders.{by_number, lexical};

use crate::job::Job;
use ordering::Before;

impl Before for Job {
    ghost before = { job_before };

    ghost equal = { job_equal };

    ghost lawful = { lexical (by_number (λ j. j.deadline)) (by_number (λ j. j.number)) };

    // Field by field and not as tuples: those are compared without a branch, which takes a busy day half as long again.
    fn is_before(&self, other: &Job) -> bool {
        self.deadline < other.deadline
            || (self.deadline == other.deadline && self.number < other.number)
    }
}
