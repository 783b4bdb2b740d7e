// The refusal of the least node that is at fault.
ghost use Rattle.std.specs.Prelude.{◌≡◌, ℕ, ◌<◌, ◌≤◌, Bool};
ghost use Rattle.script.specs.Limits.{max_nodes};
ghost use Rattle.script.specs.Least.{least_below};
ghost use Rattle.script.specs.Fault.{fault_at, answer_of};

use answer::{Reason, Refusal};

/// Refuses the least node at fault, where p is what the test answers.
pub(crate) fn refuse_least<F: Fn(usize) -> bool>(
    nodes: usize,
    reason: Reason,
    is_at_fault: F,
) -> Result<(), Refusal>
    requires few { nodes ≤ max_nodes }
    requires callable { (n : ℕ) → n < nodes → F.pre is_at_fault n }
    ensures { (p : ℕ → Bool) → ((n : ℕ) (b : Bool) → n < nodes → F.post is_at_fault n b → b ≡ p n)
        → result ≡ answer_of (fault_at reason (least_below p nodes)) }
{
    // A loop: that `find` may make the test at each number of the range got no proof.
    for n in 0..nodes {
        if is_at_fault(n) {
            return Err(Refusal::at(reason, n as u32));
        }
    }
    Ok(())
}
