// The backward time pass: `update_times_backward`. Contracts: pass_rules' specs/Backward.antt, pass_state's
// specs/Promises.antt.
#![tactic(auto)]

ghost use Rattle.pass_rules.specs.Backward.{backward};
ghost use Rattle.pass_state.specs.Held.{slices, Unbegun};
ghost use Rattle.pass_state.specs.Promises.{PassEnds};

use pass_queue::{Backward, Entry};

// Takes what is to be subtracted off the times of a network of n, the first nodes that the slices hold, if no assertion
// fails. Nodes that are passed are flagged in `flags`, where no flag is set before, and flags behind the n stay; the
// queue lies in `times` and `nodes`.
pub fn update_times_backward(
    floats: &mut [f64],
    numbers: &mut [u32],
    n: usize,
    flags: &mut [u32],
    times: &mut [f64],
    nodes: &mut [u32],
) -> Option<()>
    requires { Unbegun (slices floats.old numbers.old flags.old times.old nodes.old) n }
    ensures { PassEnds floats numbers flags n (λ t. backward t n) result }
{
    let e = Entry {
        time: 0.0,
        sub: 0.0,
        node: (n - 2) as u32,
    };
    let count = pass_state::enqueue::<Backward>(times, nodes, 0, e)?;
    flags[n - 2] = 1;
    flags[n - 1] = 1;
    pass_state::turns::<Backward>(floats, numbers, n, flags, times, nodes, count)
}
