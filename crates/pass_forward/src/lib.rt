// The forward time pass: `update_times_forward`. Contracts: pass_rules' specs/Forward.antt, pass_state's
// specs/Promises.antt.
#![tactic(auto)]

ghost use Rattle.pass_rules.specs.Forward.{forward};
ghost use Rattle.pass_state.specs.Held.{slices, Unbegun};
ghost use Rattle.pass_state.specs.Promises.{PassEnds};

use pass_queue::{Entry, Forward};

// Times the nodes of a network of n, the first that the slices hold, if no assertion fails. Document 01 names this pass
// and the other by the source's names; what they share is pass_state's. Nodes that are timed are
// flagged in `flags`, where no flag is set before, and flags behind the n stay; the queue lies in `times` and `nodes`.
pub fn update_times_forward(
    floats: &mut [f64],
    numbers: &mut [u32],
    n: usize,
    departure: f64,
    flags: &mut [u32],
    times: &mut [f64],
    nodes: &mut [u32],
) -> Option<()>
    requires { Unbegun (slices floats.old numbers.old flags.old times.old nodes.old) n }
    ensures { PassEnds floats numbers flags n (λ t. forward t n departure) result }
{
    let e = Entry {
        time: departure,
        sub: 0.0,
        node: 1,
    };
    let count = pass_state::enqueue::<Forward>(times, nodes, 0, e)?;
    pass_state::set_done(floats, numbers, flags, 0, departure);
    pass_state::set_done(floats, numbers, flags, 1, departure);
    pass_state::turns::<Forward>(floats, numbers, n, flags, times, nodes, count)
}
