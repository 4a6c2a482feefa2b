// The checks and both time passes over a network: rows 14 to 16. Contracts: pass_rules' specs/Passes.antt,
// specs/Answers.antt.
#![tactic(auto)]

ghost use Rattle.std.specs.Prelude.{◌≡◌, ◌*◌, ◌≤◌, length};
ghost use Rattle.laws.specs.Answer.{number_of};
ghost use Rattle.refusals.specs.Refusals.{told};
ghost use Rattle.space.specs.Space.{zeros};
ghost use Rattle.net_node.specs.Table.{Room};
ghost use Rattle.net_node.specs.Lent.{table_at_entry, table_at_exit, table_seen};
ghost use Rattle.pass_rules.specs.Walks.{Linked, table_of, done_in};
ghost use Rattle.pass_rules.specs.Passes.{some_left, all_zero, passes};
ghost use Rattle.pass_all.specs.Answers.{TimedAs};

use pass_rules::LinkedNodes;
use refusals::Refusal;

// Row 15: whether a pass has left a node out. A node is done whose flag is set. All flags are looked at, whatever is
// found: that is faster than stopping.
fn some_left(flags: &[u32]) -> bool
    ensures { result ≡ some_left (done_in flags.now) (length flags.now) }
{
    let mut left = false;
    for flag in flags {
        left = left | !(0 < *flag);
    }
    left
}

// Row 16: whether all times are 0 or -0.
fn all_zero(floats: &[f64], numbers: &[u32], n: usize) -> bool
    requires { Room floats.now numbers.now n }
    ensures { result ≡ all_zero (table_seen floats numbers) n }
{
    for i in 0..n {
        if net_node::load(floats, numbers, i).time_sched != 0.0 {
            return false;
        }
    }
    true
}

// Checks a network of n nodes and times it. The queues lie in `reals` and `marks`, the flags of both passes in `cells`,
// which are zero before.
pub fn run_passes(
    floats: &mut [f64],
    numbers: &mut [u32],
    n: usize,
    departure: f64,
    reals: &mut [f64],
    cells: &mut [u32],
    marks: &mut [u32],
) -> Result<(), Refusal>
    requires linked { Linked (table_of floats.old numbers.old) n }
    requires three_nodes { 3 ≤ n }
    requires times_room { n * 2 ≤ length reals.old }
    requires nodes_room { n ≤ length marks.old }
    requires flags_room { n * 2 ≤ length cells.old }
    requires cells_zero { cells.old ≡ zeros (length cells.old) }
    ensures { TimedAs (passes (table_at_entry floats numbers) n departure) (number_of (told result))
        (table_at_exit floats numbers) }
{
    let nodes = LinkedNodes {
        floats,
        numbers,
        count: n,
    };
    if nodes.checks_fail() {
        return Err(Refusal::BadLinks);
    }
    // What is asked after each pass stays written twice: one function for it, with its contract, is longer.
    let (timed, passed) = cells[..n * 2].split_at_mut(n);
    pass_forward::update_times_forward(floats, numbers, n, departure, timed, reals, marks).ok_or(
        Refusal::NotTimed,
    )?;
    if some_left(timed) {
        return Err(Refusal::NotTimed);
    }
    pass_backward::update_times_backward(floats, numbers, n, passed, reals, marks).ok_or(
        Refusal::NotTimed,
    )?;
    if some_left(passed) {
        return Err(Refusal::NotTimed);
    }
    if all_zero(floats, numbers, n) {
        return Err(Refusal::AllZero);
    }
    Ok(())
}
