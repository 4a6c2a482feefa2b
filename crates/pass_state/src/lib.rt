// A time pass at work: which nodes are done, its queue, and the turn of an entry. Both passes are one code, over a
// trait with what differs. The first n nodes of the table are the network's, the first `count` slots the queue's: what
// stands behind both is lent, and there is no heap memory for a Vec. Contracts: specs/Held.antt, specs/Strands.antt,
// specs/Promises.antt.
#![tactic(auto)]

ghost use Rattle.std.specs.Prelude.{◌≡◌, ℕ, ◌+◌, ◌-◌, ◌*◌, ◌≤◌, ◌<◌, length, set};
ghost use Rattle.net_node.specs.Table.{float_width, number_width, node_at, set_time};
ghost use Rattle.net_node.specs.Lent.{table_at_entry, table_at_exit};
ghost use Rattle.pass_queue.specs.Queue.{HeapRoom};
ghost use Rattle.pass_rules.specs.Walks.{Linked, table_of, done_in, behind_alt};
ghost use Rattle.pass_state.specs.Held.{slices, NodeIn, Working, Standing};
ghost use Rattle.pass_state.specs.Strands.{time_ahead, entry_before, alternative_entry, end_entry, finished};
ghost use Rattle.pass_state.specs.Strands.{finished_flags, standing, alternating, stepping};
ghost use Rattle.pass_state.specs.Strands.{stranding, settling, turning, turning_all};
ghost use Rattle.pass_state.specs.Promises.{lent, stops_by, Enqueues, no_more, fewer, PassTo, StandsTo};
ghost use Rattle.pass_state.specs.Promises.{Relinked, EndsTo};

use net_node::EstTime;
use pass_queue::{Backward, Entry, Forward, Order};
use pass_rules::{LinkedNodes, Links};

// Where a strand stands: on which node, which one it looks at, and how many entries the queue has then.
#[derive(Clone, Copy, Debug)]
pub struct Stand {
    pub curr: u32,
    pub ahead: u32,
    pub count: usize,
}

// ---- nodes that are done, and the queue

// Whether a node is done: its flag is a number of the work space, which is lent as u32.
#[tactic(auto, unfolding(pass_rules::specs::Walks::done_in))]
pub fn is_done(flags: &[u32], i: u32) -> bool
    requires { i < length flags.now }
    ensures { result ≡ done_in flags.now i }
{
    0 < flags[i as usize]
}

// A node is done, at this time.
pub fn set_done(floats: &mut [f64], numbers: &mut [u32], flags: &mut [u32], i: u32, time: f64)
    requires { NodeIn floats.old numbers.old flags.old i }
    ensures floats { floats.new ≡ (set_time (table_at_entry floats numbers) i time).floats }
    ensures numbers { numbers.new ≡ (set_time (table_at_entry floats numbers) i time).numbers }
    ensures flags { flags.new ≡ set flags.old i 1 }
{
    net_node::set_time(floats, numbers, i as usize, time);
    flags[i as usize] = 1;
}

// Puts an entry into a queue of `count`, if its time and its sub are numbers: how many entries the queue has then.
pub fn enqueue<O: Order>(
    times: &mut [f64],
    nodes: &mut [u32],
    count: usize,
    e: Entry,
) -> Option<usize>
    requires { HeapRoom times.old nodes.old (count + 1) }
    ensures { Enqueues times nodes O.backward count e result }
{
    if e.time.is_nan() || e.sub.is_nan() {
        return None;
    }
    pass_queue::push::<O>(times, nodes, count, e);
    Some(count + 1)
}

// ---- what differs between the passes

// A time pass: the times and entries that it makes, and what it does at the end. `less` is what the backward pass takes
// off; the forward pass takes nothing off.
pub trait TimePass: Links {
    // The time of the node `ahead` that a step comes to from `here`.
    fn time_ahead(here: EstTime, ahead: EstTime, less: f64) -> f64
        ensures { result ≡ time_ahead Self.backward here ahead less };

    // The entry of a node's alternative i, which gets the node's time.
    fn alternative_entry(node: EstTime, alternative: EstTime, i: u32) -> Entry
        ensures { result ≡ alternative_entry Self.backward node alternative i };

    // The entry of a node i that a strand ends on, before the node `ahead`.
    fn end_entry(node: EstTime, ahead: EstTime, i: u32, less: f64) -> Entry
        ensures { result ≡ end_entry Self.backward node ahead i less };

    // Node i, before which the network ends, is done at this time.
    fn finish(floats: &mut [f64], numbers: &mut [u32], flags: &mut [u32], i: u32, time: f64)
        requires { NodeIn floats.old numbers.old flags.old i }
        ensures floats { floats.new ≡ (finished Self.backward (table_at_entry floats numbers) i time).floats }
        ensures numbers { numbers.new ≡ (finished Self.backward (table_at_entry floats numbers) i time).numbers }
        ensures flags { flags.new ≡ finished_flags Self.backward flags.old i };
}

// Forward: the entry of a node i at a time, whose next is so much later.
fn entry_before(time: f64, to_next: f64, i: u32) -> Entry
    ensures { result ≡ entry_before time to_next i }
{
    Entry {
        time: time + to_next,
        sub: 0.0,
        node: i,
    }
}

// A step adds the time to next. An entry's time is that at which its next is reached.
impl TimePass for Forward {
    fn time_ahead(here: EstTime, _ahead: EstTime, _less: f64) -> f64 {
        here.time_sched + here.time_to_next
    }

    fn alternative_entry(node: EstTime, alternative: EstTime, i: u32) -> Entry {
        entry_before(node.time_sched, alternative.time_to_next, i)
    }

    fn end_entry(node: EstTime, _ahead: EstTime, i: u32, _less: f64) -> Entry {
        entry_before(node.time_sched, node.time_to_next, i)
    }

    fn finish(floats: &mut [f64], numbers: &mut [u32], flags: &mut [u32], i: u32, time: f64) {
        set_done(floats, numbers, flags, i, time);
    }
}

// A step takes `less` off. An alternative gets its node's time, and its entry what that took off.
impl TimePass for Backward {
    fn time_ahead(_here: EstTime, ahead: EstTime, less: f64) -> f64 {
        ahead.time_sched - less
    }

    fn alternative_entry(node: EstTime, alternative: EstTime, i: u32) -> Entry {
        Entry {
            time: node.time_sched,
            sub: alternative.time_sched - node.time_sched,
            node: i,
        }
    }

    fn end_entry(node: EstTime, ahead: EstTime, i: u32, less: f64) -> Entry {
        Entry {
            time: node.time_sched - ahead.time_to_next,
            sub: less,
            node: i,
        }
    }

    // The first node too.
    fn finish(floats: &mut [f64], numbers: &mut [u32], flags: &mut [u32], i: u32, time: f64) {
        set_done(floats, numbers, flags, i, time);
        set_done(floats, numbers, flags, 0, time);
    }
}

// ---- the turn of an entry; None where an assertion fails

// Relinks the join or split that an entry's node reaches first, and tells it. The node is done and the one ahead isn't.
fn relink<P: TimePass>(
    floats: &mut [f64],
    numbers: &mut [u32],
    n: usize,
    flags: &[u32],
    curr: u32,
) -> Option<u32>
    requires linked { Linked (table_of floats.old numbers.old) n }
    requires flags_room { n ≤ length flags.now }
    requires curr_lt_n { curr < n }
    ensures { Relinked (table_at_entry floats numbers) (table_at_exit floats numbers) flags.now P.backward n curr
        result }
{
    let next = P::ahead(net_node::load(floats, numbers, curr as usize));
    if !is_done(flags, curr) || is_done(flags, next) {
        return None;
    }
    let nodes = LinkedNodes {
        floats,
        numbers,
        count: n,
    };
    let found = nodes.relink_walk::<P>(flags, next)?;
    if next == found {
        return Some(found);
    }
    P::swap(floats, numbers, n, curr, next, found);
    Some(found)
}

// A node's alternative, if there is one, is done and goes into the queue.
fn alternate<P: TimePass>(
    floats: &mut [f64],
    numbers: &mut [u32],
    n: usize,
    flags: &mut [u32],
    times: &mut [f64],
    nodes: &mut [u32],
    count: usize,
    curr: u32,
) -> Option<usize>
    requires working { Working P.backward n (slices floats.old numbers.old flags.old times.old nodes.old) count
        (n - 2) }
    requires curr_lt_n { curr < n }
    ensures { PassTo (lent floats numbers flags times nodes) P.backward n count (alternating P.backward curr) no_more
        result }
{
    let node = net_node::load(floats, numbers, curr as usize);
    let i = P::ahead_alt(node);
    if i == 0 {
        return Some(count);
    }
    let alternative = net_node::load(floats, numbers, i as usize);
    set_done(floats, numbers, flags, i, node.time_sched);
    let e = P::alternative_entry(node, alternative, i);
    enqueue::<P>(times, nodes, count, e)
}

// A step of a strand: the node's alternative goes into the queue, and the node ahead is done.
fn step<P: TimePass>(
    floats: &mut [f64],
    numbers: &mut [u32],
    n: usize,
    flags: &mut [u32],
    times: &mut [f64],
    nodes: &mut [u32],
    at: Stand,
    less: f64,
) -> Option<Stand>
    requires { Standing P.backward n (slices floats.old numbers.old flags.old times.old nodes.old) at }
    ensures { StandsTo (lent floats numbers flags times nodes) P.backward n at.count
        (stepping P.backward less at.curr at.ahead) (standing P.backward less) result }
{
    let count = alternate::<P>(floats, numbers, n, flags, times, nodes, at.count, at.curr)?;
    if is_done(flags, at.ahead) {
        return None;
    }
    let here = net_node::load(floats, numbers, at.curr as usize);
    let next = net_node::load(floats, numbers, at.ahead as usize);
    let time = P::time_ahead(here, next, less);
    set_done(floats, numbers, flags, at.ahead, time);
    Some(Stand {
        curr: at.ahead,
        ahead: P::ahead(next),
        count,
    })
}

// Whether a strand ends before a node: a join forward, a split backward, the last or the first node.
fn stops_at<P: TimePass>(floats: &[f64], numbers: &[u32], i: u32) -> bool
    requires floats_room { i * float_width + float_width ≤ length floats.now }
    requires numbers_room { i * number_width + number_width ≤ length numbers.now }
    ensures { result ≡ stops_by (behind_alt P.backward) (node_at floats.now numbers.now i) }
{
    let node = net_node::load(floats, numbers, i as usize);
    (P::behind_alt(node) != 0) | node.is_fake()
}

// Steps until the strand ends before the node ahead.
fn strand<P: TimePass>(
    floats: &mut [f64],
    numbers: &mut [u32],
    n: usize,
    flags: &mut [u32],
    times: &mut [f64],
    nodes: &mut [u32],
    first: Stand,
    less: f64,
) -> Option<Stand>
    requires { Standing P.backward n (slices floats.old numbers.old flags.old times.old nodes.old) first }
    ensures { StandsTo (lent floats numbers flags times nodes) P.backward n first.count
        (stranding P.backward n less first.curr first.ahead) (standing P.backward less) result }
{
    let mut at = first;
    loop {
        at = step::<P>(floats, numbers, n, flags, times, nodes, at, less)?;
        if stops_at::<P>(floats, numbers, at.ahead) {
            return Some(at);
        }
    }
}

// What becomes of the node that a strand ends on: the join or split ahead is done, or the network ends there and is
// done, or the node goes into the queue.
fn settle<P: TimePass>(
    floats: &mut [f64],
    numbers: &mut [u32],
    n: usize,
    flags: &mut [u32],
    times: &mut [f64],
    nodes: &mut [u32],
    at: Stand,
    less: f64,
) -> Option<usize>
    requires { Standing P.backward n (slices floats.old numbers.old flags.old times.old nodes.old) at }
    ensures { PassTo (lent floats numbers flags times nodes) P.backward n at.count
        (settling P.backward less at.curr at.ahead) no_more result }
{
    let node = net_node::load(floats, numbers, at.curr as usize);
    let next = net_node::load(floats, numbers, at.ahead as usize);
    let fake = node.is_fake();
    if is_done(flags, at.ahead) {
        if fake & (at.curr == P::behind_alt(next)) {
            return Some(at.count);
        }
        return None;
    }
    if P::ahead(next) == 0 {
        P::finish(floats, numbers, flags, at.ahead, node.time_sched);
        return Some(at.count);
    }
    if fake {
        return None;
    }
    let e = P::end_entry(node, next, at.curr, less);
    enqueue::<P>(times, nodes, at.count, e)
}

// One entry, taken out of the queue.
fn turn<P: TimePass>(
    floats: &mut [f64],
    numbers: &mut [u32],
    n: usize,
    flags: &mut [u32],
    times: &mut [f64],
    nodes: &mut [u32],
    count: usize,
    e: Entry,
) -> Option<usize>
    requires working { Working P.backward n (slices floats.old numbers.old flags.old times.old nodes.old) count
        (n - 2) }
    requires node_lt_n { e.node < n }
    ensures { PassTo (lent floats numbers flags times nodes) P.backward n count (turning P.backward n e) fewer result }
{
    let found = relink::<P>(floats, numbers, n, flags, e.node)?;
    let first = Stand {
        curr: e.node,
        ahead: found,
        count,
    };
    let last = strand::<P>(floats, numbers, n, flags, times, nodes, first, e.sub)?;
    settle::<P>(floats, numbers, n, flags, times, nodes, last, e.sub)
}

// Takes entries out of the queue until it is empty, if no assertion fails.
pub fn turns<P: TimePass>(
    floats: &mut [f64],
    numbers: &mut [u32],
    n: usize,
    flags: &mut [u32],
    times: &mut [f64],
    nodes: &mut [u32],
    count: usize,
) -> Option<()>
    requires working { Working P.backward n (slices floats.old numbers.old flags.old times.old nodes.old) count
        (n - 1) }
    requires n_nonzero { 0 < n }
    ensures { EndsTo (lent floats numbers flags times nodes) P.backward n count (turning_all P.backward n) result }
{
    let mut queued = count;
    while 0 < queued {
        let e = pass_queue::pop::<P>(times, nodes, queued);
        queued = turn::<P>(floats, numbers, n, flags, times, nodes, queued - 1, e)?;
    }
    Some(())
}
