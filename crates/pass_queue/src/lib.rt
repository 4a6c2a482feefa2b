// The queue of a time pass: a binary heap in the first n slots of lent slices. There is no heap memory for std's
// BinaryHeap or a Vec of entries, and the slots behind the n are room to grow. A struct of both `&mut` and n would be
// put together anew at each push and pop, since a pass lends its slices beside the table's, and would owe each function
// two clauses more, that it leaves the same references behind. Contracts: specs/Queue.antt, specs/Slots.antt.
#![tactic(auto)]

ghost use Rattle.std.specs.Prelude.{◌≡◌, Bool, true, false, ◌+◌, ◌*◌, ◌-◌, ◌≤◌, ◌<◌, length};
ghost use Rattle.std.specs.Ordering.{is_lt};
ghost use Rattle.std.specs.Float.Ieee.{lt};
ghost use Rattle.pass_queue.specs.Queue.{order_by, by_bits, before, Ordered, slot, HeapRoom, Added};
ghost use Rattle.pass_queue.specs.Queue.{Dropped, TakenOut};
ghost use Rattle.pass_queue.specs.Slots.{put_times, put_nodes, BestChild};

use std::cmp::Ordering;

// An entry: a time, what is subtracted behind it (backward only), and a node.
#[derive(Clone, Copy, Debug)]
pub struct Entry {
    pub time: f64,
    pub sub: f64,
    pub node: u32,
}

// How two floats compare: equal where one is no number.
#[tactic(auto, using(crate::proofs::Compare::order_is))]
fn float_order(x: f64, y: f64) -> Ordering
    ensures { result ≡ order_by (lt x y) (lt y x) }
{
    x.partial_cmp(&y).unwrap_or(Ordering::Equal)
}

// Entries that differ in nothing but the sign of a zero: by their bits.
fn bits_order(a: Entry, b: Entry) -> Ordering
    ensures { is_lt result ≡ by_bits a b }
{
    floats::bits_of(a.time)
        .cmp(&floats::bits_of(b.time))
        .then(floats::bits_of(a.sub).cmp(&floats::bits_of(b.sub)))
}

// The order in which a pass takes its entries.
pub trait Order {
    ghost backward: { Bool };

    // Whether a is taken before b.
    fn is_before(a: Entry, b: Entry) -> bool
        ensures { result ≡ before backward a b };
}

// The forward pass: the smaller time, then the smaller index.
pub struct Forward;

impl Order for Forward {
    ghost backward = { false };

    fn is_before(a: Entry, b: Entry) -> bool {
        float_order(a.time, b.time)
            .then_with(|| a.node.cmp(&b.node))
            .then_with(|| bits_order(a, b))
            .is_lt()
    }
}

// The backward pass: the greater time, then the greater sub, then the greater index.
pub struct Backward;

impl Order for Backward {
    ghost backward = { true };

    fn is_before(a: Entry, b: Entry) -> bool {
        float_order(b.time, a.time)
            .then_with(|| float_order(b.sub, a.sub))
            .then_with(|| b.node.cmp(&a.node))
            .then_with(|| bits_order(a, b))
            .is_lt()
    }
}

// The entry in slot i.
#[tactic(auto, unfolding(crate::specs::Queue::slot))]
fn entry_at(times: &[f64], nodes: &[u32], i: usize) -> Entry
    requires { HeapRoom times.now nodes.now (i + 1) }
    ensures { result ≡ slot times.now nodes.now i }
{
    let at = i * 2;
    Entry {
        time: times[at],
        sub: times[at + 1],
        node: nodes[i],
    }
}

// Puts an entry into slot i.
#[tactic(auto, unfolding(crate::specs::Slots::put_times, crate::specs::Slots::put_nodes))]
fn put_entry(times: &mut [f64], nodes: &mut [u32], i: usize, e: Entry)
    requires { HeapRoom times.old nodes.old (i + 1) }
    ensures times { times.new ≡ put_times times.old i e }
    ensures nodes { nodes.new ≡ put_nodes nodes.old i e }
{
    let at = i * 2;
    times[at] = e.time;
    times[at + 1] = e.sub;
    nodes[i] = e.node;
}

// Moves a hole from slot n up to where e may stand.
fn rise<O: Order>(times: &mut [f64], nodes: &mut [u32], n: usize, e: Entry) -> usize
    requires room { HeapRoom times.old nodes.old (n + 1) }
    requires ordered { Ordered e }
    ensures within { result ≤ n }
    ensures held { Added O.backward times.old nodes.old (put_times times.new result e)
        (put_nodes nodes.new result e) n e }
{
    let mut i = n;
    while 0 < i {
        let above = (i - 1) / 2;
        let x = entry_at(times, nodes, above);
        if !O::is_before(e, x) {
            return i;
        }
        put_entry(times, nodes, i, x);
        i = above;
    }
    i
}

// Puts an entry into a heap of n.
pub fn push<O: Order>(times: &mut [f64], nodes: &mut [u32], n: usize, e: Entry)
    requires room { HeapRoom times.old nodes.old (n + 1) }
    requires ordered { Ordered e }
    ensures { Added O.backward times.old nodes.old times.new
        nodes.new n e }
{
    let i = rise::<O>(times, nodes, n, e);
    put_entry(times, nodes, i, e);
}

// The one of the slots below slot i that is taken first.
fn best_child<O: Order>(times: &[f64], nodes: &[u32], n: usize, i: usize) -> usize
    requires room { HeapRoom times.now nodes.now n }
    requires has_child { i * 2 + 1 < n }
    ensures { BestChild O.backward times.now nodes.now n i result }
{
    let left = i * 2 + 1;
    let right = left + 1;
    if right == n {
        return left;
    }
    let x = entry_at(times, nodes, left);
    let y = entry_at(times, nodes, right);
    if O::is_before(y, x) {
        return right;
    }
    left
}

// Moves a hole from the top down to where e, the entry behind the first n, may stand.
fn sink<O: Order>(times: &mut [f64], nodes: &mut [u32], n: usize, e: Entry) -> usize
    requires n_nonzero { 0 < n }
    requires room { HeapRoom times.old nodes.old (n + 1) }
    requires behind { e ≡ slot times.old nodes.old n }
    ensures within { result < n }
    ensures held { Dropped O.backward times.old nodes.old (put_times times.new result e)
        (put_nodes nodes.new result e) n }
{
    let mut i = 0;
    while i < n / 2 {
        let k = best_child::<O>(times, nodes, n, i);
        let x = entry_at(times, nodes, k);
        if !O::is_before(x, e) {
            return i;
        }
        put_entry(times, nodes, i, x);
        i = k;
    }
    i
}

// Takes the best entry out of a heap of n.
pub fn pop<O: Order>(times: &mut [f64], nodes: &mut [u32], n: usize) -> Entry
    requires n_nonzero { 0 < n }
    requires room { HeapRoom times.old nodes.old n }
    ensures { TakenOut O.backward times.old nodes.old times.new nodes.new
        n result }
{
    let top = entry_at(times, nodes, 0);
    let last = n - 1;
    if last == 0 {
        return top;
    }
    let end = entry_at(times, nodes, last);
    let i = sink::<O>(times, nodes, last, end);
    put_entry(times, nodes, i, end);
    top
}
