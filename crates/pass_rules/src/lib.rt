// The checks before the time passes, and the relinks of both. Contracts: specs/.
#![tactic(auto)]

ghost use Rattle.std.specs.Prelude.{◌≡◌, not, ◌&&◌, ◌+◌, ◌-◌, ◌≤◌, ◌<◌, length};
ghost use Rattle.std.proofs.Props.{props};
ghost use Rattle.net_node.specs.Lent.{table_at_entry};
ghost use Rattle.pass_rules.specs.Checks.{prev_holds, next_holds, fake_holds, node_holds, row14};
ghost use Rattle.pass_rules.specs.Plain.{plain, neighbours_hold};
ghost use Rattle.pass_rules.specs.Walks.{Linked, table_of, done_in, pass_of, ahead, ahead_alt, behind_alt, end_of};
ghost use Rattle.pass_rules.specs.Walks.{swap, passable, RelinkWalk};

use net_node::EstTime;
use pass_queue::{Backward, Forward, Order};

// The nodes of a network that is only read, the first `count` of a table: what row 5 leaves. Each method with an index
// asks that it be below `count`: indices are plain numbers, which other nodes hold. net_node's `Nodes` is no part of
// it: that one's alternatives rise, which a lent table's needn't, and one view with neither fact would be wrapped by
// both.
#[derive(Clone, Copy)]
pub struct LinkedNodes<'a> {
    pub floats: &'a [f64],
    pub numbers: &'a [u32],
    pub count: usize,
    ghost linked: { Linked (table_of floats.now numbers.now) count } by { Prim.hlevel props },
}

// Along which links a pass goes, and how it links a node and the join or split that it reaches.
pub trait Links: Order {
    // The index of the node that a pass goes to: the next forward, the previous backward.
    fn ahead(node: EstTime) -> u32
        ensures { result ≡ ahead Self.backward node };

    // The index of a node's alternative on that side.
    fn ahead_alt(node: EstTime) -> u32
        ensures { result ≡ ahead_alt Self.backward node };

    // The index of a node's alternative on the other side: a join's forward, a split's backward.
    fn behind_alt(node: EstTime) -> u32
        ensures { result ≡ behind_alt Self.backward node };

    // The node that a relink walk doesn't pass to: the end forward, 0 backward.
    fn end_of(n: usize) -> usize
        requires { 0 < n }
        ensures { result ≡ end_of Self.backward n };

    // A node exchanges links with the base of the join or split that is reached.
    fn swap(floats: &mut [f64], numbers: &mut [u32], n: usize, curr: u32, save: u32, found: u32)
        requires linked { Linked (table_of floats.old numbers.old) n }
        requires curr_lt_n { curr < n }
        requires save_lt_n { save < n }
        requires found_lt_n { found < n }
        ensures floats { floats.new ≡ (swap Self.backward (table_at_entry floats numbers) curr save found).floats }
        ensures numbers { numbers.new ≡ (swap Self.backward (table_at_entry floats numbers) curr save found).numbers };
}

impl Links for Forward {
    fn ahead(node: EstTime) -> u32 {
        node.idx_next
    }

    fn ahead_alt(node: EstTime) -> u32 {
        node.idx_next_alt
    }

    fn behind_alt(node: EstTime) -> u32 {
        node.idx_prev_alt
    }

    fn end_of(n: usize) -> usize {
        n - 1
    }

    // The node and the base of the join exchange their nexts.
    fn swap(floats: &mut [f64], numbers: &mut [u32], _n: usize, curr: u32, save: u32, found: u32) {
        let base = net_node::load(floats, numbers, found as usize).idx_prev;
        net_node::set_next(floats, numbers, curr as usize, found);
        net_node::set_next(floats, numbers, base as usize, save);
        net_node::set_prev(floats, numbers, save as usize, base);
        net_node::set_prev(floats, numbers, found as usize, curr);
    }
}

impl Links for Backward {
    fn ahead(node: EstTime) -> u32 {
        node.idx_prev
    }

    fn ahead_alt(node: EstTime) -> u32 {
        node.idx_prev_alt
    }

    fn behind_alt(node: EstTime) -> u32 {
        node.idx_next_alt
    }

    fn end_of(_n: usize) -> usize {
        0
    }

    // The node and the base of the split exchange their previous, and time and distance to next go along.
    fn swap(floats: &mut [f64], numbers: &mut [u32], _n: usize, curr: u32, save: u32, found: u32) {
        let base = net_node::load(floats, numbers, found as usize).idx_next;
        net_node::set_prev(floats, numbers, curr as usize, found);
        net_node::set_prev(floats, numbers, base as usize, save);
        net_node::set_next(floats, numbers, save as usize, base);
        net_node::set_next(floats, numbers, found as usize, curr);
        let a = net_node::load(floats, numbers, save as usize);
        let b = net_node::load(floats, numbers, found as usize);
        net_node::set_arc(
            floats,
            numbers,
            save as usize,
            b.time_to_next,
            b.dist_to_next,
        );
        net_node::set_arc(
            floats,
            numbers,
            found as usize,
            a.time_to_next,
            a.dist_to_next,
        );
    }
}

// The checks of a node by itself. `&` and `|` here and below, not `&&` and `||`: no branch for a test.
#[tactic(auto, using(crate::proofs::Held::differ_is), unfolding(crate::specs::Checks::prev_holds, crate::specs::Checks::next_holds, crate::specs::Checks::fake_holds))]
fn own_links_hold(here: EstTime, n: usize, i: usize) -> bool
    requires { i < n }
    ensures { result ≡ (prev_holds (λ _. here) n i && (next_holds (λ _. here) n i && fake_holds (λ _. here) n i)) }
{
    let prev = (here.idx_prev != 0) != (i <= 1);
    let next = (here.idx_next != 0) != (i == n - 1);
    let alone = !here.is_fake() | (here.idx_prev_alt == 0) | (here.idx_next_alt == 0);
    prev & (next & alone)
}

// The checks of a node by those before and after it.
#[tactic(auto, unfolding(crate::specs::Plain::neighbours_hold, crate::specs::Checks::prev_leads, crate::specs::Checks::next_leads))]
fn neighbours_hold(before: EstTime, after: EstTime, n: usize, i: usize) -> bool
    requires { i < n }
    ensures { result ≡ neighbours_hold before after n i }
{
    let last = i == n - 1;
    let next_alt = before.idx_next_alt as usize == i;
    let prev_alt = after.idx_prev_alt as usize == i;
    let prev_leads = (before.idx_next as usize == i) | next_alt;
    let next_leads = (after.idx_prev as usize == i) | prev_alt | last;
    let not_both = !next_alt | (!prev_alt | ((i == 0) | last));
    prev_leads & (next_leads & not_both)
}

// Whether a node is an event between two nodes that lead to it: then all its checks hold.
#[tactic(auto, unfolding(crate::specs::Plain::plain))]
fn is_plain(here: EstTime, before: EstTime, after: EstTime, n: usize, i: usize) -> bool
    requires { i < n }
    ensures { result ≡ plain here before after n i }
{
    (1 < i)
        & ((i < n - 1)
            & ((here.idx_prev != 0)
                & ((here.idx_next != 0)
                    & ((before.idx_next as usize == i)
                        & ((after.idx_prev as usize == i)
                            & ((before.idx_next_alt as usize != i) & !here.is_fake()))))))
}

impl LinkedNodes<'_> {
    ghost use Rattle.pass_rules.specs.Held.{table_held, nodes_held};

    // The node of index i.
    fn load(&self, i: u32) -> EstTime
        requires { i < self.now.count }
        ensures { result ≡ nodes_held self.now i }
    {
        net_node::load(self.floats, self.numbers, i as usize)
    }

    // Whether all checks of a node hold.
    fn node_holds(&self, i: u32) -> bool
        requires { i < self.now.count }
        ensures { result ≡ node_holds (nodes_held self.now) self.now.count i }
    {
        let n = self.count;
        let at = i as usize;
        let here = self.load(i);
        let before = self.load(here.idx_prev);
        let after = self.load(here.idx_next);
        if is_plain(here, before, after, n, at) {
            return true;
        }
        let own = own_links_hold(here, n, at);
        let near = neighbours_hold(before, after, n, at);
        own & near
    }

    // Row 14: whether a check of some node fails.
    pub fn checks_fail(&self) -> bool
        ensures { result ≡ row14 (nodes_held self.now) self.now.count }
    {
        for i in 0..self.count as u32 {
            if !self.node_holds(i) {
                return true;
            }
        }
        false
    }

    // Whether a node is a Fake that leads to a node which is neither done nor the walk's end. A node is done (timed
    // forward, passed backward) whose flag is set.
    fn is_passable<L: Links>(&self, flags: &[u32], i: u32) -> bool
        requires flags_room { self.now.count ≤ length flags.now }
        requires i_lt_count { i < self.now.count }
        ensures { result ≡ passable L.backward (pass_of (table_held self.now) (done_in flags.now)) self.now.count i }
    {
        let node = self.load(i);
        let to = L::ahead(node) as usize;
        let end = L::end_of(self.count);
        let done = 0 < flags[to];
        node.is_fake() & (!done & (to != end))
    }

    // The relink walk of a pass: from node i along Fakes that lead to nodes which are neither done nor its end.
    pub fn relink_walk<L: Links>(&self, flags: &[u32], i: u32) -> Option<u32>
        requires flags_room { self.now.count ≤ length flags.now }
        requires i_lt_count { i < self.now.count }
        ensures { RelinkWalk L.backward (table_held self.now) (done_in flags.now) self.now.count i result }
    {
        let mut at = i;
        for _ in 0..=self.count {
            if !self.is_passable::<L>(flags, at) {
                return Some(at);
            }
            at = L::ahead(self.load(at));
        }
        None
    }
}
