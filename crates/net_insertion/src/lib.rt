// Insertion of one event into the network: `insert_est_time`. Contracts: specs/Insertion.antt.
#![tactic(auto)]

ghost use Rattle.std.specs.Prelude.{◌≡◌, ◌+◌, ◌*◌, ◌≤◌, ◌<◌, length};
ghost use Rattle.net_node.specs.Table.{node_at, Room, Indexed, float_width, number_width};
ghost use Rattle.net_node.specs.Lent.{table_at_entry};
ghost use Rattle.net_node.specs.Held.{nodes_held};
ghost use Rattle.net_insertion.specs.Insertion.{matches, seek, linked_to, event_node, split_fake, add_behind};
ghost use Rattle.net_insertion.specs.Insertion.{split_at, place_at, inserted, InsertedInto, flagged};

use net_node::{EstTime, Nodes, TimedEvent};
use refusals::Refusal;

// A run's place, the source's `est_alt`: a node, and the time and offset of the run's own event there.
#[derive(Clone, Copy)]
pub struct Place {
    pub time_to_next: f64,
    pub dist_to_next: f64,
    pub idx_prev: u32,
}

// Where an event goes: behind a node without a next, to a node that is there already, or behind a Fake to be made the
// alternative of a node.
#[derive(Clone, Copy)]
enum Seek {
    Open(u32),
    Match(u32),
    Split(u32),
}

// What insertion does: an event is added, maybe by a split, or the run moves to a node; with the place that the run has
// then. `split` is no variant of its own: growth treats both kinds of adding alike but for a count.
#[derive(Clone, Copy)]
pub enum Insertion {
    Added { place: Place, split: bool },
    Moved(Place),
}

// Whether a node is the event's, at nearly its speed.
#[tactic(auto, using(net_node::proofs::Events::event_eq), unfolding(crate::specs::Insertion::matches))]
fn is_match(join: f64, e: TimedEvent, node: EstTime) -> bool
    ensures { result ≡ matches join e node }
{
    let same = node.link_event == e.link_event;
    let gap = floats::speed_gap(e.speed, node.speed);
    same & (gap < join)
}

// From a node along its alternatives to where the event goes.
#[tactic(auto, using(crate::proofs::Seeking::seeking_start, crate::proofs::Seeking::seeking_on))]
fn seek_place(nodes: &Nodes, join: f64, e: TimedEvent, start: u32) -> Seek
    requires { start < nodes.now.count }
    ensures { result ≡ seek nodes.now.count (nodes_held nodes.now) join e start }
{
    let mut i = start;
    loop {
        let node = nodes.load(i);
        let next = node.idx_next;
        if next == 0 {
            return Seek::Open(i);
        }
        let there = nodes.load(next);
        if is_match(join, e, there) {
            return Seek::Match(next);
        }
        if node.idx_next_alt == 0 {
            return Seek::Split(i);
        }
        i = node.idx_next_alt;
    }
}

// A node to which the next is set: the time and offset it holds become those up to the event that follows.
#[tactic(auto, unfolding(crate::specs::Insertion::linked_to))]
pub fn link_to(node: EstTime, next: u32, e: TimedEvent) -> EstTime
    ensures { result ≡ linked_to node next e }
{
    EstTime {
        time_to_next: e.time - node.time_to_next,
        dist_to_next: e.offset - node.dist_to_next,
        idx_next: next,
        ..node
    }
}

// An event's own node behind node prev.
#[tactic(auto, unfolding(crate::specs::Insertion::event_node))]
fn event_node(e: TimedEvent, prev: u32) -> EstTime
    ensures { result ≡ event_node e prev }
{
    EstTime {
        time_to_next: e.time,
        dist_to_next: e.offset,
        speed: e.speed,
        link_event: e.link_event,
        idx_prev: prev,
        ..EstTime::BLANK
    }
}

// A split's Fake behind node prev, which holds the run's own time and offset.
#[tactic(auto, unfolding(crate::specs::Insertion::split_fake))]
fn split_fake(place: Place, prev: u32) -> EstTime
    ensures { result ≡ split_fake place prev }
{
    EstTime {
        time_to_next: place.time_to_next,
        dist_to_next: place.dist_to_next,
        idx_prev: prev,
        ..EstTime::BLANK
    }
}

// Adds an event as node k behind node i.
fn add_behind(floats: &mut [f64], numbers: &mut [u32], i: u32, k: u32, e: TimedEvent)
    requires i_lt_k { i < k }
    requires float_width_in_bounds { k * float_width + float_width ≤ length floats.old }
    requires number_width_in_bounds { k * number_width + number_width ≤ length numbers.old }
    ensures floats { floats.new ≡ (add_behind (table_at_entry floats numbers) i k e).floats }
    ensures numbers { numbers.new ≡ (add_behind (table_at_entry floats numbers) i k e).numbers }
{
    let node = net_node::load(floats, numbers, i as usize);
    let linked = link_to(node, k, e);
    net_node::store(floats, numbers, i as usize, linked);
    let added = event_node(e, i);
    net_node::store(floats, numbers, k as usize, added);
}

// Adds a split's Fake as node k, the next alternative of node i.
fn split_at(floats: &mut [f64], numbers: &mut [u32], i: u32, k: u32, place: Place)
    requires i_lt_k { i < k }
    requires float_width_in_bounds { k * float_width + float_width ≤ length floats.old }
    requires number_width_in_bounds { k * number_width + number_width ≤ length numbers.old }
    ensures floats { floats.new ≡ (split_at (table_at_entry floats numbers) i k place).floats }
    ensures numbers { numbers.new ≡ (split_at (table_at_entry floats numbers) i k place).numbers }
{
    let node = net_node::load(floats, numbers, i as usize);
    let before = EstTime {
        idx_next_alt: k,
        ..node
    };
    net_node::store(floats, numbers, i as usize, before);
    let fake = split_fake(place, i);
    net_node::store(floats, numbers, k as usize, fake);
}

// The place behind an event.
#[tactic(auto, unfolding(crate::specs::Insertion::place_at))]
fn place_at(i: u32, e: TimedEvent) -> Place
    ensures { result ≡ place_at i e }
{
    Place {
        time_to_next: e.time,
        dist_to_next: e.offset,
        idx_prev: i,
    }
}

// Inserts an event at a run's place into a network of n nodes. A node whose cell is set ends a finished run.
#[tactic(auto, using(crate::proofs::Answers::refused_laws))]
pub fn insert_est_time(
    floats: &mut [f64],
    numbers: &mut [u32],
    n: usize,
    places: usize,
    cells: &[u32],
    ends_at: usize,
    join: f64,
    est_alt: Place,
    est_insert: TimedEvent,
) -> Result<Insertion, Refusal>
    requires room { Room floats.old numbers.old places }
    requires n_le_places { n ≤ places }
    requires indexed { Indexed (node_at floats.old numbers.old) n }
    requires stands_inside { est_alt.idx_prev < n }
    requires ends_inside { ends_at + n * 8 ≤ length cells.now + 7 }
    ensures answer { result ≡ inserted (table_at_entry floats numbers) n places (flagged cells.now ends_at)
        join est_alt est_insert }
    ensures table { InsertedInto (table_at_entry floats numbers) n join est_alt est_insert floats.new
        numbers.new result }
{
    let nodes = Nodes {
        floats,
        numbers,
        count: n,
    };
    match seek_place(&nodes, join, est_insert, est_alt.idx_prev) {
        Seek::Match(i) => Ok(Insertion::Moved(place_at(i, est_insert))),
        Seek::Open(i) => {
            if places <= n {
                return Err(Refusal::NoPlace);
            }
            if 0 < cells[ends_at + i as usize * 8] {
                return Err(Refusal::BadEnd);
            }
            let k = n as u32;
            add_behind(floats, numbers, i, k, est_insert);
            Ok(Insertion::Added {
                place: place_at(k, est_insert),
                split: false,
            })
        }
        Seek::Split(i) => {
            if places <= n + 1 {
                return Err(Refusal::NoPlace);
            }
            let k = n as u32;
            split_at(floats, numbers, i, k, est_alt);
            add_behind(floats, numbers, k, k + 1, est_insert);
            Ok(Insertion::Added {
                place: place_at(k + 1, est_insert),
                split: true,
            })
        }
    }
}
