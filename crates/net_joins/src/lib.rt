// A run's joins: the choice among its entries, the join, the entries appended, and the three together for one event.
// Contracts: specs/Joins.antt.
#![tactic(auto)]

ghost use Rattle.std.specs.Prelude.{◌≡◌, List, ℕ, ◌+◌, ◌*◌, ◌≤◌, ◌<◌, ltb, length, get_or, take};
ghost use Rattle.net_node.specs.declared.EstTime.{EstTime};
ghost use Rattle.net_node.specs.Table.{node_at, Room, Indexed, float_width, number_width};
ghost use Rattle.net_event_map.specs.EventMap.{CellsApart, Mapped, Real, first_at};
ghost use Rattle.net_join_paths.specs.declared.EstJoinPath.{EstJoinPath};
ghost use Rattle.net_join_paths.specs.Entries.{Valid};
ghost use Rattle.net_node.specs.Lent.{nodes_at_entry, table_at_entry};
ghost use Rattle.net_node.specs.Held.{nodes_held};
ghost use Rattle.net_joins.specs.Joins.{closer, closest, chain_end, join_at, joined_table, joins_if};
ghost use Rattle.net_joins.specs.Joins.{join_step, StepAs, SteppedInto};
ghost use Rattle.net_joins.specs.Marks.{marks, NamesMarked, Ending, MapWalkable, AppendsChain, AppendsNodes};
ghost use Rattle.net_joins.specs.Marks.{GoesOnWith, MapKept};

use net_event_map::Layout;
use net_join_paths::{EstJoinPath, JoinPaths, push_entry};
use net_node::{EstTime, EstType, LinkEvent, Nodes, TimedEvent};
use net_stack::Stack;
use refusals::Refusal;

// The smallest gap of speeds so far, and its node. No Option of a node: the source begins with J and no node, and
// document 01 says "strictly below J" of the gap.
#[derive(Clone, Copy)]
pub struct SpeedJoin {
    pub speed_diff_join: f64,
    pub est_idx_join: u32,
}

// What a run's list is rebuilt in: the new list, and the stack of the walks that give its entries. Both are cleared
// where they are taken up, so contracts say nothing of what they hold.
#[derive(Drop)]
pub struct RebuildScratch {
    pub list: JoinPaths,
    pub stack: Stack,
}

// What becomes of a run at an event: it has joined a node, or it waits for its next event with the list it has then. No
// Option of the node: which of the two "none" would be, no caller could tell.
#[derive(Clone, Copy)]
pub enum Step {
    Joined(u32),
    Waits,
}

// The better of the best so far and one more entry, whose node is given.
pub fn closer_of(best: SpeedJoin, x: EstJoinPath, node: EstTime, speed: f64) -> SpeedJoin
    ensures { (nodes : ℕ → EstTime) → node ≡ nodes x.est_idx_next → result ≡ closer nodes speed best x }
{
    let speed_diff = floats::speed_gap(node.speed, speed);
    if (x.link_idx_match == 0) & (speed_diff < best.speed_diff_join) {
        return SpeedJoin {
            speed_diff_join: speed_diff,
            est_idx_join: x.est_idx_next,
        };
    }
    best
}

// "Of entries with m = 0 the first with the smallest gap, strictly below J": its gap and its node, or J and 0 if there
// is none. Document 01 names this form, with slices that are lent. An inner function, no entry for users: its caller
// must have seen to it that both slices have room for `nodes` nodes, at most 65,535, and that each entry names one of
// these.
#[tactic(auto, using(crate::proofs::Choosing::choosing_laws))]
pub fn closest_of(
    floats: &[f64],
    numbers: &[u32],
    nodes: usize,
    entries: &[EstJoinPath],
    join: f64,
    speed: f64,
) -> SpeedJoin
    requires room { Room floats.now numbers.now nodes }
    requires valid { Valid entries.now nodes }
    ensures { result ≡ closest (nodes_at_entry floats numbers) join speed entries.now }
{
    let mut best = SpeedJoin {
        speed_diff_join: join,
        est_idx_join: 0,
    };
    for x in entries {
        let node = net_node::load(floats, numbers, x.est_idx_next as usize);
        best = closer_of(best, *x, node, speed);
    }
    best
}

// From a node along the previous alternatives to the last of them.
#[tactic(auto, using(crate::proofs::Chains::following_start, crate::proofs::Chains::following_on))]
fn chain_end(nodes: &Nodes, start: u32) -> u32
    requires { start < nodes.now.count }
    ensures { result ≡ chain_end nodes.now.count (nodes_held nodes.now) start }
{
    let mut i = start;
    loop {
        let node = nodes.load(i);
        if node.idx_prev_alt == 0 {
            return i;
        }
        i = node.idx_prev_alt;
    }
}

// The last of n nodes is linked to the end of a chain through a new Fake, which lies between them. The end may be the
// last node itself.
fn join_at(floats: &mut [f64], numbers: &mut [u32], n: u32, end: u32, e: TimedEvent)
    requires end_lt_n { end < n }
    requires float_width_in_bounds { n * float_width + float_width ≤ length floats.old }
    requires number_width_in_bounds { n * number_width + number_width ≤ length numbers.old }
    ensures floats { floats.new ≡ (join_at (table_at_entry floats numbers) n end e).floats }
    ensures numbers { numbers.new ≡ (join_at (table_at_entry floats numbers) n end e).numbers }
{
    let node = net_node::load(floats, numbers, end as usize);
    let joined = EstTime {
        idx_prev_alt: n,
        ..node
    };
    net_node::store(floats, numbers, end as usize, joined);
    let last = n - 1;
    let fake = EstTime {
        idx_next: end,
        idx_prev: last,
        ..EstTime::BLANK
    };
    net_node::store(floats, numbers, n as usize, fake);
    let before = net_node::load(floats, numbers, last as usize);
    let linked = net_insertion::link_to(before, n, e);
    net_node::store(floats, numbers, last as usize, linked);
}

// The last of n nodes is linked to a target through a new Fake.
#[tactic(auto, using(crate::proofs::Stores::joined_stored, crate::proofs::Chains::chain_ends))]
fn perform_speed_join(
    floats: &mut [f64],
    numbers: &mut [u32],
    n: usize,
    places: usize,
    target: u32,
    est_time_add: TimedEvent,
)
    requires room { Room floats.old numbers.old places }
    requires n_lt_places { n < places }
    requires indexed { Indexed (node_at floats.old numbers.old) n }
    requires target_lt_n { target < n }
    ensures floats { floats.new ≡ (joined_table (table_at_entry floats numbers) n target
        est_time_add).floats }
    ensures numbers { numbers.new ≡ (joined_table (table_at_entry floats numbers) n target
        est_time_add).numbers }
{
    let nodes = Nodes {
        floats,
        numbers,
        count: n,
    };
    let end = chain_end(&nodes, target);
    join_at(floats, numbers, n as u32, end, est_time_add);
}

// Sets the mark of each node that a list names. The mark is a number, as the cells hold it and `marks` says it.
#[tactic(auto, using(crate::proofs::Marking::marking_laws))]
fn set_marks(cells: &mut [u32], w: Layout, list: &[EstJoinPath], mark: u32)
    requires cells_apart { CellsApart cells.old w }
    requires valid { Valid list.now w.places }
    ensures { cells.new ≡ marks w.nodes_at mark list.now cells.old }
{
    for x in list {
        cells[w.nodes_at + x.est_idx_next as usize * 8 + 1] = mark;
    }
}

// Appends the nodes of a link's Arrive that are not marked. The entries that were there stay.
#[tactic(auto, using(crate::proofs::Appending::appending_start))]
fn append_unmarked(
    cells: &[u32],
    w: Layout,
    link_idx: u32,
    list: &mut JoinPaths,
) -> Result<(), Refusal>
    requires cells_apart { CellsApart cells.now w }
    requires link_idx_lt_links { link_idx < w.links }
    requires ending { Ending cells.now w (get_or cells.now (first_at w link_idx) 0) }
    requires names_marked { NamesMarked cells.now w list.old.items }
    ensures list { AppendsChain cells.now w link_idx list result }
    ensures kept { take (length list.old.items) list.new.items ≡ list.old.items }
{
    let mut i = net_event_map::first_node(cells, w, link_idx);
    while i != 0 {
        let marked = cells[w.nodes_at + i as usize * 8 + 1] != 0;
        if !marked {
            let x = EstJoinPath {
                link_idx_match: link_idx,
                est_idx_next: i,
            };
            push_entry(list, x)?;
        }
        i = net_event_map::next_node(cells, w, i);
    }
    Ok(())
}

// Appends to a list all nodes of the event that it doesn't name, if the event is an Arrive.
#[tactic(auto, using(crate::proofs::Answers::append_none, net_stack::proofs::Arrives::arrive_eq))]
fn add_new_join_paths(
    cells: &mut [u32],
    w: Layout,
    event: LinkEvent,
    list: &mut JoinPaths,
) -> Result<(), Refusal>
    requires cells_apart { CellsApart cells.old w }
    requires real { Real event w.links }
    requires valid { Valid list.old.items w.places }
    requires map_walkable { MapWalkable cells.old w }
    ensures list { AppendsNodes cells.old w event list result }
    ensures cells { MapKept cells.old cells.new w }
{
    if event.est_type != EstType::Arrive {
        return Ok(());
    }
    let count = list.len();
    set_marks(cells, w, list, 1);
    let appended = append_unmarked(cells, w, event.link_idx, list);
    set_marks(cells, w, &list[..count], 0);
    appended
}

// The run joins a node, if there is a place for the Fake.
fn join_target(
    floats: &mut [f64],
    numbers: &mut [u32],
    n: usize,
    places: usize,
    target: u32,
    est_time_add: TimedEvent,
) -> Result<Step, Refusal>
    requires room { Room floats.old numbers.old places }
    requires indexed { Indexed (node_at floats.old numbers.old) n }
    requires target_lt_n { target < n }
    ensures answer { (list : List EstJoinPath) → StepAs (joins_if (ltb n places) target) list result }
    ensures table { SteppedInto (table_at_entry floats numbers) n est_time_add floats.new
        numbers.new result }
{
    if places <= n {
        return Err(Refusal::NoPlace);
    }
    perform_speed_join(floats, numbers, n, places, target, est_time_add);
    Ok(Step::Joined(target))
}

// The run goes on: what no entry names is appended to the rebuilt list, and the list is left in `joins`.
fn go_on(
    cells: &mut [u32],
    w: Layout,
    event: LinkEvent,
    rebuilt: &mut JoinPaths,
    joins: &mut JoinPaths,
) -> Result<Step, Refusal>
    requires cells_apart { CellsApart cells.old w }
    requires real { Real event w.links }
    requires valid { Valid rebuilt.old.items w.places }
    requires map_walkable { MapWalkable cells.old w }
    ensures answer { GoesOnWith cells.old w event rebuilt.old.items joins.new.items result }
    ensures cells { MapKept cells.old cells.new w }
{
    add_new_join_paths(cells, w, event, rebuilt)?;
    joins.clear();
    joins
        .try_extend_from_slice(rebuilt)
        .map_err(|_| Refusal::NoPlace)?;
    Ok(Step::Waits)
}

// One event of a run that has added since its pop: its list is rebuilt, and the run joins, or goes on with what is
// appended. The list is left in `joins`.
pub fn join_step(
    floats: &mut [f64],
    numbers: &mut [u32],
    n: usize,
    cells: &mut [u32],
    w: Layout,
    join: f64,
    joins: &mut JoinPaths,
    scratch: &mut RebuildScratch,
    est_time_add: TimedEvent,
) -> Result<Step, Refusal>
    requires room { Room floats.old numbers.old w.places }
    requires n_le_places { n ≤ w.places }
    requires some_nodes { 1 ≤ n }
    requires indexed { Indexed (node_at floats.old numbers.old) n }
    requires cells_apart { CellsApart cells.old w }
    requires mapped { Mapped cells.old w (node_at floats.old numbers.old) n }
    requires real { Real est_time_add.link_event w.links }
    requires valid { Valid joins.old.items n }
    ensures answer { StepAs
        (join_step (node_at floats.old numbers.old) n w.places join est_time_add joins.old.items)
        joins.new.items result }
    ensures table { SteppedInto (table_at_entry floats numbers) n est_time_add floats.new
        numbers.new result }
    ensures cells { cells.new ≡ cells.old }
{
    let event = est_time_add.link_event;
    let seen = net_event_map::contains(cells, w, event);
    let nodes = Nodes {
        floats,
        numbers,
        count: n,
    };
    net_strands::update_join_paths_space(
        &nodes,
        event,
        seen,
        joins,
        cells,
        w,
        &mut scratch.stack,
        &mut scratch.list,
    )?;
    let best = closest_of(floats, numbers, n, &scratch.list, join, est_time_add.speed);
    if best.speed_diff_join < join {
        return join_target(
            floats,
            numbers,
            n,
            w.places,
            best.est_idx_join,
            est_time_add,
        );
    }
    go_on(cells, w, event, &mut scratch.list, joins)
}
