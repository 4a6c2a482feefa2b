// A run on its way: one event is joined or inserted, then all of a leg. Contracts: grow_rules' specs/Run.antt,
// specs/Held.antt.
#![tactic(auto)]

ghost use Rattle.std.specs.Prelude.{◌≡◌, ◌≤◌, ◌<◌, IfOk};
ghost use Rattle.event_walk.specs.Walk.{some_bad};
ghost use Rattle.net_event_map.specs.EventMap.{Real};
ghost use Rattle.net_node.specs.Lent.{table_at_entry, table_at_exit};
ghost use Rattle.grow_events.specs.Held.{Growing, Moving, SomePath, NotFewer, stopped_as, net_at_entry, net_at_exit};
ghost use Rattle.grow_events.specs.Held.{InsertsEvent, RunsEvent, RunsLeg, counts_added, counts_joined};

use event_walk::{Course, PassedPoints};
use net_event_map::Layout;
use net_insertion::{Insertion, Place};
use net_join_paths::JoinPaths;
use net_joins::{RebuildScratch, Step};
use net_node::TimedEvent;
use refusals::Refusal;

// What is counted of a network: its nodes, event nodes, split Fakes and joins; and the latest node at which a run has
// finished, or 0: so the cells that chain the ends hold it too, and an Option would only be made of it and back.
#[derive(Clone, Copy, Default)]
pub struct Counts {
    pub nodes: usize,
    pub added: usize,
    pub splits: usize,
    pub joined: usize,
    pub last_end: u32,
}

// The run that moves: its place, and whether it has added since its pop. The flag is no Option: the place stands
// whether or not the run has added. Functions take it beside the counts, which are the network's and outlive it.
#[derive(Clone, Copy)]
pub struct Mover {
    pub place: Place,
    pub has_split: bool,
}

// What becomes of a run at an event, or at all of a leg: it goes on, or it has ended by a join. The two cases have
// names: beside the counts, `None` for the mover would say that no run moves, and not that this one has ended.
#[derive(Clone, Copy)]
pub enum RunOutcome {
    On(Counts, Mover),
    Ended(Counts),
}

// The counts with one event node more, and a split's Fake. `split` is counted, and chooses no step.
fn with_added(c: Counts, node: u32, split: bool) -> Counts
    requires added_lt_65535 { c.added < 65535 }
    requires splits_lt_65535 { c.splits < 65535 }
    ensures { result ≡ counts_added c node split }
{
    Counts {
        nodes: node as usize + 1,
        added: c.added + 1,
        splits: c.splits + usize::from(split),
        ..c
    }
}

// Inserts an event at a run's place; a node that is added is put into the map of events. `w` and `join` are the
// plan's, which stands above this crate: a struct of both would be made there of its two fields, and taken apart at
// each call below.
pub fn insert_event(
    floats: &mut [f64],
    numbers: &mut [u32],
    cells: &mut [u32],
    w: Layout,
    join: f64,
    c: Counts,
    m: Mover,
    e: TimedEvent,
) -> Result<(Counts, Mover), Refusal>
    requires growing { Growing w floats.old numbers.old cells.old c }
    requires idx_prev_lt_nodes { m.place.idx_prev < c.nodes }
    requires real { Real e.link_event w.links }
    ensures outcome { InsertsEvent w join c m e (table_at_entry floats numbers) cells.old
        (table_at_exit floats numbers) cells.new result }
    ensures more { IfOk result (λ r. c.nodes ≤ r.0.nodes) }
{
    let inserted = net_insertion::insert_est_time(
        floats,
        numbers,
        c.nodes,
        w.places,
        cells,
        w.nodes_at + 2,
        join,
        m.place,
        e,
    )?;
    match inserted {
        Insertion::Moved(place) => Ok((c, Mover { place, ..m })),
        Insertion::Added { place, split } => {
            let event = e.link_event;
            net_event_map::insert(cells, w, place.idx_prev, event);
            let counts = with_added(c, place.idx_prev, split);
            let mover = Mover {
                place,
                has_split: true,
            };
            Ok((counts, mover))
        }
    }
}

// The counts with a join's Fake more.
fn with_joined(c: Counts) -> Counts
    requires nodes_lt_65535 { c.nodes < 65535 }
    requires joined_lt_65535 { c.joined < 65535 }
    ensures { result ≡ counts_joined c }
{
    Counts {
        nodes: c.nodes + 1,
        joined: c.joined + 1,
        ..c
    }
}

// One event of a run: "Only a run that has added since its pop joins." Its entries lie in `joins`.
pub fn run_event(
    floats: &mut [f64],
    numbers: &mut [u32],
    cells: &mut [u32],
    w: Layout,
    join: f64,
    joins: &mut JoinPaths,
    scratch: &mut RebuildScratch,
    c: Counts,
    m: Mover,
    e: TimedEvent,
) -> Result<RunOutcome, Refusal>
    requires moving { Moving w floats.old numbers.old cells.old joins.old.items c m }
    requires real { Real e.link_event w.links }
    ensures outcome { RunsEvent w join c m e (net_at_entry floats numbers cells joins)
        (net_at_exit floats numbers cells joins) result }
    ensures more { NotFewer c result }
{
    if !m.has_split {
        let (counts, mover) = insert_event(floats, numbers, cells, w, join, c, m, e)?;
        return Ok(RunOutcome::On(counts, mover));
    }
    let step = net_joins::join_step(floats, numbers, c.nodes, cells, w, join, joins, scratch, e)?;
    match step {
        Step::Joined(_) => Ok(RunOutcome::Ended(with_joined(c))),
        Step::Waits => {
            let (counts, mover) = insert_event(floats, numbers, cells, w, join, c, m, e)?;
            Ok(RunOutcome::On(counts, mover))
        }
    }
}

// What a leg gives whose run has stopped, or is refused, before its end: 11, if an event is bad that is left.
fn stopped(left: PassedPoints, became: Result<RunOutcome, Refusal>) -> Result<RunOutcome, Refusal>
    ensures { result ≡ stopped_as (some_bad left.entry) became }
{
    if grow_path::some_bad(left) {
        return Err(Refusal::BadEvent);
    }
    became
}

// The events of a leg whose samples don't reach the last point, one after the other, until the run ends. Row 11 goes
// before all that an event of the leg gives, so each is tested as it comes, and those that are left where the run
// stops.
pub fn run_events(
    course: &Course,
    floats: &mut [f64],
    numbers: &mut [u32],
    cells: &mut [u32],
    w: Layout,
    join: f64,
    joins: &mut JoinPaths,
    scratch: &mut RebuildScratch,
    c: Counts,
    m: Mover,
) -> Result<RunOutcome, Refusal>
    requires some_path { SomePath course.now.samples.now course.now.offsets.now cells.old w
        course.now.movement.points }
    requires moving { Moving w floats.old numbers.old cells.old joins.old.items c m }
    ensures outcome { RunsLeg course.now.samples.now course.now.offsets.now course.now.movement w join c m
        (net_at_entry floats numbers cells joins) (net_at_exit floats numbers cells joins) result }
    ensures more { NotFewer c result }
{
    let mut events = course.passed_points();
    let mut counts = c;
    let mut mover = m;
    while let Some(p) = events.next() {
        if p.is_bad() {
            return Err(Refusal::BadEvent);
        }
        let e = grow_path::event_at(cells, p);
        let became = run_event(
            floats, numbers, cells, w, join, joins, scratch, counts, mover, e,
        );
        // One pattern for both, `Ok(RunOutcome::On(..))`, was tried: its proof didn't close.
        let Ok(outcome) = became else {
            return stopped(events, became);
        };
        let RunOutcome::On(more, moved) = outcome else {
            return stopped(events, became);
        };
        counts = more;
        mover = moved;
    }
    Ok(RunOutcome::On(counts, mover))
}
