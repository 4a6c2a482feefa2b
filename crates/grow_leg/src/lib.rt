// One leg of the run at the front: its events, then a finish or the way on. Contracts: grow_rules' specs/Growth.antt,
// grow_state's specs/Held.antt, specs/OneLeg.antt.
#![tactic(auto)]

ghost use Rattle.std.specs.Prelude.{◌≡◌, ◌%◌, ◌<◌, eqb, length, get_or};
ghost use Rattle.book_format.specs.Format.{links};
ghost use Rattle.grow_path.specs.Path.{link_of};
ghost use Rattle.grow_rules.specs.Growth.{is_destination};
ghost use Rattle.grow_events.specs.Held.{NotFewer};
ghost use Rattle.grow_state.specs.Held.{RealsRoom, Driving, lists_at_entry, lists_at_exit, lists, with_front};
ghost use Rattle.net_node.specs.Lent.{table_seen};
ghost use Rattle.grow_waiting.specs.Steps.{stacks_at_entry, stacks_at_exit};
ghost use Rattle.grow_leg.specs.OneLeg.{SomeFinish, SomeLeg, SomeEnding, SomeWay, SomeGoing, ways_behind};
ghost use Rattle.grow_leg.specs.OneLeg.{lists_saved};
ghost use Rattle.grow_leg.specs.OneLeg.{FinishesRun, GoesOver, SavesOver, GoesBehind, EndsLeg};
ghost use Rattle.grow_leg.specs.OneLeg.{WalksLeg, TakesLeg};

use book_format::Book;
use event_walk::Course;
use grow_events::{Counts, RunOutcome};
use grow_state::{Front, Plan, PlannedBook, Rest, State};
use net_join_paths::JoinPaths;
use net_joins::RebuildScratch;
use refusals::Refusal;

// The links over which a run can go on. Of two the alternative is saved.
#[derive(Clone, Copy)]
pub enum Ways {
    One(u32),
    Both(u32, u32),
}

// Whether a link is a destination.
#[tactic(auto, using(crate::proofs::Choosing::destination_laws))]
fn is_destination(book: &Book, link_idx: u32) -> bool
    ensures { result ≡ is_destination book.now link_idx }
{
    for i in 0..book.destinations() {
        if book.destination_link(i) == link_idx {
            return true;
        }
    }
    false
}

// Whether a link leads to a destination.
fn leads_on(marks: &[u32], link_idx: u32) -> bool
    requires { link_idx < length marks.now }
    ensures { result ≡ eqb (get_or marks.now link_idx 0 % 2) 1 }
{
    marks[link_idx as usize] % 2 == 1
}

// The links over which a run goes on behind a link. Row 9: there are none.
fn ways_behind(p: &PlannedBook, link_idx: u32) -> Result<Ways, Refusal>
    requires { link_idx < links p.now.book.now }
    ensures { result ≡ ways_behind p.now.book.now link_idx }
{
    let link = p.book.valid().link_at(link_idx as usize);
    if link.idx_next == 0 {
        return Err(Refusal::NoWayOn);
    }
    let by_next = leads_on(p.marks, link.idx_next);
    let by_alt = leads_on(p.marks, link.idx_next_alt);
    match (by_next, by_alt) {
        (true, true) => Ok(Ways::Both(link.idx_next, link.idx_next_alt)),
        (true, false) => Ok(Ways::One(link.idx_next)),
        (false, true) => Ok(Ways::One(link.idx_next_alt)),
        (false, false) => Err(Refusal::NoWayOn),
    }
}

// The run at the front finishes, unless row 13 holds.
fn finish_run(
    floats: &[f64],
    numbers: &[u32],
    cells: &mut [u32],
    p: Plan,
    g: Rest,
    front: Front,
) -> Result<State, Refusal>
    requires { SomeFinish p floats.now numbers.now cells.old g front }
    ensures { FinishesRun p g front (table_seen floats numbers) cells.old cells.new result }
{
    let counts = g.counts;
    let place = front.mover.place;
    grow_ends::finish(
        floats,
        numbers,
        cells,
        p.w.nodes_at + 2,
        counts.nodes,
        counts.last_end,
        place,
    )?;
    let ended = Counts {
        last_end: place.idx_prev,
        ..counts
    };
    Ok(State {
        rest: Rest { counts: ended, ..g },
        front: None,
    })
}

// The run at the front goes on over a link: "The leg is found or the book is refused with 10".
fn on_over(
    p: &PlannedBook,
    cells: &[u32],
    g: Rest,
    front: Front,
    link_idx: u32,
) -> Result<State, Refusal>
    requires { SomeLeg p.now.book.now cells.now p.now.plan g front }
    ensures { GoesOver p.now.book.now p.now.plan g front cells.now link_idx result }
{
    let leg = book_legs::take_leg(p.book.book(), cells, front.leg, link_idx)?;
    let on = Front {
        leg: leg.number,
        depth: front.depth + 1,
        ..front
    };
    Ok(State {
        rest: g,
        front: Some(on),
    })
}

// The run at the front goes on over one link, and a copy of it, which has not added, is saved to go on over another.
// Row 12: the entries of all runs that wait, and of the copy. The run at the front doesn't wait.
fn save_over(
    p: &PlannedBook,
    reals: &mut [f64],
    cells: &mut [u32],
    joins: &JoinPaths,
    g: Rest,
    front: Front,
    link_idx: u32,
) -> Result<Rest, Refusal>
    requires reals_room { RealsRoom p.now.book.now reals.old }
    requires some_ending { SomeEnding p.now.book.now p.now.plan reals.old cells.old joins.now.items g front }
    ensures { SavesOver p.now.book.now p.now.plan g front link_idx (stacks_at_entry cells reals)
        (stacks_at_exit cells reals) joins.now.items result }
{
    let r = p.plan.r;
    let leg = book_legs::take_leg(p.book.book(), cells, front.leg, link_idx)?;
    let used = g.used + joins.len();
    if r.places < used {
        return Err(Refusal::NoPlace);
    }
    grow_waiting::save(
        cells,
        reals,
        r,
        g.top,
        g.used,
        front.mover.place,
        leg.number,
        front.depth + 1,
        joins,
    );
    Ok(Rest {
        top: leg.number,
        used,
        ..g
    })
}

// The run at the front has done its leg and goes on.
fn go_on(
    p: &PlannedBook,
    reals: &mut [f64],
    cells: &mut [u32],
    joins: &JoinPaths,
    g: Rest,
    front: Front,
    link_idx: u32,
) -> Result<State, Refusal>
    requires reals_room { RealsRoom p.now.book.now reals.old }
    requires some_going { SomeGoing p.now.book.now p.now.plan reals.old cells.old joins.now.items g front }
    requires leg_link { link_idx ≡ link_of p.now.book.now front.leg }
    ensures { GoesBehind p.now.book.now p.now.plan g front (stacks_at_entry cells reals)
        (stacks_at_exit cells reals) joins.now.items result }
{
    let ways = ways_behind(p, link_idx)?;
    match ways {
        Ways::One(next) => on_over(p, cells, g, front, next),
        Ways::Both(next, alt) => {
            let rest = save_over(p, reals, cells, joins, g, front, alt)?;
            on_over(p, cells, rest, front, next)
        }
    }
}

// What becomes of the run at the front, which has done its leg: "A run finishes in the leg whose link is a destination,
// never in its first leg."
fn end_leg(
    p: &PlannedBook,
    floats: &[f64],
    numbers: &[u32],
    reals: &mut [f64],
    cells: &mut [u32],
    joins: &JoinPaths,
    g: Rest,
    front: Front,
) -> Result<State, Refusal>
    requires reals_room { RealsRoom p.now.book.now reals.old }
    requires some_way { SomeWay p.now.book.now p.now.plan
        (lists floats.now numbers.now reals.old cells.old joins.now.items) g front }
    ensures { EndsLeg p.now.book.now p.now.plan g front
        (lists floats.now numbers.now reals.old cells.old joins.now.items)
        (lists_saved floats numbers reals cells joins) result }
{
    let rows = p.book.book();
    let leg = rows.leg_at(front.leg as usize - 1);
    let here = is_destination(rows, leg.link_idx);
    if here & (0 < leg.parent) {
        return finish_run(floats, numbers, cells, p.plan, g, front);
    }
    go_on(p, reals, cells, joins, g, front, leg.link_idx)
}

// The events of the leg of the run at the front, behind its path: one after the other, unless row 11 refuses them.
fn walk_leg(
    p: &PlannedBook,
    floats: &mut [f64],
    numbers: &mut [u32],
    reals: &mut [f64],
    cells: &mut [u32],
    joins: &mut JoinPaths,
    scratch: &mut RebuildScratch,
    g: Rest,
    front: Front,
) -> Result<RunOutcome, Refusal>
    requires reals_room { RealsRoom p.now.book.now reals.old }
    requires driving { Driving p.now.book.now p.now.plan
        (lists floats.old numbers.old reals.old cells.old joins.old.items) (with_front g front) }
    ensures walked { WalksLeg p.now.book.now p.now.plan g front (lists_at_entry floats numbers reals cells joins)
        (lists_at_exit floats numbers reals cells joins) result }
    ensures more { NotFewer g.counts result }
{
    let plan = p.plan;
    let rows = p.book.book();
    let leg = rows.leg_at(front.leg as usize - 1);
    let taken = book_legs::leg_samples(cells, front.leg);
    grow_path::extend_path(p.book, reals, cells, front.depth, leg.link_idx);
    let samples = rows.bytes();
    let movement = grow_path::movement_of(rows, taken, front.depth + 1, plan.length);
    if event_walk::reaches_last(samples, reals, movement) {
        return Err(Refusal::BadEvent);
    }
    let course = Course {
        samples,
        offsets: reals,
        movement,
    };
    grow_events::run_events(
        &course,
        floats,
        numbers,
        cells,
        plan.w,
        plan.join,
        joins,
        scratch,
        g.counts,
        front.mover,
    )
}

// The run at the front takes its leg.
pub fn turn(
    p: &PlannedBook,
    floats: &mut [f64],
    numbers: &mut [u32],
    reals: &mut [f64],
    cells: &mut [u32],
    joins: &mut JoinPaths,
    scratch: &mut RebuildScratch,
    g: Rest,
    front: Front,
) -> Result<State, Refusal>
    requires reals_room { RealsRoom p.now.book.now reals.old }
    requires driving { Driving p.now.book.now p.now.plan
        (lists floats.old numbers.old reals.old cells.old joins.old.items) (with_front g front) }
    ensures { TakesLeg p.now.book.now p.now.plan g front (lists_at_entry floats numbers reals cells joins)
        (lists_at_exit floats numbers reals cells joins) result }
{
    let became = walk_leg(p, floats, numbers, reals, cells, joins, scratch, g, front)?;
    match became {
        RunOutcome::Ended(counts) => Ok(State {
            rest: Rest { counts, ..g },
            front: None,
        }),
        RunOutcome::On(counts, mover) => {
            let rest = Rest { counts, ..g };
            let moved = Front { mover, ..front };
            end_leg(p, floats, numbers, reals, cells, joins, rest, moved)
        }
    }
}
