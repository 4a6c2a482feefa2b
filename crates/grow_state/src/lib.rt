// What growth keeps between two legs. Contracts: specs/Held.antt.
#![tactic(auto)]

ghost use Rattle.std.specs.Prelude.{◌<◌};
ghost use Rattle.grow_state.specs.Held.{SomeDrive, SameDrive, idle, with_front};

use grow_events::{Counts, Mover};
use grow_waiting::Rooms;
use net_event_map::Layout;
use net_join_paths::JoinPaths;

mod planned_book;

pub use planned_book::PlannedBook;

// What growth goes by: where the work space has what, and the three floats at the book's head.
#[derive(Clone, Copy)]
pub struct Plan {
    pub w: Layout,
    pub r: Rooms,
    pub join: f64,
    pub departure: f64,
    pub length: f64,
}

// The run at the front: the leg that it takes next, and how many legs it has taken. Functions take it beside the rest:
// each of the two changes alone, so a struct of both would be taken apart and made anew at every step.
#[derive(Clone, Copy)]
pub struct Front {
    pub mover: Mover,
    pub leg: u32,
    pub depth: usize,
}

// All but the run at the front: the network's counts, the leg of the run that was saved last, and how many join entries
// wait. The leg is 0 if no run waits: so the cells hold it too, and an Option would only be made of it and back.
#[derive(Clone, Copy)]
pub struct Rest {
    pub counts: Counts,
    pub top: u32,
    pub used: usize,
}

// How far growth has come: the run at the front, if one moves, and the rest.
#[derive(Clone, Copy)]
pub struct State {
    pub rest: Rest,
    pub front: Option<Front>,
}

// Takes up the run that was saved last, where none is at the front: the rest then, and the run.
pub fn take_up(
    reals: &[f64],
    cells: &[u32],
    joins: &mut JoinPaths,
    p: Plan,
    g: Rest,
) -> (Rest, Front)
    requires some_drive { SomeDrive p reals.now cells.now joins.old.items (idle g) }
    requires top_nonzero { 0 < g.top }
    ensures { SameDrive p reals.now cells.now joins.old.items joins.new.items
        (idle g) (with_front result.0 result.1) }
{
    // No `From`: a run that was popped is the front's but for its `below`, which is the rest's.
    let popped = grow_waiting::pop(cells, reals, p.r, g.top, g.used, joins);
    let front = Front {
        mover: Mover {
            place: popped.place,
            has_split: false,
        },
        leg: popped.leg,
        depth: popped.depth,
    };
    let rest = Rest {
        top: popped.below,
        used: g.used - joins.len(),
        ..g
    };
    (rest, front)
}
