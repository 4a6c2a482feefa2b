// The runs that wait, in the work space. Contracts: specs/Held.antt.
#![tactic(auto)]

ghost use Rattle.std.specs.Prelude.{◌+◌, ◌*◌, ◌≤◌, ◌<◌, length};
ghost use Rattle.grow_waiting.specs.Held.{waiting_of, SavedElsewhere, SomeWaits};
ghost use Rattle.grow_waiting.specs.Steps.{EntriesPushed, EntriesCopied, SavesOnTop, TakesUp};
ghost use Rattle.grow_waiting.specs.Steps.{stacks_at_entry, stacks_at_exit, stacks_seen};

use net_insertion::Place;
use net_join_paths::{EstJoinPath, JoinPaths};

mod rooms;

pub use rooms::Rooms;

// A run that is taken up again: its place, its leg, how many legs it has taken, and the leg of the run saved before it,
// 0 for none as the cells hold it.
#[derive(Clone, Copy)]
pub struct Popped {
    pub place: Place,
    pub leg: u32,
    pub depth: usize,
    pub below: u32,
}

// Puts the entries of a list on the stack in the nodes' units, from `used` on.
fn push_entries(cells: &mut [u32], w: Rooms, used: usize, joins: &[EstJoinPath])
    requires places_in_bounds { w.nodes_at + w.places * 8 ≤ length cells.old }
    requires entries_fit { used + length joins.now ≤ w.places }
    ensures { EntriesPushed cells.old cells.new w used joins.now }
{
    for (k, x) in joins.iter().enumerate() {
        let at = w.nodes_at + (used + k) * 8;
        cells[at + 3] = x.link_idx_match;
        cells[at + 4] = x.est_idx_next;
    }
}

// Copies the `count` entries from `from` on of that stack into a list, and nothing else. The cells hold them as two
// numbers of a node's unit, among others, so there is no slice of entries to clone.
fn copy_entries(cells: &[u32], w: Rooms, from: usize, count: usize, joins: &mut JoinPaths)
    requires places_in_bounds { w.nodes_at + w.places * 8 ≤ length cells.now }
    requires entries_fit { from + count ≤ w.places }
    requires count_le_1024 { count ≤ 1024 }
    ensures { EntriesCopied cells.now w from count joins.new.items }
{
    joins.clear();
    for k in from..from + count {
        let at = w.nodes_at + k * 8;
        joins.push(EstJoinPath {
            link_idx_match: cells[at + 3],
            est_idx_next: cells[at + 4],
        });
    }
}

// Saves a run on top of those that wait, whose top is `top` and which have `used` entries. No struct holds them: their
// list is the cells, as nothing is allocated, and both numbers stand in the caller's state.
// `depth ≤ 65535` stands here and where a movement is made: how many legs a run has taken is its own number.
pub fn save(
    cells: &mut [u32],
    reals: &mut [f64],
    w: Rooms,
    top: u32,
    used: usize,
    place: Place,
    leg: u32,
    depth: usize,
    joins: &[EstJoinPath],
)
    requires places_in_bounds { w.nodes_at + w.places * 8 ≤ length cells.old }
    requires pairs_in_bounds { w.pairs_at + w.legs * 2 + 2 ≤ length reals.old }
    requires leg_le_legs { leg ≤ w.legs }
    requires leg_nonzero { 0 < leg }
    requires legs_le_65535 { w.legs ≤ 65535 }
    requires depth_le_65535 { depth ≤ 65535 }
    requires entries_fit { used + length joins.now ≤ w.places }
    requires places_le_65535 { w.places ≤ 65535 }
    ensures elsewhere { SavedElsewhere cells.old cells.new reals.old
        reals.new w }
    ensures saved { SavesOnTop w top used (waiting_of place leg depth joins.now)
        (stacks_at_entry cells reals) (stacks_at_exit cells reals) }
{
    let at = leg as usize * 8;
    cells[at + 4] = place.idx_prev;
    cells[at + 5] = depth as u32;
    cells[at + 6] = joins.len() as u32;
    cells[at + 7] = top;
    let pair = w.pairs_at + leg as usize * 2;
    reals[pair] = place.time_to_next;
    reals[pair + 1] = place.dist_to_next;
    push_entries(cells, w, used, joins);
}

// Takes the run on top up again; its entries are copied into `joins`.
pub fn pop(
    cells: &[u32],
    reals: &[f64],
    w: Rooms,
    top: u32,
    used: usize,
    joins: &mut JoinPaths,
) -> Popped
    requires places_in_bounds { w.nodes_at + w.places * 8 ≤ length cells.now }
    requires pairs_in_bounds { w.pairs_at + w.legs * 2 + 2 ≤ length reals.now }
    requires some_waits { SomeWaits cells.now reals.now w top used }
    ensures popped { TakesUp w top used (stacks_seen cells reals) joins.new.items result }
{
    let at = top as usize * 8;
    let pair = w.pairs_at + top as usize * 2;
    let count = cells[at + 6] as usize;
    copy_entries(cells, w, used - count, count, joins);
    Popped {
        place: Place {
            time_to_next: reals[pair],
            dist_to_next: reals[pair + 1],
            idx_prev: cells[at + 4],
        },
        leg: top,
        depth: cells[at + 5] as usize,
        below: cells[at + 7],
    }
}
