// Insertion at a run's place that is lent and moved in place, as the source's `insert_est_time` has it. Contracts:
// specs/LentPlace.antt and net_insertion's specs/Insertion.antt.
#![tactic(auto)]

ghost use Rattle.std.specs.Prelude.{◌≡◌, ◌+◌, ◌*◌, ◌≤◌, ◌<◌, length};
ghost use Rattle.net_node.specs.Table.{node_at, Room, Indexed};
ghost use Rattle.net_insertion.specs.Insertion.{inserted, InsertedInto, flagged};
ghost use Rattle.net_node.specs.Lent.{table_at_entry};
ghost use Rattle.net_lent_place.specs.LentPlace.{place_after};

use net_insertion::{Insertion, Place};
use net_node::TimedEvent;
use refusals::Refusal;

// Where a run stands after an answer.
fn place_after(answer: Result<Insertion, Refusal>, old: Place) -> Place
    ensures { result ≡ place_after answer old }
{
    match answer {
        Ok(Insertion::Added { place, .. }) => place,
        Ok(Insertion::Moved(place)) => place,
        Err(_) => old,
    }
}

// Inserts an event at a run's place into a network of n nodes, and moves the place. A node whose cell is set ends a
// finished run. An inner function, no entry for users: its caller must have seen to it that
// - both slices have room for `places` nodes, at most 65,535, and n is no more than `places`;
// - each of the n nodes' four indices names one of the n, and an alternative that is not 0 a later one;
// - the place stands on one of the n;
// - `cells` has a cell for each of the n, every eighth from `ends_at` on.
pub fn insert_est_time(
    floats: &mut [f64],
    numbers: &mut [u32],
    n: usize,
    places: usize,
    cells: &[u32],
    ends_at: usize,
    join: f64,
    est_alt: &mut Place,
    est_insert: TimedEvent,
) -> Result<Insertion, Refusal>
    requires room { Room floats.old numbers.old places }
    requires n_le_places { n ≤ places }
    requires indexed { Indexed (node_at floats.old numbers.old) n }
    requires stands_inside { est_alt.old.idx_prev < n }
    requires ends_inside { ends_at + n * 8 ≤ length cells.now + 7 }
    ensures answer { result ≡ inserted (table_at_entry floats numbers) n places (flagged cells.now ends_at)
        join est_alt.old est_insert }
    ensures table { InsertedInto (table_at_entry floats numbers) n join est_alt.old est_insert
        floats.new numbers.new result }
    ensures place { est_alt.new ≡ place_after result est_alt.old }
{
    let old = *est_alt;
    let answer = net_insertion::insert_est_time(
        floats, numbers, n, places, cells, ends_at, join, old, est_insert,
    );
    *est_alt = place_after(answer, old);
    answer
}
