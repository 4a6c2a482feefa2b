// Where a network begins and ends: nodes 0 and 1, a run's finish, the end Fakes and the last node. Contracts:
// grow_rules' specs/Growth.antt, specs/Ends.antt.
#![tactic(auto)]

ghost use Rattle.std.specs.Prelude.{◌≡◌, ◌+◌, ◌*◌, ◌≤◌, ◌<◌, length};
ghost use Rattle.net_node.specs.Table.{Room, float_width, number_width};
ghost use Rattle.grow_rules.specs.Growth.{fake_node, leads_to_end, last_node};
ghost use Rattle.net_node.specs.Lent.{table_at_entry};
ghost use Rattle.grow_ends.specs.Ends.{SomeEnds, TailAs, FinishAs, MarkedAs, PushesEnds, first_two};

use net_insertion::Place;
use net_node::EstTime;
use refusals::Refusal;

// A Fake: its next, its previous and previous alternative, and a held time.
#[tactic(auto, unfolding(grow_rules::specs::Growth::fake_node))]
fn fake_node(next: u32, prev: u32, prev_alt: u32, time: f64) -> EstTime
    ensures { result ≡ fake_node next prev prev_alt time }
{
    EstTime {
        time_to_next: time,
        idx_next: next,
        idx_prev: prev,
        idx_prev_alt: prev_alt,
        ..EstTime::BLANK
    }
}

// Node 0 leads to node 1, the start, which holds the departure.
pub fn first_nodes(floats: &mut [f64], numbers: &mut [u32], departure: f64)
    requires float_width_in_bounds { 2 * float_width ≤ length floats.old }
    requires number_width_in_bounds { 2 * number_width ≤ length numbers.old }
    ensures floats { floats.new ≡ (first_two (table_at_entry floats numbers) departure).floats }
    ensures numbers { numbers.new ≡ (first_two (table_at_entry floats numbers) departure).numbers }
{
    let first = fake_node(1, 0, 0, 0.0);
    net_node::store(floats, numbers, 0, first);
    let start = fake_node(0, 0, 0, departure);
    net_node::store(floats, numbers, 1, start);
}

// A run finishes at its place, the last of n nodes, unless row 13 holds. The latest end before is `last_end`, or 0.
#[tactic(auto, using(crate::proofs::Finishing::finish_laws))]
pub fn finish(
    floats: &[f64],
    numbers: &[u32],
    cells: &mut [u32],
    ends_at: usize,
    n: usize,
    last_end: u32,
    place: Place,
) -> Result<(), Refusal>
    requires room { Room floats.now numbers.now n }
    requires n_nonzero { 0 < n }
    requires n_in_bounds { ends_at + n * 8 ≤ length cells.old + 7 }
    requires last_end_lt_n { last_end < n }
    ensures answer { FinishAs floats.now numbers.now cells.old ends_at n place
        result }
    ensures cells { MarkedAs cells.old cells.new ends_at last_end place.idx_prev
        result }
{
    let last = n - 1;
    if place.idx_prev as usize != last {
        return Err(Refusal::BadEnd);
    }
    let node = net_node::load(floats, numbers, last);
    if node.idx_next != 0 {
        return Err(Refusal::BadEnd);
    }
    let at = ends_at + last * 8;
    if 0 < cells[at] {
        return Err(Refusal::BadEnd);
    }
    cells[at] = last_end + 1;
    Ok(())
}

// A finished run's event leads to its end Fake.
#[tactic(auto, unfolding(grow_rules::specs::Growth::leads_to_end))]
fn lead_to_end(node: EstTime, next: u32) -> EstTime
    ensures { result ≡ leads_to_end node next }
{
    EstTime {
        time_to_next: 0.0,
        dist_to_next: 0.0,
        idx_next: next,
        ..node
    }
}

// "End Fakes are pushed for the ends in reverse": the latest is `last_end`, or 0. How many nodes there are then; row
// 12: one doesn't fit. The loop goes along the chain of ends in the cells, and counts no index. The room of the ends'
// marks is asked of the cells as they are lent: the map's and the runs' stand in the same units.
pub fn end_fakes(
    floats: &mut [f64],
    numbers: &mut [u32],
    n: usize,
    places: usize,
    cells: &[u32],
    ends_at: usize,
    last_end: u32,
) -> Result<usize, Refusal>
    requires room { Room floats.old numbers.old places }
    requires n_le_places { n ≤ places }
    requires n_in_bounds { ends_at + n * 8 ≤ length cells.now + 7 }
    requires some_ends { SomeEnds cells.now ends_at last_end n }
    ensures { PushesEnds cells.now ends_at last_end places
        (record { table = table_at_entry floats numbers; nodes = n }) floats.new numbers.new result }
{
    let mut i = last_end;
    let mut alt: u32 = 0;
    let mut k = n;
    while i != 0 {
        if places <= k {
            return Err(Refusal::NoPlace);
        }
        let fake = fake_node(k as u32 + 1, i, alt, 0.0);
        net_node::store(floats, numbers, k, fake);
        let node = net_node::load(floats, numbers, i as usize);
        let led = lead_to_end(node, k as u32);
        net_node::store(floats, numbers, i as usize, led);
        alt = k as u32;
        k += 1;
        i = cells[ends_at + i as usize * 8] - 1;
    }
    Ok(k)
}

// The last node, the end. How many nodes there are then; row 12: it doesn't fit.
#[tactic(auto, using(crate::proofs::Fakes::last_full, crate::proofs::Fakes::last_stored))]
pub fn last_node(
    floats: &mut [f64],
    numbers: &mut [u32],
    n: usize,
    places: usize,
) -> Result<usize, Refusal>
    requires room { Room floats.old numbers.old places }
    requires n_nonzero { 0 < n }
    ensures { TailAs (last_node places (record { table = table_at_entry floats numbers; nodes = n }))
        floats.new numbers.new result }
{
    if places <= n {
        return Err(Refusal::NoPlace);
    }
    let last = fake_node(0, n as u32 - 1, 0, 0.0);
    net_node::store(floats, numbers, n, last);
    Ok(n + 1)
}
