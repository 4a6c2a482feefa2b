// The kept origins of a book, inserted at the start of its network: each one's events, then its run, which waits.
// Contracts: grow_rules' specs/Growth.antt, specs/Origins.antt.
#![tactic(auto)]

ghost use Rattle.std.specs.Prelude.{◌≡◌, false, ◌≢◌, List, [], ℕ, ◌+◌, ◌*◌, ◌≤◌, ◌<◌, length, IfOk};
ghost use Rattle.net_node.specs.Table.{node_at};
ghost use Rattle.book_format.specs.Format.{links, origins, legs, origin_link};
ghost use Rattle.book_format.specs.Rows.{row7};
ghost use Rattle.book_options.specs.Options.{kept_origins};
ghost use Rattle.grow_events.specs.Held.{Growing};
ghost use Rattle.net_join_paths.specs.declared.EstJoinPath.{EstJoinPath};
ghost use Rattle.grow_state.specs.Held.{PlanIn, RealsRoom, lists};
ghost use Rattle.net_node.specs.Lent.{table_at_entry, table_at_exit};
ghost use Rattle.grow_waiting.specs.Steps.{stacks_at_entry, stacks_at_exit};
ghost use Rattle.grow_origins.specs.Origins.{start_state, LeadsFrom, OnlyStart, SomeOrigin, SomeOrigins};
ghost use Rattle.grow_origins.specs.Origins.{SomeOriginInserted, event_at_rest, mover_at, InsertsOrigin};
ghost use Rattle.net_insertion.specs.Insertion.{table_of};
ghost use Rattle.grow_origins.specs.Origins.{SavesOrigin, GrowsOrigin, GrowsOrigins};

use book_format::ReadableBook;
use grow_events::{Counts, Mover};
use grow_state::{Plan, Rest};
use grow_waiting::Rooms;
use net_event_map::Layout;
use net_insertion::Place;
use net_node::{EstType, LinkEvent, TimedEvent};
use refusals::Refusal;

mod starting_book;

pub use starting_book::StartingBook;

// What growth goes by. The legs' units of cells stand first, then the nodes', then the links'; the path's points stand
// first in the reals, then the pairs of the runs that wait.
#[tactic(auto, using(crate::proofs::Planning::number_laws))]
pub fn plan_of(book: &ReadableBook, places: usize) -> Plan
    requires row7 { row7 book.now ≡ false }
    requires places_le_65535 { places ≤ 65535 }
    ensures plan { (reals : ℕ) → legs book.now * 3 + 4 ≤ reals
        → PlanIn book.now result reals }
    ensures places { result.w.places ≡ places }
    ensures links { result.w.links_at ≡ (legs book.now + 1) * 8 + places * 8 }
{
    let rows = book.book();
    // The plan says that the bytes are just the book's.
    let _ = rows.bytes();
    let head = rows.head_patterns();
    let legs = rows.legs();
    let nodes_at = (legs + 1) * 8;
    let w = Layout {
        links_at: nodes_at + places * 8,
        nodes_at,
        links: rows.links(),
        places,
    };
    let r = Rooms {
        nodes_at,
        pairs_at: legs + 2,
        legs,
        places,
    };
    Plan {
        w,
        r,
        join: f64::from_bits(head.join),
        departure: f64::from_bits(head.departure),
        length: f64::from_bits(head.length),
    }
}

// An origin's event, at the departure and at rest.
fn origin_event(departure: f64, link_idx: u32, est_type: EstType, offset: f64) -> TimedEvent
    ensures { result ≡ event_at_rest departure link_idx est_type offset }
{
    let link_event = LinkEvent { link_idx, est_type };
    TimedEvent {
        time: departure,
        offset,
        speed: 0.0,
        link_event,
    }
}

// A run at the start, or at an alternative of it, with no join entries.
fn origin_run(departure: f64, idx_prev: u32) -> Mover
    ensures { result ≡ mover_at departure idx_prev }
{
    Mover {
        place: Place {
            time_to_next: departure,
            dist_to_next: 0.0,
            idx_prev,
        },
        has_split: false,
    }
}

// Nodes 0 and 1 and no run.
#[tactic(auto, unfolding(crate::specs::Origins::start_state))]
pub fn first_state() -> Rest
    ensures { result ≡ start_state }
{
    let counts = Counts {
        nodes: 2,
        ..Counts::default()
    };
    Rest {
        counts,
        top: 0,
        used: 0,
    }
}

// An origin's Arrive at offset 0 and its Clear at the train's length. The Arrive is sought from the start's last
// alternative on: those before it lead to other links.
fn origin_events(
    floats: &mut [f64],
    numbers: &mut [u32],
    cells: &mut [u32],
    p: Plan,
    c: Counts,
    link_idx: u32,
    last: u32,
) -> Result<(Counts, Mover), Refusal>
    requires growing { Growing p.w floats.old numbers.old cells.old c }
    requires link_idx_lt_links { link_idx < p.w.links }
    requires leads_from { LeadsFrom (table_of floats.old numbers.old) c.nodes last link_idx }
    ensures answer { InsertsOrigin p c link_idx (table_at_entry floats numbers) cells.old
        (table_at_exit floats numbers) cells.new result }
    ensures more { IfOk result (λ r. c.nodes ≤ r.0.nodes) }
{
    let w = p.w;
    let run = origin_run(p.departure, last);
    let arrive = origin_event(p.departure, link_idx, EstType::Arrive, 0.0);
    let (counts, mover) = grow_events::insert_event(
        floats, numbers, cells, w, p.join, c, run, arrive,
    )?;
    // The end's point is the origin's offset and the length, as the source adds them.
    let clear = origin_event(p.departure, link_idx, EstType::Clear, 0.0 + p.length);
    grow_events::insert_event(floats, numbers, cells, w, p.join, counts, mover, clear)
}

// Saves an origin's run, which has no join entries, and whose leg is sought "after its Clear is added".
fn save_origin(
    p: &StartingBook,
    reals: &mut [f64],
    cells: &mut [u32],
    g: Rest,
    place: Place,
    link_idx: u32,
) -> Result<Rest, Refusal>
    requires reals_room { RealsRoom p.now.planned.book.now reals.old }
    requires some_origin_inserted { SomeOriginInserted p.now.planned.book.now p.now.planned.plan reals.old cells.old
        [] g place link_idx }
    requires link_idx_lt_links { link_idx < links p.now.planned.book.now }
    ensures { SavesOrigin p.now.planned.book.now p.now.planned.plan g place link_idx (stacks_at_entry cells reals)
        (stacks_at_exit cells reals) [] result }
{
    let leg = book_legs::take_start(p.planned.book.book(), cells, p.planned.marks, link_idx)?;
    let r = p.planned.plan.r;
    grow_waiting::save(cells, reals, r, g.top, g.used, place, leg.number, 0, &[]);
    Ok(Rest {
        top: leg.number,
        ..g
    })
}

// One kept origin: its events, then its leg.
fn origin(
    p: &StartingBook,
    floats: &mut [f64],
    numbers: &mut [u32],
    reals: &mut [f64],
    cells: &mut [u32],
    g: Rest,
    idx: usize,
    last: u32,
) -> Result<Rest, Refusal>
    requires reals_room { RealsRoom p.now.planned.book.now reals.old }
    requires idx_lt_origins { idx < origins p.now.planned.book.now }
    requires some_origin { SomeOrigin p.now.planned.book.now p.now.planned.plan
        (lists floats.old numbers.old reals.old cells.old []) idx g }
    requires leads_from { LeadsFrom (table_of floats.old numbers.old) g.counts.nodes last
        (origin_link p.now.planned.book.now idx) }
    ensures { GrowsOrigin p.now.planned.book.now p.now.planned.plan g idx
        (lists floats.old numbers.old reals.old cells.old [])
        (lists floats.new numbers.new reals.new cells.new []) result }
{
    let plan = p.planned.plan;
    let at = p.planned.book.valid().origin_at(idx);
    let (counts, mover) = origin_events(floats, numbers, cells, plan, g.counts, at.link_idx, last)?;
    let inserted = Rest { counts, ..g };
    save_origin(p, reals, cells, inserted, mover.place, at.link_idx)
}

// The start's last alternative after an origin, by how many nodes there were before it: the first one's Arrive is
// behind the start, each later one's behind a Fake, the first node that is new.
fn last_after(before: usize) -> u32
    requires { before ≤ 65535 }
    ensures first { before ≡ 2 → result ≡ 1 }
    ensures later { before ≢ 2 → result ≡ before }
{
    if before == 2 {
        return 1;
    }
    before as u32
}

// All kept origins, in the order in which they stand in the marks. Their runs have no join entries, and no run is at
// the front: whatever join entries a caller has, it has them afterwards.
pub fn origins(
    p: &StartingBook,
    floats: &mut [f64],
    numbers: &mut [u32],
    reals: &mut [f64],
    cells: &mut [u32],
    g: Rest,
) -> Result<Rest, Refusal>
    requires reals_room { RealsRoom p.now.planned.book.now reals.old }
    requires some_origins { SomeOrigins p.now.planned.book.now p.now.planned.plan
        (lists floats.old numbers.old reals.old cells.old []) (kept_origins p.now.planned.book.now) g }
    requires only_start { OnlyStart (node_at floats.old numbers.old) g.counts.nodes }
    ensures { (joins : List EstJoinPath) → GrowsOrigins p.now.planned.book.now p.now.planned.plan g
        (lists floats.old numbers.old reals.old cells.old joins)
        (lists floats.new numbers.new reals.new cells.new joins) result }
{
    let marks = p.planned.marks;
    let rows = p.planned.book.book();
    let rows_at = 2 * rows.links() + rows.destinations();
    let mut rest = g;
    let mut last = 1;
    for k in 0..p.kept {
        let idx = marks[rows_at + k] as usize;
        let before = rest.counts.nodes;
        rest = origin(p, floats, numbers, reals, cells, rest, idx, last)?;
        last = last_after(before);
    }
    Ok(rest)
}
