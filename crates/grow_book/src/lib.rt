// Growth of a book's network: its origins, all runs, the ends. Contracts: grow_rules' specs/Growth.antt,
// specs/Answers.antt.
#![tactic(auto)]

ghost use Rattle.std.specs.Prelude.{ℕ, ◌+◌, ◌*◌, ◌≤◌, length};
ghost use Rattle.net_node.specs.Left.{places_of};
ghost use Rattle.net_node.specs.Table.{node_at};
ghost use Rattle.book_format.specs.Format.{links, legs};
ghost use Rattle.book_options.specs.Options.{search_room};
ghost use Rattle.book_reader.specs.Reader.{Ready};
ghost use Rattle.grow_rules.specs.Growth.{grow};
ghost use Rattle.grow_state.specs.Held.{RealsRoom, SomeDrive, lists_at_entry, lists_at_exit, lists};
ghost use Rattle.grow_origins.specs.Origins.{OnlyStart};
ghost use Rattle.net_node.specs.Lent.{table_at_entry, table_at_exit};
ghost use Rattle.grow_book.specs.Answers.{SomeClosing, GrownAs, Drives, Closes, GrowsFirst, NextRun};
ghost use Rattle.grow_book.specs.Answers.{AtStart, FromOrigins};

use book_format::ReadableBook;
use grow_events::Counts;
use grow_origins::StartingBook;
use grow_state::{Front, Plan, PlannedBook, Rest, State};
use net_event_map::Layout;
use net_join_paths::JoinPaths;
use net_joins::RebuildScratch;
use net_stack::Stack;
use refusals::Refusal;
use report::Report;

// The run that takes its leg next, and the rest: the run at the front, or else the one that was saved last, which is
// taken up. None, if no run is left.
#[tactic(auto, using(crate::proofs::Driving::none_next))]
fn next_run(
    reals: &[f64],
    cells: &[u32],
    joins: &mut JoinPaths,
    p: Plan,
    g: State,
) -> Option<(Rest, Front)>
    requires some_drive { SomeDrive p reals.now cells.now joins.old.items g }
    ensures { NextRun p reals.now cells.now joins.old.items joins.new.items g result }
{
    if let Some(front) = g.front {
        return Some((g.rest, front));
    }
    if g.rest.top == 0 {
        return None;
    }
    Some(grow_state::take_up(reals, cells, joins, p, g.rest))
}

// All runs, a leg to a turn: "last saved run first". A leg is taken at most once, so as many turns as there are legs
// are enough: no run is left then. What is counted of the network.
fn drive(
    p: &PlannedBook,
    floats: &mut [f64],
    numbers: &mut [u32],
    reals: &mut [f64],
    cells: &mut [u32],
    joins: &mut JoinPaths,
    scratch: &mut RebuildScratch,
    g: Rest,
) -> Result<Counts, Refusal>
    requires reals_room { RealsRoom p.now.book.now reals.old }
    requires from_origins { FromOrigins p.now.book.now p.now.plan
        (lists floats.old numbers.old reals.old cells.old joins.old.items) g }
    ensures { Drives p.now.book.now p.now.plan g (lists_at_entry floats numbers reals cells joins)
        (lists_at_exit floats numbers reals cells joins) result }
{
    let mut state = State {
        rest: g,
        front: None,
    };
    for _ in 0..p.book.book().legs() {
        let next = next_run(reals, cells, joins, p.plan, state);
        let Some((rest, front)) = next else {
            return Ok(state.rest.counts);
        };
        state = grow_leg::turn(
            p, floats, numbers, reals, cells, joins, scratch, rest, front,
        )?;
    }
    Ok(state.rest.counts)
}

// The end Fakes and the last node.
fn close(
    floats: &mut [f64],
    numbers: &mut [u32],
    cells: &[u32],
    w: Layout,
    c: Counts,
) -> Result<Report, Refusal>
    requires { SomeClosing w floats.old numbers.old cells.now c }
    ensures { Closes w c (table_at_entry floats numbers) cells.now (table_at_exit floats numbers) result }
{
    let n = grow_ends::end_fakes(
        floats,
        numbers,
        c.nodes,
        w.places,
        cells,
        w.nodes_at + 2,
        c.last_end,
    )?;
    let nodes = grow_ends::last_node(floats, numbers, n, w.places)?;
    Ok(Report {
        nodes,
        added: c.added,
        splits: c.splits,
        joined: c.joined,
        finished: n - c.nodes,
    })
}

// All runs of a book whose first nodes are made, from its origins on, then the ends.
fn run_all(
    p: &StartingBook,
    floats: &mut [f64],
    numbers: &mut [u32],
    reals: &mut [f64],
    cells: &mut [u32],
    joins: &mut JoinPaths,
    scratch: &mut RebuildScratch,
) -> Result<Report, Refusal>
    requires reals_room { RealsRoom p.now.planned.book.now reals.old }
    requires at_start { AtStart p.now.planned.book.now p.now.planned.plan
        (lists floats.old numbers.old reals.old cells.old joins.old.items) }
    requires only_start { OnlyStart (node_at floats.old numbers.old) 2 }
    ensures { GrowsFirst p.now.planned.book.now p.now.planned.plan (lists_at_entry floats numbers reals cells joins)
        (table_at_exit floats numbers) result }
{
    let g = grow_origins::first_state();
    let rest = grow_origins::origins(p, floats, numbers, reals, cells, g)?;
    let counts = drive(
        &p.planned, floats, numbers, reals, cells, joins, scratch, rest,
    )?;
    close(floats, numbers, cells, p.planned.plan.w, counts)
}

// Grows the network of a book that was read, in a table and work space that are lent: the report's counts.
pub fn grow_book(
    book: &ReadableBook,
    kept: usize,
    floats: &mut [f64],
    numbers: &mut [u32],
    reals: &mut [f64],
    cells: &mut [u32],
    marks: &[u32],
) -> Result<Report, Refusal>
    requires ready { Ready book.now kept cells.old marks.now }
    requires reals_room { legs book.now * 3 + 4 ≤ length reals.old }
    requires cells_room { (legs book.now + 1 + places_of (length floats.old) (length numbers.old) + links book.now) * 8
        ≤ length cells.old }
    requires marks_room { search_room book.now ≤ length marks.now }
    ensures { GrownAs
        (grow book.now (places_of (length floats.old) (length numbers.old))
        (table_at_entry floats numbers)) floats.new numbers.new result }
{
    let places = net_node::places(floats.len(), numbers.len());
    if places < 2 {
        return Err(Refusal::NoPlace);
    }
    let plan = grow_origins::plan_of(book, places);
    let planned = PlannedBook { book, marks, plan };
    let p = StartingBook { planned, kept };
    grow_ends::first_nodes(floats, numbers, plan.departure);
    grow_path::start_path(reals);
    let mut joins = JoinPaths::new();
    let mut scratch = RebuildScratch {
        list: JoinPaths::new(),
        stack: Stack::new(),
    };
    run_all(&p, floats, numbers, reals, cells, &mut joins, &mut scratch)
}
