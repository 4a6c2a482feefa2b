// The table entry: times a lent node table. The table's two slices and the work space's three are parameters each, and
// no struct: C and Rust lend them one by one. Contracts: specs/TableEntry.antt, those of its parts specs/Parts.antt.
#![tactic(auto)]

ghost use Rattle.std.specs.Prelude.{◌≡◌, ◌||◌, ◌*◌, ◌≤◌, leb, ltb, length, IfOk};
ghost use Rattle.laws.specs.Answer.{number_of};
ghost use Rattle.refusals.specs.Refusals.{told};
ghost use Rattle.net_node.specs.Table.{float_width, number_width};
ghost use Rattle.net_node.specs.Left.{nodes_in};
ghost use Rattle.net_node.specs.Lent.{table_at_entry, table_at_exit, lent_at_entry, lent_at_exit, table_seen};
ghost use Rattle.space.specs.Lent.{work_at_entry, bytes_in};
ghost use Rattle.pass_all.specs.Answers.{TimedAs};
ghost use Rattle.pass_table.specs.TableEntry.{table_row3, bad_floats, stray_node, table_times, TimesUpdated};
ghost use Rattle.pass_table.specs.Parts.{nodes_number, first_number};

use net_node::EstTime;
use refusals::Refusal;
use space::Zero;

// ---- rows 3 to 5

// Row 3: whether the nodes are too few or too many, or the units of work space too few for them.
fn size_refused(n: usize, units: usize) -> bool
    ensures { result ≡ table_row3 n (64 * units) }
{
    if (n < 3) | (65535 < n) {
        return true;
    }
    units < 576 + n
}

// Row 4: whether a node has a float that a table may not hold, or an unknown kind. `|`, not `||`: no branch for a test.
#[tactic(auto, unfolding(crate::specs::TableEntry::bad_floats))]
fn is_bad_node(node: EstTime, kind: u32) -> bool
    ensures { result ≡ (bad_floats node || ltb 2 kind) }
{
    let time = floats::is_table_float(node.time_sched);
    let time_to_next = floats::is_table_float(node.time_to_next);
    let dist_to_next = floats::is_table_float(node.dist_to_next);
    let speed = floats::is_table_float(node.speed);
    !time | !time_to_next | !dist_to_next | !speed | (2 < kind)
}

// Whether no node has this index.
fn names_nothing(n: usize, idx: u32) -> bool
    ensures { result ≡ leb n idx }
{
    n <= idx as usize
}

// Row 5: whether an index of a node names nothing.
#[tactic(auto, unfolding(crate::specs::TableEntry::stray_node))]
fn is_stray_node(n: usize, node: EstTime) -> bool
    ensures { result ≡ stray_node n node }
{
    names_nothing(n, node.idx_next)
        | names_nothing(n, node.idx_next_alt)
        | names_nothing(n, node.idx_prev)
        | names_nothing(n, node.idx_prev_alt)
}

// Rows 4 and 5, as far as the nodes tell: whether one is bad, then whether one is stray. `event_maker`'s sweep looks at
// a row and the one before it, and answers the second test: no one code says both plainer.
fn check_nodes(floats: &[f64], numbers: &[u32], n: usize) -> Result<(), Refusal>
    requires floats_room { n * float_width ≤ length floats.now }
    requires numbers_room { n * number_width ≤ length numbers.now }
    ensures { number_of (told result) ≡ nodes_number (table_seen floats numbers) n }
{
    let mut stray = false;
    for i in 0..n {
        let node = net_node::load(floats, numbers, i);
        if is_bad_node(node, net_node::kind_at(numbers, i)) {
            return Err(Refusal::BadValue);
        }
        stray = stray | is_stray_node(n, node);
    }
    if stray {
        return Err(Refusal::BadIndex);
    }
    Ok(())
}

// Rows 3, 4 and 5, in that order.
fn check_table(
    floats: &[f64],
    numbers: &[u32],
    n: usize,
    departure: f64,
    units: usize,
) -> Result<(), Refusal>
    requires floats_room { n * float_width ≤ length floats.now }
    requires numbers_room { n * number_width ≤ length numbers.now }
    ensures { number_of (told result) ≡ first_number (table_seen floats numbers) n departure (64 * units) }
{
    if size_refused(n, units) {
        return Err(Refusal::OutOfBounds);
    }
    if !floats::is_table_float(departure) {
        return Err(Refusal::BadValue);
    }
    check_nodes(floats, numbers, n)
}

// Rows 3 to 5, then the passes, whose flags are made zero before: how many nodes the table has.
fn time_nodes(
    floats: &mut [f64],
    numbers: &mut [u32],
    departure: f64,
    reals: &mut [f64],
    cells: &mut [u32],
    marks: &mut [u32],
) -> Result<usize, Refusal>
    ensures timed { TimedAs (table_times (table_at_entry floats numbers) departure
        (bytes_in (work_at_entry reals cells marks))) (number_of (told result)) (table_at_exit floats numbers) }
    ensures nodes { IfOk result (λ n. n ≡ nodes_in (table_at_entry floats numbers)) }
{
    let n = net_node::nodes_filled(floats.len(), numbers.len());
    let units = space::units(reals.len(), cells.len(), marks.len());
    check_table(floats, numbers, n, departure, units)?;
    let flags = &mut cells[..n * 2];
    Zero::clear(flags);
    pass_all::run_passes(floats, numbers, n, departure, reals, flags, marks)?;
    Ok(n)
}

// Checks and times a lent node table of as many nodes as both slices fill, and tells how many there are. What the
// slices hold past the nodes is zero afterwards, all of both on a refusal; the work space is zero either way.
pub fn update_times(
    floats: &mut [f64],
    numbers: &mut [u32],
    departure: f64,
    reals: &mut [f64],
    cells: &mut [u32],
    marks: &mut [u32],
) -> Result<usize, Refusal>
    ensures { TimesUpdated (lent_at_entry floats numbers reals cells marks)
        (lent_at_exit floats numbers reals cells marks) departure result }
{
    let timed = time_nodes(floats, numbers, departure, reals, cells, marks);
    net_node::clear_behind(floats, numbers, timed.unwrap_or(0));
    space::clear_work(reals, cells, marks);
    timed
}
