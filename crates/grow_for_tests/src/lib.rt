// The network of a book before its times are known: an entry for tests, so that growth can be compared by itself.
// Contracts: specs/Grown.antt.
#![tactic(auto)]

ghost use Rattle.net_node.specs.Lent.{lent_at_entry, lent_at_exit};
ghost use Rattle.grow_for_tests.specs.Grown.{NetworkGrown};

use refusals::Refusal;
use report::Report;

// The report's counts. Whatever table and work space held, the table has the network then, or is zero, and the work
// space is zero. `make_est_times` differs in the stage that it ends with: over a closure both would have to promise
// what each of them says of its own table.
pub fn grow_network(
    book: &[u8],
    floats: &mut [f64],
    numbers: &mut [u32],
    reals: &mut [f64],
    cells: &mut [u32],
    marks: &mut [u32],
) -> Result<Report, Refusal>
    ensures { NetworkGrown book.now (lent_at_entry floats numbers reals cells marks)
        (lent_at_exit floats numbers reals cells marks) result }
{
    est_times::clear_before(floats, numbers, cells, marks);
    let grown = est_times::read_and_grow(book, floats, numbers, reals, cells, marks);
    let n = grown.map_or(0, |report| report.nodes);
    net_node::clear_behind(floats, numbers, n);
    space::clear_work(reals, cells, marks);
    grown
}
