// Estimated times: a book to its sheet. The table's two slices and the work space's three are parameters each, and no
// struct: C and Rust lend them one by one. Contracts: specs/Sheet.antt, specs/Network.antt; of the inner functions
// specs/Stages.antt.
#![tactic(auto)]

ghost use Rattle.std.specs.Prelude.{◌≡◌, true, ◌≤◌, ◌<◌, length};
ghost use Rattle.floats.specs.Floats.{book_float};
ghost use Rattle.book_format.specs.Format.{departure_bits};
ghost use Rattle.net_node.specs.Lent.{table_at_exit, lent_at_entry, lent_at_exit, sizes_of};
ghost use Rattle.grow_rules.specs.Growth.{departure};
ghost use Rattle.grow_book.specs.Answers.{GrownAs};
ghost use Rattle.est_times.specs.Network.{network};
ghost use Rattle.est_times.specs.Sheet.{job, SheetMade};
ghost use Rattle.est_times.specs.Stages.{Begun, BuiltAs};

use refusals::Refusal;
use report::Report;
use space::Zero;

// Makes zero what growth begins with: the table, the cells and the marks.
pub fn clear_before(floats: &mut [f64], numbers: &mut [u32], cells: &mut [u32], marks: &mut [u32])
    ensures { Begun floats.new numbers.new cells.new marks.new }
{
    Zero::clear(floats);
    Zero::clear(numbers);
    Zero::clear(cells);
    Zero::clear(marks);
}

// Reads a book and grows its network, rows 1 to 13.
pub fn read_and_grow(
    book: &[u8],
    floats: &mut [f64],
    numbers: &mut [u32],
    reals: &mut [f64],
    cells: &mut [u32],
    marks: &mut [u32],
) -> Result<Report, Refusal>
    requires { Begun floats.old numbers.old cells.old marks.old }
    ensures { GrownAs (network book.now (sizes_of (lent_at_entry floats numbers reals cells marks)))
        floats.new numbers.new result }
{
    let places = net_node::places(floats.len(), numbers.len());
    let accepted = book_reader::read_book(book, places, reals.len(), cells, marks)?;
    grow_book::grow_book(
        &accepted.book,
        accepted.kept,
        floats,
        numbers,
        reals,
        cells,
        marks,
    )
}

// The departure of a book that was read.
fn departure_of(book: &[u8]) -> f64
    requires head { 16 ≤ length book.now }
    requires departure { book_float (departure_bits book.now) ≡ true }
    ensures { result ≡ departure book.now }
{
    f64::from_bits(fields::u64_at(book, 8))
}

// Reads a book, grows its network, checks it and times it.
fn build(
    book: &[u8],
    floats: &mut [f64],
    numbers: &mut [u32],
    reals: &mut [f64],
    cells: &mut [u32],
    marks: &mut [u32],
) -> Result<Report, Refusal>
    requires { Begun floats.old numbers.old cells.old marks.old }
    ensures { BuiltAs (job book.now (sizes_of (lent_at_entry floats numbers reals cells marks)))
        (table_at_exit floats numbers) result }
{
    let report = read_and_grow(book, floats, numbers, reals, cells, marks)?;
    let n = report.nodes;
    let flags = &mut cells[..n * 2];
    Zero::clear(flags);
    let departure = departure_of(book);
    pass_all::run_passes(floats, numbers, n, departure, reals, flags, marks)?;
    Ok(report)
}

// Makes the sheet of a book in a lent table: every route with its splits and joins, timed. Its report. Whatever table
// and work space held, the table has the sheet then, or is zero, and the work space is zero.
pub fn make_est_times(
    book: &[u8],
    floats: &mut [f64],
    numbers: &mut [u32],
    reals: &mut [f64],
    cells: &mut [u32],
    marks: &mut [u32],
) -> Result<Report, Refusal>
    ensures { SheetMade book.now (lent_at_entry floats numbers reals cells marks)
        (lent_at_exit floats numbers reals cells marks) result }
{
    clear_before(floats, numbers, cells, marks);
    let sheet = build(book, floats, numbers, reals, cells, marks);
    let n = sheet.map_or(0, |report| report.nodes);
    net_node::clear_behind(floats, numbers, n);
    space::clear_work(reals, cells, marks);
    sheet
}
