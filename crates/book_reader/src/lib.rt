// Reads a book: rows 1 to 8, the legs' chains and the link options. Contracts: specs/Reader.antt.
#![tactic(auto)]

ghost use Rattle.std.specs.Prelude.{◌≡◌, false, ◌*◌, min, length};
ghost use Rattle.space.specs.Space.{bytes_of, zeros};
ghost use Rattle.space.specs.Lent.{work_at_entry, work_at_exit};
ghost use Rattle.book_format.specs.Format.{links};
ghost use Rattle.book_format.specs.Rows.{row1, row2};
ghost use Rattle.book_reader.specs.Reader.{BookRead, Checked};
ghost use Rattle.book_options.specs.Options.{search_room};
ghost use Rattle.book_reader.specs.Stages.{RowsPassed, Blank, legs_answer};
ghost use Rattle.book_reader.specs.Stages.{TestedAs, RepeatsTested, RestRead};

use book_format::{Book, ReadableBook, ValidBook};
use refusals::Refusal;
use space::Zero;

// A book that was read, and how many of its origins are kept.
#[derive(Clone, Drop)]
pub struct Accepted<'a> {
    pub book: ReadableBook<'a>,
    pub kept: usize,
}

// A book that the first stage let through, and what its single legs are refused for: row 7, which is told after row 6.
#[derive(Drop)]
struct Tested<'a> {
    book: ValidBook<'a>,
    legs: Result<(), Refusal>,
}

// Rows 3 to 5, and 6 and 7 as far as single rows of a section tell.
fn test_whole<'a>(book: Book<'a>, places: usize, bytes: usize) -> Result<Tested<'a>, Refusal>
    requires row1_passed { row1 book ≡ false }
    requires row2_passed { row2 book ≡ false }
    ensures { TestedAs book.entry places bytes result }
{
    if book_rows::counts_refused(&book, places, bytes) {
        return Err(Refusal::OutOfBounds);
    }
    let legs = match book_rows::lowest_row(&book) {
        Ok(()) => Ok(()),
        Err(refusal) if refusal != Refusal::BadLeg => return Err(refusal),
        Err(bad_leg) => Err(bad_leg),
    };
    let book = ValidBook::new(book);
    Ok(Tested { book, legs })
}

// Rows 1 and 2, then those that `test_whole` tests.
fn test_rows<'a>(book: &'a [u8], places: usize, bytes: usize) -> Result<Tested<'a>, Refusal>
    ensures { TestedAs book.now places bytes result }
{
    test_whole(Book::measure(book)?, places, bytes)
}

// Rows 6 and 7 whole. The legs are chained where neither holds.
fn test_repeats<'a>(
    tested: Tested<'a>,
    cells: &mut [u32],
    marks: &mut [u32],
) -> Result<ReadableBook<'a>, Refusal>
    requires rows_passed { RowsPassed tested.book }
    requires legs_told { tested.legs ≡ legs_answer tested.book }
    requires blank { Blank tested.book cells.old marks.old (links tested.book) }
    ensures { RepeatsTested tested.entry.book cells.new marks.new result }
{
    if book_repeats::origins_repeat(&tested.book, marks) {
        return Err(Refusal::BadOrigin);
    }
    tested.legs?;
    let book = ReadableBook::new(tested.book);
    Zero::clear(marks);
    if book_legs::link_legs(&book, cells) {
        return Err(Refusal::BadLeg);
    }
    if book_repeats::legs_repeat(&book, cells, marks) {
        return Err(Refusal::BadLeg);
    }
    Zero::clear(marks);
    Ok(book)
}

// Rows 6 to 8, in as many marks as the options search asks for. The repeats are marked in the links' own marks; the
// starting legs are named behind them, where the options' stack has been.
fn read_rest<'a>(
    tested: Tested<'a>,
    cells: &mut [u32],
    marks: &mut [u32],
) -> Result<Accepted<'a>, Refusal>
    requires rows_passed { RowsPassed tested.book }
    requires legs_told { tested.legs ≡ legs_answer tested.book }
    requires blank { Blank tested.book cells.old marks.old (search_room tested.book) }
    ensures { RestRead tested.entry.book cells.new marks.new result }
{
    let links = tested.book.book().links();
    let own = &mut marks[..links];
    let book = test_repeats(tested, cells, own)?;
    let kept = book_options::get_link_idx_options(book.valid(), marks)?;
    book_legs::mark_starts(&book, marks);
    Ok(Accepted { book, kept })
}

// The bytes of work space. More than 64,000,000 are never asked for, and count as that many.
fn lent_bytes(units: usize) -> usize
    ensures { result ≡ min (64 * units) 64000000 }
{
    64 * units.min(1000000)
}

// Reads a book into work space that is zero, for a table of so many places. What the marks hold behind the options
// search's part is neither read nor written.
pub fn read_book<'a>(
    book: &'a [u8],
    places: usize,
    reals: usize,
    cells: &mut [u32],
    marks: &mut [u32],
) -> Result<Accepted<'a>, Refusal>
    requires cells_zero { cells.old ≡ zeros (length cells.old) }
    requires marks_zero { marks.old ≡ zeros (length marks.old) }
    ensures { BookRead book.now places
        (bytes_of reals (length cells.old) (length marks.old))
        cells.new marks.old marks.new result }
{
    let bytes = lent_bytes(space::units(reals, cells.len(), marks.len()));
    let tested = test_rows(book, places, bytes)?;
    let room = book_options::search_room(tested.book.book());
    let part = &mut marks[..room];
    read_rest(tested, cells, part)
}

// The refusal that a book gets by rows 1 to 8, for a table of so many places and this work space, if one of them holds.
// The work space is zero afterwards.
pub fn check_book(
    book: &[u8],
    places: usize,
    reals: &mut [f64],
    cells: &mut [u32],
    marks: &mut [u32],
) -> Result<(), Refusal>
    ensures { Checked book.now places
        (work_at_entry reals cells marks) (work_at_exit reals cells marks) result }
{
    space::clear_work(reals, cells, marks);
    let answer = read_book(book, places, reals.len(), cells, marks).map(|_| ());
    Zero::clear(cells);
    Zero::clear(marks);
    answer
}
