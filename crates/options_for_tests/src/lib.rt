// The options search by itself: an entry for tests, so that its set, its order and its number can be compared, in a
// part of the work space of just the length that it asks for. It is no part of the library for users.
// Contracts: specs/Searched.antt, specs/Steps.antt.
#![tactic(auto)]

ghost use Rattle.std.specs.Prelude.{◌≡◌, false, length};
ghost use Rattle.laws.specs.Answer.{number_of};
ghost use Rattle.refusals.specs.Refusals.{told};
ghost use Rattle.space.specs.Space.{zeros};
ghost use Rattle.space.specs.Lent.{work_at_entry, work_at_exit};
ghost use Rattle.book_format.specs.Rows.{row6};
ghost use Rattle.book_options.specs.Options.{row8};
ghost use Rattle.options_for_tests.specs.Searched.{OptionsSearched, part_number};
ghost use Rattle.options_for_tests.specs.Steps.{SearchedIn};

use book_format::ReadableBook;
use refusals::Refusal;
use space::Zero;

// The search in a part of any length, which is refused unless it is just as long as the search asks for.
fn search_part(book: &ReadableBook, part: &mut [u32]) -> Result<usize, Refusal>
    requires row6_passed { row6 book.now ≡ false }
    requires row8_passed { row8 book.now ≡ false }
    requires part_zero { part.old ≡ zeros (length part.old) }
    ensures number { number_of (told result) ≡ part_number book.now (length part.old) }
    ensures into { SearchedIn book.now part.old part.new result }
{
    if part.len() != book_options::search_room(book.book()) {
        return Err(Refusal::OutOfBounds);
    }
    book_options::get_link_idx_options(book.valid(), part)
}

// Reads a book in work space that is lent, then searches in the part: 0 and how many origins are kept, or the number of
// a refusal. The part has the search's marks then, or is zero; the work space is zero either way.
#[unsafe(no_mangle)]
pub extern "C" fn keldurap_tests_search_options(
    book: &[u8],
    places: usize,
    reals: &mut [f64],
    cells: &mut [u32],
    marks: &mut [u32],
    part: &mut [u32],
    kept: &mut usize,
) -> u32
    ensures { OptionsSearched book.now places (work_at_entry reals cells marks)
        (work_at_exit reals cells marks) part.old part.new kept.new result }
{
    space::clear_work(reals, cells, marks);
    Zero::clear(part);
    let reading = book_reader::read_book(book, places, reals.len(), cells, marks);
    space::clear_work(reals, cells, marks);
    // No `and_then`: its contract doesn't say that the part, lent to the closure, is untouched where that isn't called.
    let found = match reading {
        Ok(accepted) => search_part(&accepted.book, part),
        Err(refusal) => Err(refusal),
    };
    *kept = found.unwrap_or(0);
    refusals::number_of(found)
}
