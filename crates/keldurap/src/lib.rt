// The entries for other languages. Each is thin: it calls the proved function of its crate and hands on its answer.
// Contracts: specs/Entries.antt. They hold in the default floating-point mode; include/keldurap.h and users/rust call
// each of these raw entries in it, whatever the caller's is. Entries that differ in the proved function alone stay
// several: C and Rust call each by its name.
#![tactic(auto)]

ghost use Rattle.std.specs.Prelude.{◌≡◌};
ghost use Rattle.std.specs.Float.{binary64};
ghost use Rattle.report.specs.Numbers.{report_in};
ghost use Rattle.root.specs.Root.{sqrt};
ghost use Rattle.space.specs.Lent.{work_at_entry, work_at_exit};
ghost use Rattle.net_node.specs.Lent.{lent_at_entry, lent_at_exit, table_seen};
ghost use Rattle.event_maker.specs.Maker.{lent_leg, list_at_entry, list_at_exit};
ghost use Rattle.listing.specs.Listing.{sheet_in};
ghost use Rattle.keldurap.specs.Entries.{BookChecked, EventsGiven, TimesGiven, NetworkGiven, SheetGiven, ListingGiven};

use report::Report;

// The square root of x, rounded to nearest, a tie to even.
#[unsafe(no_mangle)]
pub extern "C" fn keldurap_raw_root(x: f64) -> f64
    ensures { result ≡ sqrt binary64 x }
{
    root::root(x)
}

// The number that a book gets by rows 1 to 8, and 0 where none holds. The work space is zero afterwards.
#[unsafe(no_mangle)]
pub extern "C" fn keldurap_raw_check_book(
    book: &[u8],
    places: usize,
    reals: &mut [f64],
    cells: &mut [u32],
    marks: &mut [u32],
) -> u32
    ensures { BookChecked book.now places (work_at_entry reals cells marks)
        (work_at_exit reals cells marks) result }
{
    refusals::number_of(book_reader::check_book(book, places, reals, cells, marks))
}

// The events of one leg, into a list that is lent in two slices: 0 and how many there are, or the number of a refusal.
#[unsafe(no_mangle)]
pub extern "C" fn keldurap_raw_make_events(
    train_length: f64,
    samples: &[u8],
    offsets: &[f64],
    links: &[u32],
    floats: &mut [f64],
    numbers: &mut [u32],
    count: &mut u32,
) -> u32
    ensures { EventsGiven (lent_leg train_length samples offsets links)
        (list_at_entry floats numbers) (list_at_exit floats numbers) count.new result }
{
    let made = event_maker::make_events(train_length, samples, offsets, links, floats, numbers);
    *count = made.unwrap_or(0) as u32;
    refusals::number_of(made)
}

// Checks and times a lent node table of as many nodes as both slices fill: 0 and how many there are, or the number of a
// refusal. What the slices hold past the nodes is zero afterwards, all of both on a refusal; the work space is zero
// either way.
#[unsafe(no_mangle)]
pub extern "C" fn keldurap_raw_update_times(
    floats: &mut [f64],
    numbers: &mut [u32],
    departure: f64,
    reals: &mut [f64],
    cells: &mut [u32],
    marks: &mut [u32],
    nodes: &mut u32,
) -> u32
    ensures { TimesGiven (lent_at_entry floats numbers reals cells marks)
        (lent_at_exit floats numbers reals cells marks) departure nodes.new result }
{
    let timed = pass_table::update_times(floats, numbers, departure, reals, cells, marks);
    *nodes = timed.unwrap_or(0) as u32;
    refusals::number_of(timed)
}

// The network of a book before its times are known, for tests: 0 and the report's five numbers, or the number of a
// refusal.
#[unsafe(no_mangle)]
pub extern "C" fn keldurap_raw_grow_network(
    book: &[u8],
    floats: &mut [f64],
    numbers: &mut [u32],
    reals: &mut [f64],
    cells: &mut [u32],
    marks: &mut [u32],
    report: &mut [usize; 5],
) -> u32
    ensures { NetworkGiven book.now (lent_at_entry floats numbers reals cells marks)
        (lent_at_exit floats numbers reals cells marks) report.new result }
{
    let grown = grow_for_tests::grow_network(book, floats, numbers, reals, cells, marks);
    *report = grown.unwrap_or_default().into();
    refusals::number_of(grown)
}

// The sheet of a book in a lent table: 0 and the report's five numbers, or the number of a refusal. Whatever table and
// work space held, the table has the sheet then, or is zero, and the work space is zero.
#[unsafe(no_mangle)]
pub extern "C" fn keldurap_raw_make_est_times(
    book: &[u8],
    floats: &mut [f64],
    numbers: &mut [u32],
    reals: &mut [f64],
    cells: &mut [u32],
    marks: &mut [u32],
    report: &mut [usize; 5],
) -> u32
    ensures { SheetGiven book.now (lent_at_entry floats numbers reals cells marks)
        (lent_at_exit floats numbers reals cells marks) report.new result }
{
    let sheet = est_times::make_est_times(book, floats, numbers, reals, cells, marks);
    *report = sheet.unwrap_or_default().into();
    refusals::number_of(sheet)
}

// The listing of a sheet in a lent slice, by the table and the report: 0 and its length, 101 where the slice is too
// short, 102 where the table has fewer nodes than the report says; then the slice is zero.
#[unsafe(no_mangle)]
pub extern "C" fn keldurap_raw_list_sheet(
    floats: &[f64],
    numbers: &[u32],
    report: &[usize; 5],
    out: &mut [u8],
    text_length: &mut usize,
) -> u32
    ensures { ListingGiven (sheet_in (report_in report.now) (table_seen floats numbers))
        out.old out.new text_length.new result }
{
    let listed = listing::list_sheet(floats, numbers, Report::from(*report), out);
    *text_length = listed.unwrap_or(0);
    listed.map_or_else(u32::from, |_| 0)
}
