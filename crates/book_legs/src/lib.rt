// A book's legs: their chains in the work space, what row 7 says of their samples, and the search for a leg.
// Contracts: book_format's specs/Chains.antt, specs/Legs.antt.
#![tactic(auto)]

ghost use Rattle.std.specs.Prelude.{◌≡◌, false, not, ◌||◌, List, ℕ, ◌+◌, ◌*◌, ◌-◌, ◌≤◌, ◌<◌, length};
ghost use Rattle.space.specs.Space.{zeros};
ghost use Rattle.book_format.specs.Format.{links, legs, samples, leg_parent, first_sample};
ghost use Rattle.book_format.specs.Rows.{leg_falls, leg_begins};
ghost use Rattle.book_format.specs.Chains.{Chained, with_leg, all_linked};
ghost use Rattle.book_legs.specs.Legs.{leg_search, taken_leg, Started, samples_fail, begins_at, falls_from};
ghost use Rattle.book_legs.specs.Legs.{named_start, Named, SameButStarts, leg_in, InCells, TakenFrom};

use book_format::{Book, Leg, ReadableBook};
use refusals::Refusal;
use space::Zero;

// A leg that is taken: its number, and its samples from the first up to where they end.
#[derive(Clone, Copy)]
pub struct TakenLeg {
    pub number: u32,
    pub first: usize,
    pub end: usize,
}

// Whether some sample of a leg is no later than the one before it, or further back.
fn leg_falls(book: &ReadableBook, first: usize, count: usize) -> bool
    requires samples_inside { first + count ≤ samples book.now }
    ensures { result ≡ falls_from book.now first count }
{
    let rows = book.valid();
    for k in 0..count.saturating_sub(1) {
        let before = rows.sample_at(first + k);
        let after = rows.sample_at(first + k + 1);
        if book_format::sample_falls(before, after) {
            return true;
        }
    }
    false
}

// Whether a leg's first sample is its parent's last, bit for bit, or a starting leg's first time the departure.
fn leg_begins(book: &Book, parent: usize, end: usize, first: usize) -> bool
    requires last_inside { end - 1 < samples book.now }
    requires first_inside { first < samples book.now }
    requires end_nonzero { 0 < parent → 0 < end }
    ensures { result ≡ begins_at book.now parent end first }
{
    if parent == 0 {
        return book.sample_patterns(first).time == book.head_patterns().departure;
    }
    book.sample_patterns(end - 1) == book.sample_patterns(first)
}

// Puts leg number j in front of its parent's children, and notes where its samples end.
fn link_leg(cells: &mut [u32], j: usize, parent: usize, end: usize)
    requires j_cells_inside { j * 8 + 2 < length cells.old }
    requires parent_cell_inside { parent * 8 < length cells.old }
    requires j_most { j ≤ 65535 }
    requires end_most { end ≤ 1000000 }
    ensures { cells.new ≡ with_leg cells.old j parent end }
{
    let before = cells[parent * 8];
    cells[j * 8 + 1] = before;
    cells[parent * 8] = j as u32;
    cells[j * 8 + 2] = end as u32;
}

// Row 7 for the samples of the leg in row i: whether they fall, or don't begin where they must.
fn leg_fails(book: &ReadableBook, i: usize, end: usize, first: usize) -> bool
    requires i_lt_legs { i < legs book.now }
    requires end_is { end ≡ first_sample book.now (leg_parent book.now i) }
    requires first_is { first ≡ first_sample book.now i }
    ensures { result ≡ (leg_falls book.now i || not (leg_begins book.now i)) }
{
    let rows = book.book();
    let leg = rows.leg_at(i);
    if leg_begins(rows, leg.parent as usize, end, first) {
        leg_falls(book, first, leg.samples as usize)
    } else {
        true
    }
}

// Links each leg to its parent in the cells, and tells whether some leg's samples fall or don't begin where they must
// (row 7).
pub fn link_legs(book: &ReadableBook, cells: &mut [u32]) -> bool
    requires cells_room { (legs book.now + 1) * 8 ≤ length cells.old }
    requires cells_zero { cells.old ≡ zeros (length cells.old) }
    ensures answer { result ≡ samples_fail book.now }
    ensures chains { result ≡ false → cells.new ≡ all_linked book.now cells.old }
{
    let rows = book.book();
    let mut first = 0;
    for i in 0..rows.legs() {
        let leg = rows.leg_at(i);
        let parent = leg.parent as usize;
        let parent_end = cells[parent * 8 + 2] as usize;
        if leg_fails(book, i, parent_end, first) {
            return true;
        }
        first = first + leg.samples as usize;
        link_leg(cells, i + 1, parent, first);
    }
    false
}

// The leg with this parent and link: a walk along the parent's children. The book and its cells stay two parameters, no
// struct with the fact that they are chained: growth writes in the cells between two searches, and would make it anew.
pub fn find_leg(book: &Book, cells: &[u32], parent: u32, link_idx: u32) -> Option<u32>
    requires chained { Chained book.now cells.now }
    requires parent_le_legs { parent ≤ legs book.now }
    ensures { result ≡ leg_search book.now parent link_idx }
{
    let mut j = cells[parent as usize * 8];
    while 0 < j {
        let at = j as usize;
        let leg = book.leg_at(at - 1);
        if leg.link_idx == link_idx {
            return Some(j);
        }
        j = cells[at * 8 + 1];
    }
    None
}

// The leg of a number: its samples begin where those of the leg before it end.
pub fn leg_samples(cells: &[u32], number: u32) -> TakenLeg
    requires number_nonzero { 0 < number }
    requires number_cells_inside { number * 8 + 2 < length cells.now }
    ensures { result ≡ leg_in cells.now number }
{
    let at = number as usize;
    let first = cells[(at - 1) * 8 + 2] as usize;
    let end = cells[at * 8 + 2] as usize;
    TakenLeg { number, first, end }
}

// A leg that was sought, to be taken: "The leg is found or the book is refused with 10".
fn take_found(cells: &[u32], found: Option<u32>) -> Result<TakenLeg, Refusal>
    requires { InCells (length cells.now) found }
    ensures { TakenFrom cells.now found result }
{
    let Some(number) = found else {
        return Err(Refusal::MissingLeg);
    };
    Ok(leg_samples(cells, number))
}

// The leg with this parent and link, to be taken.
pub fn take_leg(book: &Book, cells: &[u32], parent: u32, link_idx: u32) -> Result<TakenLeg, Refusal>
    requires chained { Chained book.now cells.now }
    requires parent_le_legs { parent ≤ legs book.now }
    ensures { result ≡ taken_leg book.now parent link_idx }
{
    take_found(cells, find_leg(book, cells, parent, link_idx))
}

// ---- the starting legs by their links

// Names a leg at its link, if it is a starting leg.
fn name_start(starts: &mut [u32], leg: Leg, number: u32)
    requires { leg.link_idx < length starts.old }
    ensures { starts.new ≡ named_start starts.old leg number }
{
    if leg.parent == 0 {
        starts[leg.link_idx as usize] = number;
    }
}

// Names each starting leg at its link, in a slice that is zero.
fn name_starts(book: &ReadableBook, starts: &mut [u32])
    requires starts_room { links book.now ≤ length starts.old }
    requires starts_zero { starts.old ≡ zeros (length starts.old) }
    ensures { Named book.now (legs book.now) starts.new }
{
    let rows = book.book();
    for i in 0..rows.legs() {
        name_start(starts, rows.leg_at(i), i as u32 + 1);
    }
}

// Names each starting leg at its link, in the marks behind the links' own: so the leg of an origin is found without
// a walk.
pub fn mark_starts(book: &ReadableBook, marks: &mut [u32])
    requires marks_room { 2 * links book.now ≤ length marks.old }
    ensures starts { Started book.now marks.new }
    ensures others { SameButStarts book.now marks.old marks.new }
{
    let links = book.book().links();
    let starts = &mut marks[links..2 * links];
    Zero::clear(starts);
    name_starts(book, starts);
}

// The leg that starts over a link, as the marks name it.
fn find_start(book: &Book, marks: &[u32], link_idx: u32) -> Option<u32>
    requires started { Started book.now marks.now }
    requires marks_room { 2 * links book.now ≤ length marks.now }
    requires link_idx_lt_links { link_idx < links book.now }
    ensures { result ≡ leg_search book.now 0 link_idx }
{
    let number = marks[book.links() + link_idx as usize];
    if number == 0 { None } else { Some(number) }
}

// The leg that starts over a link, to be taken.
pub fn take_start(
    book: &Book,
    cells: &[u32],
    marks: &[u32],
    link_idx: u32,
) -> Result<TakenLeg, Refusal>
    requires chained { Chained book.now cells.now }
    requires started { Started book.now marks.now }
    requires marks_room { 2 * links book.now ≤ length marks.now }
    requires link_idx_lt_links { link_idx < links book.now }
    ensures { result ≡ taken_leg book.now 0 link_idx }
{
    take_found(cells, find_start(book, marks, link_idx))
}
