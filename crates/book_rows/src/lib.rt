// Row 3, and what rows 4 to 7 say of single rows of a section.
// Contracts: book_format's specs/Rows.antt, specs/Elements.antt.
#![tactic(auto)]

ghost use Rattle.std.specs.Prelude.{◌≡◌, true, ◌+◌, ◌≤◌, ◌<◌, cond, eqb, Some, None};
ghost use Rattle.laws.specs.Answer.{number_of};
ghost use Rattle.laws.specs.Below.{some_below, sum_below};
ghost use Rattle.floats.specs.Floats.{book_float};
ghost use Rattle.refusals.specs.Refusals.{told};
ghost use Rattle.book_format.specs.Format.{links, origins, destinations, legs, samples, rows};
ghost use Rattle.book_format.specs.Format.{link_length, leg_samples};
ghost use Rattle.book_format.specs.Rows.{row3, bad_count, work_bytes, no_such_link, link_zero, bad_link};
ghost use Rattle.book_rows.specs.Elements.{lower, lowest_below, head_number, row_number, single_number};
ghost use Rattle.book_rows.specs.Elements.{link_number, origin_number, destination_number, leg_number, sample_number};

use book_format::Book;
use refusals::Refusal;
use std::cmp;

// ---- row 3

// Whether some count is outside its limits.
#[tactic(auto, unfolding(book_format::specs::Rows::bad_count))]
fn counts_outside(book: &Book) -> bool
    ensures { result ≡ bad_count book.now }
{
    book_format::is_outside(65535, book.links())
        | book_format::is_outside(65535, book.legs())
        | book_format::is_outside(1000, book.origins())
        | book_format::is_outside(1000, book.destinations())
        | book_format::is_outside(1000000, book.samples())
}

// The bytes of work space that are asked for.
#[tactic(auto, unfolding(book_format::specs::Rows::work_bytes))]
fn work_bytes(book: &Book, places: usize) -> usize
    requires { links book.now + origins book.now + destinations book.now + legs book.now ≤ 133070 }
    ensures { result ≡ work_bytes book.now places }
{
    let rows = book.links() + book.origins() + book.destinations() + book.legs();
    36864 + 64 * (rows + places.min(65535))
}

// How many samples all legs have, unless some leg has none.
fn sample_sum(book: &Book) -> Option<usize>
    requires { legs book.now ≤ 65535 }
    ensures { result ≡ cond (some_below (legs book.now) (λ i. eqb (leg_samples book.now i) 0))
        None (Some (sum_below (legs book.now) (leg_samples book.now))) }
{
    let mut sum: usize = 0;
    for i in 0..book.legs() {
        let leg = book.leg_at(i);
        if leg.samples == 0 {
            return None;
        }
        sum += leg.samples as usize;
    }
    Some(sum)
}

// Row 3: whether a count, the samples of the legs or the work space is out of bounds.
#[tactic(auto, unfolding(book_format::specs::Rows::row3))]
pub fn counts_refused(book: &Book, places: usize, bytes: usize) -> bool
    ensures { result ≡ row3 book.now places bytes }
{
    if counts_outside(book) {
        return true;
    }
    let work = work_bytes(book, places);
    match sample_sum(book) {
        None => true,
        Some(sum) => (sum != book.samples()) | (bytes < work),
    }
}

// ---- rows 4 to 7

// The one of two answers with the lower number, a refusal before none: the order of `Result` has none first.
#[tactic(auto, using(crate::proofs::Lowest::lower_none, crate::proofs::Lowest::lower_min), unfolding(crate::specs::Elements::lower),)]
fn lower_of(a: Result<(), Refusal>, b: Result<(), Refusal>) -> Result<(), Refusal>
    ensures { number_of (told result) ≡ lower (number_of (told a)) (number_of (told b)) }
{
    match (a, b) {
        (Err(first), Err(second)) => Err(cmp::min_by_key(first, second, |r| u32::from(*r))),
        (Ok(()), _) => b,
        (Err(_), Ok(())) => a,
    }
}

// Whether no link has this number. `pass_table` asks the like of a node: one comparison, two rows' words.
fn no_link(book: &Book, idx: u32) -> bool
    ensures { result ≡ no_such_link book.now idx }
{
    book.links() <= idx as usize
}

// Whether a link whose length is a book's float has an index or a length that row 5 refuses. The pattern of the length
// is handed in, since row 4 has read it.
#[tactic(auto, unfolding(book_format::specs::Rows::bad_link, book_format::specs::Format::link_at))]
fn bad_link(book: &Book, i: usize, length: u64) -> bool
    requires i_lt_links { i < links book.now }
    requires length_passed { book_float (link_length book.now i) ≡ true }
    requires length_is { length ≡ link_length book.now i }
    ensures { result ≡ bad_link book.now i }
{
    let l = book.link_at(i);
    no_link(book, l.idx_next)
        | no_link(book, l.idx_next_alt)
        | no_link(book, l.idx_prev)
        | no_link(book, l.idx_prev_alt)
        | ((0 < i) & (length == 0))
        | ((l.idx_next == l.idx_next_alt) & (0 < l.idx_next))
}

// What a link is refused for.
#[tactic(auto, using(crate::proofs::Elements::float_read), unfolding(crate::specs::Elements::link_number, laws::specs::Refusals::first_of),)]
fn link_row(book: &Book, i: usize) -> Result<(), Refusal>
    requires i_lt_links { i < links book.now }
    ensures { number_of (told result) ≡ link_number book.now i }
{
    let length = book.link_length(i);
    if !floats::is_book_float(length) {
        return Err(Refusal::BadValue);
    }
    if bad_link(book, i, length) {
        return Err(Refusal::BadIndex);
    }
    Ok(())
}

// What an origin is refused for.
#[tactic(auto, using(crate::proofs::Elements::float_read), unfolding(crate::specs::Elements::origin_number, book_format::specs::Rows::bad_origin_value, book_format::specs::Rows::bad_origin_place, book_format::specs::Format::origin_at, laws::specs::Refusals::first_of,),)]
fn origin_row(book: &Book, i: usize) -> Result<(), Refusal>
    requires i_lt_origins { i < origins book.now }
    ensures { number_of (told result) ≡ origin_number book.now i }
{
    let offset = book.origin_offset(i);
    if !floats::is_book_float(offset) {
        return Err(Refusal::BadValue);
    }
    let o = book.origin_at(i);
    if 1 < o.is_front_end {
        return Err(Refusal::BadValue);
    }
    if no_link(book, o.link_idx) {
        return Err(Refusal::BadIndex);
    }
    if (offset != 0) | (o.is_front_end == 1) {
        return Err(Refusal::BadOrigin);
    }
    Ok(())
}

// What a destination is refused for.
#[tactic(auto, unfolding(crate::specs::Elements::destination_number, laws::specs::Refusals::first_of))]
fn destination_row(book: &Book, i: usize) -> Result<(), Refusal>
    requires i_lt_destinations { i < destinations book.now }
    ensures { number_of (told result) ≡ destination_number book.now i }
{
    if no_link(book, book.destination_link(i)) {
        return Err(Refusal::BadIndex);
    }
    Ok(())
}

// What a leg is refused for.
#[tactic(auto, unfolding(crate::specs::Elements::leg_number, laws::specs::Refusals::first_of, book_format::specs::Rows::bad_leg_index, book_format::specs::Rows::bad_leg, book_format::specs::Format::leg_at,),)]
fn leg_row(book: &Book, i: usize) -> Result<(), Refusal>
    requires i_lt_legs { i < legs book.now }
    ensures { number_of (told result) ≡ leg_number book.now i }
{
    let leg = book.leg_at(i);
    let legs = book.legs();
    let number = i + 1;
    let parent = leg.parent as usize;
    if no_link(book, leg.link_idx) | (legs < parent) {
        return Err(Refusal::BadIndex);
    }
    if (leg.link_idx == 0) | (number <= parent) {
        return Err(Refusal::BadLeg);
    }
    Ok(())
}

// What a sample is refused for.
#[tactic(auto, unfolding(crate::specs::Elements::sample_number, laws::specs::Refusals::first_of, book_format::specs::Rows::bad_sample, book_format::specs::Rows::bad_patterns, book_format::specs::Format::sample_patterns, book_format::specs::Format::sample_time, book_format::specs::Format::sample_offset, book_format::specs::Format::sample_speed,),)]
fn sample_row(book: &Book, i: usize) -> Result<(), Refusal>
    requires i_lt_samples { i < samples book.now }
    ensures { number_of (told result) ≡ sample_number book.now i }
{
    if book.sample_patterns(i).is_bad() {
        return Err(Refusal::BadValue);
    }
    Ok(())
}

// What a row of a section is refused for, all rows in one count.
fn row_refusal(book: &Book, k: usize) -> Result<(), Refusal>
    requires k_lt_rows { k < rows book.now }
    ensures { number_of (told result) ≡ row_number book.now k }
{
    let samples = book.samples();
    if k < samples {
        return sample_row(book, k);
    }
    let i = k - samples;
    let links = book.links();
    if i < links {
        return link_row(book, i);
    }
    let o = i - links;
    let origins = book.origins();
    if o < origins {
        return origin_row(book, o);
    }
    let d = o - origins;
    let destinations = book.destinations();
    if d < destinations {
        return destination_row(book, d);
    }
    leg_row(book, d - destinations)
}

// The lowest of what the rows of all sections are refused for.
#[tactic(auto, using(crate::proofs::Lowest::lowest_more, crate::proofs::Lowest::lower_none), unfolding(crate::specs::Elements::lowest_below),)]
fn lowest_refusal(book: &Book) -> Result<(), Refusal>
    ensures { number_of (told result) ≡ lowest_below (rows book.now) (row_number book.now) }
{
    let mut lowest = Ok(());
    for k in 0..book.rows() {
        if let Err(found) = row_refusal(book, k) {
            lowest = lower_of(lowest, Err(found));
        }
    }
    lowest
}

// Whether link 0 is all zero.
#[tactic(auto, unfolding(book_format::specs::Rows::link_zero, book_format::specs::Format::link_at))]
fn link_zero(book: &Book) -> bool
    requires links_nonzero { 0 < links book.now }
    ensures { result ≡ link_zero book.now }
{
    if book.link_length(0) != 0 {
        return false;
    }
    let l = book.link_at(0);
    (l.idx_next == 0) & (l.idx_next_alt == 0) & (l.idx_prev == 0) & (l.idx_prev_alt == 0)
}

// What the floats at the head and link 0 are refused for.
#[tactic(auto, unfolding(crate::specs::Elements::head_number, laws::specs::Refusals::first_of, book_format::specs::Format::head_patterns, book_format::specs::Rows::bad_head,),)]
fn head_refusal(book: &Book) -> Result<(), Refusal>
    requires links_nonzero { 0 < links book.now }
    ensures { number_of (told result) ≡ head_number book.now }
{
    if book.head_patterns().is_bad() {
        return Err(Refusal::BadValue);
    }
    if !link_zero(book) {
        return Err(Refusal::BadIndex);
    }
    Ok(())
}

// The lowest of rows 4 to 7 that some single row of a section, or a float at the head, is refused for.
#[tactic(auto, using(crate::proofs::Elements::lowest_all))]
pub fn lowest_row(book: &Book) -> Result<(), Refusal>
    requires links_nonzero { 0 < links book.now }
    ensures { number_of (told result) ≡ single_number book.now }
{
    lower_of(head_refusal(book), lowest_refusal(book))
}
