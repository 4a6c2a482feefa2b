// `get_link_idx_options`: the set of the links that the search from the destinations meets, and the origins kept
// (row 8). Contracts: specs/Options.antt, specs/Turns.antt.
#![tactic(auto)]

ghost use Rattle.std.specs.Prelude.{◌≡◌, false, ℕ, ◌+◌, ◌*◌, ◌≤◌, ◌<◌, length, get_or, cond, Ok, Err, OnOk};
ghost use Rattle.space.specs.Space.{zeros};
ghost use Rattle.refusals.specs.declared.Refusal.TheVariants.{NoPath};
ghost use Rattle.book_format.specs.Format.{links, origins, destinations};
ghost use Rattle.book_format.specs.Rows.{bad_count, row6};
ghost use Rattle.book_options.specs.Options.{destination_zero, row8, link_options, search_room, OptionsIn};
ghost use Rattle.book_options.specs.Turns.{AllStacked, AllNumbered, Walking, SearchTurned};

use book_format::{Book, ValidBook};
use refusals::Refusal;

// How many links stand on the stack, and how many origins are kept. Both stand in the lent marks, since there is no
// heap.
#[derive(Clone, Copy)]
struct Walk {
    top: usize,
    kept: usize,
}

// Puts the destinations on the stack, unless one is link 0.
fn push_destinations(book: &Book, marks: &mut [u32]) -> Result<(), Refusal>
    requires room { links book.now + destinations book.now ≤ length marks.old }
    requires marks_zero { marks.old ≡ zeros (length marks.old) }
    ensures answer { result ≡ cond (destination_zero book.now) (Err NoPath) (Ok tt) }
    ensures pushed { OnOk result (AllStacked book.now marks.new) }
{
    let base = book.links();
    for i in 0..book.destinations() {
        let l = book.destination_link(i);
        if l == 0 {
            return Err(Refusal::NoPath);
        }
        marks[base + i] = l;
    }
    Ok(())
}

// Marks the origins' links: 2 * (row + 1). Row and set stand in one number, since document 02 gives the search two
// numbers for each link.
fn mark_origins(book: &ValidBook, marks: &mut [u32])
    requires counts_passed { bad_count book.now ≡ false }
    requires room { links book.now ≤ length marks.old }
    requires marks_blank { (l : ℕ) → l < links book.now → get_or marks.old l 0 ≡ 0 }
    ensures { AllNumbered book.now marks.old marks.new }
{
    let rows = book.book();
    for i in 0..rows.origins() {
        let l = book.origin_at(i).link_idx as usize;
        marks[l] = 2 * (i as u32 + 1);
    }
}

// Pops a link. One that is not in the set enters it: its origin is kept, or its previous links are pushed.
fn turn(book: &ValidBook, w: Walk, marks: &mut [u32]) -> Walk
    requires marks_len { length marks.old ≡ search_room book.now }
    requires walking { Walking book.now marks.old w }
    requires top_nonzero { 0 < w.top }
    ensures { SearchTurned book.now marks.old w marks.new result }
{
    let rows = book.book();
    let links = rows.links();
    let top = w.top - 1;
    let kept = w.kept;
    let at = links + top;
    let l = marks[at] as usize;
    let mark = marks[l];
    if mark % 2 == 1 {
        return Walk { top, kept };
    }
    marks[l] = mark + 1;
    if mark != 0 {
        let end = 2 * links + rows.destinations() + kept;
        marks[end] = mark / 2 - 1;
        return Walk {
            top,
            kept: kept + 1,
        };
    }
    let link = book.link_at(l);
    if link.idx_prev == 0 {
        return Walk { top, kept };
    }
    marks[at] = link.idx_prev;
    if link.idx_prev_alt == 0 {
        return Walk { top: top + 1, kept };
    }
    marks[at + 1] = link.idx_prev_alt;
    Walk { top: top + 2, kept }
}

// How many numbers the search of a book with these counts asks for.
pub fn room_of(links: usize, destinations: usize, origins: usize) -> usize
    requires links_most { links ≤ 65535 }
    requires destinations_most { destinations ≤ 1000 }
    requires origins_most { origins ≤ 1000 }
    ensures { result ≡ 2 * links + destinations + origins }
{
    2 * links + destinations + origins
}

// How many numbers the search asks for: two for each link, one for each destination and one for each origin.
pub fn search_room(book: &Book) -> usize
    requires links_most { links book.now ≤ 65535 }
    requires destinations_most { destinations book.now ≤ 1000 }
    requires origins_most { origins book.now ≤ 1000 }
    ensures { result ≡ search_room book.now }
{
    room_of(book.links(), book.destinations(), book.origins())
}

// How many origins are kept, or that a destination is link 0 or no origin is kept (row 8). The marks are the search's
// whole work space, of just the length that it asks for: one number for each link, then the stack (links and
// destinations), then the kept origins.
pub fn get_link_idx_options(book: &ValidBook, marks: &mut [u32]) -> Result<usize, Refusal>
    requires counts_passed { bad_count book.now ≡ false }
    requires row6_passed { row6 book.now ≡ false }
    requires marks_len { length marks.old ≡ search_room book.now }
    requires marks_zero { marks.old ≡ zeros (length marks.old) }
    ensures answer { result ≡ link_options book.now }
    ensures marked { row8 book.now ≡ false → OptionsIn book.now marks.new }
{
    let rows = book.book();
    push_destinations(rows, marks)?;
    mark_origins(book, marks);
    let mut w = Walk {
        top: rows.destinations(),
        kept: 0,
    };
    while w.top > 0 {
        w = turn(book, w, marks);
    }
    if w.kept == 0 {
        return Err(Refusal::NoPath);
    }
    Ok(w.kept)
}
