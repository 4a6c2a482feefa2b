// Repeated origins (row 6) and repeated legs (row 7), found in one sweep each by a mark for every link.
// Contracts: book_format's specs/Rows.antt.
#![tactic(auto)]

ghost use Rattle.std.specs.Prelude.{◌≡◌, false, ◌+◌, ◌≤◌, ◌<◌, length};
ghost use Rattle.laws.specs.Below.{some_below};
ghost use Rattle.space.specs.Space.{zeros};
ghost use Rattle.book_format.specs.Format.{links, legs};
ghost use Rattle.book_format.specs.Rows.{some_origin_repeats, some_leg_repeats};
ghost use Rattle.book_format.specs.Chains.{Chained};
ghost use Rattle.book_repeats.specs.Repeats.{Under, child_repeats};

use book_format::{ReadableBook, ValidBook};

// Row 6: whether two origins have one link.
pub fn origins_repeat(book: &ValidBook, marks: &mut [u32]) -> bool
    requires marks_room { links book.now ≤ length marks.old }
    requires marks_zero { marks.old ≡ zeros (length marks.old) }
    ensures { result ≡ some_origin_repeats book.now }
{
    let rows = book.book();
    for i in 0..rows.origins() {
        let link = book.origin_at(i).link_idx as usize;
        if marks[link] == 1 {
            return true;
        }
        marks[link] = 1;
    }
    false
}

// Whether two children of leg number p have one link, 0 being the origins. They are walked from the last to the first,
// and each marks its link with p + 1.
fn children_repeat(book: &ReadableBook, cells: &[u32], marks: &mut [u32], p: usize) -> bool
    requires chained { Chained book.now cells.now }
    requires marks_room { links book.now ≤ length marks.old }
    requires p_lt_legs { p < legs book.now }
    requires under { Under marks.old p }
    ensures answer { result ≡ some_below (legs book.now) (child_repeats book.now p) }
    ensures stamped { Under marks.new (p + 1) }
{
    let rows = book.book();
    let mark = (p + 1) as u32;
    let mut j = cells[p * 8] as usize;
    while j > 0 {
        let link = rows.leg_at(j - 1).link_idx as usize;
        if marks[link] == mark {
            return true;
        }
        marks[link] = mark;
        j = cells[j * 8 + 1] as usize;
    }
    false
}

// Row 7: whether two legs have one parent and one link. A parent's number is below its child's, so below the count of
// legs.
pub fn legs_repeat(book: &ReadableBook, cells: &[u32], marks: &mut [u32]) -> bool
    requires chained { Chained book.now cells.now }
    requires marks_room { links book.now ≤ length marks.old }
    requires marks_zero { marks.old ≡ zeros (length marks.old) }
    ensures { result ≡ some_leg_repeats book.now }
{
    let rows = book.book();
    for p in 0..rows.legs() {
        if children_repeat(book, cells, marks, p) {
            return true;
        }
    }
    false
}
