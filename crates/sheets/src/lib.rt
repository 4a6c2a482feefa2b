// A book to its listing, for programs. Contracts: specs/Sheets.antt.
#![tactic(auto)]

ghost use Rattle.std.specs.Prelude.{OnOk};
ghost use Rattle.net_node.specs.Lent.{lent_at_entry, lent_at_exit};
ghost use Rattle.sheets.specs.Sheets.{BookListed, SheetPrinted, SheetText};

use listing::ListingError;
use std::io;
use std::io::Write;

// The floats and numbers of 192 nodes.
const FLOATS: usize = 192 * net_node::FLOAT_WIDTH;

const NUMBERS: usize = 192 * net_node::NUMBER_WIDTH;

// Makes the sheet of a book and lists it, or its refusal, in a lent slice. Table and work space are left as
// `make_est_times` leaves them.
pub fn list_book(
    book: &[u8],
    floats: &mut [f64],
    numbers: &mut [u32],
    reals: &mut [f64],
    cells: &mut [u32],
    marks: &mut [u32],
    out: &mut [u8],
) -> Result<usize, ListingError>
    ensures { BookListed book.now (lent_at_entry floats numbers reals cells marks)
        (lent_at_exit floats numbers reals cells marks) out.old out.new result }
{
    let sheet = est_times::make_est_times(book, floats, numbers, reals, cells, marks);
    match sheet {
        Ok(report) => listing::list_sheet(floats, numbers, report, out),
        Err(refusal) => listing::list_refused(refusal.into(), out),
    }
}

// Writes what the program `sheet` prints for a book, on 192 nodes and 65,536 bytes of work space, into a lent array,
// which has room for it whatever the book is, and answers how many bytes that is.
pub fn sheet_text(book: &[u8], text: &mut [u8; 65536]) -> usize
    ensures { SheetText book.now text.new result }
{
    let mut floats = [0.0f64; FLOATS];
    let mut numbers = [0u32; NUMBERS];
    let mut reals = [0.0f64; 3072];
    let mut cells = [0u32; 8192];
    let mut marks = [0u32; 2048];
    let listed = list_book(
        book,
        &mut floats,
        &mut numbers,
        &mut reals,
        &mut cells,
        &mut marks,
        text,
    );
    // proved: there always is one
    listed.unwrap_or(0)
}

// Prints the listing of a book's sheet, or of its refusal: the bytes of `sheet_text`.
pub fn print_sheet<W: Write>(book: &[u8], to: &mut W) -> io::Result<()>
    ensures { OnOk result (SheetPrinted book.now (W.contents to.old) (W.contents to.new)) }
{
    let mut text = [0u8; 65536];
    let n = sheet_text(book, &mut text);
    to.write_all(&text[..n])
}
