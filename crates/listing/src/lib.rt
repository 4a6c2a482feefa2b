// The listing of a sheet, as bytes. Contracts: specs/Listing.antt, specs/Written.antt.
#![tactic(auto)]

ghost use Rattle.std.specs.Prelude.{◌≡◌, [], ◌∷◌, ◌++◌, ◌-◌, ◌^◌, ◌≤◌, ◌<◌, length, take, drop};
ghost use Rattle.std.proofs.Math.Option.{some};
ghost use Rattle.space.specs.Space.{zeros};
ghost use Rattle.net_node.specs.Table.{node_at};
ghost use Rattle.net_node.specs.Left.{filled};
ghost use Rattle.net_node.specs.Lent.{table_seen};
ghost use Rattle.listing.specs.Listing.{glyph, letter, digits, decimal, float};
ghost use Rattle.listing.specs.Listing.{line, lines, head, refused_text, sheet_in, TextListed};
ghost use Rattle.listing.specs.Written.{Puts, Finishes};

use net_node::{EstTime, EstType};
use report::Report;
use space::Zero;

// Why there is no listing. Not a `Refusal`: rows 1 to 16 are about books and tables, and have no row for a slice to
// print into.
#[derive(Clone, Copy, Debug, PartialEq, Eq)]
pub enum ListingError {
    // the slice is too short for it
    Short,
    // the table has fewer nodes than the report says
    Unfilled,
}

// What functions for other languages tell of it: a number that no refusal has.
impl From<ListingError> for u32 {
    ghost use Rattle.std.specs.Prelude.{◌≡◌};
    ghost use Rattle.listing.specs.Listing.{error_number};

    ghost from_gives = { λ e n. n ≡ error_number e };

    fn from(error: ListingError) -> u32 {
        match error {
            ListingError::Short => 101,
            ListingError::Unfilled => 102,
        }
    }
}

// A hexadecimal digit. std's `char::from_digit` gives an `Option` of a `char`, which a byte has to be made of again.
#[tactic(auto, unfolding(crate::specs::Listing::glyph))]
fn glyph(d: u64) -> u8
    requires { d < 16 }
    ensures { result ≡ glyph d }
{
    if d < 10 {
        b'0' + d as u8
    } else {
        b'a' - 10 + d as u8
    }
}

// Fills a place with the last hexadecimal digits of a number, the last one first.
fn fill_hex(place: &mut [u8], n: u64)
    ensures { place.new ≡ digits 16 (length place.old) n }
{
    let Some((last, before)) = place.split_last_mut() else {
        return;
    };
    *last = glyph(n % 16);
    fill_hex(before, n / 16);
}

// Fills the end of a place with a number in decimal, the last digit first: where its first digit stands.
fn fill_decimal(place: &mut [u8], n: u64) -> usize
    requires room { 0 < length place.old }
    requires fits { n < 10 ^ length place.old }
    ensures within { result ≤ length place.old }
    ensures digits { drop result place.new ≡ decimal n }
{
    let Some((last, before)) = place.split_last_mut() else {
        return 0;
    };
    *last = b'0' + (n % 10) as u8;
    if n < 10 {
        return before.len();
    }
    fill_decimal(before, n / 10)
}

// The letter of a kind. `From` can't stand here: the kind is net_node's and the byte is std's.
fn letter(kind: EstType) -> u8
    ensures { result ≡ letter kind }
{
    match kind {
        EstType::Arrive => b'A',
        EstType::Clear => b'C',
        EstType::Fake => b'F',
    }
}

// A text that is put into a slice, and where its next byte goes; `None` where it has not fitted. `write!` would tell
// nothing of when it fails, and a listing's promise says exactly when, so fields are put by hand.
struct Text<'a> {
    out: &'a mut [u8],
    at: Option<usize>,
}

impl Text<'_> {
    // Puts a byte behind the text.
    fn put_byte(&mut self, byte: u8)
        ensures { Puts self.old (byte ∷ []) self.new }
    {
        self.put_bytes(&[byte]);
    }

    // Puts bytes behind the text: where there is no room for them all, none.
    fn put_bytes(&mut self, bytes: &[u8])
        ensures { Puts self.old bytes.now self.new }
    {
        let Some(at) = self.at else {
            return;
        };
        let end = at.saturating_add(bytes.len());
        if end <= self.out.len() {
            self.out[at..end].copy_from_slice(bytes);
            self.at = Some(end);
            return;
        }
        self.at = None;
    }

    // Puts a number in decimal behind the text.
    fn put_decimal(&mut self, n: u64)
        ensures { Puts self.old (decimal n) self.new }
    {
        let mut text = [0u8; 20];
        let at = fill_decimal(&mut text, n);
        self.put_bytes(&text[at..]);
    }

    // Puts a word and a number in decimal behind the text.
    fn put_field(&mut self, word: &[u8], n: u64)
        ensures { Puts self.old (word.now ++ decimal n) self.new }
    {
        self.put_bytes(word);
        self.put_decimal(n);
    }

    // Puts the last `count` hexadecimal digits of a number behind the text, as many as the number has places.
    fn put_hex(&mut self, n: u64, count: usize)
        requires { count ≤ 16 }
        ensures { Puts self.old (digits 16 count n) self.new }
    {
        let mut hex = [0u8; 16];
        let place = &mut hex[..count];
        fill_hex(place, n);
        self.put_bytes(place);
    }

    // Puts a blank and the hexadecimal digits of a float's bits behind the text, without closing zeros.
    fn put_float(&mut self, x: f64)
        ensures { Puts self.old (32 ∷ float x) self.new }
    {
        let bits = floats::bits_of(x);
        let zeros = (bits.trailing_zeros() / 4).min(15);
        self.put_byte(b' ');
        self.put_hex(bits >> (4 * zeros), 16 - zeros as usize);
    }

    // Puts a node's line behind the text.
    fn put_line(&mut self, i: usize, node: EstTime)
        ensures { Puts self.old (line i node) self.new }
    {
        self.put_decimal(i as u64);
        self.put_byte(b' ');
        self.put_byte(letter(node.link_event.est_type));
        self.put_field(b" ", node.link_event.link_idx as u64);
        self.put_field(b" ", node.idx_next as u64);
        self.put_field(b" ", node.idx_next_alt as u64);
        self.put_field(b" ", node.idx_prev as u64);
        self.put_field(b" ", node.idx_prev_alt as u64);
        self.put_float(node.time_sched);
        self.put_float(node.time_to_next);
        self.put_float(node.dist_to_next);
        self.put_float(node.speed);
        self.put_byte(b'\n');
    }

    // Puts the lines of the first n nodes behind the text: as many as the report says, which may be fewer than the
    // slices hold.
    fn put_lines(&mut self, floats: &[f64], numbers: &[u32], n: usize)
        requires { n ≤ filled (length floats.now) (length numbers.now) }
        ensures { Puts self.old (lines (node_at floats.now numbers.now) n) self.new }
    {
        for i in 0..n {
            self.put_line(i, net_node::load(floats, numbers, i));
        }
    }

    // Puts a report's line behind the text.
    fn put_head(&mut self, report: Report)
        ensures { Puts self.old (head report) self.new }
    {
        self.put_field(b"nodes ", report.nodes as u64);
        self.put_field(b" added ", report.added as u64);
        self.put_field(b" splits ", report.splits as u64);
        self.put_field(b" joined ", report.joined as u64);
        self.put_field(b" finished ", report.finished as u64);
        self.put_byte(b'\n');
    }

    // Makes zero what lies behind the text, or everything if it has not fitted: how long the text is.
    fn finish(self) -> Result<usize, ListingError>
        ensures { Finishes self.entry self.exit.0.now result }
    {
        let Text { out, at } = self;
        space::clear_from(out, at.unwrap_or(0));
        at.ok_or(ListingError::Short)
    }
}

// Lists a sheet: its report, then as many nodes as that says. A slice that is too short is left zero, and so is one for
// a table that has fewer nodes.
pub fn list_sheet(
    floats: &[f64],
    numbers: &[u32],
    report: Report,
    out: &mut [u8],
) -> Result<usize, ListingError>
    ensures { TextListed (sheet_in report (table_seen floats numbers)) out.old
        out.new result }
{
    let n = report.nodes;
    let filled = net_node::nodes_filled(floats.len(), numbers.len());
    if filled < n {
        Zero::clear(out);
        return Err(ListingError::Unfilled);
    }
    let mut text = Text { out, at: Some(0) };
    text.put_head(report);
    text.put_lines(floats, numbers, n);
    text.finish()
}

// Lists a refusal by its number.
pub fn list_refused(number: u32, out: &mut [u8]) -> Result<usize, ListingError>
    ensures { TextListed (some (refused_text number)) out.old out.new result }
{
    let mut text = Text { out, at: Some(0) };
    text.put_field(b"refused ", number as u64);
    text.put_byte(b'\n');
    text.finish()
}
