// The format of a book: where its sections begin, its rows as structs by value, and tests of counts and samples.
// Contracts: specs/Format.antt, specs/Rows.antt, specs/Chains.antt.
#![tactic(auto)]

ghost use Rattle.std.specs.Prelude.{◌≡◌, true, false, ◌+◌, ◌-◌, ◌*◌, ◌≤◌, ◌<◌, length, cond, ltb, Ok, Err, IfOk};
ghost use Rattle.fields.specs.Fields.{u32_at};
ghost use Rattle.floats.specs.Floats.{book_float};
ghost use Rattle.refusals.specs.Refusals.{told};
ghost use Rattle.refusals.specs.declared.Refusal.TheVariants.{CutOff};
ghost use Rattle.book_format.specs.Format.{links, origins, destinations, legs, samples, rows, end_of};
ghost use Rattle.book_format.specs.Format.{links_at_of, origins_at_of, samples_at_of};
ghost use Rattle.book_format.specs.Format.{destinations_at_of, legs_at_of};
ghost use Rattle.book_format.specs.Format.{link_width, origin_width, sample_width};
ghost use Rattle.book_format.specs.Format.{link_length, origin_offset, destination_link, link_at, origin_at, leg_at};
ghost use Rattle.book_format.specs.Format.{sample_from, sample_at, patterns_from, sample_patterns};
ghost use Rattle.book_format.specs.Format.{head_patterns, float_of};
ghost use Rattle.book_format.specs.Rows.{row4, row5, some_bad_leg};
ghost use Rattle.book_format.specs.Rows.{measured_of, outside_limits, bad_sample_from, bad_sample, bad_patterns};
ghost use Rattle.book_format.specs.Rows.{bad_head, sample_falls};
ghost use Rattle.book_format.specs.Chains.{Counted, Valid, Readable};

use refusals::Refusal;
use std::marker::Model;

// The counts of a book, and where the first row of each section but the links' stands.
#[derive(Clone, Copy)]
struct Sections {
    links: usize,
    origins: usize,
    destinations: usize,
    legs: usize,
    samples: usize,
    origins_at: usize,
    destinations_at: usize,
    legs_at: usize,
    samples_at: usize,
    end: usize,
}

// A book that rows 1 and 2 let through: its bytes, of just the length that its counts say.
#[derive(Clone, Drop)]
pub struct Book<'a> {
    bytes: &'a [u8],
    sections: Sections,
}

impl<'a> Model for Book<'a> {
    ghost use Rattle.std.specs.Prelude.{ℕ, List};
    ghost use Rattle.book_format.specs.Format.{Sized};

    ghost Value = { List ℕ };

    ghost view = { λ b. b.bytes.now };

    ghost invariant = { λ b. Sized b.bytes.now b.sections };
}

// A book that rows 4 and 5 let through as well: its floats are a book's, and its indices name something.
#[derive(Clone, Drop)]
pub struct ValidBook<'a> {
    book: Book<'a>,
}

impl<'a> Model for ValidBook<'a> {
    ghost use Rattle.std.specs.Prelude.{ℕ, List};
    ghost use Rattle.book_format.specs.Chains.{Valid};

    ghost Value = { List ℕ };

    ghost view = { λ b. b.book };

    ghost invariant = { λ b. Valid b.book };
}

// A book whose legs can be followed: row 3 lets its counts and legs through, and row 7 each single leg.
#[derive(Clone, Drop)]
pub struct ReadableBook<'a> {
    book: ValidBook<'a>,
}

impl<'a> Model for ReadableBook<'a> {
    ghost use Rattle.std.specs.Prelude.{ℕ, List};
    ghost use Rattle.book_format.specs.Chains.{Readable};

    ghost Value = { List ℕ };

    ghost view = { λ b. b.book };

    ghost invariant = { λ b. Readable b.book };
}

#[derive(Clone, Copy)]
pub struct Link {
    pub length: f64,
    pub idx_next: u32,
    pub idx_next_alt: u32,
    pub idx_prev: u32,
    pub idx_prev_alt: u32,
}

// The fields of an origin's and a leg's row are those of the bytes, before row 4 or 7 has looked at them:
// `is_front_end` may be any number, and a parent 0 is none.
#[derive(Clone, Copy)]
pub struct Origin {
    pub link_idx: u32,
    pub offset: f64,
    pub is_front_end: u32,
}

#[derive(Clone, Copy)]
pub struct Leg {
    pub link_idx: u32,
    pub parent: u32,
    pub samples: u32,
}

#[derive(Clone, Copy)]
pub struct Sample {
    pub time: f64,
    pub offset: f64,
    pub speed: f64,
}

// The patterns of a sample's floats, whatever they are.
#[derive(Clone, Copy, PartialEq, Eq)]
pub struct SamplePatterns {
    pub time: u64,
    pub offset: u64,
    pub speed: u64,
}

impl SamplePatterns {
    // Row 4: whether one of the three is none that a book may hold.
    #[tactic(auto, unfolding(crate::specs::Rows::bad_patterns))]
    pub fn is_bad(self) -> bool
        ensures { result ≡ bad_patterns self }
    {
        !floats::is_book_float(self.time)
            | !floats::is_book_float(self.offset)
            | !floats::is_book_float(self.speed)
    }
}

// The patterns of the three floats at the head: the speed gap J of a join, the departure and the train's length.
#[derive(Clone, Copy)]
pub struct HeadPatterns {
    pub join: u64,
    pub departure: u64,
    pub length: u64,
}

impl HeadPatterns {
    // Row 4: whether one of the three is none that a book may hold.
    #[tactic(auto, unfolding(crate::specs::Rows::bad_head))]
    pub fn is_bad(self) -> bool
        ensures { result ≡ bad_head self }
    {
        !floats::is_book_float(self.join)
            | !floats::is_book_float(self.departure)
            | !floats::is_book_float(self.length)
    }
}

const LINKS_AT: usize = 28;

const LINK_WIDTH: usize = 24;

const ORIGIN_WIDTH: usize = 16;

const DESTINATION_WIDTH: usize = 4;

const LEG_WIDTH: usize = 12;

pub const SAMPLE_WIDTH: usize = 24;

// The float of a pattern that a book may hold.
#[tactic(auto, using(crate::proofs::Floats::book_no_nan))]
fn float_of(bits: u64) -> f64
    requires { book_float bits ≡ true }
    ensures { result ≡ float_of bits }
{
    f64::from_bits(bits)
}

// The count that stands just before the first row of a section, if the bytes reach so far (row 1). Its bound is what
// keeps the sums of `measure` in range.
fn count_before(bytes: &[u8], at: usize) -> Result<usize, Refusal>
    requires { 4 ≤ at }
    ensures answer { result ≡ cond (ltb (length bytes.now) at) (Err CutOff) (Ok (u32_at bytes.now (at - 4))) }
    ensures count_bounded { IfOk result (λ n. n < 4294967296) }
{
    if bytes.len() < at {
        return Err(Refusal::CutOff);
    }
    Ok(fields::u32_at(bytes, at - 4) as usize)
}

// Where row i of a section stands, whose first row stands at `at`. It stays a place, and no slice of the row: so each
// field is read at the offset that the definitions have.
fn row_place(book: &[u8], at: usize, width: usize, i: usize) -> usize
    requires { at + i * width + width ≤ length book.now }
    ensures is { result ≡ at + i * width }
    ensures inside { result + width ≤ length book.now }
{
    at + i * width
}

impl<'a> Book<'a> {
    // The book that these bytes are, if they end just where its counts say: neither too early (row 1), nor with bytes
    // left over (row 2).
    pub fn measure(bytes: &'a [u8]) -> Result<Book<'a>, Refusal>
        ensures { told result ≡ measured_of bytes.now }
    {
        let links = count_before(bytes, LINKS_AT)?;
        let origins_at = LINKS_AT + links * LINK_WIDTH + 4;
        let origins = count_before(bytes, origins_at)?;
        let destinations_at = origins_at + origins * ORIGIN_WIDTH + 4;
        let destinations = count_before(bytes, destinations_at)?;
        let legs_at = destinations_at + destinations * DESTINATION_WIDTH + 4;
        let legs = count_before(bytes, legs_at)?;
        let samples_at = legs_at + legs * LEG_WIDTH + 4;
        let samples = count_before(bytes, samples_at)?;
        let end = samples_at + samples * SAMPLE_WIDTH;
        let len = bytes.len();
        if len < end {
            return Err(Refusal::CutOff);
        }
        if end < len {
            return Err(Refusal::LeftOver);
        }
        let sections = Sections {
            links,
            origins,
            destinations,
            legs,
            samples,
            origins_at,
            destinations_at,
            legs_at,
            samples_at,
            end,
        };
        Ok(Book { bytes, sections })
    }

    // The bytes.
    pub fn bytes(&self) -> &'a [u8]
        ensures is { result.now ≡ self.now }
        ensures whole { length result.now ≡ end_of result.now }
    {
        self.bytes
    }

    // How many links there are.
    #[tactic(auto, using(crate::proofs::Places::sized_links))]
    pub fn links(&self) -> usize
        ensures { result ≡ links self.now }
    {
        self.sections.links
    }

    // How many origins there are.
    #[tactic(auto, using(crate::proofs::Places::sized_origins))]
    pub fn origins(&self) -> usize
        ensures { result ≡ origins self.now }
    {
        self.sections.origins
    }

    // How many destinations there are.
    #[tactic(auto, using(crate::proofs::Places::sized_destinations))]
    pub fn destinations(&self) -> usize
        ensures { result ≡ destinations self.now }
    {
        self.sections.destinations
    }

    // How many legs there are.
    #[tactic(auto, using(crate::proofs::Places::sized_legs))]
    pub fn legs(&self) -> usize
        ensures { result ≡ legs self.now }
    {
        self.sections.legs
    }

    // How many samples all legs have.
    #[tactic(auto, using(crate::proofs::Places::sized_samples))]
    pub fn samples(&self) -> usize
        ensures { result ≡ samples self.now }
    {
        self.sections.samples
    }

    // How many rows all sections have.
    #[tactic(auto, using(crate::proofs::Places::rows_fit, crate::proofs::Places::sized_rows))]
    pub fn rows(&self) -> usize
        ensures { result ≡ rows self.now }
    {
        let s = &self.sections;
        s.legs + s.destinations + s.origins + s.links + s.samples
    }

    // Where the first origin stands, and below the first row of each section after it.
    #[tactic(auto, using(crate::proofs::Places::sized_origins_at))]
    pub fn origins_at(&self) -> usize
        ensures { result ≡ origins_at_of self.now }
    {
        let Sections { origins_at, .. } = self.sections;
        origins_at
    }

    #[tactic(auto, using(crate::proofs::Places::sized_destinations_at))]
    pub fn destinations_at(&self) -> usize
        ensures { result ≡ destinations_at_of self.now }
    {
        let Sections {
            destinations_at,
            ..
        } = self.sections;
        destinations_at
    }

    #[tactic(auto, using(crate::proofs::Places::sized_legs_at))]
    pub fn legs_at(&self) -> usize
        ensures { result ≡ legs_at_of self.now }
    {
        let Sections { legs_at, .. } = self.sections;
        legs_at
    }

    // Where the first sample stands.
    #[tactic(auto, using(crate::proofs::Places::sized_samples_at))]
    pub fn samples_at(&self) -> usize
        ensures { result ≡ samples_at_of self.now }
    {
        self.sections.samples_at
    }

    // Where the row of a link stands. One function for each section that is read twice: each has its own law of where
    // the section begins.
    fn link_place(&self, i: usize) -> usize
        requires i_lt_links { i < links self.now }
        ensures is { result ≡ links_at_of + i * link_width }
        ensures inside { result + link_width ≤ length self.now }
    {
        row_place(self.bytes, LINKS_AT, LINK_WIDTH, i)
    }

    // Where the row of an origin stands.
    #[tactic(auto, using(crate::proofs::Places::sized_origins_at))]
    fn origin_place(&self, i: usize) -> usize
        requires i_lt_origins { i < origins self.now }
        ensures is { result ≡ origins_at_of self.now + i * origin_width }
        ensures inside { result + origin_width ≤ length self.now }
    {
        row_place(self.bytes, self.sections.origins_at, ORIGIN_WIDTH, i)
    }

    // Where the row of a sample stands.
    #[tactic(auto, using(crate::proofs::Places::sized_samples_at))]
    fn sample_place(&self, i: usize) -> usize
        requires i_lt_samples { i < samples self.now }
        ensures is { result ≡ samples_at_of self.now + i * sample_width }
        ensures inside { result + sample_width ≤ length self.now }
    {
        row_place(self.bytes, self.sections.samples_at, SAMPLE_WIDTH, i)
    }

    // The pattern of a link's length.
    #[tactic(auto, unfolding(crate::specs::Format::link_length))]
    pub fn link_length(&self, i: usize) -> u64
        requires i_lt_links { i < links self.now }
        ensures { result ≡ link_length self.now i }
    {
        fields::u64_at(self.bytes, self.link_place(i))
    }

    // A link whose length is a book's float.
    #[tactic(auto, unfolding(crate::specs::Format::link_length, crate::specs::Format::link_at, crate::specs::Format::link_next, crate::specs::Format::link_next_alt, crate::specs::Format::link_prev, crate::specs::Format::link_prev_alt,),)]
    pub fn link_at(&self, i: usize) -> Link
        requires i_lt_links { i < links self.now }
        requires length_passed { book_float (link_length self.now i) ≡ true }
        ensures { result ≡ link_at self.now i }
    {
        let bytes = self.bytes;
        let at = self.link_place(i);
        let length = float_of(fields::u64_at(bytes, at));
        let idx_next = fields::u32_at(bytes, at + 8);
        let idx_next_alt = fields::u32_at(bytes, at + 12);
        let idx_prev = fields::u32_at(bytes, at + 16);
        let idx_prev_alt = fields::u32_at(bytes, at + 20);
        Link {
            length,
            idx_next,
            idx_next_alt,
            idx_prev,
            idx_prev_alt,
        }
    }

    // The pattern of an origin's offset.
    #[tactic(auto, unfolding(crate::specs::Format::origin_offset))]
    pub fn origin_offset(&self, i: usize) -> u64
        requires i_lt_origins { i < origins self.now }
        ensures { result ≡ origin_offset self.now i }
    {
        fields::u64_at(self.bytes, self.origin_place(i) + 4)
    }

    // An origin whose offset is a book's float.
    #[tactic(auto, unfolding(crate::specs::Format::origin_at, crate::specs::Format::origin_link, crate::specs::Format::origin_offset, crate::specs::Format::origin_front,),)]
    pub fn origin_at(&self, i: usize) -> Origin
        requires i_lt_origins { i < origins self.now }
        requires offset_passed { book_float (origin_offset self.now i) ≡ true }
        ensures { result ≡ origin_at self.now i }
    {
        let bytes = self.bytes;
        let at = self.origin_place(i);
        let link_idx = fields::u32_at(bytes, at);
        let offset = float_of(fields::u64_at(bytes, at + 4));
        let is_front_end = fields::u32_at(bytes, at + 12);
        Origin {
            link_idx,
            offset,
            is_front_end,
        }
    }

    // A destination's link.
    #[tactic(auto, using(crate::proofs::Places::sized_destinations_at), unfolding(crate::specs::Format::destination_link),)]
    pub fn destination_link(&self, i: usize) -> u32
        requires i_lt_destinations { i < destinations self.now }
        ensures { result ≡ destination_link self.now i }
    {
        let bytes = self.bytes;
        let at = row_place(bytes, self.sections.destinations_at, DESTINATION_WIDTH, i);
        fields::u32_at(bytes, at)
    }

    // The leg in row i, whose number is i + 1.
    #[tactic(auto, using(crate::proofs::Places::sized_legs_at), unfolding(crate::specs::Format::leg_at, crate::specs::Format::leg_link, crate::specs::Format::leg_parent, crate::specs::Format::leg_samples,),)]
    pub fn leg_at(&self, i: usize) -> Leg
        requires i_lt_legs { i < legs self.now }
        ensures { result ≡ leg_at self.now i }
    {
        let bytes = self.bytes;
        let at = row_place(bytes, self.sections.legs_at, LEG_WIDTH, i);
        let link_idx = fields::u32_at(bytes, at);
        let parent = fields::u32_at(bytes, at + 4);
        let samples = fields::u32_at(bytes, at + 8);
        Leg {
            link_idx,
            parent,
            samples,
        }
    }

    // The patterns of a sample.
    #[tactic(auto, unfolding(crate::specs::Format::patterns_from, crate::specs::Format::sample_patterns, crate::specs::Format::sample_time, crate::specs::Format::sample_offset, crate::specs::Format::sample_speed,),)]
    pub fn sample_patterns(&self, i: usize) -> SamplePatterns
        requires i_lt_samples { i < samples self.now }
        ensures { result ≡ sample_patterns self.now i }
    {
        patterns_from(self.bytes, self.sample_place(i))
    }

    // A sample of a book whose three floats are a book's.
    #[tactic(auto, unfolding(crate::specs::Format::sample_at, crate::specs::Rows::bad_sample),)]
    pub fn sample_at(&self, i: usize) -> Sample
        requires i_lt_samples { i < samples self.now }
        requires floats_passed { bad_sample self.now i ≡ false }
        ensures { result ≡ sample_at self.now i }
    {
        sample_from(self.bytes, self.sample_place(i))
    }

    // The patterns of the three floats at the head: J, the departure and the train's length.
    #[tactic(auto, using(crate::proofs::Places::head_inside), unfolding(crate::specs::Format::head_patterns, crate::specs::Format::join_bits, crate::specs::Format::departure_bits, crate::specs::Format::length_bits,),)]
    pub fn head_patterns(&self) -> HeadPatterns
        ensures { result ≡ head_patterns self.now }
    {
        let bytes = self.bytes;
        let join = fields::u64_at(bytes, 0);
        let departure = fields::u64_at(bytes, 8);
        let length = fields::u64_at(bytes, 16);
        HeadPatterns {
            join,
            departure,
            length,
        }
    }
}

impl<'a> ValidBook<'a> {
    // A book of which rows 4 and 5 don't hold.
    pub fn new(book: Book<'a>) -> ValidBook<'a>
        requires row4_passed { row4 book ≡ false }
        requires row5_passed { row5 book ≡ false }
        ensures { result ≡ book.entry }
    {
        ValidBook { book }
    }

    // The book, whose rows 4 and 5 have passed.
    pub fn book(&self) -> &Book<'a>
        ensures is { result.now ≡ self.now }
        ensures valid { Valid self.now }
    {
        &self.book
    }

    // A link.
    #[tactic(auto, using(crate::proofs::Given::link_float))]
    pub fn link_at(&self, i: usize) -> Link
        requires i_lt_links { i < links self.now }
        ensures { result ≡ link_at self.now i }
    {
        self.book.link_at(i)
    }

    // An origin.
    #[tactic(auto, using(crate::proofs::Given::origin_float))]
    pub fn origin_at(&self, i: usize) -> Origin
        requires i_lt_origins { i < origins self.now }
        ensures { result ≡ origin_at self.now i }
    {
        self.book.origin_at(i)
    }

    // A sample.
    #[tactic(auto, using(crate::proofs::Given::sample_good))]
    pub fn sample_at(&self, i: usize) -> Sample
        requires i_lt_samples { i < samples self.now }
        ensures { result ≡ sample_at self.now i }
    {
        self.book.sample_at(i)
    }
}

impl<'a> ReadableBook<'a> {
    // A valid book whose counts and legs row 3 lets through, and each single leg row 7.
    pub fn new(book: ValidBook<'a>) -> ReadableBook<'a>
        requires counted { Counted book }
        requires legs_passed { some_bad_leg book ≡ false }
        ensures { result ≡ book.entry }
    {
        // The invariant of the book inside is used.
        let _ = &book.book;
        ReadableBook { book }
    }

    // The book, valid as it is.
    pub fn valid(&self) -> &ValidBook<'a>
        ensures is { result.now ≡ self.now }
        ensures readable { Readable result.now }
    {
        &self.book
    }

    // The book, whose legs can be followed.
    pub fn book(&self) -> &Book<'a>
        ensures is { result.now ≡ self.now }
        ensures readable { Readable result.now }
    {
        self.book.book()
    }
}

// The patterns of the sample whose first byte is at `at`.
#[tactic(auto, unfolding(crate::specs::Format::patterns_from))]
pub fn patterns_from(bytes: &[u8], at: usize) -> SamplePatterns
    requires row_inside { at + 24 ≤ length bytes.now }
    ensures { result ≡ patterns_from bytes.now at }
{
    let time = fields::u64_at(bytes, at);
    let offset = fields::u64_at(bytes, at + 8);
    let speed = fields::u64_at(bytes, at + 16);
    SamplePatterns {
        time,
        offset,
        speed,
    }
}

// The sample whose first byte is at `at`, if its three floats are a book's.
#[tactic(auto, using(crate::proofs::Floats::sample_floats), unfolding(crate::specs::Format::patterns_from, crate::specs::Format::sample_from),)]
pub fn sample_from(bytes: &[u8], at: usize) -> Sample
    requires row_inside { at + 24 ≤ length bytes.now }
    requires floats_passed { bad_sample_from bytes.now at ≡ false }
    ensures { result ≡ sample_from bytes.now at }
{
    let p = patterns_from(bytes, at);
    Sample {
        time: float_of(p.time),
        offset: float_of(p.offset),
        speed: float_of(p.speed),
    }
}

// Whether a count is outside 1 to its limit (row 3).
pub fn is_outside(limit: usize, n: usize) -> bool
    ensures { result ≡ outside_limits limit n }
{
    (n == 0) | (limit < n)
}

// Whether sample b, which comes after a, is no later, or further back (row 7).
#[tactic(auto, unfolding(crate::specs::Rows::sample_falls))]
pub fn sample_falls(a: Sample, b: Sample) -> bool
    ensures { result ≡ sample_falls a b }
{
    !(a.time < b.time) | (b.offset < a.offset)
}
