// The event maker: samples, points and a train's length in, the events of one leg out. Contract: specs/Maker.antt.
#![tactic(auto)]

ghost use Rattle.std.specs.Prelude.{◌≡◌, Bool, false, ℕ, suc, ◌+◌, ◌-◌, ◌*◌, ◌≤◌, ◌<◌, length};
ghost use Rattle.laws.specs.Answer.{number_of};
ghost use Rattle.refusals.specs.Refusals.{told};
ghost use Rattle.book_format.specs.Format.{sample_width};
ghost use Rattle.space.specs.Space.{zeros, zero_floats};
ghost use Rattle.event_walk.specs.Course.{course_of};
ghost use Rattle.event_walk.specs.Held.{course_held};
ghost use Rattle.event_maker.specs.Maker.{lent_leg, list_at_entry, list_at_exit, list_places, event_float_width};
ghost use Rattle.event_maker.specs.Maker.{event_number_width, EventsMade};
ghost use Rattle.event_maker.specs.Parts.{first_number, Tells, sweep_answer, bad_at, falls_at};
ghost use Rattle.event_maker.specs.Parts.{count_answer, put_event_floats, put_event_numbers, EventsListed};

use event_walk::{Course, Movement, PassedPoint};
use refusals::Refusal;
use space::Zero;

// How many floats and how many numbers an event has in the list.
const EVENT_FLOATS: usize = 3;

const EVENT_NUMBERS: usize = 2;

// How many events the list has places for.
#[tactic(auto, unfolding(crate::specs::Maker::list_places))]
fn list_places(floats: usize, numbers: usize) -> usize
    ensures { result ≡ list_places floats numbers }
{
    (floats / EVENT_FLOATS).min(numbers / EVENT_NUMBERS)
}

// ---- rows 3, 4, 7, and 11 for the samples

// One sweep over n rows: refused if one is bad, and else whether one falls against the row before it.
fn sweep<B: Fn(usize) -> bool, F: Fn(usize) -> bool>(
    n: usize,
    is_bad: B,
    falls: F,
) -> Result<bool, Refusal>
    requires n_nonzero { 0 < n }
    requires is_bad { (i : ℕ) → i < n → B.pre is_bad i }
    requires falls { (i : ℕ) → i + 1 < n → B.post is_bad i false → B.post is_bad (i + 1) false → F.pre falls i }
    ensures { (bad fallen : ℕ → Bool) → Tells n (B.post is_bad) bad → Tells (n - 1) (F.post falls) fallen
        → told result ≡ sweep_answer n bad fallen }
{
    if is_bad(0) {
        return Err(Refusal::BadValue);
    }
    let mut fell = false;
    for i in 1..n {
        if is_bad(i) {
            return Err(Refusal::BadValue);
        }
        fell = fell | falls(i - 1);
    }
    Ok(fell)
}

// Whether sample i has a float that a book may not hold.
#[tactic(auto, unfolding(crate::specs::Parts::bad_at, book_format::specs::Format::patterns_from, book_format::specs::Rows::bad_sample_from, book_format::specs::Rows::bad_patterns,),)]
fn is_bad_sample(samples: &[u8], i: usize) -> bool
    requires { i * sample_width + sample_width ≤ length samples.now }
    ensures { result ≡ bad_at samples.now i }
{
    book_format::patterns_from(samples, i * book_format::SAMPLE_WIDTH).is_bad()
}

// Whether the sample after number i is no later, or further back.
#[tactic(auto, unfolding(crate::specs::Parts::bad_at, crate::specs::Parts::falls_at))]
fn sample_falls(samples: &[u8], i: usize) -> bool
    requires next_inside { suc i * sample_width + sample_width ≤ length samples.now }
    requires floats_passed { bad_at samples.now i ≡ false }
    requires next_passed { bad_at samples.now (i + 1) ≡ false }
    ensures { result ≡ falls_at samples.now i }
{
    let a = book_format::sample_from(samples, i * book_format::SAMPLE_WIDTH);
    let b = book_format::sample_from(samples, (i + 1) * book_format::SAMPLE_WIDTH);
    book_format::sample_falls(a, b)
}

// Rows 3, 4 and 7, and 11 for the samples, in that order.
fn first_refusal(samples: &[u8], offsets: &[f64], m: Movement) -> Result<(), Refusal>
    requires from_start { m.at ≡ 0 }
    requires samples_inside { m.samples * sample_width ≤ length samples.now }
    requires points_inside { m.points ≤ length offsets.now }
    ensures { number_of (told result) ≡ first_number (course_of samples.now offsets.now m) samples.now }
{
    if book_format::is_outside(1000000, m.samples) | book_format::is_outside(65536, m.points) {
        return Err(Refusal::OutOfBounds);
    }
    if !floats::is_book_value(m.length) {
        return Err(Refusal::BadValue);
    }
    let points_fall = sweep(
        m.points,
        |k| !floats::is_book_value(offsets[k]),
        |k| offsets[k + 1] < offsets[k],
    )?;
    let samples_fall = sweep(
        m.samples,
        |i| is_bad_sample(samples, i),
        |i| sample_falls(samples, i),
    )?;
    if points_fall | samples_fall {
        return Err(Refusal::BadLeg);
    }
    if event_walk::reaches_last(samples, offsets, m) {
        return Err(Refusal::BadEvent);
    }
    Ok(())
}

// ---- the events

// Writes an event at place k of the list, if it has that place. The two slices may have different numbers of places:
// the smaller one counts.
#[tactic(auto, unfolding(crate::specs::Parts::put_event_floats, crate::specs::Parts::put_event_numbers))]
fn list_event(
    floats: &mut [f64],
    numbers: &mut [u32],
    places: usize,
    k: usize,
    p: PassedPoint,
    link: u32,
)
    requires floats_room { places * event_float_width ≤ length floats.old }
    requires numbers_room { places * event_number_width ≤ length numbers.old }
    ensures floats { k < places → floats.new ≡ put_event_floats floats.old k p }
    ensures numbers { k < places → numbers.new ≡ put_event_numbers numbers.old k p link }
{
    if k >= places {
        return;
    }
    floats[k * EVENT_FLOATS] = p.time;
    floats[k * EVENT_FLOATS + 1] = p.offset;
    floats[k * EVENT_FLOATS + 2] = p.speed;
    numbers[k * EVENT_NUMBERS] = link;
    numbers[k * EVENT_NUMBERS + 1] = p.est_type.into();
}

// The answer to so many events, none of them bad.
#[tactic(auto, unfolding(crate::specs::Parts::count_answer))]
fn listed(count: usize, places: usize) -> Result<usize, Refusal>
    ensures { told result ≡ count_answer count places }
{
    if places < count {
        Err(Refusal::NoPlace)
    } else {
        Ok(count)
    }
}

// The events one after the other into a list that is zero: refused at the first bad one, and if the list is too short.
fn list_events(
    course: &Course,
    links: &[u32],
    floats: &mut [f64],
    numbers: &mut [u32],
) -> Result<usize, Refusal>
    requires links_room { course.now.movement.points ≤ length links.now }
    requires floats_zero { floats.old ≡ zero_floats (length floats.old) }
    requires numbers_zero { numbers.old ≡ zeros (length numbers.old) }
    ensures { EventsListed (course_held course.now) links.now
        (list_at_entry floats numbers) (list_at_exit floats numbers) (told result) }
{
    let places = list_places(floats.len(), numbers.len());
    // The count is the answer behind the loop too: `enumerate` would be no plainer.
    let mut count = 0;
    for p in course.passed_points() {
        if p.is_bad() {
            return Err(Refusal::BadEvent);
        }
        list_event(floats, numbers, places, count, p, links[p.point]);
        count += 1;
    }
    listed(count, places)
}

// The events of one leg, into the list that is lent in two slices: how many there are, or why they are refused. The
// list of a refusal is zero.
pub fn make_events(
    train_length: f64,
    samples: &[u8],
    offsets: &[f64],
    links: &[u32],
    floats: &mut [f64],
    numbers: &mut [u32],
) -> Result<usize, Refusal>
    ensures { EventsMade (lent_leg train_length samples offsets links)
        (list_at_entry floats numbers) (list_at_exit floats numbers) (told result) }
{
    Zero::clear(floats);
    Zero::clear(numbers);
    let movement = Movement {
        at: 0,
        samples: samples.len() / book_format::SAMPLE_WIDTH,
        points: offsets.len().min(links.len()),
        length: train_length,
    };
    first_refusal(samples, offsets, movement)?;
    let course = Course {
        samples,
        offsets,
        movement,
    };
    let made = list_events(&course, links, floats, numbers);
    if made.is_err() {
        Zero::clear(floats);
        Zero::clear(numbers);
    }
    made
}
