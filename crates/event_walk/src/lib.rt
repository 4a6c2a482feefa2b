// The walk along a path's points: where it begins, and the next point that is passed. Contracts: specs/Walk.antt.
#![tactic(auto)]

ghost use Rattle.std.specs.Prelude.{◌≡◌, true, false, ℕ, ◌+◌, ◌-◌, ◌*◌, ◌≤◌, ◌<◌, length, get_or};
ghost use Rattle.std.specs.Float.{nan};
ghost use Rattle.std.proofs.Props.{props};
ghost use Rattle.book_format.specs.Format.{sample_from, sample_width};
ghost use Rattle.book_format.specs.Rows.{bad_sample_from};
ghost use Rattle.event_walk.specs.Course.{course_of, Held, Rises, Walkable};
ghost use Rattle.event_walk.specs.Search.{NoneBeyond, FirstReaching, unseen, point_with};
ghost use Rattle.event_walk.specs.Walk.{first_beyond, start, reaches_last, points_passed, bad_point, Within};
ghost use Rattle.event_walk.specs.Walk.{WithinHeld, passed_from, NextOf, offset_next, clears_next};

use book_format::Sample;
use event_formula::{NextPoints, Passing};
use net_node::EstType;
use std::marker::Model;

// A train's samples, which stand in bytes from `at` on, its path's points, and its length. The counts are no slices'
// lengths: a book's samples and a path's points stand at the front of what is lent for the longest.
#[derive(Clone, Copy)]
pub struct Movement {
    pub at: usize,
    pub samples: usize,
    pub points: usize,
    pub length: f64,
}

// What the walk of a leg looks at: the bytes in which its samples stand, and the offsets of its path's points. Rows 3,
// 4 and 7 let both through, and no sample reaches the last point.
#[derive(Clone, Copy)]
pub struct Course<'a> {
    pub samples: &'a [u8],
    pub offsets: &'a [f64],
    pub movement: Movement,
    ghost held: { Held samples.now offsets.now movement } by { Prim.hlevel props },
    ghost walkable: { Walkable (course_of samples.now offsets.now movement) } by { Prim.hlevel props },
}

// The sample up to which the walk looks, and the next point for the train's end and for its front.
#[derive(Clone, Copy)]
pub struct Heads {
    pub i: usize,
    pub pt_idx_back: usize,
    pub pt_idx_front: usize,
}

// An event: when, where and how fast which point is passed, by the front (Arrive) or by the end (Clear).
#[derive(Clone, Copy)]
pub struct PassedPoint {
    pub time: f64,
    pub offset: f64,
    pub speed: f64,
    pub point: usize,
    pub est_type: EstType,
}

impl PassedPoint {
    // Row 11: whether an event's speed is not finite, or its time no number or too large.
    #[tactic(auto, unfolding(crate::specs::Walk::bad_point))]
    pub fn is_bad(self) -> bool
        ensures { result ≡ bad_point self }
    {
        let passing = Passing {
            time: self.time,
            speed: self.speed,
        };
        passing.is_bad()
    }
}

// Where the walk of a course stands: its heads are where they can be.
#[derive(Clone, Copy)]
pub struct Position<'a> {
    pub course: Course<'a>,
    pub heads: Heads,
    ghost within: { WithinHeld course.samples.now course.offsets.now course.movement heads } by { Prim.hlevel props },
}

// The points that a leg's samples have still to pass, in order: its events. A contract sees their list.
#[derive(Drop)]
pub struct PassedPoints<'a> {
    position: Position<'a>,
}

impl<'a> Model for PassedPoints<'a> {
    ghost use Rattle.std.specs.Prelude.{List};
    ghost use Rattle.event_walk.specs.declared.PassedPoint.{PassedPoint};
    ghost use Rattle.event_walk.specs.Walk.{passed_from};
    ghost use Rattle.event_walk.specs.Held.{course_held};

    ghost Value = { List PassedPoint };

    ghost view = { λ p. passed_from (course_held p.position.course) p.position.heads };
}

// The next point that is passed.
impl<'a> Iterator for PassedPoints<'a> {
    type Item = PassedPoint;

    ghost use Rattle.std.specs.Iterator.{YieldsFirst, item_count};

    ghost next_gives = { YieldsFirst (λ points. points) };

    ghost remaining = { item_count (λ points. points) };

    fn next(&mut self) -> Option<PassedPoint> {
        let (point, heads) = self.position.next_event()?;
        let course = self.position.course;
        self.position = Position { course, heads };
        Some(point)
    }
}

// Whether a sample reaches the last point (row 11). Offsets never fall, so the last sample tells for all. It takes what
// a `Course` is made of: a course asks that it says no.
#[tactic(auto, using(crate::proofs::Steps::reaches_by, crate::proofs::Steps::sample_held))]
pub fn reaches_last(book: &[u8], offsets: &[f64], m: Movement) -> bool
    requires held { Held book.now offsets.now m }
    requires points_nonzero { 0 < m.points }
    requires samples_nonzero { 0 < m.samples }
    requires rises { Rises (λ i. ((course_of book.now offsets.now m).sample i).offset) m.samples }
    ensures { result ≡ reaches_last (course_of book.now offsets.now m) }
{
    let farthest = sample_offset(book, m.at + (m.samples - 1) * book_format::SAMPLE_WIDTH);
    offsets[m.points - 1] <= farthest
}

// A point with none beyond x before it, sought from the last point back by steps that double. A leg's first point lies
// near the end of its path, so this costs the same on a long path, where `partition_point` over all of it would not.
fn gallop(offsets: &[f64], points: usize, x: f64) -> usize
    requires points_inside { points ≤ length offsets.now }
    requires rises { Rises (λ k. get_or offsets.now k nan) points }
    ensures { NoneBeyond (λ k. get_or offsets.now k nan) points x result }
{
    let mut step = 1;
    while step <= points {
        if offsets[points - step] <= x {
            return points - step;
        }
        step *= 2;
    }
    0
}

// The first of the points that lies beyond x, or their number.
fn first_beyond(offsets: &[f64], points: usize, x: f64) -> usize
    requires points_inside { points ≤ length offsets.now }
    requires rises { Rises (λ k. get_or offsets.now k nan) points }
    ensures { result ≡ first_beyond (λ k. get_or offsets.now k nan) x 0 points }
{
    let low = gallop(offsets, points, x);
    low + offsets[low..points].partition_point(|offset| *offset <= x)
}

// The offset of the sample whose first byte is at `at`.
#[tactic(auto, using(crate::proofs::Steps::offset_number), unfolding(book_format::specs::Format::sample_from))]
fn sample_offset(book: &[u8], at: usize) -> f64
    requires row_inside { at + sample_width ≤ length book.now }
    requires floats_passed { bad_sample_from book.now at ≡ false }
    ensures { result ≡ (sample_from book.now at).offset }
{
    f64::from_bits(fields::u64_at(book, at + 8))
}

impl<'a> Course<'a> {
    ghost use Rattle.event_walk.specs.Held.{course_held};

    // The points that the samples pass, in order: the leg's events.
    #[tactic(auto, unfolding(crate::specs::Walk::points_passed))]
    pub fn passed_points(&self) -> PassedPoints<'a>
        ensures { result ≡ points_passed (course_held self.now) }
    {
        let heads = self.start_heads();
        let position = Position {
            course: *self,
            heads,
        };
        PassedPoints { position }
    }

    // Sample i.
    #[tactic(auto, unfolding(crate::specs::Course::course_of))]
    fn sample(&self, i: usize) -> Sample
        requires { i < (course_held self.now).samples }
        ensures { result ≡ (course_held self.now).sample i }
    {
        book_format::sample_from(
            self.samples,
            self.movement.at + i * book_format::SAMPLE_WIDTH,
        )
    }

    // Where the walk begins.
    #[tactic(auto, unfolding(crate::specs::Course::course_of))]
    pub fn start_heads(&self) -> Heads
        ensures is { result ≡ start (course_held self.now) }
        ensures within { Within (course_held self.now) result }
    {
        let m = self.movement;
        let first = self.sample(0);
        let end = first.offset - m.length;
        Heads {
            i: 1,
            pt_idx_back: first_beyond(self.offsets, m.points, end),
            pt_idx_front: first_beyond(self.offsets, m.points, first.offset),
        }
    }

    // The first sample from `from` on that reaches x.
    #[tactic(auto, using(crate::proofs::Searches::short_on), unfolding(crate::specs::Course::course_of))]
    fn first_reaching(&self, from: usize, x: f64) -> Option<usize>
        ensures { FirstReaching (λ i. ((course_held self.now).sample i).offset) (course_held self.now).samples
            x from result }
    {
        let m = self.movement;
        for i in from..m.samples {
            let offset = sample_offset(self.samples, m.at + i * book_format::SAMPLE_WIDTH);
            if x <= offset {
                return Some(i);
            }
        }
        None
    }

    // A point that is passed at an offset on the way to sample i.
    #[tactic(auto, unfolding(crate::specs::Search::point_with))]
    fn passed_at(&self, i: usize, offset: f64, point: usize, est_type: EstType) -> PassedPoint
        requires i_nonzero { 0 < i }
        requires i_lt_samples { i < (course_held self.now).samples }
        ensures { result ≡ point_with ((course_held self.now).sample i) ((course_held self.now).sample (i - 1))
            offset point est_type }
    {
        let s = self.sample(i);
        let before = self.sample(i - 1);
        let p = event_formula::pass_at(s, before, offset);
        PassedPoint {
            time: p.time,
            offset,
            speed: p.speed,
            point,
            est_type,
        }
    }
}

impl<'a> Position<'a> {
    ghost use Rattle.event_walk.specs.Held.{course_held};

    // The points that the train's front and its end pass next.
    #[tactic(auto, unfolding(crate::specs::Course::course_of))]
    fn next_points(&self) -> NextPoints
        ensures front { result.front ≡ (course_held self.now.course).offset self.now.heads.pt_idx_front }
        ensures back { result.back ≡ (course_held self.now.course).offset self.now.heads.pt_idx_back }
        ensures length { result.length ≡ (course_held self.now.course).length }
    {
        NextPoints {
            front: self.course.offsets[self.heads.pt_idx_front],
            back: self.course.offsets[self.heads.pt_idx_back],
            length: self.course.movement.length,
        }
    }

    // Where the next event is.
    #[tactic(auto, unfolding(crate::specs::Walk::offset_next))]
    fn offset_next(&self) -> f64
        ensures { result ≡ offset_next (course_held self.now.course) self.now.heads }
    {
        self.next_points().event_offset()
    }

    // Whether the next event is a Clear.
    #[tactic(auto, unfolding(crate::specs::Walk::clears_next))]
    fn clears_next(&self) -> bool
        ensures { result ≡ clears_next (course_held self.now.course) self.now.heads }
    {
        self.next_points().is_clear()
    }

    // Whether the next event is that the train's end passes the first point: the back index becomes 1, and nothing is
    // emitted.
    #[tactic(auto, unfolding(crate::specs::Search::unseen))]
    fn is_unseen(&self) -> bool
        ensures { result ≡ unseen (course_held self.now.course) self.now.heads }
    {
        self.heads.pt_idx_back == 0 && self.clears_next()
    }

    // The next point that is passed, where the next event is emitted.
    #[tactic(auto, using(crate::proofs::Steps::next_none), unfolding(crate::specs::Course::course_of))]
    fn seen_event(self) -> Option<(PassedPoint, Heads)>
        requires emitted { unseen (course_held self.course) self.heads ≡ false }
        ensures { NextOf (course_held self.entry.course) self.entry.heads result }
    {
        let course = self.course;
        let h = self.heads;
        let offset_next = self.offset_next();
        let i = course.first_reaching(h.i, offset_next)?;
        if self.clears_next() {
            let p = course.passed_at(i, offset_next, h.pt_idx_back, EstType::Clear);
            let pt_idx_back = h.pt_idx_back + 1;
            return Some((
                p,
                Heads {
                    i,
                    pt_idx_back,
                    ..h
                },
            ));
        }
        let p = course.passed_at(i, offset_next, h.pt_idx_front, EstType::Arrive);
        let pt_idx_front = h.pt_idx_front + 1;
        Some((
            p,
            Heads {
                i,
                pt_idx_front,
                ..h
            },
        ))
    }

    // The points that are passed from here on.
    pub fn passed_points(self) -> PassedPoints<'a>
        ensures { result ≡ passed_from (course_held self.entry.course) self.entry.heads }
    {
        PassedPoints { position: self }
    }

    // The next point that is passed, and the heads behind it.
    pub fn next_event(self) -> Option<(PassedPoint, Heads)>
        ensures { NextOf (course_held self.entry.course) self.entry.heads result }
    {
        if !self.is_unseen() {
            return self.seen_event();
        }
        let course = self.course;
        let i = course.first_reaching(self.heads.i, self.offset_next())?;
        let heads = Heads {
            i,
            pt_idx_back: 1,
            ..self.heads
        };
        let later = Position { course, heads };
        later.seen_event()
    }
}
