// One event: its offset, its kind, and the time and speed at which the train passes it. Contracts: specs/Event.antt.
#![tactic(auto)]

ghost use Rattle.std.specs.Prelude.{◌≡◌};
ghost use Rattle.event_formula.specs.Event.{event_offset, clears, time_at, passing_at, bad_passing};

use book_format::Sample;

// When and how fast a point is passed.
#[derive(Clone, Copy)]
pub struct Passing {
    pub time: f64,
    pub speed: f64,
}

impl Passing {
    // Row 11: whether an event's speed is not finite, or its time no number or too large.
    #[tactic(auto, using(crate::proofs::Laws::finite_is), unfolding(crate::specs::Event::bad_passing))]
    pub fn is_bad(self) -> bool
        ensures { result ≡ bad_passing self }
    {
        !self.speed.is_finite() | !floats::is_table_float(self.time)
    }
}

// The offsets of the points that a train's front and its end pass next, and its length.
#[derive(Clone, Copy)]
pub struct NextPoints {
    pub front: f64,
    pub back: f64,
    pub length: f64,
}

impl NextPoints {
    // Where the next event is: at the front point, or where the train's end reaches the back point.
    #[tactic(auto, unfolding(crate::specs::Event::event_offset))]
    pub fn event_offset(self) -> f64
        ensures { result ≡ event_offset self.front self.back self.length }
    {
        floats::smaller_offset(self.front, self.back + self.length)
    }

    // Whether the next event is a Clear.
    #[tactic(auto, unfolding(crate::specs::Event::clears))]
    pub fn is_clear(self) -> bool
        ensures { result ≡ clears self.front self.back self.length }
    {
        self.back + self.length < self.front
    }
}

// When a point is passed, by the speed there: the sample's own time where the train stands on the point, since the
// quotient has no value there.
fn time_at(s: Sample, speed: f64, dist_diff_x2: f64) -> f64
    ensures { result ≡ time_at s speed dist_diff_x2 }
{
    let speed_sum = s.speed + speed;
    if (dist_diff_x2 == 0.0) & (speed_sum == 0.0) {
        return s.time;
    }
    s.time - dist_diff_x2 / speed_sum
}

// The time and speed at an offset that the train passes between two samples.
pub fn pass_at(s: Sample, before: Sample, offset: f64) -> Passing
    ensures { result ≡ passing_at s before offset }
{
    let dist_diff_x2 = 2.0 * (s.offset - offset);
    let speed = root::root(
        s.speed * s.speed - (s.speed - before.speed) / (s.time - before.time) * dist_diff_x2,
    );
    let time = time_at(s, speed, dist_diff_x2);
    Passing { time, speed }
}
