// The work space in units, and making slices zero. Contracts: specs/Space.antt.
#![tactic(auto)]

ghost use Rattle.std.specs.Prelude.{◌≡◌, ℕ, List, ◌++◌, ◌-◌, length, take};
ghost use Rattle.space.specs.Space.{units_of, zeros, zero_floats};
ghost use Rattle.space.specs.Lent.{work_at_entry, work_at_exit, Cleared};

// What lent slices are made of.
pub trait Zero: Copy {
    // so many zeros
    ghost zeros: { ℕ → List Self };

    // Makes a slice zero.
    fn clear(s: &mut [Self])
        ensures { s.new ≡ zeros (length s.old) };
}

impl Zero for u8 {
    ghost zeros = { zeros };

    #[tactic(auto, unfolding(crate::specs::Space::zeros))]
    fn clear(s: &mut [u8]) {
        s.fill(0u8);
    }
}

impl Zero for u32 {
    ghost zeros = { zeros };

    #[tactic(auto, unfolding(crate::specs::Space::zeros))]
    fn clear(s: &mut [u32]) {
        s.fill(0u32);
    }
}

impl Zero for f64 {
    ghost zeros = { zero_floats };

    #[tactic(auto, unfolding(crate::specs::Space::zero_floats))]
    fn clear(s: &mut [f64]) {
        s.fill(0.0);
    }
}

// How many whole units of work space the three slices have.
#[tactic(auto, unfolding(crate::specs::Space::units_of))]
pub fn units(reals: usize, cells: usize, marks: usize) -> usize
    ensures { result ≡ units_of reals cells marks }
{
    (reals / 3).min(cells / 8).min(marks / 2)
}

// Makes a slice zero from an index on.
pub fn clear_from<T: Zero>(s: &mut [T], from: usize)
    ensures { s.new ≡ take from s.old ++ T.zeros (length s.old - from) }
{
    let at = from.min(s.len());
    T::clear(&mut s[at..]);
}

// Makes the work space zero.
pub fn clear_work(reals: &mut [f64], cells: &mut [u32], marks: &mut [u32])
    ensures { Cleared (work_at_entry reals cells marks) (work_at_exit reals cells marks) }
{
    Zero::clear(reals);
    Zero::clear(cells);
    Zero::clear(marks);
}
