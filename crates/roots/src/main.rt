// Reads bit patterns of eight bytes, the least significant byte first, and prints the pattern of each one's root.
#![tactic(auto)]

ghost use Rattle.std.specs.Prelude.{◌≡◌, ◌<◌, ◌≤◌, ◌^◌, ◌↔◌, IfOk, IfSome, IsTrue, OnOk, length, take};
ghost use Rattle.std.specs.Io.KnownBytes.{Appends, Consumes};
ghost use Rattle.roots.specs.Roots.{answer, digit, line, little_endian, root_bits, text};

use std::io::{Read, Result, Write};

const SIGN: u64 = 0x8000_0000_0000_0000;

const INFINITY: u64 = 0x7ff0_0000_0000_0000;

const NAN: u64 = 0x7ff8_0000_0000_0000;

// The pattern that eight bytes hold.
#[tactic(auto, unfolding(crate::specs::Roots::little_endian))]
fn pattern(bytes: [u8; 8]) -> u64
    ensures { result ≡ little_endian bytes }
{
    u64::from_le_bytes(bytes)
}

// The pattern of the root. A NaN's bits never become an f64, and none are read from one.
fn root_bits(bits: u64) -> u64
    ensures { result ≡ root_bits bits }
{
    if INFINITY < bits % SIGN {
        return NAN;
    }
    let x = root::root(f64::from_bits(bits));
    if x.is_nan() {
        return NAN;
    }
    f64::to_bits(x)
}

// A hexadecimal digit in ASCII. `listing` has the same one: this program tests `root` alone, and takes nothing else of
// the library's crates.
fn digit(d: u64) -> u8
    requires { d < 16 }
    ensures { result ≡ digit d }
{
    if d < 10 {
        b'0' + d as u8
    } else {
        b'a' - 10 + d as u8
    }
}

// The digits that are printed for eight bytes: the 16 bytes of the result.
fn answer(bytes: [u8; 8]) -> [u8; 16]
    ensures { take 16 result ≡ answer bytes }
{
    let mut rest = root_bits(pattern(bytes));
    let mut text = [0u8; 16];
    for at in (0..16).rev() {
        text[at] = digit(rest % 16);
        rest /= 16;
    }
    text
}

// Reads one pattern and prints its line. Answers whether there may be another: false where the input has ended. A
// `bool`, since neither answer has anything beside it.
fn print_one<R: Read, W: Write>(from: &mut R, to: &mut W) -> Result<bool>
    ensures line { OnOk result (IfSome (R.remaining from.old) (λ input.
        Appends (W.contents to.old) (W.contents to.new) (line input))) }
    ensures rest { OnOk result (IfSome (R.remaining from.old) (λ input.
        Consumes (R.remaining from.old) (R.remaining from.new) (take 8 input))) }
    ensures more { IfOk result (λ r. IfSome (R.remaining from.old) (λ input.
        IsTrue r ↔ (8 ≤ length input))) }
{
    let mut bytes = [0u8; 8];
    let n = streams::read_full(from, &mut bytes)?;
    if n == 0 {
        return Ok(false);
    }
    if n < 8 {
        to.write_all(b"cut off\n")?;
        return Ok(false);
    }
    to.write_all(&answer(bytes))?;
    to.write_all(b"\n")?;
    Ok(true)
}

// Prints the line of each pattern. A proved loop has to end, and nothing says that the input does: the turns go up to a
// number that no run reaches.
fn print_all<R: Read, W: Write>(from: &mut R, to: &mut W) -> Result<()>
    ensures { OnOk result (IfSome (R.remaining from.old) (λ input. length input < 2 ^ 64 →
        Appends (W.contents to.old) (W.contents to.new) (text input))) }
{
    for _turn in 0..u64::MAX {
        let more = print_one(from, to)?;
        if !more {
            break;
        }
    }
    Ok(())
}

fn main(rt: HostRuntime) -> Result<()> {
    print_all(&mut rt.stdin(), &mut rt.stdout())
}
