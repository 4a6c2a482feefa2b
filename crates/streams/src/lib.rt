// Reading a stream into a lent slice, until the slice is full, or whole; what a program says where its output is not
// taken; and a whole input's answer.
#![tactic(auto)]

ghost use Rattle.std.specs.Prelude.{◌≡◌, ℕ, ◌<◌, ◌≤◌, ◌++◌, ◌∷◌, []};
ghost use Rattle.std.specs.Prelude.{IfOk, IfSome, IfNone, OnErr, OnOk, codes, length, take};
ghost use Rattle.std.specs.Io.{ReadsAtMost};
ghost use Rattle.std.specs.Io.KnownBytes.{Appends, Consumes, IsAtEnd};
ghost use Rattle.streams.specs.Streams.{IsInput, IsLonger, PrintedBy};

use std::io::{Read, Result, Write};

// Reads until the slice is full or the input ends, and answers how many bytes it put at the slice's start. Where a read
// fails, the slice begins with what was read before it. std's `read_exact` tells of a short input that it is short, and
// not how many bytes there were.
pub fn read_full<R: Read>(from: &mut R, buf: &mut [u8]) -> Result<usize>
    ensures at_most { ReadsAtMost result buf.new }
    ensures bytes { IfOk result (λ n. Consumes (R.remaining from.old) (R.remaining from.new) (take n buf.new)) }
    ensures end { IfOk result (λ n. n < length buf.new → IsAtEnd (R.remaining from.new)) }
    ensures err { OnErr result ((n : ℕ) × (n ≤ length buf.new)
        × Consumes (R.remaining from.old) (R.remaining from.new) (take n buf.new)) }
{
    let mut done = 0;
    while done < buf.len() {
        let n = from.read(&mut buf[done..])?;
        if n == 0 {
            break;
        }
        done += n;
    }
    Ok(done)
}

// Reads the whole input and answers how many bytes it has, which stand at the slice's start, or `None` where the slice
// is too short for it. One byte behind those that fill the slice is read and lost.
pub fn read_whole<R: Read>(from: &mut R, buf: &mut [u8]) -> Result<Option<usize>>
    ensures at_most { IfOk result (λ r. IfSome r (λ n. n ≤ length buf.new)) }
    ensures whole { IfOk result (λ r. IfSome r (λ n. IsInput (R.remaining from.old) (take n buf.new))) }
    ensures longer { IfOk result (λ r. IfNone r (IsLonger (R.remaining from.old) (length buf.new))) }
{
    let n = read_full(from, buf)?;
    let mut more = [0u8; 1];
    if read_full(from, &mut more)? != 0 {
        return Ok(None);
    }
    Ok(Some(n))
}

// Says on standard error if not all was written, and hands the failure on.
pub fn say_unless(rt: &impl Eprint, program: &str, written: Result<()>) -> Result<()>
    ensures { result ≡ written }
{
    if written.is_err() {
        let _ = eprintln!(rt; "{program}: standard output: not all was written");
    }
    written
}

// Reads the whole input, up to 65,536 bytes, and hands it on to have its answer printed; of a longer one it prints that
// it is too long. Where not all was written, standard error says so of the program.
pub fn answer_whole<R: Read, W: Write, F: FnOnce(&[u8], &mut W) -> Result<()>>(
    rt: &impl Eprint,
    program: &str,
    from: &mut R,
    to: &mut W,
    print: F,
) -> Result<()>
    requires { F.IsAlwaysCallable print }
    ensures whole { OnOk result (IfSome (R.remaining from.old) (λ input.
        length input ≤ 65536 → PrintedBy F.FnOnce print input to.old result to.new)) }
    ensures longer { OnOk result (IfSome (R.remaining from.old) (λ input.
        65536 < length input → Appends (W.contents to.old) (W.contents to.new) (codes "too long" ++ 10 ∷ []))) }
{
    let mut space = [0u8; 65536];
    let Some(n) = read_whole(from, &mut space)? else {
        return say_unless(rt, program, to.write_all(b"too long\n"));
    };
    say_unless(rt, program, print(&space[..n], to))
}
