// Answers a stream of books, each after its byte count (four bytes, little-endian, books to 65,536 bytes), as the
// program `sheet` does, each behind a line `== K`, K from 0.
#![tactic(auto)]

ghost use Rattle.std.specs.Prelude.{◌≤◌, ◌↔◌, IfOk, IsTrue, OnOk, length};
ghost use Rattle.std.specs.Bool.{OnFalse};
ghost use Rattle.vectors.specs.Vectors.{BookAnswered, NextAnswered, NoneAnswered, StreamAnswered, Untouched};

use std::io::{Read, Result, Write};

// Answers the book of so many bytes that comes next, which is read into a slice; false if it is longer than that: a
// `bool`, since neither answer has anything beside it.
fn answer_book<R: Read, W: Write>(
    space: &mut [u8],
    size: usize,
    from: &mut R,
    to: &mut W,
) -> Result<bool>
    ensures room { IfOk result (λ r. IsTrue r ↔ (size ≤ length space.old)) }
    ensures answered { IfOk result (λ r. IsTrue r → BookAnswered size
        (R.remaining from.old) (R.remaining from.new) (W.contents to.old) (W.contents to.new)) }
    ensures longer { IfOk result (λ r. OnFalse r (Untouched
        (R.remaining from.old) (R.remaining from.new) (W.contents to.old) (W.contents to.new))) }
{
    if space.len() < size {
        return Ok(false);
    }
    let n = streams::read_full(from, &mut space[..size])?;
    sheets::print_sheet(&space[..n], to)?;
    Ok(true)
}

// Whether a book was there and was answered.
fn answer_next<R: Read, W: Write>(k: u64, from: &mut R, to: &mut W) -> Result<bool>
    ensures answered { IfOk result (λ r. IsTrue r → NextAnswered k
        (R.remaining from.old) (R.remaining from.new) (W.contents to.old) (W.contents to.new)) }
    ensures none { IfOk result (λ r. OnFalse r (NoneAnswered k
        (R.remaining from.old) (R.remaining from.new) (W.contents to.old) (W.contents to.new))) }
{
    let mut head = [0u8; 4];
    if streams::read_full(from, &mut head)? != 4 {
        return Ok(false);
    }
    let size = fields::u32_at(&head, 0) as usize;
    let mut space = [0u8; 65536];
    writeln!(to, "== {k}")?;
    answer_book(&mut space, size, from, to)
}

// Answers all books of a stream, up to a million. A proved loop has to end, and nothing says that the input does; no
// stream of tests has as many.
fn answer_all<R: Read, W: Write>(from: &mut R, to: &mut W) -> Result<()>
    ensures { OnOk result (StreamAnswered
        (R.remaining from.old) (R.remaining from.new) (W.contents to.old) (W.contents to.new)) }
{
    for k in 0..1000000 {
        if !answer_next(k, from, to)? {
            break;
        }
    }
    Ok(())
}

fn main(rt: HostRuntime) -> Result<()> {
    answer_all(&mut rt.stdin(), &mut rt.stdout())
}
