// Writes numbers to a writer. Each contract says which bytes the writer gains, where its bytes are known.

#![tactic(auto)]

ghost use Rattle.std.specs.Prelude.{◌≡◌, ℕ, List, [], ◌∷◌, ◌++◌, Some, OnOk, refl};
ghost use Rattle.std.specs.Fmt.{decimal, signed_decimal};
ghost use Rattle.std.specs.Io.KnownBytes.{Appends};
ghost use Rattle.print.specs.Texts.{next_of, line_of, lines_of};

use std::fmt::Display;
use std::io;
use std::io::Write;

// A number whose text is known.
pub trait Decimal: Display + Copy {
    ghost text: { Self → List ℕ };

    ghost displays: { (x : Self) → Self.output x ≡ Some (text x) };
}

impl Decimal for i16 {
    ghost text = { signed_decimal };

    ghost displays = { λ x. refl };
}

impl Decimal for i32 {
    ghost text = { signed_decimal };

    ghost displays = { λ x. refl };
}

impl Decimal for u32 {
    ghost text = { decimal };

    ghost displays = { λ x. refl };
}

impl Decimal for u64 {
    ghost text = { decimal };

    ghost displays = { λ x. refl };
}

// A decimal number, with a minus sign below zero.
pub fn number<W: Write, N: Decimal>(out: &mut W, x: N) -> io::Result<()>
    ensures { OnOk result (Appends (W.contents out.old) (W.contents out.new) (N.text x)) }
{
    write!(out, "{x}")
}

// A blank, and then the number.
pub fn next<W: Write, N: Decimal>(out: &mut W, x: N) -> io::Result<()>
    ensures { OnOk result (Appends (W.contents out.old) (W.contents out.new) (next_of N.text x)) }
{
    write!(out, " {x}")
}

// A blank before each of a slice of numbers, and the end of the line.
pub fn line<W: Write, N: Decimal>(out: &mut W, xs: &[N]) -> io::Result<()>
    ensures { OnOk result (Appends (W.contents out.old) (W.contents out.new) (line_of N.text xs.now)) }
{
    for x in xs {
        next(out, *x)?;
    }
    end_line(out)
}

// Each of a slice of numbers on a line of its own.
pub fn lines<W: Write, N: Decimal>(out: &mut W, block: &[N]) -> io::Result<()>
    ensures { OnOk result (Appends (W.contents out.old) (W.contents out.new) (lines_of N.text block.now)) }
{
    for x in block {
        writeln!(out, "{x}")?;
    }
    Ok(())
}

pub fn end_line<W: Write>(out: &mut W) -> io::Result<()>
    ensures { OnOk result (Appends (W.contents out.old) (W.contents out.new) (10 ∷ [])) }
{
    writeln!(out)
}
