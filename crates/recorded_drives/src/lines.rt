// The lines of a drive's text: a name, and then numbers, each after a blank.
use control::Control;
use player::Voice;
use std::io;
use std::io::Write;

// A name and a number.
pub fn number(out: &mut impl Write, name: &str, x: u64) -> io::Result<()> {
    writeln!(out, "{name} {x}")
}

// A name and a rate: its bits, in hexadecimal.
pub fn rate(out: &mut impl Write, name: &str, bits: u32) -> io::Result<()> {
    writeln!(out, "{name} {bits:08x}")
}

// A glide: its rate and its count of outputs.
pub fn glide(out: &mut impl Write, bits: u32, count: u32) -> io::Result<()> {
    writeln!(out, "glide {bits:08x} {count}")
}

// A name and samples.
pub fn samples(out: &mut impl Write, name: &str, block: &[i16]) -> io::Result<()> {
    write!(out, "{name}")?;
    print::line(out, block)
}

// A name and words.
pub fn words(out: &mut impl Write, name: &str, block: &[i32]) -> io::Result<()> {
    write!(out, "{name}")?;
    print::line(out, block)
}

// A field of 32 bits, as the signed word that has its bits.
fn next_word(out: &mut impl Write, x: u32) -> io::Result<()> {
    print::next(out, x.cast_signed())
}

// A field of 64 bits as two words, the low one first.
fn next_pair(out: &mut impl Write, x: u64) -> io::Result<()> {
    next_word(out, (x & 0xffffffff) as u32)?;
    next_word(out, (x >> 32) as u32)
}

// T, the fade's old and new level and i, R, R0, R1, c, j and P.
fn control(out: &mut impl Write, c: Control) -> io::Result<()> {
    let fade = c.fade;
    let glide = c.glide;
    next_word(out, c.top)?;
    next_word(out, fade.from)?;
    next_word(out, fade.to)?;
    next_word(out, fade.step)?;
    next_pair(out, c.rate)?;
    next_pair(out, glide.start)?;
    next_pair(out, glide.target)?;
    next_word(out, glide.count)?;
    next_word(out, glide.done)?;
    next_pair(out, c.position)
}

// A voice as 95 words: 14 of its control, then the 81 points.
pub fn voice(out: &mut impl Write, v: Voice) -> io::Result<()> {
    let c = v.control;
    let history = v.history;
    write!(out, "voice")?;
    control(out, c)?;
    print::line(out, &history)
}
