// The bench program: cases A, B, C, D and G of document 01, a line each.

#![tactic(auto)]

use control::{Card, Order};
use player::Voice;
use std::io;
use std::io::Write;

const K: [i32; 11] = [2, 1, 0, 0, 1, 0, 16384, 16384, -16384, 16384, 16384];

const SLOW: [i32; 11] = [2, 1, 0, 0, 4, 0, 16384, 16384, -16384, 16384, 16384];

const LOUD: [i32; 11] = [2, 1, 0, 0, 1, 0, 16384, 16384, -16384, 16384, 32767];

// Plays a recording.
fn play(v: Voice, book: &[i32], samples: &[i16], block: &mut [i16]) {
    let mut store = [0i32; 16];
    let _ = levels::build(book, samples, v.control.top, &mut store);
    let _ = v.play(book, &store, block);
}

// A letter and the samples that were played.
fn case(out: &mut impl Write, letter: char, block: &[i16]) -> io::Result<()> {
    write!(out, "{letter}")?;
    print::line(out, block)
}

fn opened(rate: f32, top: u32) -> Voice {
    Voice::open(Card { rate, top }).unwrap_or_else(|refused| refused.voice)
}

// A ramp at a rate.
fn ramp(
    out: &mut impl Write,
    letter: char,
    rate: f32,
    top: u32,
    block: &mut [i16],
) -> io::Result<()> {
    let samples = [0i16, 1000, 2000];
    play(opened(rate, top), &K, &samples, block);
    case(out, letter, block)
}

// A wave after a jump from rate 1 to rate 2.
fn jump(out: &mut impl Write, letter: char, book: &[i32]) -> io::Result<()> {
    let samples = [0i16, 1000, 0, 1000];
    let mut block = [0i16; 2];
    let fresh = opened(1.0, 1);
    let v = fresh.order(Order::Jump(2.0)).unwrap_or(fresh);
    play(v, book, &samples, &mut block);
    case(out, letter, &block)
}

// A recording of one level, too loud.
fn loud(out: &mut impl Write, x: i16) -> io::Result<()> {
    let samples = [x; 3];
    let mut block = [0i16; 1];
    play(opened(1.0, 0), &LOUD, &samples, &mut block);
    case(out, 'G', &block)
}

fn main(rt: HostRuntime) -> io::Result<()> {
    let mut out = rt.stdout();
    let mut four = [0i16; 4];
    let mut three = [0i16; 3];
    ramp(&mut out, 'A', 1.0, 0, &mut four)?;
    ramp(&mut out, 'B', 2.0, 1, &mut three)?;
    jump(&mut out, 'C', &SLOW)?;
    jump(&mut out, 'D', &K)?;
    loud(&mut out, 32767)?;
    loud(&mut out, -32768)?;
    out.flush()
}
