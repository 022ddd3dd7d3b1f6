// Facts of the rounding rule that document 02 (g) states and does not star: ties in each of its four places, above and below zero. A line each
// of a level's words, of values in each of the three ways in which the player makes them, of points in a fade, and of outputs.

#![tactic(auto)]

use control::{Card, Order};
use player::Voice;
use std::io;
use std::io::Write;

// Document 01's book K.
const K: [i32; 11] = [2, 1, 0, 0, 1, 0, 16384, 16384, -16384, 16384, 16384];

// K with h[0] = 32: a word of level 1 is half a sample.
const HALVED: [i32; 11] = [2, 1, 0, 0, 1, 0, 16384, 16384, -16384, 32, 16384];

// K with impulses of 32 and a fade of four points: a value is a word / 512.
const QUIET: [i32; 11] = [2, 1, 0, 0, 4, 0, 32, 32, -32, 16384, 16384];

// K with a fade of two points.
const FADED: [i32; 11] = [2, 1, 0, 0, 2, 0, 16384, 16384, -16384, 16384, 16384];

// Just behind word 300, by the smallest step there is: 300 × 2^28 + 1.
const BEHIND: u64 = 80530636801;

// Word 2.
const WORD_2: u64 = 536870912;

// Half a word: what a point advances at rate 1.
const STEP: u64 = 134217728;

// Words of level 1, from 1/2 to 5/2 and from -1/2 to -5/2.
fn level(out: &mut impl Write) -> io::Result<()> {
    let samples = [1i16, 0, 3, 0, 5, 0, -1, 0, -3, 0, -5];
    let mut store = [0i32; 21];
    let _ = levels::build(&HALVED, &samples, 1, &mut store);
    write!(out, "level")?;
    print::line(out, &store[15..])
}

// A store of 302 samples with top level 1: its words are w, the last one of level 0 is `last`.
fn store_of(w: i32, last: i32) -> [i32; 457] {
    let mut store = [w; 457];
    store[0] = 302;
    store[1] = 1;
    store[2] = 302;
    store[3] = 151;
    store[305] = last;
    store
}

// A voice at rate 1 with top level 1, at a position.
fn at(position: u64) -> Voice {
    let opened = Voice::open(Card { rate: 1.0, top: 1 });
    let v = opened.unwrap_or_else(|refused| refused.voice);
    v.seek(position).unwrap_or(v)
}

// The voice after a play.
fn after(v: Voice, book: &[i32], store: &[i32], out: &mut [i16]) -> Voice {
    match v.play(book, store, out) {
        Ok(played) => played.voice,
        Err(refused) => refused.voice,
    }
}

// The newest point after a play.
fn newest(v: Voice, book: &[i32], store: &[i32], out: &mut [i16]) -> i32 {
    after(v, book, store, out).history[0]
}

// The first point of a fade to level 1, behind which the output has one more.
fn first_of_fade(position: u64, book: &[i32], store: &[i32]) -> i32 {
    let mut out = [0i16; 1];
    let v = at(position);
    let jumped = v.order(Order::Jump(2.0)).unwrap_or(v);
    after(jumped, book, store, &mut out).history[1]
}

// The value just behind word 300 in a play of one output.
fn in_one(store: &[i32]) -> i32 {
    let mut out = [0i16; 1];
    newest(at(BEHIND - STEP), &QUIET, store, &mut out)
}

// The same in a play of 256, which has a table.
fn in_many(store: &[i32]) -> i32 {
    let mut out = [0i16; 256];
    newest(at(BEHIND - 511 * STEP), &QUIET, store, &mut out)
}

// The same in these two and in a fade. There it is three quarters of the value and one of level 1's, which is w / 512 rounded: so little that the
// mean is the value.
fn ways(out: &mut impl Write, store: &[i32]) -> io::Result<()> {
    let fading = first_of_fade(BEHIND, &QUIET, store);
    writeln!(out, " {} {} {fading}", in_one(store), in_many(store))
}

fn value(out: &mut impl Write, w: i32, last: i32) -> io::Result<()> {
    write!(out, "value {w} {last}")?;
    ways(out, &store_of(w, last))
}

// Halves, and what lies just above and below them, by so little that only the rest of a division tells.
fn values(out: &mut impl Write) -> io::Result<()> {
    value(out, 256, 257)?;
    value(out, 256, 256)?;
    value(out, 256, 255)?;
    value(out, 768, 769)?;
    value(out, 768, 768)?;
    value(out, 768, 767)
}

fn values_below_zero(out: &mut impl Write) -> io::Result<()> {
    value(out, -256, -255)?;
    value(out, -256, -256)?;
    value(out, -256, -257)?;
    value(out, -768, -767)?;
    value(out, -768, -768)?;
    value(out, -768, -769)
}

// A store of 8 samples with top level 1: the words of level 0 are w, those of level 1 are 0.
fn even_store(w: i32) -> [i32; 16] {
    [8, 1, 8, 4, w, w, w, w, w, w, w, w, 0, 0, 0, 0]
}

// The first of two points of a fade: a half of the old level's value.
fn faded(out: &mut impl Write, w: i32) -> io::Result<()> {
    print::next(out, first_of_fade(WORD_2, &FADED, &even_store(w)))
}

fn fades(out: &mut impl Write) -> io::Result<()> {
    write!(out, "fade")?;
    faded(out, 1)?;
    faded(out, 3)?;
    faded(out, 5)?;
    faded(out, -1)?;
    faded(out, -3)?;
    faded(out, -5)?;
    print::end_line(out)
}

// An output of a word that stands for a sample / 256.
fn output(out: &mut impl Write, w: i32) -> io::Result<()> {
    let mut samples = [0i16; 1];
    let _ = at(WORD_2).play(&K, &even_store(w), &mut samples);
    write!(out, "output {w}")?;
    print::line(out, &samples)
}

fn outputs(out: &mut impl Write) -> io::Result<()> {
    output(out, 128)?;
    output(out, 384)?;
    output(out, 640)?;
    output(out, -128)?;
    output(out, -384)?;
    output(out, -640)
}

fn main(rt: HostRuntime) -> io::Result<()> {
    let mut out = rt.stdout();
    level(&mut out)?;
    values(&mut out)?;
    values_below_zero(&mut out)?;
    fades(&mut out)?;
    outputs(&mut out)?;
    out.flush()
}
