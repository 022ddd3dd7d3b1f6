// Facts of the book's check, the level builder and the store's check that documents 01 and 02 state and do not star: every number of theirs, the
// first of two that hold at once, and what a store holds afterwards. One line each.

#![tactic(auto)]

use refusal::number_of;
use std::io;
use std::io::Write;

// Document 01's book K.
const K: [i32; 11] = [2, 1, 0, 0, 1, 0, 16384, 16384, -16384, 16384, 16384];

// A book of K's length with word i changed to x, where it has such a word.
fn changed(b: [i32; 11], i: usize, x: i32) -> [i32; 11] {
    let mut c = b;
    if let Some(word) = c.get_mut(i) {
        *word = x;
    }
    c
}

// The number of a book's check.
fn checked(book: &[i32]) -> u32 {
    number_of(&book::check(book))
}

fn unchanged(out: &mut impl Write) -> io::Result<()> {
    writeln!(out, "K {}", checked(&K))
}

// A name, a value x, and the check's number for a book with word i changed to x.
fn edited(out: &mut impl Write, name: &str, b: [i32; 11], i: usize, x: i32) -> io::Result<()> {
    writeln!(out, "{name} {x} {}", checked(&changed(b, i, x)))
}

fn letter(out: &mut impl Write, name: &str, i: usize, x: i32) -> io::Result<()> {
    edited(out, name, K, i, x)
}

fn sizes(out: &mut impl Write) -> io::Result<()> {
    letter(out, "N", 0, 1)?;
    letter(out, "N", 0, 3)?;
    letter(out, "N", 0, 26)?;
    letter(out, "N", 0, -2)?;
    letter(out, "M", 1, 0)?;
    letter(out, "M", 1, 3)?;
    letter(out, "M", 1, 256)?;
    letter(out, "A", 2, 41)?;
    letter(out, "B", 3, -1)?;
    letter(out, "F", 4, 0)?;
    letter(out, "F", 4, 256)?;
    letter(out, "F", 4, 257)
}

// Sizes of a longer book.
fn lengths(out: &mut impl Write) -> io::Result<()> {
    letter(out, "N", 0, 4)?;
    letter(out, "M", 1, 2)?;
    letter(out, "A", 2, 1)
}

fn words(out: &mut impl Write) -> io::Result<()> {
    letter(out, "G", 6, 32768)?;
    letter(out, "h", 9, -32769)?;
    letter(out, "g", 10, 32768)?;
    letter(out, "h", 9, 32767)?;
    letter(out, "h", 9, -32768)
}

fn difference(out: &mut impl Write, x: i32) -> io::Result<()> {
    edited(out, "difference", K, 7, x)
}

fn differences(out: &mut impl Write) -> io::Result<()> {
    edited(out, "G_0[0]", K, 5, 1)?;
    difference(out, 0)?;
    edited(out, "last difference", K, 8, 0)?;
    difference(out, 40000)
}

// Two conditions at once.
fn pairs(out: &mut impl Write) -> io::Result<()> {
    edited(out, "G_0[0] 1 and g", changed(K, 5, 1), 10, 32768)?;
    edited(out, "G_0[0] 1 and difference", changed(K, 5, 1), 7, 0)?;
    edited(out, "F 0 and G_0[0]", changed(K, 4, 0), 5, 1)
}

// The number of a book with the phase 0, 32767, 32767, x: its last two differences are d and e.
fn phase(x: i32, d: i32, e: i32) -> u32 {
    let b = [
        4, 1, 0, 0, 1, 0, 32767, 32767, x, 32767, 0, d, e, 16384, 16384,
    ];
    checked(&b)
}

// The number of a book with the level taps 16384, h and the decimation taps -16384, g.
fn outer_taps(h: i32, g: i32) -> u32 {
    let b = [2, 1, 1, 1, 1, 0, 16384, 16384, -16384, 16384, h, -16384, g];
    checked(&b)
}

// Sums of absolute values: a phase of 65536 and of 65538, and taps of 32768 and of 32770.
fn sums(out: &mut impl Write) -> io::Result<()> {
    print::number(out, phase(2, -32765, -2))?;
    print::next(out, phase(4, -32763, -4))?;
    print::next(out, outer_taps(-8192, 8192))?;
    print::next(out, outer_taps(-8193, 8192))?;
    print::next(out, outer_taps(-8192, 8193))?;
    print::end_line(out)
}

// The first words of K.
fn starts(out: &mut impl Write) -> io::Result<()> {
    let k = K;
    print::number(out, checked(&k[..4]))?;
    print::next(out, checked(&k[..0]))?;
    print::next(out, checked(&k[..5]))?;
    print::next(out, checked(&k[..10]))?;
    print::end_line(out)
}

// Builds into the first `room` words of a store of nines, and prints the number and every word of it afterwards.
fn built(
    out: &mut impl Write,
    book: &[i32],
    samples: &[i16],
    top: u32,
    room: usize,
) -> io::Result<()> {
    let mut store = [9i32; 16];
    if let Some(front) = store.get_mut(..room) {
        let answer = levels::build(book, samples, top, front);
        print::number(out, number_of(&answer))?;
    }
    print::line(out, &store)
}

// A store of a ramp.
fn ramp(out: &mut impl Write, top: u32, room: usize) -> io::Result<()> {
    let samples = [0i16, 1000, 2000];
    built(out, &K, &samples, top, room)
}

// A store of no samples, with K and with four words of it.
fn no_samples(out: &mut impl Write) -> io::Result<()> {
    let samples = [0i16; 1];
    let k = K;
    built(out, &k, &samples[..0], 1, 16)?;
    built(out, &k[..4], &samples[..0], 5, 0)
}

fn smooth(out: &mut impl Write) -> io::Result<()> {
    let samples = [-3i16, 5, -7, 9, -32768];
    let book = [2, 1, 1, 0, 1, 0, 16384, 16384, -16384, 8192, 4096, 16384];
    built(out, &book, &samples, 1, 16)
}

fn faint(out: &mut impl Write) -> io::Result<()> {
    let samples = [-32i16, 1, -33, 1, -96];
    let book = [2, 1, 0, 0, 1, 0, 16384, 16384, -16384, 1, 16384];
    built(out, &book, &samples, 1, 16)
}

fn checks(out: &mut impl Write) -> io::Result<()> {
    unchanged(out)?;
    sizes(out)?;
    lengths(out)?;
    words(out)?;
    differences(out)?;
    pairs(out)?;
    sums(out)?;
    starts(out)
}

fn stores(out: &mut impl Write) -> io::Result<()> {
    ramp(out, 0, 16)?;
    ramp(out, 1, 16)?;
    ramp(out, 1, 9)?;
    ramp(out, 1, 8)?;
    ramp(out, 4, 16)?;
    ramp(out, 5, 16)?;
    no_samples(out)?;
    ramp(out, 5, 0)?;
    smooth(out)?;
    faint(out)
}

// A ramp's store of 9 words with word i changed to x: S 3, T 1 and the lengths 3 and 2 stand first.
fn store_with(i: usize, x: i32) -> [i32; 9] {
    let samples = [0i16, 1000, 2000];
    let mut store = [0i32; 9];
    let _ = levels::build(&K, &samples, 1, &mut store);
    if let Some(word) = store.get_mut(i) {
        *word = x;
    }
    store
}

// A name, a value x, and the check's number for such a store.
fn header(out: &mut impl Write, name: &str, i: usize, x: i32) -> io::Result<()> {
    let store = store_with(i, x);
    writeln!(out, "{name} {x} {}", number_of(&store::check(&store)))
}

// S and T out of range; in range, but of a longer store; of a shorter one.
fn named(out: &mut impl Write) -> io::Result<()> {
    header(out, "S", 0, 3)?;
    header(out, "S", 0, 0)?;
    header(out, "S", 0, -3)?;
    header(out, "S", 0, 1048577)?;
    header(out, "S", 0, 1048576)?;
    header(out, "S", 0, 4)?;
    header(out, "S", 0, 2)?;
    header(out, "T", 1, -1)?;
    header(out, "T", 1, 5)?;
    header(out, "T", 1, 4)?;
    header(out, "T", 1, 2)?;
    header(out, "T", 1, 0)
}

// Written lengths, and a word of a level.
fn written(out: &mut impl Write) -> io::Result<()> {
    header(out, "length 0", 2, 2)?;
    header(out, "length 0", 2, 4)?;
    header(out, "length 1", 3, 1)?;
    header(out, "length 1", 3, -2)?;
    header(out, "word", 4, -2147483648)
}

// The first words of such a store.
fn cut(out: &mut impl Write) -> io::Result<()> {
    let words = [3, 1, 3, 2, 0, 256000, 512000, 0, 512000];
    print::number(out, number_of(&store::check(&words[..0])))?;
    print::next(out, number_of(&store::check(&words[..1])))?;
    print::next(out, number_of(&store::check(&words[..2])))?;
    print::next(out, number_of(&store::check(&words[..8])))?;
    print::next(out, number_of(&store::check(&words)))?;
    print::end_line(out)
}

fn headers(out: &mut impl Write) -> io::Result<()> {
    named(out)?;
    written(out)?;
    cut(out)
}

fn main(rt: HostRuntime) -> io::Result<()> {
    let mut out = rt.stdout();
    checks(&mut out)?;
    stores(&mut out)?;
    headers(&mut out)?;
    out.flush()
}
