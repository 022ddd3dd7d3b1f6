// Facts of the player that documents 01 and 02 state and do not star: glides, limits, the levels along a glide and the ends of their bands,
// the multiply counts of outputs, and every number of every call, with the first of two that hold at once. Of a number, a line each: what is
// called, the number, whether the voice came back as it was, and of a play its multiply count.

#![tactic(auto)]

use control::{Card, Order};
use damage::{Field, with};
use player::{Play, Refused, Voice};
use std::io;
use std::io::Write;

mod damage; // voices with a field changed

// Document 01's book K.
const K: [i32; 11] = [2, 1, 0, 0, 1, 0, 16384, 16384, -16384, 16384, 16384];

// K with a fade of 4 points.
const SLOW: [i32; 11] = [2, 1, 0, 0, 4, 0, 16384, 16384, -16384, 16384, 16384];

// K with a fade of 3 points, which ends inside an output.
const ODD: [i32; 11] = [2, 1, 0, 0, 3, 0, 16384, 16384, -16384, 16384, 16384];

// The sizes of source document 002, N = 12 and B = 3, with a fade of 4 points: the sample next to P, and a mean of three points.
const TWELVE: [i32; 34] = [
    12, 1, 0, 3, 4, 0, 0, 0, 0, 0, 0, 16384, 0, 0, 0, 0, 0, 0, 0, 0, 0, 0, 16384, -16384, 0, 0, 0,
    0, 0, 16384, 8192, 4096, 0, 0,
];

// A silent store of 3 samples with top level 1: S, T, two lengths, 3 + 2 words.
const SILENT: [i32; 9] = [3, 1, 3, 2, 0, 0, 0, 0, 0];

// The same with top level 4: S, T, five lengths, 3 + 2 + 1 + 1 + 1 words.
const SILENT_4: [i32; 15] = [3, 4, 3, 2, 1, 1, 1, 0, 0, 0, 0, 0, 0, 0, 0];

// A position past the last, 2^60.
const FAR: u64 = 1152921504606846977;

// A point past the loudest, 2^29.
const LOUD: u64 = 536870913;

// The voice that a call hands back, accepted or refused.
fn after(answer: Result<Voice, Refused>) -> Voice {
    answer.unwrap_or_else(|refused| refused.voice)
}

// The same of a play.
fn after_play(answer: Result<Play, Refused>) -> Voice {
    match answer {
        Ok(played) => played.voice,
        Err(refused) => refused.voice,
    }
}

// The number of an answer, 0 where it is accepted.
fn number_of<T>(answer: &Result<T, Refused>) -> u32 {
    match answer {
        Ok(_) => 0,
        Err(refused) => refused.refusal.number(),
    }
}

// A play's multiply count, 0 where it is refused.
fn count_of(answer: Result<Play, Refused>) -> u64 {
    answer.map_or(0, |played| played.multiplies)
}

// A number, and whether the voice came back as it was.
fn number(
    out: &mut impl Write,
    label: &str,
    given: &Voice,
    number: u32,
    v: &Voice,
) -> io::Result<()> {
    let after = if given == v { "kept" } else { "moved" };
    write!(out, "{label} {number} {after}")
}

fn line(
    out: &mut impl Write,
    label: &str,
    given: &Voice,
    answer: Result<Voice, Refused>,
) -> io::Result<()> {
    number(out, label, given, number_of(&answer), &after(answer))?;
    print::end_line(out)
}

fn opening(out: &mut impl Write, label: &str, rate: f32, top: u32) -> io::Result<()> {
    let answer = Voice::open(Card { rate, top });
    let v = after(answer);
    writeln!(out, "{label} {} {}", number_of(&answer), v.control.rate)
}

// Rates at the limits.
fn limits(out: &mut impl Write) -> io::Result<()> {
    opening(out, "open 1/16", 0.0625, 0)?;
    opening(out, "open below 1/16", 0.062499996, 0)?;
    opening(out, "open 2 T 0", 2.0, 0)?;
    opening(out, "open 2 T 1", 2.0, 1)?;
    opening(out, "open 31.999998 T 4", 31.999998, 4)?;
    opening(out, "open 32 T 4", 32.0, 4)
}

// Rates that no voice has, and a top level that none has.
fn no_rates(out: &mut impl Write) -> io::Result<()> {
    let zero = 0.0f32;
    opening(out, "open NaN", zero / zero, 4)?;
    opening(out, "open infinity", 1.0 / zero, 4)?;
    opening(out, "open -1", -1.0, 4)?;
    opening(out, "open -0", -0.0, 4)?;
    opening(out, "open T 5", 1.0, 5)?;
    opening(out, "open NaN T 5", zero / zero, 5)
}

// A voice at rate 1 with top level 1.
fn fresh() -> Voice {
    after(Voice::open(Card { rate: 1.0, top: 1 }))
}

// The same in a glide.
fn gliding(target: f32, count: u32) -> Voice {
    after(fresh().order(Order::Glide { target, count }))
}

// One output more, with its rate.
fn one_output(out: &mut impl Write, v: Voice) -> io::Result<Voice> {
    let mut block = [0i16; 1];
    let w = after_play(v.play(&K, &SILENT, &mut block));
    print::next(out, w.control.rate)?;
    Ok(w)
}

// The rates of the outputs of a glide from 1 to 2 over 4 and of one after it, and the count of the glide that is left.
fn glide(out: &mut impl Write) -> io::Result<()> {
    write!(out, "glide")?;
    let mut v = gliding(2.0, 4);
    for _ in 0..5 {
        v = one_output(out, v)?;
    }
    print::next(out, v.control.glide.count)?;
    print::end_line(out)
}

// The rate of a voice, and its current level: in a fade the old one.
fn rate_and_level(out: &mut impl Write, v: &Voice) -> io::Result<()> {
    write!(out, " {} {}", v.control.rate, v.control.fade.from)
}

// One output more, with its rate and the level after it.
fn level_after(out: &mut impl Write, v: Voice, book: &[i32]) -> io::Result<Voice> {
    let mut block = [0i16; 1];
    let w = after_play(v.play(book, &SILENT_4, &mut block));
    rate_and_level(out, &w)?;
    Ok(w)
}

fn four_levels(out: &mut impl Write, v: Voice, book: &[i32]) -> io::Result<Voice> {
    let mut w = v;
    for _ in 0..4 {
        w = level_after(out, w, book)?;
    }
    Ok(w)
}

// A glide of 8 outputs to a rate.
fn glide_levels(
    out: &mut impl Write,
    label: &str,
    v: Voice,
    target: f32,
    book: &[i32],
) -> io::Result<Voice> {
    write!(out, "{label}")?;
    let g = after(v.order(Order::Glide { target, count: 8 }));
    let half = four_levels(out, g, book)?;
    let w = four_levels(out, half, book)?;
    print::end_line(out)?;
    Ok(w)
}

// A voice with top level 4.
fn high(rate: f32) -> Voice {
    after(Voice::open(Card { rate, top: 4 }))
}

// From 2 down past 1.875 to 1.75 and up again, with a fade of one point and of four.
fn glides_past_the_band(out: &mut impl Write) -> io::Result<()> {
    let low = glide_levels(out, "down", high(2.0), 1.75, &K)?;
    glide_levels(out, "up", low, 2.0, &K)?;
    let slow = glide_levels(out, "down, F 4", high(2.0), 1.75, &SLOW)?;
    glide_levels(out, "up, F 4", slow, 2.0, &SLOW)?;
    Ok(())
}

// One output after a jump.
fn level_at(out: &mut impl Write, v: Voice, rate: f32) -> io::Result<Voice> {
    level_after(out, after(v.order(Order::Jump(rate))), &K)
}

// A level's band: opened at its end, and from the level itself to that end, just below it and back, and to the lowest rate.
fn band(out: &mut impl Write, label: &str, octave: f32, end: f32, below: f32) -> io::Result<()> {
    write!(out, "{label}")?;
    rate_and_level(out, &high(end))?;
    rate_and_level(out, &high(octave))?;
    let w = level_at(out, high(octave), end)?;
    let w = level_at(out, w, below)?;
    level_at(out, w, end)?;
    level_at(out, high(octave), 0.0625)?;
    print::end_line(out)
}

// The bands of levels 1 to 4: down to 15/16 of the octave.
fn bands(out: &mut impl Write) -> io::Result<()> {
    band(out, "band of 1", 2.0, 1.875, 1.8749999)?;
    band(out, "band of 2", 4.0, 3.75, 3.7499998)?;
    band(out, "band of 3", 8.0, 7.5, 7.4999995)?;
    band(out, "band of 4", 16.0, 15.0, 14.999999)
}

// One output more, with its multiply count.
fn count_after(out: &mut impl Write, v: Voice, book: &[i32]) -> io::Result<Voice> {
    let mut block = [0i16; 1];
    let answer = v.play(book, &SILENT, &mut block);
    print::next(out, count_of(answer))?;
    Ok(after_play(answer))
}

fn two_counts(out: &mut impl Write, v: Voice, book: &[i32]) -> io::Result<Voice> {
    let w = count_after(out, v, book)?;
    count_after(out, w, book)
}

// Two outputs, and four more after a jump across the octave; then these four in one play.
fn counts(out: &mut impl Write, label: &str, book: &[i32]) -> io::Result<()> {
    let mut block = [0i16; 4];
    write!(out, "{label}")?;
    let rested = two_counts(out, fresh(), book)?;
    let v = after(rested.order(Order::Jump(2.0)));
    let w = two_counts(out, v, book)?;
    two_counts(out, w, book)?;
    print::next(out, count_of(v.play(book, &SILENT, &mut block)))?;
    print::end_line(out)
}

// Fades that end inside an output and with it.
fn all_counts(out: &mut impl Write) -> io::Result<()> {
    counts(out, "multiplies, F 1", &K)?;
    counts(out, "multiplies, F 3", &ODD)?;
    counts(out, "multiplies, F 4", &SLOW)?;
    counts(out, "multiplies, N 12, B 3", &TWELVE)
}

fn jumped(out: &mut impl Write, label: &str, v: &Voice, rate: f32) -> io::Result<()> {
    line(out, label, v, v.order(Order::Jump(rate)))
}

fn glided(out: &mut impl Write, label: &str, v: &Voice, target: f32, count: u32) -> io::Result<()> {
    line(out, label, v, v.order(Order::Glide { target, count }))
}

fn sought(out: &mut impl Write, label: &str, v: &Voice, position: u64) -> io::Result<()> {
    line(out, label, v, v.seek(position))
}

// The line of a play.
fn played(
    out: &mut impl Write,
    label: &str,
    given: &Voice,
    answer: Result<Play, Refused>,
) -> io::Result<()> {
    number(out, label, given, number_of(&answer), &after_play(answer))?;
    print::next(out, count_of(answer))?;
    print::end_line(out)
}

fn orders(out: &mut impl Write) -> io::Result<()> {
    let v = fresh();
    jumped(out, "jump 2", &v, 2.0)?;
    jumped(out, "jump 4", &v, 4.0)?;
    glided(out, "glide c 0", &v, 2.0, 0)?;
    glided(out, "glide c 65536", &v, 2.0, 65536)?;
    glided(out, "glide c 65537", &v, 2.0, 65537)?;
    glided(out, "glide 4 c 0", &v, 4.0, 0)?;
    glided(
        out,
        "glide 4, P",
        &with(fresh(), Field::Position, FAR),
        4.0,
        0,
    )?;
    jumped(out, "jump 2, i", &with(fresh(), Field::Step, 7), 2.0)
}

fn seeks(out: &mut impl Write) -> io::Result<()> {
    let v = fresh();
    sought(out, "seek 2^60", &v, FAR - 1)?;
    sought(out, "seek 2^60 + 1", &v, FAR)?;
    let loud = with(fresh(), Field::Point, LOUD);
    sought(out, "seek 2^60 + 1, point", &loud, FAR)
}

// Each state, in an order, a seek and a play.
fn state(out: &mut impl Write, label: &str, v: &Voice) -> io::Result<()> {
    let mut block = [7i16; 2];
    jumped(out, label, v, 1.5)?;
    sought(out, label, v, 5)?;
    played(out, label, v, v.play(&SLOW, &SILENT, &mut block))
}

// A fresh voice with a field changed.
fn damaged(out: &mut impl Write, label: &str, field: Field, x: u64) -> io::Result<()> {
    state(out, label, &with(fresh(), field, x))
}

// A fresh voice with two fields changed.
fn damaged_twice(
    out: &mut impl Write,
    label: &str,
    first: (Field, u64),
    second: (Field, u64),
) -> io::Result<()> {
    let v = with(fresh(), first.0, first.1);
    state(out, label, &with(v, second.0, second.1))
}

// A voice in a glide with a field changed.
fn damaged_glide(out: &mut impl Write, label: &str, field: Field, x: u64) -> io::Result<()> {
    state(out, label, &with(gliding(1.5, 9), field, x))
}

fn fades(out: &mut impl Write) -> io::Result<()> {
    damaged(out, "T 5", Field::Top, 5)?;
    damaged(out, "from 2", Field::From, 2)?;
    damaged(out, "to 2", Field::To, 2)?;
    damaged(out, "unequal at rest", Field::To, 1)?;
    damaged(out, "equal in a fade", Field::Step, 1)?;
    damaged_twice(out, "i 4", (Field::Step, 4), (Field::To, 1))?;
    damaged_twice(out, "i 3", (Field::Step, 3), (Field::To, 1))
}

fn rates(out: &mut impl Write) -> io::Result<()> {
    damaged(out, "R low", Field::Rate, 8388607)?;
    damaged(out, "R high", Field::Rate, 536870912)?;
    damaged(out, "R0 at rest", Field::Start, 1)?;
    damaged_glide(out, "R0 low", Field::Start, 8388607)?;
    damaged_glide(out, "R1 high", Field::Target, 536870912)?;
    damaged_glide(out, "c 65537", Field::Count, 65537)?;
    damaged_glide(out, "j 9", Field::Done, 9)?;
    damaged_glide(out, "j 8", Field::Done, 8)
}

fn places(out: &mut impl Write) -> io::Result<()> {
    damaged(out, "P high", Field::Position, FAR)?;
    damaged(out, "point high", Field::Point, LOUD)?;
    damaged(out, "point 2^29", Field::Point, LOUD - 1)
}

// Two conditions at once.
fn pairs(out: &mut impl Write) -> io::Result<()> {
    damaged(out, "13 and 14", Field::To, 2)?;
    damaged_twice(out, "13 and 15", (Field::To, 2), (Field::Rate, 1))?;
    damaged_twice(out, "14 and 15", (Field::To, 1), (Field::Rate, 1))?;
    damaged_twice(out, "15 and 16", (Field::Rate, 1), (Field::Position, FAR))?;
    damaged_twice(
        out,
        "16 and 17",
        (Field::Position, FAR),
        (Field::Point, LOUD),
    )
}

// A play of two outputs, and what they are afterwards.
fn lent(
    out: &mut impl Write,
    label: &str,
    v: Voice,
    book: &[i32],
    store: &[i32],
) -> io::Result<()> {
    let mut block = [7i16; 2];
    played(out, label, &v, v.play(book, store, &mut block))?;
    print::line(out, &block)
}

fn lent_book(out: &mut impl Write, label: &str, book: &[i32]) -> io::Result<()> {
    lent(out, label, fresh(), book, &SILENT)
}

// Books of a wrong length, or with sizes or words out of range.
fn sizes(out: &mut impl Write) -> io::Result<()> {
    lent_book(out, "play 1", &K[..4])?;
    lent_book(
        out,
        "play 2",
        &[3, 1, 0, 0, 1, 0, 16384, 16384, -16384, 16384, 16384],
    )?;
    lent_book(out, "play 3", &K[..10])?;
    lent_book(
        out,
        "play 4",
        &[2, 1, 0, 0, 1, 0, 16384, 16384, -16384, 40000, 16384],
    )
}

// Books with a wrong first word, difference or sum.
fn words(out: &mut impl Write) -> io::Result<()> {
    let heavy = [
        4, 1, 0, 0, 1, 0, 32767, 32767, 4, 32767, 0, -32763, -4, 16384, 16384,
    ];
    lent_book(
        out,
        "play 5",
        &[2, 1, 0, 0, 1, 1, 16384, 16383, -16384, 16384, 16384],
    )?;
    lent_book(
        out,
        "play 6",
        &[2, 1, 0, 0, 1, 0, 16384, 16384, 16384, 16384, 16384],
    )?;
    lent_book(out, "play 7", &heavy)
}

fn lent_store(out: &mut impl Write, label: &str, store: &[i32]) -> io::Result<()> {
    lent(out, label, fresh(), &K, store)
}

// The silent store with word i of its header changed to x.
fn header_with(i: usize, x: i32) -> [i32; 9] {
    let mut store = SILENT;
    if let Some(word) = store[..4].get_mut(i) {
        *word = x;
    }
    store
}

fn lent_header(out: &mut impl Write, label: &str, i: usize, x: i32) -> io::Result<()> {
    let store = header_with(i, x);
    lent_store(out, label, &store)
}

// Stores that are cut short, or name an S or a T out of range.
fn stores(out: &mut impl Write) -> io::Result<()> {
    lent_store(out, "play no words", &SILENT[..0])?;
    lent_store(out, "play one word", &SILENT[..1])?;
    lent_store(out, "play two words", &SILENT[..2])?;
    lent_store(out, "play 9", &SILENT[..8])?;
    lent_header(out, "play S 0", 0, 0)?;
    lent_header(out, "play S -3", 0, -3)?;
    lent_header(out, "play S 1048577", 0, 1048577)?;
    lent_header(out, "play S 4", 0, 4)?;
    lent_header(out, "play T -1", 1, -1)?;
    lent_header(out, "play T 5", 1, 5)?;
    lent_header(out, "play T 2", 1, 2)
}

// A studio's store with a wrong length, and a store of another top level than the voice's.
fn headers(out: &mut impl Write) -> io::Result<()> {
    lent_header(out, "play 18, level 0", 2, 2)?;
    lent_header(out, "play 18, level 1", 3, 3)?;
    lent_header(out, "play 19", 1, 0)?;
    lent_store(out, "play", &SILENT)
}

fn lent_voice(
    out: &mut impl Write,
    label: &str,
    field: Field,
    x: u64,
    store: &[i32],
) -> io::Result<()> {
    lent(out, label, with(fresh(), field, x), &K, store)
}

// Conditions of a book, a store and a voice at once.
fn mixed(out: &mut impl Write) -> io::Result<()> {
    lent(out, "play 1 and 9", fresh(), &K[..4], &SILENT[..0])?;
    lent_voice(
        out,
        "play 18 and 13",
        Field::To,
        2,
        &[3, 1, 2, 2, 0, 0, 0, 0, 0],
    )?;
    lent_voice(out, "play 13 and 19", Field::Top, 5, &SILENT)?;
    lent_voice(out, "play 19, T 0", Field::Top, 0, &SILENT)?;
    lent_voice(out, "play 19, T 2", Field::Top, 2, &SILENT)?;
    lent_voice(out, "play 19 and 14", Field::Step, 1, &[3, 0, 3, 0, 0, 0])?;
    lent_voice(
        out,
        "play 19 and 17",
        Field::Point,
        LOUD,
        &[3, 0, 3, 0, 0, 0],
    )
}

// A play of no outputs leaves the voice as it was.
fn no_outputs(out: &mut impl Write) -> io::Result<()> {
    let mut block = [7i16; 1];
    let v = fresh();
    played(out, "play 0", &v, v.play(&K, &SILENT, &mut block[..0]))
}

fn main(rt: HostRuntime) -> io::Result<()> {
    let mut out = rt.stdout();
    limits(&mut out)?;
    no_rates(&mut out)?;
    glide(&mut out)?;
    glides_past_the_band(&mut out)?;
    bands(&mut out)?;
    all_counts(&mut out)?;
    orders(&mut out)?;
    seeks(&mut out)?;
    state(&mut out, "fresh", &fresh())?;
    fades(&mut out)?;
    rates(&mut out)?;
    places(&mut out)?;
    pairs(&mut out)?;
    sizes(&mut out)?;
    words(&mut out)?;
    stores(&mut out)?;
    headers(&mut out)?;
    mixed(&mut out)?;
    no_outputs(&mut out)?;
    out.flush()
}
