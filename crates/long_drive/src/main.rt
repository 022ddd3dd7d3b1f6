// A long drive: 250 blocks of 4000 outputs of a hum, with a book of N = 12, M = 64, A = 40, B = 10, F = 64 and the levels 0 to 2. Before a
// block it jumps, glides or seeks, each once in eight blocks. It prints a check number of the million samples, and the last two. `stdout` has
// what rust/renderer, a renderer of other authorship, computes from the same drive.

#![tactic(auto)]

ghost use Rattle.std.specs.Prelude.{◌≤◌};

use control::{Card, Order};
use filter::Book;
use player::Voice;
use std::io;
use std::io::Write;

mod filter; // the book

type Store = [i32; 65536];

// Sample i of the hum: two ramps of different lengths, one less the other.
fn hum_at(i: usize) -> i16 {
    let up = (i % 331 * 60) as i64;
    let down = (i % 97 * 80) as i64;
    (up - down) as i16
}

fn hum(samples: &mut [i16]) {
    for (i, sample) in samples.iter_mut().enumerate() {
        *sample = hum_at(i);
    }
}

// What is done before block n: a jump, a glide or a seek to the start.
fn steered(v: Voice, n: u32) -> Voice {
    let glide = Order::Glide {
        target: 3.0,
        count: 2000,
    };
    let answer = match n % 8 {
        0 => v.seek(0),
        3 => v.order(Order::Jump(1.5)),
        5 => v.order(glide),
        _ => Ok(v),
    };
    answer.unwrap_or(v)
}

// A sample as a number from 0 to 65535.
fn raised(x: i16) -> u64
    ensures { result ≤ 65535 }
{
    (x as i64 + 32768) as u64
}

// The check number after one more block: c × 31 + sample, modulo 2^31 − 1, over the block.
fn checked(c: u64, block: &[i16]) -> u64 {
    let mut sum = c % 2147483647;
    for x in block {
        sum = (sum * 31 + raised(*x)) % 2147483647;
    }
    sum
}

// Block n, after what is done before it.
fn played(v: Voice, n: u32, book: &[i32], store: &[i32], block: &mut [i16]) -> Voice {
    let steered = steered(v, n);
    match steered.play(book, store, block) {
        Ok(played) => played.voice,
        Err(refused) => refused.voice,
    }
}

// Plays 250 blocks, and hands back the check number of all samples.
fn driven(voice: Voice, book: &[i32], store: &[i32], block: &mut [i16]) -> u64 {
    let mut v = voice;
    let mut check = 0;
    for n in 0..250 {
        v = played(v, n, book, store, block);
        check = checked(check, block);
    }
    check
}

// The last two samples of a block.
fn last_two(out: &mut impl Write, block: &[i16]) -> io::Result<()> {
    if 2 <= block.len() {
        let start = block.len() - 2;
        print::line(out, &block[start..])?;
    }
    Ok(())
}

// Builds the store of the hum, with the levels 0 to 2.
fn built(book: &Book, store: &mut Store) {
    let mut samples = [0i16; 32768];
    hum(&mut samples);
    let _ = levels::build(book, &samples, 2, store);
}

fn drive(out: &mut impl Write, book: &Book, store: &Store) -> io::Result<()> {
    let mut block = [0i16; 4000];
    let opened = Voice::open(Card { rate: 1.5, top: 2 });
    let v = opened.unwrap_or_else(|refused| refused.voice);
    write!(out, "{}", driven(v, book, store, &mut block))?;
    last_two(out, &block)
}

fn main(rt: HostRuntime) -> io::Result<()> {
    let mut out = rt.stdout();
    let book = filter::BOOK;
    let mut store = [0i32; 65536];
    built(&book, &mut store);
    drive(&mut out, &book, &store)?;
    out.flush()
}
