// A drive's calls: each is made, and printed with its answer.
use crate::lines;
use crate::rates::rate_of;
use control::{Card, Order};
use player::{Refused, Voice};
use std::io;
use std::io::Write;

// A call: a jump or a glide to a rate, given by the bits of its f32, a glide's count of outputs, a position, or a play's count.
#[derive(Clone, Copy)]
pub enum Call {
    Jump(u32),
    Glide(u32, u32),
    Seek(u64),
    Play(usize),
}

// Prints an answer's number and hands on its voice.
fn answered(out: &mut impl Write, answer: Result<Voice, Refused>) -> io::Result<Voice> {
    match answer {
        Ok(voice) => {
            lines::number(out, "number", 0)?;
            Ok(voice)
        }
        Err(refused) => {
            lines::number(out, "number", u64::from(refused.refusal.number()))?;
            Ok(refused.voice)
        }
    }
}

pub fn opened(out: &mut impl Write, bits: u32, top: u32) -> io::Result<Voice> {
    lines::rate(out, "open", bits)?;
    let rate = rate_of(bits);
    answered(out, Voice::open(Card { rate, top }))
}

fn jumped(out: &mut impl Write, v: Voice, bits: u32) -> io::Result<Voice> {
    lines::rate(out, "jump", bits)?;
    answered(out, v.order(Order::Jump(rate_of(bits))))
}

fn gliding(out: &mut impl Write, v: Voice, bits: u32, count: u32) -> io::Result<Voice> {
    lines::glide(out, bits, count)?;
    let target = rate_of(bits);
    answered(out, v.order(Order::Glide { target, count }))
}

fn sought(out: &mut impl Write, v: Voice, position: u64) -> io::Result<Voice> {
    lines::number(out, "seek", position)?;
    answered(out, v.seek(position))
}

// A play into the whole slice.
fn filled(
    out: &mut impl Write,
    v: Voice,
    book: &[i32],
    store: &[i32],
    block: &mut [i16],
) -> io::Result<Voice> {
    lines::number(out, "play", block.len() as u64)?;
    let (number, voice, multiplies) = match v.play(book, store, block) {
        Ok(play) => (0, play.voice, play.multiplies),
        Err(refused) => (refused.refusal.number(), refused.voice, 0),
    };
    lines::number(out, "number", u64::from(number))?;
    lines::number(out, "multiplies", multiplies)?;
    lines::samples(out, "out", block)?;
    Ok(voice)
}

// A play of at most 200 outputs, whose words are 77 before it.
fn played(
    out: &mut impl Write,
    v: Voice,
    book: &[i32],
    store: &[i32],
    count: usize,
) -> io::Result<Voice> {
    let mut room = [77i16; 200];
    if 200 < count {
        return Ok(v);
    }
    filled(out, v, book, store, &mut room[..count])
}

fn called(
    out: &mut impl Write,
    v: Voice,
    call: Call,
    book: &[i32],
    store: &[i32],
) -> io::Result<Voice> {
    match call {
        Call::Jump(bits) => jumped(out, v, bits),
        Call::Glide(bits, count) => gliding(out, v, bits, count),
        Call::Seek(position) => sought(out, v, position),
        Call::Play(count) => played(out, v, book, store, count),
    }
}

// All calls, each from the voice that the last one handed back.
pub fn all(
    out: &mut impl Write,
    voice: Voice,
    calls: &[Call],
    book: &[i32],
    store: &[i32],
) -> io::Result<Voice> {
    let mut v = voice;
    for call in calls {
        v = called(out, v, *call, book, store)?;
    }
    Ok(v)
}
