// A voice as 95 signed 32-bit words: T, the fade's old and new level and i, R, R0, R1, c, j and P, then the 81 points. A field of 64
// bits is two words, the low one first.

ghost use Rattle.std.specs.Prelude.{◌≡◌, ◌+◌, ◌<◌, length};
ghost use Rattle.arith.specs.Lists.{at, part};
ghost use Rattle.arith.specs.Words.{unsigned};
ghost use Rattle.marshal.specs.Words.{voice_length, wide, low_word, high_word, control_of, voice_of, control_words, words_of};

use control::{Control, Fade, Glide};
use player::Voice;

// Word k, read as unsigned.
#[tactic(auto, using(arith::proofs::Bits::bits_unsigned))]
fn unsigned_at(words: &[i32], k: usize) -> u32
    requires { k < length words.now }
    ensures { result ≡ unsigned (at words.now k) }
{
    words[k].cast_unsigned()
}

// The number of 64 bits in words k and k + 1. This and the two below count by 2^32, as the specification does, and not by shifts.
fn wide_at(words: &[i32], k: usize) -> u64
    requires { k + 1 < length words.now }
    ensures { result ≡ wide (at words.now k) (at words.now (k + 1)) }
{
    unsigned_at(words, k) as u64 + unsigned_at(words, k + 1) as u64 * 4294967296
}

// The two words of a number of 64 bits.
fn low_word(x: u64) -> i32
    ensures { result ≡ low_word x }
{
    ((x % 4294967296) as u32).cast_signed()
}

fn high_word(x: u64) -> i32
    ensures { result ≡ high_word x }
{
    ((x / 4294967296) as u32).cast_signed()
}

// The control in a voice's first 14 words. That there are 95 is a clause, here and twice below, and no array's type: C lends a slice, and through an
// array lent from it each call would have to show again what comes back to the slice.
fn control_of(words: &[i32]) -> Control
    requires { length words.now ≡ voice_length }
    ensures { result ≡ control_of words.now }
{
    Control {
        top: unsigned_at(words, 0),
        fade: Fade {
            from: unsigned_at(words, 1),
            to: unsigned_at(words, 2),
            step: unsigned_at(words, 3),
        },
        rate: wide_at(words, 4),
        glide: Glide {
            start: wide_at(words, 6),
            target: wide_at(words, 8),
            count: unsigned_at(words, 10),
            done: unsigned_at(words, 11),
        },
        position: wide_at(words, 12),
    }
}

// The points behind them.
fn history_of(words: &[i32]) -> [i32; 81]
    requires { length words.now ≡ voice_length }
    ensures { result ≡ part words.now 14 81 }
{
    let mut history = [0i32; 81];
    history.copy_from_slice(&words[14..]);
    history
}

// The voice that the words hold.
pub(crate) fn voice_of(words: &[i32]) -> Voice
    requires { length words.now ≡ voice_length }
    ensures { result ≡ voice_of words.now }
{
    Voice {
        control: control_of(words),
        history: history_of(words),
    }
}

// The words of a control.
fn control_words(c: Control) -> [i32; 14]
    ensures { result ≡ control_words c }
{
    let fade = c.fade;
    let glide = c.glide;
    [
        c.top.cast_signed(),
        fade.from.cast_signed(),
        fade.to.cast_signed(),
        fade.step.cast_signed(),
        low_word(c.rate),
        high_word(c.rate),
        low_word(glide.start),
        high_word(glide.start),
        low_word(glide.target),
        high_word(glide.target),
        glide.count.cast_signed(),
        glide.done.cast_signed(),
        low_word(c.position),
        high_word(c.position),
    ]
}

// Writes a voice's words: the control's, and the points behind them.
pub(crate) fn put_voice(words: &mut [i32], v: Voice)
    requires { length words.old ≡ voice_length }
    ensures { words.new ≡ words_of v }
{
    let (head, points) = words.split_at_mut(14);
    head.copy_from_slice(&control_words(v.control));
    points.copy_from_slice(&v.history);
}
