// Blocks of outputs: run after run along a line of points.

ghost use Rattle.std.specs.Prelude.{◌≡◌, ℕ, ◌+◌, ◌*◌, ◌^◌, ◌≤◌, ◌<◌, pos, nat_abs, length, drop, replicate};
ghost use Rattle.arith.specs.Lists.{at, part, overwrite};
ghost use Rattle.book.specs.Book.{sizes_of};
ghost use Rattle.rows.specs.Rows.{row_width};
ghost use Rattle.refusals.specs.Refusals.{play_number, point_bound};
ghost use Rattle.player.specs.Calls.{played, play_answer};
ghost use Rattle.player.specs.Inner.{line_of};

use crate::{Play, Voice};
use control::Control;
use control::rate::octave_level;
use decimation::Taps;
use multiplies::block_multiplies;
use points::next_points;
use rows::{row_width, stage_rows};
use values::layout::layout_of;
use windows::source::Source;

// Makes a line of zeros the line before a run: a history, widened to 64 bits, from place 128 on. A line that is handed back would be copied.
fn begin_line(line: &mut [i64; 209], history: &[i32; 81])
    requires { line.old ≡ replicate 209 (pos 0) }
    ensures line { line.new ≡ line_of history.now }
    ensures kept { (drop 128 line.new ≡ history.now) × (length history.now ≡ 81) }
{
    for k in 0..81 {
        line[128 + k] = i64::from(history[k]);
    }
}

// The history after a run, narrowed to 32 bits again.
fn history_of(line: &[i64; 209]) -> [i32; 81]
    requires { (k : ℕ) → nat_abs (at line.now k) ≤ 2 ^ 29 }
    ensures { result ≡ part line.now 128 81 }
{
    let mut history = [0i32; 81];
    for k in 0..81 {
        history[k] = line[128 + k] as i32;
    }
    history
}

// Moves the 81 points from place `start` on to place 128.
fn keep_newest(line: &mut [i64; 209], start: usize)
    requires { start ≤ 128 }
    ensures { line.new ≡ overwrite line.old 128 (part line.old start 81) }
{
    line.copy_within(start..start + 81, 128);
}

// Fills the output slice.
fn fill_from(source: &Source, v: &Voice, out: &mut [i16]) -> Play
    requires top { v.now.control.top ≤ source.now.top }
    requires accepted { play_number source.now.book.now source.now.store.now v.now.control point_bound v.now.history (length out.old) ≡ 0 }
    ensures { played 0 result.voice result.multiplies out.new ≡ play_answer source.now.book.now source.now.store.now v.now out.old }
{
    let decimation = Taps::of(source.book);
    let mut line = [0i64; 209];
    begin_line(&mut line, &v.history);
    let mut control = v.control;
    let mut values = 0;
    let mut i = 0;
    // a turn makes as many outputs as its run has, so no range steps by them
    while i < out.len() {
        let count = (out.len() - i).min(64);
        let run = next_points(&mut line, control, count, source);
        let end = i + run.made;
        decimation.write_outputs(&line, &mut out[i..end]);
        keep_newest(&mut line, 128 - 2 * run.made);
        control = run.control;
        values += run.values;
        i = end;
    }
    let history = history_of(&line);
    let reach = decimation.taps.len() - 1;
    Play {
        voice: Voice { control, history },
        multiplies: block_multiplies(source.layout.taps, values, reach, out.len()),
    }
}

// Whether a block may read level 0, as far as its voice tells: without it no row is looked through for a positive coefficient.
fn may_read_samples(c: Control) -> bool {
    c.fade.from == 0 || c.fade.to == 0 || octave_level(c.rate) == 0 || 0 < c.glide.count
}

// Fills the output slice, with the book's rows in a table of ROOM words.
fn fill_within<const ROOM: usize>(v: &Voice, book: &[i32], store: &[i32], out: &mut [i16]) -> Play
    requires room { (((sizes_of book.now).phases + 1) * row_width (sizes_of book.now).taps < ROOM) × (ROOM ≤ 4136) }
    requires accepted { play_number book.now store.now v.now.control point_bound v.now.history (length out.old) ≡ 0 }
    ensures { played 0 result.voice result.multiplies out.new ≡ play_answer book.now store.now v.now out.old }
{
    let layout = layout_of(book, store);
    let mut table = [0i16; ROOM];
    let positive = stage_rows(
        &mut table,
        book,
        layout.phases,
        layout.taps,
        may_read_samples(v.control),
    );
    let source = Source {
        book,
        store,
        layout,
        top: v.control.top,
        table: &table,
        positive,
    };
    fill_from(&source, v, out)
}

// Fills the output slice. Most books' rows have room in the smaller table, which takes less time to clear.
pub(crate) fn fill(v: Voice, book: &[i32], store: &[i32], out: &mut [i16]) -> Play
    requires { play_number book.now store.now v.control point_bound v.history (length out.old) ≡ 0 }
    ensures { played 0 result.voice result.multiplies out.new ≡ play_answer book.now store.now v out.old }
{
    let sizes = book::read_sizes(book);
    if (sizes.phases + 1) * row_width(sizes.taps) < 1048 {
        return fill_within::<1048>(&v, book, store, out);
    }
    fill_within::<4136>(&v, book, store, out)
}
