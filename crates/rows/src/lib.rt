// A book's impulses in rows of 16-bit words, made once per call. Row q has the impulses of phase q, for q = 0 .. M, and 0 behind them: a row is 8, 16
// or 32 words wide, so that the compiler takes its products eight at a time.

#![tactic(auto)]

ghost use Rattle.std.specs.Prelude.{true, ◌⊎◌, ◌≡◌, ℕ, ◌+◌, ◌-◌, ◌*◌, ◌%◌, ◌≤◌, ◌<◌, pos, negsuc, length, ◌≤ℤ◌};
ghost use Rattle.arith.specs.Limit.{limit};
ghost use Rattle.arith.specs.Lists.{at};
ghost use Rattle.book.specs.Book.{sizes_of};
ghost use Rattle.book.specs.Check.{book_number};
ghost use Rattle.rows.specs.Rows.{row_width, narrowed, Positive, PhasesFit, PhasesOf, RowsOf};

use arith::narrow;

// The width of the rows of a book with so many taps.
pub fn row_width(taps: usize) -> usize
    ensures { result ≡ row_width taps }
{
    if taps <= 8 {
        return 8;
    }
    if taps <= 16 {
        return 16;
    }
    32
}

// The first N words, narrowed. They are read before any is written: a write could change the book for all that the compiler knows.
fn row_of<const N: usize>(words: &[i32]) -> [i16; N]
    requires { N ≤ length words.now }
    ensures { (k : ℕ) → k < N → at result k ≡ limit (negsuc 32767) (pos 32767) (at words.now k) }
{
    let mut row = [0i16; N];
    for k in 0..N {
        row[k] = narrow(words[k]);
    }
    row
}

// The rows of the phases. N and W are constants, so that the loops over a row are unrolled: a fifth of the time.
fn rows_by<const N: usize, const W: usize>(table: &mut [i16], book: &[i32], phases: usize)
    requires { PhasesFit book.now N W phases table.old }
    ensures { PhasesOf (narrowed book.now) N W phases table.new }
{
    for q in 0..phases {
        let row: [i16; N] = row_of(&book[5 + q * N..]);
        table[q * W..q * W + N].copy_from_slice(&row);
    }
}

// Rows of four words that lie one behind another.
fn spread(table: &mut [i16], words: &[i16], phases: usize)
    requires room { (phases * 4 ≤ length words.now) × (phases * 8 ≤ length table.old) }
    requires zeros { (j : ℕ) → at table.old j ≡ pos 0 }
    ensures { PhasesOf (at words.now) 4 8 phases table.new }
{
    for q in 0..phases {
        table[q * 8..q * 8 + 4].copy_from_slice(&words[q * 4..q * 4 + 4]);
    }
}

// The rows of phases of four taps. The compiler narrows eight words at once, and four one by one: so two phases are narrowed as one of eight taps first.
fn rows_of_four(table: &mut [i16], book: &[i32], phases: usize)
    requires { PhasesFit book.now 4 8 phases table.old }
    ensures { PhasesOf (narrowed book.now) 4 8 phases table.new }
{
    if phases % 2 != 0 {
        rows_by::<4, 8>(table, book, phases);
        return;
    }
    let mut words = [0i16; 512];
    rows_by::<8, 8>(&mut words, book, phases / 2);
    spread(table, &words, phases);
}

// The rows of the phases of a book. Here its taps become a constant, and so does the width of their rows, which is none that is computed: so there is an arm
// for each.
fn phase_rows(table: &mut [i16], book: &[i32], phases: usize, taps: usize, width: usize)
    requires taps { (2 ≤ taps) × (taps % 2 ≡ 0) × (width ≡ row_width taps) }
    requires fit { PhasesFit book.now taps width phases table.old }
    ensures { PhasesOf (narrowed book.now) taps width phases table.new }
{
    match taps {
        2 => rows_by::<2, 8>(table, book, phases),
        4 => rows_of_four(table, book, phases),
        6 => rows_by::<6, 8>(table, book, phases),
        8 => rows_by::<8, 8>(table, book, phases),
        10 => rows_by::<10, 16>(table, book, phases),
        12 => rows_by::<12, 16>(table, book, phases),
        14 => rows_by::<14, 16>(table, book, phases),
        16 => rows_by::<16, 16>(table, book, phases),
        18 => rows_by::<18, 32>(table, book, phases),
        20 => rows_by::<20, 32>(table, book, phases),
        22 => rows_by::<22, 32>(table, book, phases),
        _ => rows_by::<24, 32>(table, book, phases),
    }
}

// Whether of the coefficients before and at a place one is positive, as far as their sum tells.
fn lobe(table: &[i16], middle: usize) -> bool
    requires { (1 ≤ middle) × (middle < length table.now) }
    ensures { result ≡ true → (pos 1 ≤ℤ at table.now (middle - 1)) ⊎ (pos 1 ≤ℤ at table.now middle) }
{
    table[middle - 1] as i32 + table[middle] as i32 >= 1
}

// Whether each of `count` rows has a positive coefficient, as far as the two in its middle tell: in a usual filter they are the main lobe.
fn lobes(table: &[i16], count: usize, taps: usize, width: usize) -> bool
    requires { (2 ≤ taps) × (taps ≤ width) × (width ≤ 32) × (count * width ≤ length table.now) }
    ensures { result ≡ true → (q : ℕ) → q < count → Positive table.now (q * width) width }
{
    for row in table[..count * width].chunks_exact(width) {
        if !lobe(row, taps / 2) {
            return false;
        }
    }
    true
}

// The words, narrowed, into the front of a row.
fn put_narrowed(row: &mut [i16], words: &[i32])
    requires { length words.now ≤ length row.old }
    ensures words { (k : ℕ) → k < length words.now → at row.new k ≡ limit (negsuc 32767) (pos 32767) (at words.now k) }
    ensures rest { (k : ℕ) → length words.now ≤ k → at row.new k ≡ at row.old k }
{
    for k in 0..words.len() {
        row[k] = narrow(words[k]);
    }
}

// The rows of a book, in a table of zeros that has room for them. Behind the last phase comes the first one, from its second impulse on. The answer is
// whether each row is known to have a positive coefficient, if that is asked: then a sum of any samples fits 32 bits.
pub fn stage_rows(table: &mut [i16], book: &[i32], phases: usize, taps: usize, asked: bool) -> bool
    requires accepted { book_number book.now ≡ 0 }
    requires sizes { (phases ≡ (sizes_of book.now).phases) × (taps ≡ (sizes_of book.now).taps) }
    requires room { (phases + 1) * row_width taps ≤ length table.old }
    requires zeros { (j : ℕ) → at table.old j ≡ pos 0 }
    ensures { RowsOf book.now table.new result }
{
    let width = row_width(taps);
    phase_rows(table, book, phases, taps, width);
    put_narrowed(&mut table[phases * width..], &book[6..5 + taps]);
    asked && lobes(table, phases + 1, taps, width)
}
