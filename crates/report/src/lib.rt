// The drive report: the lines of a drive's text, played on a book and a store, and what they print. Input comes in pieces, and a line may be
// cut anywhere between two of them.

#![tactic(auto)]

use arrayvec::ArrayString;
use drive_text::Scan;
use player::Voice;

mod calls; // a line of the drive
mod lines; // the lines that are printed
mod pieces; // the bytes of the input

// Input past its first so many bytes is not read.
pub const INPUT_BYTES: u32 = 1 << 20;

// The bytes of a piece, and the room that its text needs: 96 for each, since each may end a line.
pub const PIECE_BYTES: usize = 4096;

pub const TEXT_BYTES: usize = 96 * PIECE_BYTES;

// What a piece prints.
pub type Text = ArrayString<TEXT_BYTES>;

// What a drive is played on.
#[derive(Clone, Copy)]
pub struct Lent<'a> {
    pub book: &'a [i32],
    pub store: &'a [i32],
}

// A line that is printed: "refused", or an accepted play: its number from 1, outputs, multiplies and the current level at the end.
#[derive(Clone, Copy)]
pub enum Printed {
    Refused,
    Played {
        number: u64,
        outputs: u64,
        multiplies: u64,
        level: u64,
    },
}

// What was played so far.
#[derive(Clone, Copy)]
pub struct Drive {
    pub voice: Voice,
    pub plays: u32,
    pub outputs: u64,
    pub multiplies: u64,
}

// A report under way: the bytes of the input that are left to read, the line that was begun, and what was played.
#[derive(Clone, Copy)]
pub struct Report {
    pub left: u32,
    pub scan: Scan,
    pub drive: Drive,
}
