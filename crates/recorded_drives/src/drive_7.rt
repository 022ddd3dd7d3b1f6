// Drive 7, made by rust/drives: its numbers, handed to the one printer of drives.
use crate::calls::Call;
use crate::drive::Drive;
use std::io;
use std::io::Write;

const BOOK: [i32; 20] = [
    4, 1, 2, 3, 3, 0, 31843, 17333, 16360, 31843, -14510, -973, -16360, 24015, 0, 4084, 25436,
    2205, 0, 1461,
];

const SAMPLES: [i16; 28] = [
    32767, 32767, 32767, 32767, 32767, 32767, 32767, 32767, 32767, 32767, 32767, 32767, 32767,
    32767, 32767, 32767, 32767, 32767, 32767, 32767, 32767, 32767, 32767, 32767, 32767, 32767,
    -32768, -32768,
];

const CALLS: [Call; 12] = [
    Call::Glide(0x3f700000, 25),
    Call::Glide(0x3f800000, 18),
    Call::Play(27),
    Call::Play(29),
    Call::Glide(0x3f71e000, 32),
    Call::Glide(0x3f7fffff, 29),
    Call::Seek(2823365193),
    Call::Play(21),
    Call::Seek(2117670083),
    Call::Play(2),
    Call::Jump(0x3f700000),
    Call::Glide(0x3f785000, 12),
];

pub fn text(out: &mut impl Write) -> io::Result<()> {
    let drive = Drive {
        seed: 7,
        book: &BOOK,
        samples: &SAMPLES,
        top: 0,
        rate: 0x3eaec07e,
        calls: &CALLS,
    };
    drive.text(out)
}
