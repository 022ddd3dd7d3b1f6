// Drive 23, made by rust/drives: its numbers, handed to the one printer of drives.
use crate::calls::Call;
use crate::drive::Drive;
use std::io;
use std::io::Write;

const BOOK: [i32; 20] = [
    2, 2, 2, 3, 1, 0, -24317, -32768, -29043, -32768, -4726, 8451, 29043, 10144, 0, 11312, 2630, 0,
    3334, 5471,
];

const SAMPLES: [i16; 13] = [
    -7899, 6800, -10799, -14973, 10750, -29927, -6152, -3290, -13552, 7792, 23036, 9093, 24357,
];

const CALLS: [Call; 12] = [
    Call::Play(2),
    Call::Glide(0x3f6d9168, 5),
    Call::Play(17),
    Call::Play(33),
    Call::Glide(0x3f700000, 3),
    Call::Jump(0x3ec54847),
    Call::Seek(2233423295),
    Call::Play(0),
    Call::Glide(0x3fffffff, 9),
    Call::Jump(0x3e2a69ea),
    Call::Play(17),
    Call::Jump(0x3f700000),
];

pub fn text(out: &mut impl Write) -> io::Result<()> {
    let drive = Drive {
        seed: 23,
        book: &BOOK,
        samples: &SAMPLES,
        top: 0,
        rate: 0x7f800000,
        calls: &CALLS,
    };
    drive.text(out)
}
