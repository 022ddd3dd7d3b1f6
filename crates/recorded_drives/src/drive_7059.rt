// Drive 7059, made by rust/drives: its numbers, handed to the one printer of drives.
use crate::calls::Call;
use crate::drive::Drive;
use std::io;
use std::io::Write;

const BOOK: [i32; 13] = [
    2, 1, 0, 2, 4, 0, 32767, 32767, -32767, -16384, 18054, -7357, 0,
];

const SAMPLES: [i16; 37] = [
    3, 1, 2, 1, -2, 1, 2, -1, -2, -1, 2, 3, 0, 0, 1, 3, 2, 2, 0, -1, -1, 0, -3, 2, 0, 0, -1, 0, -3,
    2, 2, 0, 1, 2, 1, 1, -1,
];

const CALLS: [Call; 12] = [
    Call::Jump(0x40700000),
    Call::Seek(9663676415),
    Call::Seek(10737418240),
    Call::Play(29),
    Call::Jump(0x41000000),
    Call::Seek(6442450944),
    Call::Play(11),
    Call::Play(15),
    Call::Jump(0x3f7fffff),
    Call::Play(26),
    Call::Seek(1152921504606846976),
    Call::Play(4),
];

pub fn text(out: &mut impl Write) -> io::Result<()> {
    let drive = Drive {
        seed: 7059,
        book: &BOOK,
        samples: &SAMPLES,
        top: 3,
        rate: 0x40f00000,
        calls: &CALLS,
    };
    drive.text(out)
}
