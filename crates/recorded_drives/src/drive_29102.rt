// Drive 29102, made by rust/drives: its numbers, handed to the one printer of drives.
use crate::calls::Call;
use crate::drive::Drive;
use std::io;
use std::io::Write;

const BOOK: [i32; 11] = [2, 1, 0, 0, 8, 0, 32767, 32767, -32767, -32768, 32767];

const SAMPLES: [i16; 6] = [-690, -2167, -2046, -910, 65, 3776];

const CALLS: [Call; 12] = [
    Call::Seek(1011841665),
    Call::Seek(1409966243839067176),
    Call::Jump(0x40cf5d4c),
    Call::Seek(893178251),
    Call::Play(1),
    Call::Glide(0x3f800000, 65536),
    Call::Glide(0x40ffffff, 65535),
    Call::Seek(1204458182),
    Call::Play(1),
    Call::Jump(0x3ff00000),
    Call::Seek(870287357),
    Call::Play(3),
];

pub fn text(out: &mut impl Write) -> io::Result<()> {
    let drive = Drive {
        seed: 29102,
        book: &BOOK,
        samples: &SAMPLES,
        top: 2,
        rate: 0x3f7fffff,
        calls: &CALLS,
    };
    drive.text(out)
}
