// Drive 33350, made by rust/drives: its numbers, handed to the one printer of drives.
use crate::calls::Call;
use crate::drive::Drive;
use std::io;
use std::io::Write;

const BOOK: [i32; 24] = [
    4, 2, 0, 1, 4, 0, -32768, -32768, 0, -7111, 0, -31246, -27179, -7111, 32768, 1522, -27179,
    -25657, -32768, 31246, 27179, 32767, -9113, 6599,
];

const SAMPLES: [i16; 31] = [
    -32768, -32447, -32126, -31805, -31484, -31163, -30842, -30521, -30200, -29879, -29558, -29237,
    -28916, -28595, -28274, -27953, -27632, -27311, -26990, -26669, -26348, -26027, -25706, -25385,
    -25064, -24743, -24422, -24101, -23780, -23459, -23138,
];

const CALLS: [Call; 12] = [
    Call::Play(29),
    Call::Play(23),
    Call::Jump(0x410c32ee),
    Call::Play(5),
    Call::Glide(0x3f6fffff, 5),
    Call::Seek(4812419185),
    Call::Play(3),
    Call::Seek(3783954592),
    Call::Play(4),
    Call::Glide(0x4070b9db, 7),
    Call::Seek(4606733886),
    Call::Play(3),
];

pub fn text(out: &mut impl Write) -> io::Result<()> {
    let drive = Drive {
        seed: 33350,
        book: &BOOK,
        samples: &SAMPLES,
        top: 3,
        rate: 0x3e173627,
        calls: &CALLS,
    };
    drive.text(out)
}
