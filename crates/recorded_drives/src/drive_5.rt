// Drive 5, made by rust/drives: its numbers, handed to the one printer of drives.
use crate::calls::Call;
use crate::drive::Drive;
use std::io;
use std::io::Write;

const BOOK: [i32; 19] = [
    2, 2, 3, 1, 6, 0, 32767, 32767, -32768, 32767, -65535, 0, 32768, 10940, -7305, 751, -2858,
    -15704, -340,
];

const SAMPLES: [i16; 36] = [
    -920, -3093, -2713, 2926, -3838, 1217, -1750, 2446, 2239, 2097, -2292, 3361, 1110, -1619,
    -1282, 1136, -1977, 105, -1249, 76, -2577, 2722, -3936, 1376, 1460, -2694, -781, -468, 2751,
    1234, -2665, -1520, -317, -910, 1465, 2024,
];

const CALLS: [Call; 12] = [
    Call::Seek(1615076137561860383),
    Call::Seek(1686965695),
    Call::Play(29),
    Call::Glide(0x3e11eda3, 3),
    Call::Play(1),
    Call::Jump(0x406fffff),
    Call::Seek(5284332143),
    Call::Play(6),
    Call::Seek(1765537233),
    Call::Play(2),
    Call::Glide(0x3d8ec146, 3),
    Call::Play(8),
];

pub fn text(out: &mut impl Write) -> io::Result<()> {
    let drive = Drive {
        seed: 5,
        book: &BOOK,
        samples: &SAMPLES,
        top: 2,
        rate: 0x7f7fffff,
        calls: &CALLS,
    };
    drive.text(out)
}
