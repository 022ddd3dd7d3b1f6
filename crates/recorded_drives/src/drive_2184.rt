// Drive 2184, made by rust/drives: its numbers, handed to the one printer of drives.
use crate::calls::Call;
use crate::drive::Drive;
use std::io;
use std::io::Write;

const BOOK: [i32; 28] = [
    2, 4, 3, 2, 5, 0, 32767, 163, 30625, 32767, 15378, 5294, 16986, 163, -2142, 32604, -15247,
    -27473, 1608, 27473, -16986, 16236, -74, 0, 0, 12044, -2170, 0,
];

const SAMPLES: [i16; 62] = [
    -22324, -11650, 27997, -27923, 20593, 13186, -12870, -16019, 3949, -17365, 7499, 1754, -26849,
    -30078, -11202, -30867, -28803, 1880, 11623, 4963, -17486, 24102, -29722, 9586, -26490, 21803,
    5893, -31964, -837, 6804, 23443, -21380, 32464, 13233, -32478, 19816, -12771, 31951, -25298,
    -13106, -29128, 19363, -3231, 9225, -10316, -24412, 21754, -5005, 27493, 15438, 25724, 16355,
    -30540, 9675, -21784, 17528, -18150, 8189, -9053, 16092, -11360, 786,
];

const CALLS: [Call; 12] = [
    Call::Glide(0x40700000, 6),
    Call::Jump(0x406fffff),
    Call::Play(8),
    Call::Glide(0x407fffff, 3),
    Call::Play(11),
    Call::Seek(10161120886),
    Call::Play(9),
    Call::Glide(0x4082b000, 5),
    Call::Seek(8316438043),
    Call::Play(11),
    Call::Jump(0x40700000),
    Call::Glide(0x406fffff, 15),
];

pub fn text(out: &mut impl Write) -> io::Result<()> {
    let drive = Drive {
        seed: 2184,
        book: &BOOK,
        samples: &SAMPLES,
        top: 2,
        rate: 0x40ffffff,
        calls: &CALLS,
    };
    drive.text(out)
}
