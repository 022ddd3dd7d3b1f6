// Drive 19505, made by rust/drives: its numbers, handed to the one printer of drives.
use crate::calls::Call;
use crate::drive::Drive;
use std::io;
use std::io::Write;

const BOOK: [i32; 28] = [
    2, 4, 3, 2, 6, 0, -5210, -5020, -21904, -32768, -32188, -32768, -32410, -5020, -16694, -27748,
    -10284, 0, -222, 27558, 32410, 15626, -8061, 510, 0, 25206, -3781, 0,
];

const SAMPLES: [i16; 39] = [
    -19893, -9548, 10860, -28349, 32759, -20946, 17214, 29459, -18466, 28380, 29318, 8288, -28316,
    9394, 8931, 28625, 5918, 14634, 25163, -11499, -19318, -342, 2052, -13006, 14216, -21757,
    18605, 851, -18431, 13135, -32041, 10615, 5356, 6158, -25126, -4354, 20644, 7194, 9194,
];

const CALLS: [Call; 12] = [
    Call::Jump(0x7fc00000),
    Call::Play(13),
    Call::Play(32),
    Call::Seek(4471133175),
    Call::Seek(1879048192),
    Call::Glide(0x3f700000, 0),
    Call::Play(6),
    Call::Play(5),
    Call::Seek(9663676416),
    Call::Glide(0x7f7fffff, 2),
    Call::Seek(1912429252),
    Call::Play(0),
];

pub fn text(out: &mut impl Write) -> io::Result<()> {
    let drive = Drive {
        seed: 19505,
        book: &BOOK,
        samples: &SAMPLES,
        top: 1,
        rate: 0x4072b5b7,
        calls: &CALLS,
    };
    drive.text(out)
}
