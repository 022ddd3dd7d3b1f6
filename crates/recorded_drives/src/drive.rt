// A drive: a book, samples, a top level, the bits of the opening's rate and calls. Its text has what is given, and what each call hands
// back.
use crate::calls::Call;
use crate::{calls, lines};
use refusal::number_of;
use std::io;
use std::io::Write;

#[derive(Clone, Copy)]
pub struct Drive<'a> {
    // what random numbers it was made from
    pub seed: u64,
    pub book: &'a [i32],
    pub samples: &'a [i16],
    pub top: u32,
    // the opening's rate, by the bits of its f32
    pub rate: u32,
    pub calls: &'a [Call],
}

impl Drive<'_> {
    // Prints what is given.
    fn given(&self, out: &mut impl Write) -> io::Result<()> {
        lines::number(out, "drive", self.seed)?;
        lines::words(out, "book", self.book)?;
        lines::samples(out, "samples", self.samples)?;
        lines::number(out, "top", self.top as u64)
    }

    // Builds the store.
    fn built(&self, out: &mut impl Write, store: &mut [i32]) -> io::Result<()> {
        lines::number(out, "build", store.len() as u64)?;
        let built = levels::build(self.book, self.samples, self.top, store);
        lines::number(out, "number", u64::from(number_of(&built)))?;
        lines::words(out, "store", store)
    }

    // Prints it. Its store has 126 words, enough for header and levels 0..3 of 64 samples; they are 77 before they are built.
    pub fn text(&self, out: &mut impl Write) -> io::Result<()> {
        let mut store = [77i32; 126];
        self.given(out)?;
        self.built(out, &mut store)?;
        let v = calls::opened(out, self.rate, self.top)?;
        let last = calls::all(out, v, self.calls, self.book, &store)?;
        lines::voice(out, last)
    }
}
