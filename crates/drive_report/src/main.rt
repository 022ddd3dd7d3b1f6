// The drive report of document 02, (f): reads a drive's text from standard input, plays it on the test drive's hum, book and opening, and prints a
// line for each accepted play. `stdin` is a drive, and `stdout` has the text of rust/renderer, a renderer of other authorship.

#![tactic(auto)]

use report::{INPUT_BYTES, Lent, PIECE_BYTES, Report, Text};
use std::io;
use std::io::{Read, Write};
use test_setting::Setting;

// A report under way, with what it reads from and prints to.
#[derive(Drop)]
struct Reporter<'a, R, W> {
    input: R,
    out: W,
    lent: Lent<'a>,
    report: Report,
    text: Text,
}

impl<'a, R: Read, W: Write> Reporter<'a, R, W> {
    // Reads once, not past the input's limit: a pipe may hand out less than is asked. Prints what that gives. Whether the input goes on.
    fn read_once(&mut self) -> io::Result<bool> {
        let mut buffer = [0u8; PIECE_BYTES];
        let most = PIECE_BYTES.min(self.report.left as usize);
        let count = self.input.read(&mut buffer[..most])?;
        if count == 0 {
            return Ok(false);
        }
        self.report = self
            .report
            .read(&buffer[..count], self.lent, &mut self.text);
        self.out.write_all(self.text.as_str().as_bytes())?;
        Ok(true)
    }

    // Reads to the end of the input or to its limit: a turn for each byte is enough, and one that finds the end.
    fn read_all(&mut self) -> io::Result<()> {
        for _ in 0..=INPUT_BYTES {
            if !self.read_once()? {
                break;
            }
        }
        Ok(())
    }

    // Prints the last line and the totals.
    fn end(&mut self) -> io::Result<()> {
        self.report.end(self.lent, &mut self.text);
        self.out.write_all(self.text.as_str().as_bytes())
    }
}

fn main(rt: HostRuntime) -> io::Result<()> {
    let setting = Setting::new();
    let mut reporter = Reporter {
        input: rt.stdin(),
        out: rt.stdout(),
        lent: Lent {
            book: &setting.book,
            store: &setting.store,
        },
        report: Report::fresh(setting.voice),
        text: Text::new(),
    };
    reporter.read_all()?;
    reporter.end()
}
