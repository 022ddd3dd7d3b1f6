// The bytes of the input: lines may be cut anywhere between two pieces.

ghost use Rattle.std.specs.Prelude.{◌≡◌, ◌+◌, ◌*◌, ◌≤◌, length};
ghost use Rattle.arrayvec.specs.ArrayString.{array_string_len};
ghost use Rattle.report.specs.declared.TheConstants.{TEXT_BYTES};
ghost use Rattle.report.specs.Inner.{HasRoom, Prints, step_of, fresh_report, end_line, read_byte, read_bytes, read_piece, last_line, end_text};

use crate::lines::{append_line, append_total};
use crate::{Drive, INPUT_BYTES, Lent, PIECE_BYTES, Report, Text};
use drive_text::Scan;
use player::Voice;

impl Report {
    // Before the first byte of the input.
    #[tactic(auto, unfolding(crate::specs::Inner::fresh_report))]
    pub fn fresh(voice: Voice) -> Report
        ensures { result ≡ fresh_report voice }
    {
        Report {
            left: INPUT_BYTES,
            scan: Scan::Fresh,
            drive: Drive::fresh(voice),
        }
    }

    // Ends a line, and prints behind what `text` has.
    #[tactic(auto, unfolding(crate::specs::Inner::end_line))]
    fn end_line(self, lent: Lent, text: &mut Text) -> Report
        requires { HasRoom text.old }
        ensures { Prints (end_line lent.entry.book.now lent.entry.store.now self) 96 text.old.bytes result text.new.bytes }
    {
        let (drive, printed) = self.drive.line(self.scan.line(), lent);
        append_line(text, printed);
        Report {
            scan: Scan::Fresh,
            drive,
            ..self
        }
    }

    // Reads a byte, in the same way.
    #[tactic(auto, unfolding(crate::specs::Inner::read_byte))]
    fn read_byte(self, byte: u8, lent: Lent, text: &mut Text) -> Report
        requires { HasRoom text.old }
        ensures { Prints (read_byte lent.entry.book.now lent.entry.store.now self byte) 96 text.old.bytes result text.new.bytes }
    {
        if byte == b'\n' {
            return self.end_line(lent, text);
        }
        Report {
            scan: self.scan.next(byte),
            ..self
        }
    }

    // Reads some bytes.
    fn read_bytes(self, bytes: &[u8], lent: Lent, text: &mut Text) -> Report
        requires { array_string_len text.old + 96 * length bytes.now ≤ TEXT_BYTES }
        ensures { Prints (read_bytes lent.entry.book.now lent.entry.store.now self bytes.now) (96 * length bytes.now) text.old.bytes result text.new.bytes }
    {
        let mut report = self;
        for &byte in bytes {
            report = report.read_byte(byte, lent, text);
        }
        report
    }

    // Reads a piece of at most PIECE_BYTES bytes, up to the input's limit. `text` is then what it prints.
    #[tactic(auto, unfolding(crate::specs::Inner::read_piece))]
    pub fn read(self, piece: &[u8], lent: Lent, text: &mut Text) -> Report
        ensures { step_of result text.new.bytes ≡ read_piece lent.entry.book.now lent.entry.store.now self piece.now }
    {
        text.clear();
        let count = piece.len().min(PIECE_BYTES).min(self.left as usize);
        let report = Report {
            left: self.left - count as u32,
            ..self
        };
        report.read_bytes(&piece[..count], lent, text)
    }

    // The last line, which may lack its line end.
    #[tactic(auto, unfolding(crate::specs::Inner::last_line))]
    fn last_line(self, lent: Lent, text: &mut Text) -> Report
        requires { HasRoom text.old }
        ensures { Prints (last_line lent.entry.book.now lent.entry.store.now self) 96 text.old.bytes result text.new.bytes }
    {
        if self.scan.is_begun() {
            return self.end_line(lent, text);
        }
        self
    }

    // Ends the report. `text` is then what is left to print.
    #[tactic(auto, unfolding(crate::specs::Inner::end_text))]
    pub fn end(self, lent: Lent, text: &mut Text)
        ensures { text.new.bytes ≡ end_text lent.entry.book.now lent.entry.store.now self }
    {
        text.clear();
        let last = self.last_line(lent, text);
        let drive = last.drive;
        append_total(text, drive.outputs, drive.multiplies);
    }
}
