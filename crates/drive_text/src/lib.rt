// The text of a drive: bytes to lines to calls. A line is read a byte at a time, so that it may come in pieces.

#![tactic(auto)]

ghost use Rattle.std.specs.Prelude.{true, ◌≡◌};
ghost use Rattle.drive_text.specs.Numbers.{is_digit};
ghost use Rattle.drive_text.specs.Inner.{letters_of, word_from, next_number, next_scan, is_begun, scanned_line};

// What a line says: a jump or a glide to a rate of so many 256ths, a seek to P, a play of so many outputs, or nothing of these.
#[derive(Clone, Copy, PartialEq, Eq, Debug)]
pub enum Line {
    Jump(u64),
    Glide { rate: u64, count: u64 },
    Seek(u64),
    Play(u64),
    Other,
}

// The words of the language.
#[derive(Clone, Copy, PartialEq, Eq, Debug)]
pub enum Word {
    Jump,
    Glide,
    Seek,
    Play,
}

// What the bytes of a line said so far: nothing before the first, then the word that it begins with and how many of its letters were read, then
// its numbers.
#[derive(Clone, Copy, PartialEq, Eq, Debug)]
pub enum Scan {
    Fresh,
    InWord(Word, usize),
    AfterWord(Word),
    First(Word, u64),
    AfterFirst(Word, u64),
    Second(Word, u64, u64),
    OtherForm,
}

// Past every limit of a call.
const NUMBER_CAP: u64 = (1 << 60) + 1;

// A number with one more digit.
#[tactic(auto, unfolding(crate::specs::Inner::next_number, crate::specs::Numbers::is_digit), using(crate::proofs::Caps::cap_grown))]
fn next_number(n: u64, byte: u8) -> u64
    requires { is_digit byte ≡ true }
    ensures { result ≡ next_number n byte }
{
    let tens = n.min(NUMBER_CAP) * 10;
    (tens + u64::from(byte - b'0')).min(NUMBER_CAP)
}

impl Word {
    // The word that begins with a letter: no two begin with the same.
    #[tactic(auto, unfolding(crate::specs::Inner::word_from))]
    fn from_letter(letter: u8) -> Option<Word>
        ensures { result ≡ word_from letter }
    {
        match letter {
            b'j' => Some(Word::Jump),
            b'g' => Some(Word::Glide),
            b's' => Some(Word::Seek),
            b'p' => Some(Word::Play),
            _ => None,
        }
    }

    #[tactic(auto, unfolding(crate::specs::Inner::letters_of))]
    fn letters(self) -> &'static [u8]
        ensures { result.now ≡ letters_of self }
    {
        match self {
            Word::Jump => b"jump",
            Word::Glide => b"glide",
            Word::Seek => b"seek",
            Word::Play => b"play",
        }
    }
}

impl Scan {
    // Before the first byte.
    #[tactic(auto, unfolding(crate::specs::Inner::next_scan))]
    fn first_letter(byte: u8) -> Scan
        ensures { result ≡ next_scan Scan.Fresh byte }
    {
        match Word::from_letter(byte) {
            Some(word) => Scan::InWord(word, 1),
            None => Scan::OtherForm,
        }
    }

    // Behind so many letters of a word.
    #[tactic(auto, unfolding(crate::specs::Inner::next_scan))]
    fn next_letter(word: Word, read: usize, byte: u8) -> Scan
        ensures { result ≡ next_scan (Scan.InWord word read) byte }
    {
        match word.letters().get(read) {
            Some(&letter) if byte == letter => Scan::InWord(word, read + 1),
            None if byte == b' ' => Scan::AfterWord(word),
            _ => Scan::OtherForm,
        }
    }

    // After one more byte, which is no line end.
    #[tactic(auto, unfolding(crate::specs::Inner::next_scan, crate::specs::Numbers::is_digit))]
    pub fn next(self, byte: u8) -> Scan
        ensures { result ≡ next_scan self byte }
    {
        let digit = byte.is_ascii_digit();
        match self {
            Scan::Fresh => Scan::first_letter(byte),
            Scan::InWord(word, read) => Scan::next_letter(word, read, byte),
            Scan::AfterWord(word) if digit => Scan::First(word, next_number(0, byte)),
            Scan::First(word, a) if digit => Scan::First(word, next_number(a, byte)),
            Scan::First(word, a) if byte == b' ' => Scan::AfterFirst(word, a),
            Scan::AfterFirst(word, a) if digit => Scan::Second(word, a, next_number(0, byte)),
            Scan::Second(word, a, c) if digit => Scan::Second(word, a, next_number(c, byte)),
            _ => Scan::OtherForm,
        }
    }

    // Whether a line's first byte was read.
    #[tactic(auto, unfolding(crate::specs::Inner::is_begun))]
    pub fn is_begun(self) -> bool
        ensures { result ≡ is_begun self }
    {
        !matches!(self, Scan::Fresh)
    }

    // What the line says if it ends here.
    #[tactic(auto, unfolding(crate::specs::Inner::scanned_line, crate::specs::Inner::one_said, crate::specs::Inner::two_said))]
    pub fn line(self) -> Line
        ensures { result ≡ scanned_line self }
    {
        match self {
            Scan::First(Word::Jump, rate) => Line::Jump(rate),
            Scan::First(Word::Seek, position) => Line::Seek(position),
            Scan::First(Word::Play, count) if count <= 4096 => Line::Play(count),
            Scan::Second(Word::Glide, rate, count) => Line::Glide { rate, count },
            _ => Line::Other,
        }
    }
}
