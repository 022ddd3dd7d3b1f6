// A line of the drive: its call is made, and what it prints is handed back.

ghost use Rattle.std.specs.Prelude.{◌≡◌, ◌≤◌, min};
ghost use Rattle.control.specs.declared.Order.TheVariants.{Glide as GlideTo};
ghost use Rattle.player.specs.Calls.{answer_of, played_of};
ghost use Rattle.drive_text.specs.declared.Line.TheVariants.{Play as PlayOf};
ghost use Rattle.report.specs.Report.{rate as Report·rate, after_answer, after_play};
ghost use Rattle.report.specs.Inner.{fresh_drive, Tells, Limited, silent, drive_line};

use crate::{Drive, Lent, Printed};
use control::Order;
use drive_text::Line;
use player::{Play, Refused, Voice};

// Past every rate for T up to 4: 32 × 256.
const RATE_CAP: u64 = 8192;

// Past every count of a glide.
const COUNT_CAP: u64 = 65537;

// a/256: a whole number of 256ths, which an f32 holds exactly up to where no call takes it.
fn rate(a: u64) -> f32
    ensures { result ≡ Report·rate (min a 8192) }
{
    a.min(RATE_CAP) as f32 * 0.00390625
}

// A glide to a/256 over `count` outputs, each up to where no call takes it.
fn glide(a: u64, count: u64) -> Order
    ensures { result ≡ GlideTo (Report·rate (min a 8192)) (min count 65537) }
{
    Order::Glide {
        target: rate(a),
        count: count.min(COUNT_CAP) as u32,
    }
}

impl Drive {
    // Nothing played yet.
    #[tactic(auto, unfolding(crate::specs::Inner::fresh_drive))]
    pub fn fresh(voice: Voice) -> Drive
        ensures { result ≡ fresh_drive voice }
    {
        Drive {
            voice,
            plays: 0,
            outputs: 0,
            multiplies: 0,
        }
    }

    // After the answer of an order or a seek: a refused one is passed over.
    #[tactic(auto, unfolding(crate::specs::Report::after_answer, crate::specs::Inner::tallied, crate::specs::Inner::counted))]
    fn after_answer(self, answer: Result<Voice, Refused>) -> (Drive, Option<Printed>)
        ensures { Tells self (after_answer self.voice (answer_of answer)) result }
    {
        match answer {
            Ok(voice) => (Drive { voice, ..self }, None),
            Err(_) => (self, Some(Printed::Refused)),
        }
    }

    // After a play of `count` outputs.
    #[tactic(auto, unfolding(crate::specs::Report::after_play, crate::specs::Inner::tallied, crate::specs::Inner::counted))]
    fn after_play(self, answer: Result<Play, Refused>, count: usize) -> (Drive, Option<Printed>)
        ensures { Tells self (after_play self.voice self.plays (played_of answer (silent count))) result }
    {
        let Ok(play) = answer else {
            return (self, Some(Printed::Refused));
        };
        let played = Printed::Played {
            number: u64::from(self.plays) + 1,
            outputs: count as u64,
            multiplies: play.multiplies,
            level: u64::from(play.voice.control.fade.from),
        };
        let drive = Drive {
            voice: play.voice,
            plays: self.plays.saturating_add(1),
            outputs: self.outputs.saturating_add(count as u64),
            multiplies: self.multiplies.saturating_add(play.multiplies),
        };
        (drive, Some(played))
    }

    // Plays so many outputs, which nobody hears.
    fn play(self, count: usize, lent: Lent) -> (Drive, Option<Printed>)
        requires { count ≤ 4096 }
        ensures { Tells self (drive_line lent.entry.book.now lent.entry.store.now self (PlayOf count)) result }
    {
        let mut samples = [0i16; 4096];
        let answer = self
            .voice
            .play(lent.book, lent.store, &mut samples[..count]);
        self.after_play(answer, count)
    }

    // Makes the call of a line, and hands back what it prints.
    #[tactic(auto, unfolding(crate::specs::Inner::drive_line, crate::specs::Report::line_report, crate::specs::Inner::tallied, crate::specs::Inner::counted))]
    pub fn line(self, asked: Line, lent: Lent) -> (Drive, Option<Printed>)
        requires { Limited asked }
        ensures { Tells self (drive_line lent.entry.book.now lent.entry.store.now self asked) result }
    {
        match asked {
            Line::Jump(a) => self.after_answer(self.voice.order(Order::Jump(rate(a)))),
            Line::Glide { rate, count } => self.after_answer(self.voice.order(glide(rate, count))),
            Line::Seek(position) => self.after_answer(self.voice.seek(position)),
            Line::Play(count) => self.play(count as usize, lent),
            Line::Other => (self, Some(Printed::Refused)),
        }
    }
}
