// Open, order, seek and play. A refusal hands the voice back as it came, and writes no output word.

ghost use Rattle.std.specs.Prelude.{◌≡◌, ◌≤◌};
ghost use Rattle.refusal.specs.Number.{number_of};
ghost use Rattle.player.specs.Inner.{resting_voice, stopped};
ghost use Rattle.refusals.specs.Refusals.{order_input_number};
ghost use Rattle.player.specs.Calls.{answer, answer_of, open_answer, order_answer, seek_answer, played_of, play_answer};
ghost use Rattle.control.specs.Orders.{ordered};

use crate::outputs::fill;
use crate::{Play, Refused, Voice};
use control::rate::{octave_level, scaled_rate};
use control::{Card, Control, Fade, Glide, Order};
use refusal::Refusal;
use refusals::{check_open, check_order, check_play, check_seek};

// A voice at position 0 with no glide, no fade and a silent history.
fn resting(top: u32, rate: u64, level: u32) -> Voice
    ensures { result ≡ resting_voice top rate level }
{
    Voice {
        control: Control {
            top,
            fade: Fade {
                from: level,
                to: level,
                step: 0,
            },
            rate,
            glide: Glide::NONE,
            position: 0,
        },
        history: [0; 81],
    }
}

// The control that an accepted order leaves: a jump sets R and rests the glide, a glide order starts one from R.
fn ordered_control(c: Control, order: Order) -> Control
    requires { (c.top ≤ 4) × (order_input_number c.top order ≡ 0) }
    ensures { result ≡ ordered c order }
{
    match order {
        Order::Jump(target) => Control {
            rate: scaled_rate(target),
            glide: Glide::NONE,
            ..c
        },
        Order::Glide { target, count } => Control {
            glide: Glide {
                start: c.rate,
                target: scaled_rate(target),
                count,
                done: 0,
            },
            ..c
        },
    }
}

impl Voice {
    // A check's answer, with this voice beside a refusal.
    fn beside(self, checked: Result<(), Refusal>) -> Result<(), Refused>
        ensures { stopped result self ≡ answer (number_of checked) self }
    {
        checked.map_err(|refusal| Refused {
            refusal,
            voice: self,
        })
    }

    // A fresh voice at the card's rate, or the refusal and the zero record.
    pub fn open(card: Card) -> Result<Voice, Refused>
        ensures { answer_of result ≡ open_answer card }
    {
        resting(0, 0, 0).beside(check_open(card))?;
        let rate = scaled_rate(card.rate);
        Ok(resting(card.top, rate, octave_level(rate)))
    }

    // A jump to a rate, or a glide to one.
    pub fn order(self, order: Order) -> Result<Voice, Refused>
        ensures { answer_of result ≡ order_answer self order }
    {
        self.beside(check_order(self.control, self.history, order))?;
        Ok(Voice {
            control: ordered_control(self.control, order),
            ..self
        })
    }

    // Sets P only.
    pub fn seek(self, position: u64) -> Result<Voice, Refused>
        ensures { answer_of result ≡ seek_answer self position }
    {
        self.beside(check_seek(self.control, self.history, position))?;
        Ok(Voice {
            control: Control {
                position,
                ..self.control
            },
            ..self
        })
    }

    // Fills the whole output slice from a store that was built by this book, and counts the multiplies that this takes.
    pub fn play(self, book: &[i32], store: &[i32], out: &mut [i16]) -> Result<Play, Refused>
        ensures { played_of result out.new ≡ play_answer book.now store.now self out.old }
    {
        self.beside(check_play(self.control, self.history, book, store, out.len()))?;
        Ok(fill(self, book, store, out))
    }
}
