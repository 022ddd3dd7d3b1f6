// The player's calls over words: a voice is a slice of 95 of them (`words`). Each call reads the voice from them, is the player's call,
// and writes the voice back. A refusal writes nothing, but that opening writes the zero record. Number 28 is for a voice slice of another
// length, and comes before all others.

#![tactic(auto)]

ghost use Rattle.std.specs.Prelude.{◌≡◌};
ghost use Rattle.control.specs.declared.Order.TheVariants.{Jump, Glide};
ghost use Rattle.refusal.specs.Number.{number_of};
ghost use Rattle.player.specs.declared.Voice.{Voice};
ghost use Rattle.player.specs.Calls.{Answer, answer_of, order_answer, seek_answer};
ghost use Rattle.marshal.specs.Calls.{crossed, open_crossing, crossing, count_of, play_crossed, play_crossing};

use crate::words::{put_voice, voice_of};
use control::{Card, Order};
use player::{Refused, Voice};
use refusal::Refusal;

mod words; // a voice as words

// Opens a voice.
pub fn open(rate: f32, top: u32, voice: &mut [i32]) -> Result<(), Refusal>
    ensures { crossed (number_of result) voice.new ≡ open_crossing voice.old (record { rate = rate; top = top }) }
{
    Refusal::VoiceLength.when(voice.len() != 95)?;
    match Voice::open(Card { rate, top }) {
        Ok(opened) => {
            put_voice(voice, opened);
            Ok(())
        }
        Err(refused) => {
            put_voice(voice, refused.voice);
            Err(refused.refusal)
        }
    }
}

// A call of the player's on the voice that the words hold: an order or a seek.
fn called<F: FnOnce(Voice) -> Result<Voice, Refused>>(
    voice: &mut [i32],
    call: F,
) -> Result<(), Refusal>
    requires { F.IsAlwaysCallable call }
    ensures { (answer : Voice → Answer) → ((v : Voice) (r : _) → F.post call v r → answer_of r ≡ answer v)
        → crossed (number_of result) voice.new ≡ crossing voice.old answer }
{
    Refusal::VoiceLength.when(voice.len() != 95)?;
    let v = call(voice_of(voice))?;
    put_voice(voice, v);
    Ok(())
}

// Gives an order. One function for both orders, so that the player's call has one caller, which the compiler puts it into: by a closure for each, a
// jump took 2.9 times as long.
fn ordered(voice: &mut [i32], order: Order) -> Result<(), Refusal>
    ensures { crossed (number_of result) voice.new ≡ crossing voice.old (λ v. order_answer v order) }
{
    called(voice, |v| v.order(order))
}

// Orders a jump to a rate.
pub fn jump(voice: &mut [i32], rate: f32) -> Result<(), Refusal>
    ensures { crossed (number_of result) voice.new ≡ crossing voice.old (λ v. order_answer v (Jump rate)) }
{
    ordered(voice, Order::Jump(rate))
}

// Orders a glide to a rate over `count` outputs.
pub fn glide(voice: &mut [i32], rate: f32, count: u32) -> Result<(), Refusal>
    ensures { crossed (number_of result) voice.new ≡ crossing voice.old (λ v. order_answer v (Glide rate count)) }
{
    ordered(
        voice,
        Order::Glide {
            target: rate,
            count,
        },
    )
}

// Sets the position.
pub fn seek(voice: &mut [i32], position: u64) -> Result<(), Refusal>
    ensures { crossed (number_of result) voice.new ≡ crossing voice.old (λ v. seek_answer v position) }
{
    called(voice, |v| v.seek(position))
}

// Fills the whole output slice, and hands back the multiply count. The length is tested in another form than above: the text that the
// edit count_of_a_refusal changes stands once.
pub fn play(voice: &mut [i32], book: &[i32], store: &[i32], out: &mut [i16]) -> Result<u64, Refusal>
    ensures { play_crossed (number_of result) voice.new (count_of result) out.new ≡ play_crossing voice.old book.now store.now out.old }
{
    if voice.len() != 95 {
        return Err(Refusal::VoiceLength);
    }
    let played = voice_of(voice).play(book, store, out)?;
    put_voice(voice, played.voice);
    Ok(played.multiplies)
}
