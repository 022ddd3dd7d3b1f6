// The player's archive, for C and Rust: the calls of `marshal`, and the store's check, under the names that it exports. Building levels is
// `tone_builder`'s.

#![tactic(auto)]

ghost use Rattle.std.specs.Prelude.{◌≡◌};
ghost use Rattle.control.specs.declared.Order.TheVariants.{Jump, Glide};
ghost use Rattle.player.specs.Calls.{order_answer, seek_answer};
ghost use Rattle.store.specs.Check.{store_number};
ghost use Rattle.marshal.specs.Calls.{crossed, open_crossing, crossing, play_crossed, play_crossing};

use refusal::number_of;

// 0 for an accepted store, else the first of 9, 8, 9 and 18.
#[unsafe(no_mangle)]
pub extern "C" fn tone_check_store(store: &[i32]) -> u32
    ensures { result ≡ store_number store.now }
{
    number_of(&store::check(store))
}

// Opens a voice.
#[unsafe(no_mangle)]
pub extern "C" fn tone_open(rate: f32, top: u32, voice: &mut [i32]) -> u32
    ensures { crossed result voice.new ≡ open_crossing voice.old (record { rate = rate; top = top }) }
{
    number_of(&marshal::open(rate, top, voice))
}

// Orders a jump to a rate.
#[unsafe(no_mangle)]
pub extern "C" fn tone_jump(voice: &mut [i32], rate: f32) -> u32
    ensures { crossed result voice.new ≡ crossing voice.old (λ v. order_answer v (Jump rate)) }
{
    number_of(&marshal::jump(voice, rate))
}

// Orders a glide to a rate over `count` outputs.
#[unsafe(no_mangle)]
pub extern "C" fn tone_glide(voice: &mut [i32], rate: f32, count: u32) -> u32
    ensures { crossed result voice.new ≡ crossing voice.old (λ v. order_answer v (Glide rate count)) }
{
    number_of(&marshal::glide(voice, rate, count))
}

// Sets the position.
#[unsafe(no_mangle)]
pub extern "C" fn tone_seek(voice: &mut [i32], position: u64) -> u32
    ensures { crossed result voice.new ≡ crossing voice.old (λ v. seek_answer v position) }
{
    number_of(&marshal::seek(voice, position))
}

// Fills the whole output slice, and writes the multiply count: 0 where the call is refused.
#[unsafe(no_mangle)]
pub extern "C" fn tone_play(
    voice: &mut [i32],
    book: &[i32],
    store: &[i32],
    out: &mut [i16],
    multiplies: &mut u64,
) -> u32
    ensures { play_crossed result voice.new multiplies.new out.new ≡ play_crossing voice.old book.now store.now out.old }
{
    let played = marshal::play(voice, book, store, out);
    *multiplies = played.unwrap_or(0);
    number_of(&played)
}
