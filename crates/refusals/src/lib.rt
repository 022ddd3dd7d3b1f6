// What turns each call away: each call's refusals in its order.

#![tactic(auto)]

ghost use Rattle.std.specs.Prelude.{◌≡◌, ◌≤◌};
ghost use Rattle.refusal.specs.Number.{number_of};
ghost use Rattle.refusals.specs.Refusals.{point_bound, levels_wrong, levels_number, fade_wrong, rate_wrong, glide_wrong, history_wrong, late_number};
ghost use Rattle.refusals.specs.Refusals.{open_number, glide_count_wrong, order_input_number, order_number, seek_number, play_state_number, play_number};

use arith::words::all_between;
use control::rate::rate_in_range;
use control::{Card, Control, Order};
use refusal::Refusal;

// 13: T above 4, or a level above T
#[tactic(auto, unfolding(crate::specs::Refusals::levels_wrong))]
fn levels_wrong(c: Control) -> bool
    ensures { result ≡ levels_wrong c }
{
    4 < c.top || c.top < c.fade.from || c.top < c.fade.to
}

// 13, and 19 for a T other than the store's
fn check_levels(c: Control, top: u32) -> Result<(), Refusal>
    ensures { number_of result ≡ levels_number top c }
{
    let wrong = levels_wrong(c);
    Refusal::VoiceLevel.when(wrong)?;
    Refusal::VoiceTop.when(c.top != top)
}

// 14: i = 0 with two levels unequal, i above 0 with them equal, or i at least F
#[tactic(auto, unfolding(crate::specs::Refusals::fade_wrong))]
fn fade_wrong(c: Control, fade: usize) -> bool
    ensures { result ≡ fade_wrong fade c }
{
    let f = c.fade;
    (f.step == 0) != (f.from == f.to) || fade <= f.step as usize
}

// A rate outside 2^23..2^(28+T) − 1. T ≤ 4 is a clause here and below, and no type's: a control may hold any T, and is what these functions test.
fn rate_wrong(top: u32, rate: u64) -> bool
    requires { top ≤ 4 }
    ensures { result ≡ rate_wrong top rate }
{
    rate < 8388608 || 1u64 << (28 + top) <= rate
}

// 11 of a glide: c is 1..65536
#[tactic(auto, unfolding(crate::specs::Refusals::glide_count_wrong))]
fn glide_count_wrong(count: u32) -> bool
    ensures { result ≡ glide_count_wrong count }
{
    count == 0 || 65536 < count
}

// 15: a rate outside that, c above 65536, or j not below c; with c = 0 only R is looked at
#[tactic(auto, unfolding(crate::specs::Refusals::glide_wrong))]
fn glide_wrong(c: Control) -> bool
    requires { c.top ≤ 4 }
    ensures { result ≡ glide_wrong c }
{
    let g = c.glide;
    rate_wrong(c.top, c.rate)
        || g.count != 0
            && (rate_wrong(c.top, g.start)
                || rate_wrong(c.top, g.target)
                || 65536 < g.count
                || g.count <= g.done)
}

// 17: a history word beyond ±2^29
fn history_wrong(history: [i32; 81]) -> bool
    ensures { result ≡ history_wrong point_bound history }
{
    !all_between(&history, -536870912, 536870912)
}

// 15, 16 and 17
fn check_late(c: Control, history: [i32; 81]) -> Result<(), Refusal>
    requires { c.top ≤ 4 }
    ensures { number_of result ≡ late_number c point_bound history }
{
    Refusal::VoiceRate.when(glide_wrong(c))?;
    Refusal::VoicePosition.when(1152921504606846976 < c.position)?;
    Refusal::VoiceHistory.when(history_wrong(history))
}

// Opening: 8 for T, 10.
pub fn check_open(card: Card) -> Result<(), Refusal>
    ensures { number_of result ≡ open_number card }
{
    Refusal::SamplesOrTop.when(4 < card.top)?;
    Refusal::Rate.when(!rate_in_range(card.rate, card.top))
}

// What an order asks for: 10, and for a glide 11.
fn check_input(top: u32, order: Order) -> Result<(), Refusal>
    requires { top ≤ 4 }
    ensures { number_of result ≡ order_input_number top order }
{
    match order {
        Order::Jump(target) => Refusal::Rate.when(!rate_in_range(target, top)),
        Order::Glide { target, count } => {
            Refusal::Rate.when(!rate_in_range(target, top))?;
            Refusal::Count.when(glide_count_wrong(count))
        }
    }
}

// An order: 13, 15, 16, 17, then 10, and for a glide 11.
pub fn check_order(c: Control, history: [i32; 81], order: Order) -> Result<(), Refusal>
    ensures { number_of result ≡ order_number c point_bound history order }
{
    Refusal::VoiceLevel.when(levels_wrong(c))?;
    check_late(c, history)?;
    check_input(c.top, order)
}

// A seek: 13, 15, 16, 17, then 12.
pub fn check_seek(c: Control, history: [i32; 81], position: u64) -> Result<(), Refusal>
    ensures { number_of result ≡ seek_number c point_bound history position }
{
    Refusal::VoiceLevel.when(levels_wrong(c))?;
    check_late(c, history)?;
    Refusal::Position.when(1152921504606846976 < position)
}

// Play past what turns book and store away: 13, 19, 14 to 17, then 11.
fn check_play_state(
    c: Control,
    history: [i32; 81],
    fade: usize,
    top: u32,
    outputs: usize,
) -> Result<(), Refusal>
    ensures { number_of result ≡ play_state_number fade top c point_bound history outputs }
{
    check_levels(c, top)?;
    Refusal::VoiceFade.when(fade_wrong(c, fade))?;
    check_late(c, history)?;
    Refusal::Count.when(1048576 < outputs)
}

// Play: 1 to 7 of the book, 9, 8, 9 and 18 of the store, then those of the voice and 11.
pub fn check_play(
    c: Control,
    history: [i32; 81],
    book: &[i32],
    store: &[i32],
    outputs: usize,
) -> Result<(), Refusal>
    ensures { number_of result ≡ play_number book.now store.now c point_bound history outputs }
{
    book::check(book)?;
    store::check(store)?;
    let s = book::read_sizes(book);
    let top = store::top_level(store);
    check_play_state(c, history, s.fade, top, outputs)
}
