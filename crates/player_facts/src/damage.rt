// Voices with a field changed.
use player::Voice;

// A field of a voice, by document 00's letters: T, the fade's levels and i, R, R0, R1, c, j, P, and the oldest point.
#[derive(Clone, Copy)]
pub enum Field {
    Top,
    From,
    To,
    Step,
    Rate,
    Start,
    Target,
    Count,
    Done,
    Position,
    Point,
}

// The voice with a field set to x.
pub fn with(v: Voice, field: Field, x: u64) -> Voice {
    let mut w = v;
    let small = (x & 0xffffffff) as u32;
    match field {
        Field::Top => w.control.top = small,
        Field::From => w.control.fade.from = small,
        Field::To => w.control.fade.to = small,
        Field::Step => w.control.fade.step = small,
        Field::Rate => w.control.rate = x,
        Field::Start => w.control.glide.start = x,
        Field::Target => w.control.glide.target = x,
        Field::Count => w.control.glide.count = small,
        Field::Done => w.control.glide.done = small,
        Field::Position => w.control.position = x,
        Field::Point => w.history[80] = (x & 0x7fffffff) as i32,
    }
    w
}
