// What moves a voice: rates, the glide, the fade and the position. Nothing here looks at a point.

#![tactic(auto)]

pub mod moves; // the glide before an output, the fade and the position at each point
pub mod rate; // rates as f32, the asked level, the position's advance

// The opening card: a rate, and the top level T.
#[derive(Clone, Copy, PartialEq)]
pub struct Card {
    pub rate: f32,
    pub top: u32,
}

// An order: a jump to a rate, or a glide to a rate over `count` outputs.
#[derive(Clone, Copy, PartialEq)]
pub enum Order {
    Jump(f32),
    Glide { target: f32, count: u32 },
}

// A glide under way: R0, R1, c and j. Without a glide all four are 0, and no Option: a voice's state is these numbers, which cross C, and the
// rules of specs/Moves.antt are written over them.
#[derive(Clone, Copy, PartialEq, Eq)]
pub struct Glide {
    pub start: u64,
    pub target: u64,
    pub count: u32,
    pub done: u32,
}

impl Glide {
    // No glide.
    pub const NONE: Glide = Glide {
        start: 0,
        target: 0,
        count: 0,
        done: 0,
    };
}

// A fade under way: the old level, the new one and i. Without a fade both are the current level and i is 0, and no Option: as with a glide.
#[derive(Clone, Copy, PartialEq, Eq)]
pub struct Fade {
    pub from: u32,
    pub to: u32,
    pub step: u32,
}

// What moves a voice: T, the fade, R, the glide and P. It never looks at a point. A voice crosses C, so its numbers may be any: inner functions ask
// for `Valid` ones (specs/Valid.antt), and calls refuse the others.
#[derive(Clone, Copy, PartialEq, Eq)]
pub struct Control {
    pub top: u32,
    pub fade: Fade,
    pub rate: u64,
    pub glide: Glide,
    pub position: u64,
}

// What a point is made from: the old and the new level, i (0 where no fade runs) and P.
#[derive(Clone, Copy, PartialEq, Eq)]
pub struct Plan {
    pub old: u32,
    pub new: u32,
    pub step: u32,
    pub position: u64,
}
