// The driving-tone player. A voice goes from state to state by `Voice::open`, `order`, `seek` and `play`.

#![tactic(auto)]

ghost use Rattle.std.specs.Prelude.{◌≡◌};

use control::Control;
use refusal::Refusal;

mod calls; // open, order, seek and play
mod outputs; // histories and blocks of outputs

// A voice: its control, and the last 81 points, newest first.
#[derive(Clone, Copy, PartialEq, Eq)]
pub struct Voice {
    pub control: Control,
    pub history: [i32; 81],
}

// Why a call is turned away, and the voice: as it came, at opening the zero record. The voice stands first, where it stands in an accepted answer too:
// behind the refusal it would be moved in each call, and a seek took 1.5 times as long.
#[derive(Clone, Copy, PartialEq, Eq)]
pub struct Refused {
    pub voice: Voice,
    pub refusal: Refusal,
}

// What an accepted play hands back: the voice, and its multiply count.
#[derive(Clone, Copy, PartialEq, Eq)]
pub struct Play {
    pub voice: Voice,
    pub multiplies: u64,
}

// For the `?` of a caller that holds the voice itself.
impl From<Refused> for Refusal {
    ghost from_gives = { λ r n. n ≡ r.refusal };

    fn from(refused: Refused) -> Refusal {
        refused.refusal
    }
}
