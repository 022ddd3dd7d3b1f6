// The setting of the test drive: the test hum as a recording, book K with F 16, a voice opened at rate 1 with T 2, and the orders that are
// drawn from the same stream as the samples.

#![tactic(auto)]

ghost use Rattle.std.specs.Prelude.{◌≡◌};
ghost use Rattle.test_hum.specs.Hum.{state_after};
ghost use Rattle.test_setting.specs.Setting.{test_store, test_setting};

use control::{Card, Order};
use player::Voice;

pub mod orders; // the orders of the stream

const BOOK: [i32; 11] = [2, 1, 0, 0, 16, 0, 16384, 16384, -16384, 16384, 16384];

// What a drive plays on, and the state of the stream after the samples.
#[derive(Clone, Copy)]
pub struct Setting {
    pub book: [i32; 11],
    pub store: [i32; 11205],
    pub voice: Voice,
    pub state: u32,
}

// The next order of the stream, and its state.
#[derive(Clone, Copy)]
pub struct NextOrder {
    pub state: u32,
    pub order: Order,
}

// Draws the recording and builds its store. Hands back the state of the stream after the samples.
fn build_store(samples: &mut [i16; 6400], store: &mut [i32; 11205]) -> u32
    ensures state { result ≡ state_after 0 6400 }
    ensures built { store.new ≡ test_store }
{
    let state = test_hum::draw(0, samples);
    let _ = levels::build(&BOOK, samples, 2, store);
    state
}

impl Setting {
    // Draws the recording, builds its store and opens the voice.
    pub fn new() -> Setting
        ensures { result ≡ test_setting }
    {
        let mut samples = [0i16; 6400];
        let mut store = [0i32; 11205];
        let state = build_store(&mut samples, &mut store);
        Setting {
            book: BOOK,
            store,
            voice: Voice::open(Card { rate: 1.0, top: 2 }).unwrap_or_else(|refused| refused.voice),
            state,
        }
    }
}
