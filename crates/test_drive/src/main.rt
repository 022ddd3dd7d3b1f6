// The test drive of document 02, (b): 64 orders drawn from the stream of the test hum, 20 outputs after each. It prints the samples played, one a
// line. `stdout` has the text of rust/renderer, a renderer of other authorship.

#![tactic(auto)]

use player::Voice;
use std::io;
use std::io::Write;
use test_setting::Setting;
use test_setting::orders::Orders;

// Plays 20 outputs and prints them.
fn played(out: &mut impl Write, voice: Voice, setting: &Setting) -> io::Result<Voice> {
    let mut block = [0i16; 20];
    let after = match voice.play(&setting.book, &setting.store, &mut block) {
        Ok(play) => play.voice,
        Err(refused) => refused.voice,
    };
    print::lines(out, &block)?;
    Ok(after)
}

// Draws 64 orders, and plays after each.
fn drive(out: &mut impl Write, setting: &Setting) -> io::Result<()> {
    let mut voice = setting.voice;
    let orders = Orders {
        state: setting.state,
    };
    for order in orders.take(64) {
        let ordered = voice.order(order).unwrap_or_else(|refused| refused.voice);
        voice = played(out, ordered, setting)?;
    }
    Ok(())
}

fn main(rt: HostRuntime) -> io::Result<()> {
    let mut out = rt.stdout();
    drive(&mut out, &Setting::new())?;
    out.flush()
}
