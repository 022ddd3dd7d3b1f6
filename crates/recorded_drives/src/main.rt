// Eight recorded drives, printed as lines of text. `stdout` has the lines that a renderer of other authorship writes for them: it never
// comes from the player. `stdout` and the modules drive_* are made by rust/drives (its module `rattle`), one module for a random seed.

#![tactic(auto)]

mod calls; // a drive's calls
mod drive; // a drive
mod drive_19505;
mod drive_2184;
mod drive_23;
mod drive_29102;
mod drive_33350;
mod drive_5;
mod drive_7;
mod drive_7059;
mod lines; // lines of text
mod rates; // rates by their bits

use std::io;
use std::io::Write;

fn main(rt: HostRuntime) -> io::Result<()> {
    let mut out = rt.stdout();
    drive_5::text(&mut out)?;
    drive_7::text(&mut out)?;
    drive_23::text(&mut out)?;
    drive_2184::text(&mut out)?;
    drive_7059::text(&mut out)?;
    drive_19505::text(&mut out)?;
    drive_29102::text(&mut out)?;
    drive_33350::text(&mut out)?;
    out.flush()
}
