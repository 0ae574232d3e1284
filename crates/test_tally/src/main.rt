// The cases of the program `tally`. The arguments are paths, a curve's and a batch's in turn; for each pair a line with the two paths, then what
// the program prints for them. The files, the arguments and the expected text are made by tools/make/scenarios.py.
#![tactic(auto)]

use std::rt::Files;
use std::{env, io};

fn show(rt: &(impl Files + Print), curve: &str, batch: &str) -> io::Result<()> {
    println!(rt; "{curve} {batch}")?;
    text_files::print(rt, curve.as_bytes(), batch.as_bytes())
}

// A last path with no other behind it goes with the empty one, which no file has.
fn main(rt: HostRuntime) -> io::Result<()> {
    let mut paths = env::args(&rt)?.skip(1);
    // Not a `for`: each turn takes two paths.
    while let Some(curve) = paths.next() {
        match paths.next() {
            Some(batch) => show(&rt, curve.as_str(), batch.as_str())?,
            None => show(&rt, curve.as_str(), "")?,
        }
    }
    Ok(())
}
