// The cases of the program `census`. The arguments are paths of curves; for each a line with the path, then what the program prints for it. The files,
// the arguments and the expected text are made by tools/make/scenarios.py.
#![tactic(auto)]

use std::rt::Files;
use std::{env, io};

fn show(rt: &(impl Files + Print), curve: &str) -> io::Result<()> {
    println!(rt; "{curve}")?;
    text_files::print_census(rt, curve.as_bytes())
}

fn main(rt: HostRuntime) -> io::Result<()> {
    for path in env::args(&rt)?.skip(1) {
        show(&rt, path.as_str())?;
    }
    Ok(())
}
