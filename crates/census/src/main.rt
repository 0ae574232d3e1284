// The program: prints the census of the training curve in the file `curve` in the current directory.
#![tactic(auto)]

use std::io;

fn main(rt: HostRuntime) -> io::Result<()> {
    text_files::print_census(&rt, b"curve")
}
