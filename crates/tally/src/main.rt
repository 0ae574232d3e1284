// The program: prints the pole's list of the files `curve` and `batch` in the current directory.
#![tactic(auto)]

use std::io;

fn main(rt: HostRuntime) -> io::Result<()> {
    text_files::print(&rt, b"curve", b"batch")
}
