// Lists a saved state: reads a file from standard input and writes its listing to standard output.
#![tactic(auto)]

use state::answer;
use std::io;
use std::io::Write;

fn main(rt: HostRuntime) -> io::Result<()> {
    // One byte more than a file has: with it the file is over-long, whatever follows.
    let mut file = [0u8; 16465];
    let size = input::read_full(&mut rt.stdin(), &mut file)?;
    let mut text = [0u8; 25663];
    let listed = listing::list_file(&file[..size], &mut text);
    // These bytes hold every listing, so its length comes.
    let length = answer::beside(listed) as usize;
    rt.stdout().write_all(&text[..length])
}
