// Runs a queue at a shell: reads a saved file and then instruction records from standard input, and
// writes the answer and the listing of the new state to standard output.
#![tactic(auto)]

use state::answer;
use std::io;
use std::io::Write;

fn main(rt: HostRuntime) -> io::Result<()> {
    // One byte more than a file and 16 records have: with it there are too many, whatever follows.
    let mut input = [0u8; 16721];
    let size = input::read_full(&mut rt.stdin(), &mut input)?;
    let mut text = [0u8; 25705];
    let listed = running::print_run(&input[..size], &mut text);
    // These bytes hold every text, so its length comes.
    let length = answer::beside(listed) as usize;
    rt.stdout().write_all(&text[..length])
}
