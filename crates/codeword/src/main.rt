// Answers requests to the outer code: one line in, one line out.
#![tactic(auto)]

use codeword_lines::answer_line;
use std::io;
use std::io::{BufRead, BufReader};

fn main(rt: HostRuntime) -> io::Result<()> {
    for line in BufReader::new(rt.alloc(), rt.stdin())?.split(rt.alloc(), b'\n') {
        let line = line?;
        let answer = answer_line(rt.alloc(), line.as_slice())?;
        rt.println(answer)?;
    }
    Ok(())
}
