// The command: reads a text from standard input and prints the price of each program that it asks for.
#![tactic(auto)]

mod answer;
mod errors;
mod reader;
#[cfg(test)]
mod tests;

use answer::Answer;
use errors::ReadError;
use reader::read;
use std::io::Read;

fn run(rt: &HostRuntime) -> anyhow::Result<()> {
    let heap = rt.alloc();
    let mut bytes = Vec::new(heap);
    rt.stdin().read_to_end(&mut bytes)?;
    // A line that can't be read is answered; for want of memory the command fails.
    match read(heap, &bytes) {
        Ok(text) => {
            for answer in &text.answers {
                rt.println(answer)?;
            }
        }
        Err(ReadError::Refused(refusal)) => rt.println(Answer(Err(refusal)))?,
        Err(ReadError::OutOfMemory(error)) => return Err(error.into()),
    }
    Ok(())
}

// Apart from `run`: in one function, which was tried, a long text takes a tenth longer.
fn main(rt: HostRuntime) -> anyhow::Result<()> {
    run(&rt)
}
