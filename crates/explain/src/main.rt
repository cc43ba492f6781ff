//! Reads a listing of calls from standard input and says in words what each line asks for.
#![tactic(auto)]

mod description;

use anyhow::bail;
use description::Explained;
use listing::splitter::Splitter;
use std::io::{BufReader, Read};
use std::{env, io};

const USAGE: &str = "usage: explain < LISTING
Says what each call of a listing asks for, or why its frame is denied.
A line is a digit for the process, then for each word of the frame a space and
eight capital hexadecimal digits. Lines after the 64th are ignored.";

/// Prints the listing on standard input, line by line as it comes.
fn explain(rt: &HostRuntime) -> io::Result<()> {
    let heap = rt.alloc();
    let mut splitter = Splitter::new(heap);
    for byte in BufReader::new(heap, rt.stdin())?.bytes() {
        if let Some(line) = splitter.push(heap, byte?)? {
            println!(rt; "{}", Explained(&line))?;
        }
        if splitter.is_over() {
            return Ok(());
        }
    }
    if let Some(line) = splitter.finish(heap)? {
        println!(rt; "{}", Explained(&line))?;
    }
    Ok(())
}

fn main(rt: HostRuntime) -> anyhow::Result<()> {
    match env::args(&rt)?.nth(1) {
        None => explain(&rt)?,
        Some(word) if word.as_str() == "--help" => println!(rt; "{USAGE}")?,
        Some(_) => {
            bail!("explain takes a listing on standard input, and no argument but --help")
        }
    }
    Ok(())
}
