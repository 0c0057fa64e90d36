// Tells scenarios in words: the files that are named as arguments, or else the standard input.
#![tactic(auto)]

use std::env::Args;
use std::io::Read;
use std::{env, fs};
use telling::tell;

// It stands alone, so that what it needs of the stack is not taken while a text is told.
#[inline(never)]
fn print(rt: &HostRuntime, text: &str) -> anyhow::Result<()> {
    rt.print(text)?;
    Ok(())
}

fn tell_text(rt: &HostRuntime, text: &[u8]) -> anyhow::Result<()> {
    let heap = rt.alloc();
    let mut out = String::new(heap);
    tell(&mut out, heap, text)?;
    print(rt, &out)
}

fn tell_file(rt: &HostRuntime, name: &str) -> anyhow::Result<()> {
    println!(rt; "== {name} ==")?;
    match fs::read(rt, name) {
        Ok(text) => tell_text(rt, &text),
        Err(_) => {
            println!(rt; "cannot open the file {name}")?;
            Ok(())
        }
    }
}

fn tell_input(rt: &HostRuntime) -> anyhow::Result<()> {
    let mut text = Vec::new(rt.alloc());
    rt.stdin().read_to_end(&mut text)?;
    tell_text(rt, &text)
}

fn tell_files(rt: &HostRuntime, names: Args) -> anyhow::Result<()> {
    let mut names = names.skip(1).enumerate().peekable();
    if names.peek().is_none() {
        return tell_input(rt);
    }
    for (place, name) in names {
        if place > 0 {
            println!(rt)?;
        }
        tell_file(rt, &name)?;
    }
    Ok(())
}

fn main(rt: HostRuntime) -> anyhow::Result<()> {
    match env::args(&rt) {
        Ok(names) => tell_files(&rt, names),
        Err(_) => {
            println!(rt; "cannot read the names of the files")?;
            Ok(())
        }
    }
}
