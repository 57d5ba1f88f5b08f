// Lock files of the ladder and of each refusal: number, place and the length of the listing, one line each.
#![tactic(auto)]

use std::rt::Files;
use std::{fs, io};

fn run(rt: &(impl Files + Print), name: &str) -> io::Result<()> {
    let mut file = [0u8; 65537];
    let mut opened = fs::open(rt, name)?;
    let read = input::read_full(&mut opened, &mut file)?;
    let mut output = [0u8; 65536];
    let r = file_calls::running::run_file(&file[..read], &mut output);
    println!(rt; "{name} {} {} {}", r.number, r.place, r.length)
}

fn main(rt: HostRuntime) -> io::Result<()> {
    let names = [
        "printed-example",
        "empty-file",
        "one-byte",
        "cut-in-a-threshold",
        "cut-where-threads-are-due",
        "odd-byte",
        "bit-map-of-a-domain",
        "bit-map-of-a-thread",
        "bit-map-as-the-last-byte",
        "no-domains",
        "one-domain",
        "64-domains",
        "65-domains",
        "255-domains",
        "65-domains-cut",
        "no-threads",
        "no-domains-and-no-threads",
        "256-threads",
        "257-threads",
        "parent-not-below",
        "chain-of-6",
        "chain-of-7",
        "threshold-0",
        "threshold-65535",
        "home-with-children",
        "home-no-domain",
        "empty-leaf",
        "empty-inner-domain",
        "empty-leaf-and-home-with-children",
        "last-entry-no-thread",
        "65536-bytes",
        "65537-bytes",
    ];
    for name in names {
        run(&rt, name)?;
    }
    Ok(())
}
