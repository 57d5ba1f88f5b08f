// The program: reads a lock file from standard input, and writes its listing or the refusal line to standard output.
#![tactic(auto)]

use std::io;
use std::io::Write;

fn print(rt: &impl Print, output: &[u8], length: usize) -> io::Result<()> {
    if let Some(printed) = output.get(..length) {
        io::writer(rt).write_all(printed)?;
    }
    Ok(())
}

fn main(rt: HostRuntime) -> io::Result<()> {
    // One byte more than a lock file may have, to notice a longer one.
    let mut file = [0u8; 65537];
    let read = input::read_full(&mut rt.stdin(), &mut file)?;
    let mut output = [0u8; 65536];
    let r = file_calls::running::run_file(&file[..read], &mut output);
    if r.number == 0 {
        return print(&rt, &output, r.length as usize);
    }
    let length = file_calls::printing::write_refusal(r.number, r.place, &mut output);
    print(&rt, &output, length)
}
