// Reads frames from standard input, one a line in hexadecimal, and prints what each says or why it is refused.
// The argument `gate` or `transfer` chooses the type of the operations.
#![tactic(auto)]

mod hex;
mod told;

use canal::{GateOrder, Transfer};
use hex::unhex;
use lines::Lines;
use model::{Fault, Operation};
use std::io::Read;
use std::{env, fmt, io};
use told::tell;

fn print_line<O: Operation + fmt::Display + Drop>(rt: &HostRuntime, line: &[u8]) -> io::Result<()> {
    match unhex(rt.alloc(), line)? {
        Some(bytes) => match tell::<O>(bytes.as_slice()) {
            Ok(report) => println!(rt; "{report}"),
            Err(Fault { reason, place }) => {
                let number = reason.number();
                let layer = reason.layer() as u8;
                println!(rt; "no {number} {layer} {place}")
            }
        },
        None => println!(rt; "bad"),
    }
}

fn print_frames<O: Operation + fmt::Display + Drop>(
    rt: &HostRuntime,
    text: &[u8],
) -> io::Result<()> {
    for line in Lines::of(text) {
        print_line::<O>(rt, line)?;
    }
    Ok(())
}

fn main(rt: HostRuntime) -> io::Result<()> {
    let mut text = Vec::new(rt.alloc());
    rt.stdin().read_to_end(&mut text)?;
    for word in env::args(&rt)? {
        match word.as_str() {
            "gate" => print_frames::<GateOrder>(&rt, text.as_slice())?,
            "transfer" => print_frames::<Transfer>(&rt, text.as_slice())?,
            _ => {}
        }
    }
    Ok(())
}
