// Reads a sheet of gate orders from standard input, and prints what became of each line and which gates then stand open.
#![tactic(auto)]

use gates::MOST_GATES;
use lines::Lines;
use sheet::Sheet;
use std::io;
use std::io::Read;

fn main(rt: HostRuntime) -> io::Result<()> {
    let mut text = Vec::new(rt.alloc());
    rt.stdin().read_to_end(&mut text)?;
    let mut sheet = Sheet::new();
    for (number, line) in (1..=u64::MAX).zip(Lines::of(text.as_slice())) {
        let reply = sheet.line(line);
        println!(rt; "{number}: {reply}")?;
    }
    for standing in (0..MOST_GATES as u8).filter_map(|gate| sheet.standing(gate)) {
        println!(rt; "{standing}")?;
    }
    Ok(())
}
