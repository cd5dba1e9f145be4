// Reads lines from standard input, and prints the answer to each.
#![tactic(auto)]

use console::consoles::Console;
use console::input::{LIMIT, line_at, shown};
use std::io;
use std::io::{Read, Write};

fn main(rt: HostRuntime) -> io::Result<()> {
    let mut input = Vec::new(rt.alloc());
    rt.stdin().take(LIMIT as u64).read_to_end(&mut input)?;
    let mut console = Console::new();
    let mut output = rt.stdout();
    // By place and not by an iterator, since `line_at` promises what line begins where.
    let mut from = 0;
    while let Some(line) = line_at(&input, from) {
        let field = console.answer(line);
        output.write_all(shown(&field))?;
        from += line.len() + 1;
    }
    Ok(())
}
