// Runs the cases of a table, which it reads from its input, and prints what the top call answers in each.
#![tactic(auto)]

mod case;
mod printing;
mod table;
mod texts;

use chk_base::text::Text;
use std::io::{self, Write};
use table::{Table, Wrong};

fn main(rt: HostRuntime) -> io::Result<()> {
    let alloc = rt.alloc();
    let input = io::read_to_string(alloc, rt.reader())?;
    let mut table = Table::new(alloc);
    let mut out = Text::new(alloc);
    for (at, line) in input.lines().enumerate() {
        match table.line(line, &mut out) {
            Ok(()) => {}
            Err(Wrong::Line) => printing::wrong_line(alloc, at, &mut out)?,
            Err(Wrong::Memory) => printing::no_memory(alloc, at, &mut out)?,
        }
    }
    io::writer(&rt).write_all(out.as_bytes())
}
