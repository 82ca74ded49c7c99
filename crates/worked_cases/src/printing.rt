// What is printed.
use chk_base::text::Text;
use oschk_cmd::status::Status;
use std::alloc::{AllocError, Global};

pub fn wrong_line(alloc: Global, at: usize, out: &mut Text) -> Result<(), AllocError> {
    let line = format!(in alloc; "table error at line {}\n", at.saturating_add(1))?;
    out.append(line.as_bytes())
}

pub fn no_memory(alloc: Global, at: usize, out: &mut Text) -> Result<(), AllocError> {
    let line = format!(in alloc; "out of memory at line {}\n", at.saturating_add(1))?;
    out.append(line.as_bytes())
}

pub fn title(name: &str, out: &mut Text) -> Result<(), AllocError> {
    out.append(b"\ncase ")?;
    out.append(name.as_bytes())?;
    out.push(b'\n')
}

// A name and what is said of it.
pub fn about(name: &[u8], what: &str, out: &mut Text) -> Result<(), AllocError> {
    out.append(name)?;
    out.append(what.as_bytes())?;
    out.push(b'\n')
}

pub fn length(alloc: Global, name: &str, len: usize, out: &mut Text) -> Result<(), AllocError> {
    let line = format!(in alloc; "{name} has {len} bytes\n")?;
    out.append(line.as_bytes())
}

pub fn status(alloc: Global, status: Status, out: &mut Text) -> Result<(), AllocError> {
    let line = format!(in alloc; "status {} {status:?}\n", status.number())?;
    out.append(line.as_bytes())
}

// The lines of a text, each after a bar; what stands after the last line feed comes after a plus sign.
pub fn lines(text: &[u8], out: &mut Text) -> Result<(), AllocError> {
    for line in text.split_inclusive(|byte| *byte == b'\n') {
        if line.ends_with(b"\n") {
            out.push(b'|')?;
            out.append(line)?;
        } else {
            out.push(b'+')?;
            out.append(line)?;
            out.push(b'\n')?;
        }
    }
    Ok(())
}

// The last line of a text.
pub fn last_line(text: &[u8], out: &mut Text) -> Result<(), AllocError> {
    match text.split_inclusive(|byte| *byte == b'\n').last() {
        Some(line) => lines(line, out),
        None => Ok(()),
    }
}
