// The cells of a code, at the start.
ghost use Rattle.std.specs.Prelude.{◌≡◌, ◌<◌, ◌≤◌, ◌++◌, IfOk, OnOk, length, map};
ghost use Rattle.osek_machine.specs.CellWords.{HasStarts, cut_word};
ghost use Rattle.step_ir.specs.Points.{cells_of, start_words};

use chk_base::cells::Cells;
use chk_base::word::{Width, Word};
use std::alloc::{AllocError, Global};
use step_ir::code::{CellName, Code};
use step_ir::law::cells_within;

// Adds the words of these cells.
fn add_words(names: &[CellName], words: &mut Vec<Word>) -> Result<(), AllocError>
    ensures { OnOk result (words.new.items ≡ words.old.items ++ map cut_word names.now) }
{
    for name in names {
        words.push(Word::taken(name.width, name.start))?;
    }
    Ok(())
}

// The words of all cells.
fn all_words(alloc: Global, code: &Code) -> Result<Vec<Word>, AllocError>
    ensures { IfOk result (λ words. words.items ≡ map cut_word (cells_of code.now)) }
{
    let mut words = Vec::new(alloc);
    add_words(code.globals.items(), &mut words)?;
    let entities = code.entities.items();
    for entity in entities {
        add_words(entity.names.items(), &mut words)?;
    }
    Ok(words)
}

fn widths_of(alloc: Global, words: &[Word]) -> Result<Vec<Width>, AllocError>
    ensures { IfOk result (λ widths. widths.items ≡ map (λ w. w.width) words.now) }
{
    let widths = words.iter().map(|word| word.width).collect(alloc)?;
    Ok(widths)
}

// Cells with these words.
fn cells_with(alloc: Global, words: &[Word]) -> Result<Cells, AllocError>
    requires { length words.now ≤ 8192 }
    ensures { IfOk result (λ cells. cells ≡ words.now) }
{
    let widths = widths_of(alloc, words)?;
    let mut cells = Cells::new(alloc, widths.as_slice())?;
    for i in 0..words.len() {
        cells.set(i as u16, words[i]);
    }
    Ok(cells)
}

/// The cells of a code with their words at the start.
pub fn start_cells(alloc: Global, code: &Code) -> Result<Cells, AllocError>
    requires { HasStarts code.now }
    ensures { IfOk result (λ cells. cells ≡ start_words code.now) }
{
    cells_within();
    let words = all_words(alloc, code)?;
    let cells = cells_with(alloc, words.as_slice())?;
    Ok(cells)
}
