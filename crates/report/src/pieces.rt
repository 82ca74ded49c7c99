// The pieces that texts are put together from.
ghost use Rattle.std.specs.Prelude.{◌≡◌, ◌++◌, Some, codes, decimal};
ghost use Rattle.std.specs.Fmt.{signed_decimal};
ghost use Rattle.chk_base.specs.Widths.{reading_of};
ghost use Rattle.report.specs.EventTexts.{element_text};
ghost use Rattle.report.specs.Lines.{class_text, counted, line, place_text};
ghost use Rattle.report.specs.Pieces.{piece_text, pieces_each, pieces_text};
ghost use Rattle.report.specs.Printing.{Prints};

use crate::reports::WriteFault;
use application::app::Class;
use chk_base::place::Place;
use chk_base::sink::{Sink, write_all};
use chk_base::text::Text;
use chk_base::word::Word;
use itoa::Buffer;

/// A part of a text: bytes, a text, a number in decimal digits, bytes and a number, a line of both, the place of an element in brackets,
/// the value of a word in a reading, or a place as line and column.
#[derive(Drop)]
pub enum Piece<'a> {
    Bytes(&'a [u8]),
    Text(&'a Text),
    Number(u64),
    Counted(&'a [u8], u64),
    Line(&'a [u8], u64),
    Element(Option<u8>),
    Reading(Word, bool),
    Place(Place),
}

/// Writes these bytes.
pub fn put<S: Sink>(out: &mut S, piece: &[u8]) -> Result<(), WriteFault>
    ensures { Prints (S.state out.old) (S.state out.new) piece.now result }
{
    match write_all(out, piece) {
        Ok(()) => Ok(()),
        Err(_) => Err(WriteFault::Failed),
    }
}

fn put_number<S: Sink>(out: &mut S, number: u64) -> Result<(), WriteFault>
    ensures { Prints (S.state out.old) (S.state out.new) (decimal number) result }
{
    let mut buffer = Buffer::new();
    put(out, buffer.format(number).as_bytes())
}

// Writes these bytes, and a number in decimal digits.
fn put_counted<S: Sink>(out: &mut S, text: &[u8], number: u64) -> Result<(), WriteFault>
    ensures { Prints (S.state out.old) (S.state out.new) (counted text.now number) result }
{
    put(out, text)?;
    put_number(out, number)
}

/// Writes a line of these bytes and a number.
pub fn put_count<S: Sink>(out: &mut S, text: &[u8], number: u64) -> Result<(), WriteFault>
    ensures { Prints (S.state out.old) (S.state out.new) (line (counted text.now number)) result }
{
    put_counted(out, text, number)?;
    put(out, b"\n")
}

// Writes a number in decimal digits, with `-` before a negative one.
fn put_signed<S: Sink>(out: &mut S, number: i64) -> Result<(), WriteFault>
    ensures { Prints (S.state out.old) (S.state out.new) (signed_decimal number) result }
{
    let mut buffer = Buffer::new();
    put(out, buffer.format(number).as_bytes())
}

// Writes the value of a word.
fn put_reading<S: Sink>(out: &mut S, word: Word, signed: bool) -> Result<(), WriteFault>
    ensures { Prints (S.state out.old) (S.state out.new) (signed_decimal (reading_of signed word)) result }
{
    put_signed(out, word.reading(signed))
}

// Writes a place as line and column.
fn put_place<S: Sink>(out: &mut S, place: Place) -> Result<(), WriteFault>
    ensures { Prints (S.state out.old) (S.state out.new) (place_text place) result }
{
    put_number(out, place.line as u64)?;
    put(out, b":")?;
    put_number(out, place.column as u64)
}

// Writes the place of an element in brackets.
fn put_brackets<S: Sink>(out: &mut S, element: u8) -> Result<(), WriteFault>
    ensures { Prints (S.state out.old) (S.state out.new) (element_text (Some element)) result }
{
    put(out, b"[")?;
    put_number(out, element as u64)?;
    put(out, b"]")
}

#[tactic(auto, using(crate::proofs::Printing::prints_nothing))]
fn put_element<S: Sink>(out: &mut S, element: Option<u8>) -> Result<(), WriteFault>
    ensures { Prints (S.state out.old) (S.state out.new) (element_text element) result }
{
    match element {
        Some(element) => put_brackets(out, element),
        None => Ok(()),
    }
}

fn put_piece<S: Sink>(out: &mut S, piece: &Piece<'_>) -> Result<(), WriteFault>
    ensures { Prints (S.state out.old) (S.state out.new) (piece_text piece.now) result }
{
    match piece {
        Piece::Bytes(bytes) => put(out, bytes),
        Piece::Text(text) => put(out, text.as_bytes()),
        Piece::Number(number) => put_number(out, *number),
        Piece::Counted(text, number) => put_counted(out, text, *number),
        Piece::Line(text, number) => put_count(out, text, *number),
        Piece::Element(element) => put_element(out, *element),
        Piece::Reading(word, signed) => put_reading(out, *word, *signed),
        Piece::Place(place) => put_place(out, *place),
    }
}

fn put_each<S: Sink>(out: &mut S, pieces: &[Piece<'_>]) -> Result<(), WriteFault>
    ensures { Prints (S.state out.old) (S.state out.new) (pieces_each pieces.now) result }
{
    for i in 0..pieces.len() {
        put_piece(out, &pieces[i])?;
    }
    Ok(())
}

/// Writes these pieces, one after another.
pub fn put_all<S: Sink>(out: &mut S, pieces: &[Piece<'_>]) -> Result<(), WriteFault>
    ensures { Prints (S.state out.old) (S.state out.new) (pieces_text pieces.now) result }
{
    put_each(out, pieces)
}

/// The line of a class.
pub fn class_line(class: Class) -> &'static [u8]
    ensures { result.now ≡ class_text class }
{
    match class {
        Class::Bcc1 => b"class BCC1\n",
        Class::Bcc2 => b"class BCC2\n",
    }
}
