// What begins a text.
ghost use Rattle.std.specs.Prelude.{◌≡◌, ◌≤◌, ◌<◌, ◌^◌, length, take, None};
ghost use Rattle.std.specs.Option.{option_map};
ghost use Rattle.c_lex.specs.Blanks.{begins};
ghost use Rattle.c_lex.specs.Numbers.{number_of};
ghost use Rattle.c_lex.specs.Pieces.{Known as PlainKnown, meaning, is_name, begins_digit, word_of, definition, may_define, define_piece, gap_length, directive_piece, name_piece, number_piece, mark_piece, other_piece, piece};
ghost use Rattle.c_lex.specs.Known.{plain_number, plain_known, plain_piece, IsWithin, DefinesNew};

use crate::blanks::{after_spaces, line_length, space_length};
use crate::bytes::{begins, begins_digit, begins_two, is_name, split_word};
use crate::number::number_of;
use crate::token::TokenKind;
use crate::words::{is_reserved, mark_length};
use indexmap::IndexMap;

const INCLUDE: &[u8] = b"include";

const DEFINE: &[u8] = b"define";

/// A number token, by its kind and the bytes that it has in the text.
#[derive(Clone, Copy)]
pub struct NumberToken<'a> {
    pub kind: TokenKind,
    pub text: &'a [u8],
}

/// The names that are defined, in the order of the text, each with the number token that it stands for.
pub type Known<'a> = IndexMap<&'a [u8], NumberToken<'a>>;

/// What begins a text, with how many bytes it has.
#[derive(Clone, Copy)]
pub enum Piece<'a> {
    /// The text is empty.
    End,
    /// A blank, a comment, or a line that includes.
    Space(usize),
    /// A line that defines a name.
    Defined {
        size: usize,
        name: &'a [u8],
        number: NumberToken<'a>,
    },
    /// A token.
    Spelled {
        size: usize,
        kind: TokenKind,
        text: &'a [u8],
    },
    BadByte,
    BadDirective,
    /// The run of digits and letters after so many bytes is no number.
    BadNumber(usize),
}

// The number token that a name stands for, if it is defined.
#[tactic(auto, using(crate::proofs::Names::meaning_of))]
fn meaning<'a>(known: &Known<'a>, name: &[u8]) -> Option<NumberToken<'a>>
    ensures { option_map plain_number result ≡ meaning (plain_known known.now.entries) name.now }
{
    known.get(name).copied()
}

// The piece of a line of so many bytes that defines, by the run that is to be the number and stands at an offset.
fn definition<'a>(size: usize, name: &'a [u8], run: &'a [u8], offset: usize) -> Piece<'a>
    ensures { plain_piece result ≡ definition size name.now run.now offset (number_of run.now) }
{
    match number_of(run) {
        None => Piece::BadNumber(offset),
        Some(kind) => Piece::Defined {
            size,
            name,
            number: NumberToken { kind, text: run },
        },
    }
}

// A name may be defined, a number may begin behind it, and nothing is left behind that.
fn may_define<'a>(known: &Known<'a>, name: &[u8], run_on: &[u8], rest: &[u8]) -> bool
    ensures { result ≡ may_define (plain_known known.now.entries) name.now run_on.now rest.now }
{
    is_name(name)
        && !is_reserved(name)
        && meaning(known, name).is_none()
        && begins_digit(run_on)
        && rest.is_empty()
}

// The piece of a line of so many bytes that defines, from after its word `define` on.
fn define_piece<'a>(known: &Known<'a>, size: usize, rest: &'a [u8]) -> Piece<'a>
    requires short { length rest.now < 2 ^ 62 }
    requires within { length rest.now ≤ size }
    ensures { plain_piece result ≡ define_piece (plain_known known.now.entries) size rest.now }
{
    let (name, after_name) = split_word(after_spaces(rest));
    let run_on = after_spaces(after_name);
    let (run, after_run) = split_word(run_on);
    if may_define(known, name, run_on, after_spaces(after_run)) {
        definition(size, name, run, size - run_on.len())
    } else {
        Piece::BadDirective
    }
}

// How many spaces and tabs stand at the front.
fn gap_length(bytes: &[u8]) -> usize
    ensures count { result ≡ gap_length bytes.now }
    ensures within { result ≤ length bytes.now }
{
    bytes
        .iter()
        .take_while(|byte| **byte == b' ' || **byte == b'\t')
        .count()
}

// The piece of a line that begins with `#`.
fn directive_piece<'a>(known: &Known<'a>, line: &'a [u8]) -> Piece<'a>
    requires short { length line.now < 2 ^ 62 }
    requires some { 0 < length line.now }
    ensures { plain_piece result ≡ directive_piece (plain_known known.now.entries) line.now }
{
    let (_, after_hash) = line.split_at(1);
    let (_, word_on) = after_hash.split_at(gap_length(after_hash));
    let (word, rest) = split_word(word_on);
    if word == INCLUDE {
        return Piece::Space(line.len());
    }
    if word == DEFINE {
        return define_piece(known, line.len(), rest);
    }
    Piece::BadDirective
}

// The piece of a word, by the number token that it stands for where it is a name that is defined.
fn name_piece<'a>(number: Option<NumberToken<'a>>, word: &'a [u8]) -> Piece<'a>
    ensures { plain_piece result ≡ name_piece (option_map plain_number number.entry) word.now }
{
    let size = word.len();
    match number {
        Some(NumberToken { kind, text }) => Piece::Spelled { size, kind, text },
        None => {
            let kind = if is_reserved(word) {
                TokenKind::Word
            } else {
                TokenKind::Name
            };
            Piece::Spelled {
                size,
                kind,
                text: word,
            }
        }
    }
}

// The piece of a run of digits, letters and `_` that begins with a digit.
fn number_piece<'a>(run: &'a [u8]) -> Piece<'a>
    ensures { plain_piece result ≡ number_piece (number_of run.now) run.now }
{
    match number_of(run) {
        None => Piece::BadNumber(0),
        Some(kind) => Piece::Spelled {
            size: run.len(),
            kind,
            text: run,
        },
    }
}

// The piece of a mark.
fn mark_piece<'a>(bytes: &'a [u8]) -> Piece<'a>
    ensures { plain_piece result ≡ mark_piece bytes.now }
{
    if begins_two(b'/', b'*', bytes) {
        return Piece::BadByte;
    }
    let size = mark_length(bytes);
    if size == 0 {
        return Piece::BadByte;
    }
    Piece::Spelled {
        size,
        kind: TokenKind::Mark,
        text: &bytes[..size],
    }
}

// The piece of what is no blank or comment.
#[tactic(auto, using(crate::proofs::Within::hash_line))]
fn other_piece<'a>(known: &Known<'a>, bare: bool, bytes: &'a [u8]) -> Piece<'a>
    requires { length bytes.now < 2 ^ 62 }
    ensures { plain_piece result ≡ other_piece (plain_known known.now.entries) bare bytes.now }
{
    if begins(b'#', bytes) && bare {
        let (line, _) = bytes.split_at(line_length(bytes));
        return directive_piece(known, line);
    }
    let (word, _) = split_word(bytes);
    if is_name(bytes) {
        return name_piece(meaning(known, word), word);
    }
    if begins_digit(bytes) {
        return number_piece(word);
    }
    mark_piece(bytes)
}

/// What begins the bytes, where these names are defined, and only blanks stand before it on its line or not.
#[tactic(auto, using(crate::proofs::Pieces::space_piece, crate::proofs::Pieces::no_space_piece))]
pub fn read_piece<'a>(known: &Known<'a>, bare: bool, bytes: &'a [u8]) -> Piece<'a>
    requires { length bytes.now < 2 ^ 62 }
    ensures piece { plain_piece result ≡ piece (plain_known known.now.entries) bare bytes.now }
    ensures within { IsWithin (length bytes.now) (plain_piece result) }
    ensures fresh { DefinesNew (plain_known known.now.entries) (plain_piece result) }
{
    if bytes.is_empty() {
        return Piece::End;
    }
    match space_length(bytes) {
        Some(size) => Piece::Space(size),
        None => other_piece(known, bare, bytes),
    }
}
