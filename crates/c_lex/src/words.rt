// The words that are no names, and the marks.
ghost use Rattle.std.specs.Prelude.{◌≡◌, ◌≤◌, ℕ, List, length};
ghost use Rattle.std.specs.Borrow.{Bor};
ghost use Rattle.std.specs.List.{list_any};
ghost use Rattle.std.specs.Str.{bytes_eq};
ghost use Rattle.c_lex.specs.Pieces.{is_reserved, front_length, longest_of, mark_length};

// The keywords of C (ISO/IEC 9899:1999, 6.4.1), and the words that stand for types, bodies, declarations and assertions.
const RESERVED: [&[u8]; 51] = [
    b"auto",
    b"break",
    b"case",
    b"char",
    b"const",
    b"continue",
    b"default",
    b"do",
    b"double",
    b"else",
    b"enum",
    b"extern",
    b"float",
    b"for",
    b"goto",
    b"if",
    b"inline",
    b"int",
    b"long",
    b"register",
    b"restrict",
    b"return",
    b"short",
    b"signed",
    b"sizeof",
    b"static",
    b"struct",
    b"switch",
    b"typedef",
    b"union",
    b"unsigned",
    b"void",
    b"volatile",
    b"while",
    b"_Bool",
    b"_Complex",
    b"_Imaginary",
    b"bool",
    b"true",
    b"false",
    b"int8_t",
    b"int16_t",
    b"int32_t",
    b"uint8_t",
    b"uint16_t",
    b"uint32_t",
    b"TASK",
    b"ISR",
    b"DeclareTask",
    b"DeclareResource",
    b"assert",
];

// The marks: punctuators of C (ISO/IEC 9899:1999, 6.4.6) but `.`, `->`, `...`, `#`, `##` and those that spell others.
const MARKS: [&[u8]; 43] = [
    b"(", b")", b"[", b"]", b"{", b"}", b";", b",", b"?", b":", b"=", b"+=", b"-=", b"*=", b"/=",
    b"%=", b"&=", b"|=", b"^=", b"<<=", b">>=", b"++", b"--", b"||", b"&&", b"|", b"^", b"&",
    b"==", b"!=", b"<", b"<=", b">", b">=", b"<<", b">>", b"+", b"-", b"*", b"/", b"%", b"!", b"~",
];

// One of the words is this one.
fn has_word(words: &[&[u8]], word: &[u8]) -> bool
    ensures { result ≡ list_any (λ other. bytes_eq other.now word.now) words.now }
{
    words.iter().any(|other| *other == word)
}

/// The word is reserved.
#[tactic(auto, unfolding(crate::specs::Pieces::is_reserved))]
pub fn is_reserved(word: &[u8]) -> bool
    ensures { result ≡ is_reserved word.now }
{
    has_word(&RESERVED, word)
}

// How many bytes the mark has, if it begins the text, and else 0.
fn front_length(mark: &[u8], bytes: &[u8]) -> usize
    ensures { result ≡ front_length mark.now bytes.now }
{
    if bytes.starts_with(mark) {
        mark.len()
    } else {
        0
    }
}

// How many bytes the longest of these marks has that begins the text, 0 where none does.
fn longest_of(marks: &[&[u8]], bytes: &[u8]) -> usize
    ensures { result ≡ longest_of (λ (mark : Bor (List ℕ)). mark.now) marks.now bytes.now }
{
    marks.iter().fold(
        0,
        |longest: usize, mark: &&[u8]| longest.max(front_length(mark, bytes)),
    )
}

/// How many bytes the longest mark has that begins the text, 0 where none does.
pub fn mark_length(bytes: &[u8]) -> usize
    ensures length { result ≡ mark_length bytes.now }
    ensures within { result ≤ length bytes.now }
{
    longest_of(&MARKS, bytes)
}
