// Blanks and comments.
ghost use Rattle.std.specs.Prelude.{◌≡◌, ◌≤◌, ◌<◌, ◌+◌, ◌^◌, IfSome, length};
ghost use Rattle.c_lex.specs.Blanks.{is_blank, line_length, close_length, comment_length, space_length, after_spaces};

use crate::bytes::begins_two;

pub fn is_blank(byte: u8) -> bool
    ensures { result ≡ is_blank byte }
{
    byte == b' ' || byte == b'\t' || byte == b'\r' || byte == b'\n'
}

/// How many bytes stand before the next line feed or the end.
pub fn line_length(bytes: &[u8]) -> usize
    ensures count { result ≡ line_length bytes.now }
    ensures within { result ≤ length bytes.now }
{
    bytes.iter().take_while(|byte| **byte != b'\n').count()
}

// How many bytes there are up to the end of the next `*/`, if there is one.
#[tactic(auto, using(crate::proofs::Closing::close_step, crate::proofs::Closing::close_here))]
fn close_length(bytes: &[u8]) -> Option<usize>
    requires { length bytes.now < 2 ^ 62 }
    ensures length { result ≡ close_length bytes.now }
    ensures within { IfSome result (λ n. (0 < n) × (n ≤ length bytes.now)) }
{
    for at in 0..bytes.len() {
        let (_, rest) = bytes.split_at(at);
        if begins_two(b'*', b'/', rest) {
            return Some(at + 2);
        }
    }
    None
}

// How many bytes the comment has that begins here, if one does and ends.
fn comment_length(bytes: &[u8]) -> Option<usize>
    requires { length bytes.now < 2 ^ 62 }
    ensures length { result ≡ comment_length bytes.now }
    ensures within { IfSome result (λ n. (0 < n) × (n ≤ length bytes.now)) }
{
    if begins_two(b'/', b'/', bytes) {
        return Some(line_length(bytes));
    }
    if begins_two(b'/', b'*', bytes) {
        let length = close_length(&bytes[2..])?;
        return Some(length + 2);
    }
    None
}

/// How many bytes the blank or the comment has that begins here, if one does.
pub fn space_length(bytes: &[u8]) -> Option<usize>
    requires { length bytes.now < 2 ^ 62 }
    ensures length { result ≡ space_length bytes.now }
    ensures within { IfSome result (λ n. (0 < n) × (n ≤ length bytes.now)) }
{
    let first = bytes.first()?;
    if is_blank(*first) {
        return Some(1);
    }
    comment_length(bytes)
}

/// What stands after the blanks and comments at the front.
#[tactic(auto, using(crate::proofs::Closing::spaces_step, crate::proofs::Closing::spaces_end))]
pub fn after_spaces(bytes: &[u8]) -> &[u8]
    requires { length bytes.now < 2 ^ 62 }
    ensures rest { result.now ≡ after_spaces bytes.now }
    ensures within { length result.now ≤ length bytes.now }
{
    let mut rest = bytes;
    while let Some(length) = space_length(rest) {
        let (_, back) = rest.split_at(length);
        rest = back;
    }
    rest
}
