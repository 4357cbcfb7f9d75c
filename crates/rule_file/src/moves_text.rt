//! Reading a moves file.
ghost use Rattle.std.specs.Prelude.{◌≡◌, ◌≢◌, ◌==◌, ◌⊎◌, ◌<◌, ◌≤◌, ◌^◌, ℕ, None, Some, ◌∷◌, length, slice_index, IsTrue, OnOk, IfOk, IfErr, IfSome};
ghost use Rattle.std.specs.Char.{is_ascii_digit};
ghost use Rattle.std.specs.List.{list_all, position};
ghost use Rattle.std.specs.Str.Parse.{digits_value};
ghost use Rattle.rule_file.specs.MoveText.{bad_line, delta_of, is_number, lines_of, move_at, move_fault, move_of, moves_of, number_of};

use crate::fault::MoveFault;
use opc_base::Move;
use std::alloc::Global;

/// Reads a moves file. Each line is a fragment's number of 1 to 9 digits, a blank, an optional `-`, and 1 to 9 digits. Each
/// ends with a line feed, which may be missing after the last.
pub fn read_moves(alloc: Global, bytes: &[u8]) -> Result<Vec<Move>, MoveFault>
    requires { length bytes.now ≤ 1048576 }
    ensures valid { OnOk result (move_fault bytes.now ≡ None) }
    ensures moves { IfOk result (λ moves. moves.items ≡ moves_of bytes.now) }
    ensures fault { IfErr result (λ fault. (fault ≡ MoveFault.NoMemory) ⊎ (move_fault bytes.now ≡ Some fault)) }
{
    let mut moves = Vec::new(alloc);
    let mut rest = bytes;
    let mut line = 1;
    while !rest.is_empty() {
        let (text, after) = split_line(rest);
        let Some(one) = read_move(text) else {
            return Err(MoveFault::BadLine { line });
        };
        moves.push(one)?;
        rest = after;
        line += 1;
    }
    Ok(moves)
}

// The first line, and what follows its line feed.
fn split_line(text: &[u8]) -> (&[u8], &[u8])
    requires { 0 < length text.now }
    ensures lines { lines_of text.now ≡ result.0.now ∷ lines_of result.1.now }
    ensures shorter { length result.1.now < length text.now }
{
    let end = line_end(text);
    if end < text.len() {
        (&text[..end], &text[end + 1..])
    } else {
        (text, &text[end..])
    }
}

fn line_end(text: &[u8]) -> usize
    ensures within { result ≤ length text.now }
    ensures before { (k : ℕ) → k < result → slice_index text.now k ≢ 10 }
    ensures found { result < length text.now → slice_index text.now result ≡ 10 }
{
    for (end, byte) in text.iter().enumerate() {
        if *byte == b'\n' {
            return end;
        }
    }
    text.len()
}

fn read_move(line: &[u8]) -> Option<Move>
    ensures { result ≡ move_of line.now }
{
    match first_blank(line) {
        Some(blank) => move_at(line, blank),
        None => None,
    }
}

fn first_blank(line: &[u8]) -> Option<usize>
    ensures place { result ≡ position (λ byte. byte == 32) line.now }
    ensures within { IfSome result (λ blank. blank < length line.now) }
{
    line.iter().position(|byte| *byte == b' ')
}

fn move_at(line: &[u8], blank: usize) -> Option<Move>
    requires { blank < length line.now }
    ensures { result ≡ move_at line.now blank }
{
    match (read_number(&line[..blank]), read_delta(&line[blank + 1..])) {
        (Some(fragment), Some(delta)) => Some(Move { fragment, delta }),
        _ => None,
    }
}

fn read_delta(text: &[u8]) -> Option<i32>
    ensures { result ≡ delta_of text.now }
{
    if !text.is_empty() && text[0] == b'-' {
        match read_number(&text[1..]) {
            Some(n) => Some(-(n as i32)),
            None => None,
        }
    } else {
        match read_number(text) {
            Some(n) => Some(n as i32),
            None => None,
        }
    }
}

fn read_number(digits: &[u8]) -> Option<u32>
    ensures number { result ≡ number_of digits.now }
    ensures small { IfSome result (λ n. n < 10 ^ 9) }
{
    if is_number(digits) {
        Some(value_of(digits))
    } else {
        None
    }
}

fn is_number(digits: &[u8]) -> bool
    ensures { result ≡ is_number digits.now }
{
    1 <= digits.len() && digits.len() <= 9 && has_digits(digits)
}

fn has_digits(text: &[u8]) -> bool
    ensures { result ≡ list_all is_ascii_digit text.now }
{
    text.iter().all(|byte| byte.is_ascii_digit())
}

fn value_of(digits: &[u8]) -> u32
    requires few { length digits.now ≤ 9 }
    requires digits { IsTrue (list_all is_ascii_digit digits.now) }
    ensures value { result ≡ digits_value 10 digits.now }
    ensures small { result < 10 ^ 9 }
{
    let mut value = 0;
    for byte in digits {
        value = 10 * value + u32::from(*byte - b'0');
    }
    value
}
