ghost use Rattle.std.specs.Prelude.{◌≡◌, ◌+◌, ◌≤◌, ◌++◌, length, Err};
ghost use Rattle.arrayvec.specs.ArrayString.{array_string_len};
ghost use Rattle.console.specs.Texts.{spaced, padded, DecimalsStand};
ghost use Rattle.console.specs.Words.{words, printed, Printed};

use crate::answers::Answer;
use crate::faults::LineFault;
use crate::refusals::{holds, layer, number};
use arrayvec::ArrayString;
use itoa::Buffer;

// Numbers, each after one space.
fn push_numbers(text: &mut ArrayString<64>, numbers: &[u64])
    requires { array_string_len text.old + length (spaced numbers.now) ≤ 64 }
    ensures { text.new.bytes ≡ text.old.bytes ++ spaced numbers.now }
{
    for number in numbers {
        text.push(' ');
        text.push_str(Buffer::new().format(*number));
    }
}

// A refusal: the layer in which it arose, its number, and the numbers that it holds.
fn push_fault(text: &mut ArrayString<64>, fault: LineFault)
    requires { array_string_len text.old ≤ 11 }
    ensures text { text.new.bytes ≡ text.old.bytes ++ printed (Err fault) }
    ensures room { length (printed (Err fault)) ≤ 32 }
{
    text.push_str("no ");
    text.push_str(layer(fault));
    push_numbers(text, &[u64::from(number(fault))]);
    push_numbers(text, holds(fault).as_slice());
}

// Pushed and not formatted: `write!` promises nothing of a text that has room, so its error would stay open here.
fn push_answer(text: &mut ArrayString<64>, answer: Answer)
    requires { array_string_len text.old ≤ 11 }
    ensures text { text.new.bytes ≡ text.old.bytes ++ words answer }
    ensures room { length (words answer) ≤ 32 }
{
    match answer {
        Answer::Done => text.push_str("ok"),
        Answer::Rank(rank) => {
            text.push_str("rank ");
            text.push_str(Buffer::new().format(rank));
        }
        Answer::Block { buses, posts } => {
            text.push_str("block");
            push_numbers(text, &[u64::from(buses), u64::from(posts)]);
        }
        Answer::Shortfall(count) => {
            text.push_str("short");
            push_numbers(text, &[u64::from(count)]);
        }
    }
}

fn push_reply(text: &mut ArrayString<64>, reply: Result<Answer, LineFault>)
    requires { array_string_len text.old ≤ 11 }
    ensures text { text.new.bytes ≡ text.old.bytes ++ printed reply }
    ensures room { length (printed reply) ≤ 32 }
{
    match reply {
        Ok(answer) => push_answer(text, answer),
        Err(fault) => push_fault(text, fault),
    }
}

// A text, and zeros up to 64 bytes.
fn with_zeros(text: &str) -> [u8; 64]
    requires { length text.now ≤ 64 }
    ensures { result ≡ padded 64 text.now }
{
    let mut field = [0; 64];
    field[..text.len()].copy_from_slice(text.as_bytes());
    field
}

// The answer to a line, by the line's number: its text, and zeros up to 64 bytes.
pub fn field(line: u32, answer: Result<Answer, LineFault>) -> [u8; 64]
    ensures { Printed line answer result }
{
    let mut text = ArrayString::<64>::new();
    text.push_str(Buffer::new().format(line));
    text.push(' ');
    push_reply(&mut text, answer);
    text.push('\n');
    with_zeros(text.as_str())
}

// What the digits of a number are.
pub fn decimals_stand() -> bool
    ensures { DecimalsStand }
{
    true
}
