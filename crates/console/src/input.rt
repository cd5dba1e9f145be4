ghost use Rattle.console.specs.Inputs.{Next, Shown};

// At most so many bytes of an input are read.
pub const LIMIT: usize = 65_536;

// The line that begins at `from`, without its byte 10; none follows a last byte 10.
// A line that the limit cuts is none, since half a line could name another pair.
pub fn line_at(input: &[u8], from: usize) -> Option<&[u8]>
    ensures { Next input.now from result }
{
    let end = input.len().min(LIMIT);
    let rest = input.get(from..end)?;
    match rest.iter().position(|byte| *byte == b'\n') {
        Some(len) => Some(&rest[..len]),
        None if from < end && end < LIMIT => Some(rest),
        None => None,
    }
}

// The bytes of a field before its zeros.
pub fn shown(field: &[u8]) -> &[u8]
    ensures { Shown field.now result.now }
{
    match field.iter().position(|byte| *byte == 0) {
        Some(end) => &field[..end],
        None => field,
    }
}
