ghost use Rattle.std.specs.Prelude.{◌≡◌};
ghost use Rattle.console.specs.Replies.{Performed, Replied, Answered};

use crate::answers::Answer;
use crate::commands::Command;
use crate::faults::LineFault;
use crate::parsing::parse;
use crate::printing::field;

const LARGEST_SIZE: u16 = 256;

const LARGEST_LIMIT: u16 = 255;

// Answers lines, and counts them.
#[derive(Debug, Default, Drop)]
pub struct Console {
    lines: u32,
}

impl Console {
    pub fn new() -> Console
        ensures { result.lines ≡ 0 }
    {
        Console { lines: 0 }
    }

    // The answer to one line, given without its byte 10. Every line counts, refused ones too.
    pub fn answer(&mut self, line: &[u8]) -> [u8; 64]
        ensures { Answered line.now self.old.lines self.new.lines result }
    {
        self.lines = self.lines.saturating_add(1);
        field(self.lines, reply(line))
    }
}

fn reply(line: &[u8]) -> Result<Answer, LineFault>
    ensures { Replied line.now result }
{
    perform(parse(line)?)
}

// No table can be opened yet: a t in range is refused like the commands that need one.
fn perform(command: Command) -> Result<Answer, LineFault>
    ensures { Performed command result }
{
    if let Command::Open {
        buses,
        posts,
        limit,
    } = command
    {
        let sizes = 1..=LARGEST_SIZE;
        if !sizes.contains(&buses) || !sizes.contains(&posts) || limit > LARGEST_LIMIT {
            return Err(LineFault::OutOfRange);
        }
    }
    Err(LineFault::OutOfOrder)
}
