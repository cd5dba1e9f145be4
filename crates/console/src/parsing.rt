ghost use Rattle.console.specs.Grammar.{Reads, OneMeaning};
ghost use Rattle.console.specs.Parts.{Chosen};

use crate::commands::Command;
use crate::faults::LineFault;
use crate::numbers::numbers;
use stores::pairs::Pair;

// A line has at most so many bytes.
const LONGEST: usize = 40;

// The command of a letter, with the fields behind it.
fn command(letter: char, fields: &[u8]) -> Result<Command, LineFault>
    ensures { Chosen letter fields.now result }
{
    match letter {
        't' => {
            let [buses, posts, limit] = numbers::<3>(fields)?;
            Ok(Command::Open {
                buses,
                posts,
                limit,
            })
        }
        'a' => {
            let [bus, post] = numbers::<2>(fields)?;
            Ok(Command::Add(Pair { bus, post }))
        }
        'd' => {
            let [bus, post] = numbers::<2>(fields)?;
            Ok(Command::Drop(Pair { bus, post }))
        }
        'b' => {
            let [bus] = numbers::<1>(fields)?;
            Ok(Command::BusRank { bus })
        }
        'p' => {
            let [post] = numbers::<1>(fields)?;
            Ok(Command::PostRank { post })
        }
        'k' => {
            let [level] = numbers::<1>(fields)?;
            Ok(Command::Block { level })
        }
        's' => {
            let [level] = numbers::<1>(fields)?;
            Ok(Command::Shortfall { level })
        }
        _ => Err(LineFault::Unreadable),
    }
}

// The command that a line spells, without its byte 10.
pub fn parse(line: &[u8]) -> Result<Command, LineFault>
    ensures { Reads line.now result }
{
    if line.len() > LONGEST {
        return Err(LineFault::Unreadable);
    }
    match line {
        [letter, space, fields @ ..] if *space == b' ' => command(char::from(*letter), fields),
        // without a space there are no fields, and every command has some
        [letter, ..] => command(char::from(*letter), &[]),
        [] => Err(LineFault::Unreadable),
    }
}

// A line has one meaning.
pub fn one_meaning() -> bool
    ensures { OneMeaning }
{
    true
}
