// What the words ask for.
ghost use Rattle.std.specs.Prelude.{◌≡◌, ◌≤◌, map, string_bytes, IfSome};
ghost use Rattle.std.specs.Option.{option_map};
ghost use Rattle.play_core.specs.Command.{HasSpace, command_of, expression_in, number_upto, seen};

use space_core::MOST_CELLS;

// A command, with the text of its expression.
#[derive(Clone, Copy, Drop)]
pub(crate) enum Command<'a> {
    Check { expression: &'a str },
    Replay { expression: &'a str, cells: u32 },
}

impl<'a> Command<'a> {
    // The command that the words are, if they are one.
    pub(crate) fn parse(words: &'a [String]) -> Option<Command<'a>>
        ensures command { option_map seen result ≡ command_of (map string_bytes words.now) }
        ensures space { IfSome result HasSpace }
    {
        match words {
            [verb, expression] => {
                if verb.as_str() != "check" {
                    return None;
                }
                let expression = expression.as_str();
                Some(Command::Check { expression })
            }
            [verb, expression, cells] => {
                if verb.as_str() != "replay" {
                    return None;
                }
                let expression = expression.as_str();
                let cells = read_number(cells.as_str(), MOST_CELLS)?;
                Some(Command::Replay { expression, cells })
            }
            _ => None,
        }
    }

    // The text of its expression.
    pub(crate) fn expression(&self) -> &'a str
        ensures { result.now ≡ expression_in (seen self.now) }
    {
        match self {
            Command::Check { expression } => *expression,
            Command::Replay { expression, .. } => *expression,
        }
    }
}

// The number that digits say, from 1 up to the greatest.
fn read_number(digits: &str, most: u32) -> Option<u32>
    ensures number { result ≡ number_upto most digits.now }
    ensures within { IfSome result (λ n. (1 ≤ n) × (n ≤ most)) }
{
    // A sign may stand before what `parse` reads.
    if digits.starts_with('+') {
        return None;
    }
    let number = digits.parse::<u32>().ok()?;
    if number >= 1 && number <= most {
        Some(number)
    } else {
        None
    }
}
