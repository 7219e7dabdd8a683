// What the words of a line say. What is no such number, or more than there is, is none.
ghost use Rattle.std.specs.Prelude.{◌≡◌, ◌≤◌, IfSome};
ghost use Rattle.cases.specs.Arguments.{room_at, settings_in, place_in};

use case_notation::fields::split_once;
use case_notation::numbers::{argument, number};
use limits::Settings;
use places::Place;

// How much is lent of a buffer that has so much.
pub fn room_at(line: &[u8], index: usize, most: usize) -> Option<usize>
    ensures { result ≡ room_at most index line.now }
{
    let room = argument(line, index)? as usize;
    (room <= most).then_some(room)
}

// A, mi, mo and T, the words after the name of a call.
pub fn settings_in(line: &[u8]) -> Option<Settings>
    ensures { result ≡ settings_in line.now }
{
    Some(Settings {
        activities: argument(line, 1)?.try_into().ok()?,
        inputs: argument(line, 2)?.try_into().ok()?,
        outputs: argument(line, 3)?.try_into().ok()?,
        threshold: argument(line, 4)?.try_into().ok()?,
    })
}

// A place, whose sets have a slash between them.
pub fn place_in(word: &[u8]) -> Option<Place>
    ensures { result ≡ place_in word.now }
{
    let (inputs, outputs) = split_once(word, b'/')?;
    Some(Place {
        inputs: number(inputs, 16)?.try_into().ok()?,
        outputs: number(outputs, 16)?.try_into().ok()?,
    })
}
