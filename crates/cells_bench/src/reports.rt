//! What the program prints for its words.
use crate::rounds::run_rounds;
use crate::shapes::Shape;
use crate::stops::Stop;
use std::alloc::Global;

/// The rounds of each net where no words are given.
const FEW_ROUNDS: i32 = 3;

/// The most rounds that may be asked for.
const MOST_ROUNDS: i32 = 1_000_000;

/// The number of rounds that a word gives.
fn rounds_in(word: &str) -> Result<i32, Stop> {
    match word.parse::<i32>() {
        Ok(rounds) if 0 <= rounds && rounds <= MOST_ROUNDS => Ok(rounds),
        _ => Err(Stop::Rounds),
    }
}

/// The line of one net.
fn line_of(alloc: Global, shape: Shape, rounds: i32) -> Result<String, Stop> {
    let outcome = run_rounds(alloc, shape, rounds)?;
    Ok(format!(in alloc;
        "{}: {} runs, and the last cell holds {}\n",
        shape.name(),
        outcome.runs,
        outcome.last
    )?)
}

/// The lines of all nets.
fn all_lines(alloc: Global) -> Result<String, Stop> {
    let mut text = String::new(alloc);
    for shape in [Shape::Chain, Shape::Fan, Shape::Grid] {
        text.push_str(line_of(alloc, shape, FEW_ROUNDS)?.as_str())?;
    }
    Ok(text)
}

/// What is printed for the words, the first of which is the program's name.
pub fn report(alloc: Global, words: &[String]) -> Result<String, Stop> {
    match words {
        [] | [_] => all_lines(alloc),
        [_, name, rounds] => {
            let Some(shape) = Shape::named(name.as_str()) else {
                return Err(Stop::Shape);
            };
            line_of(alloc, shape, rounds_in(rounds.as_str())?)
        }
        _ => Err(Stop::Words),
    }
}
