//! The search for all texts that are reached over arrows, breadth first.
ghost use Rattle.std.specs.Prelude.{◌<◌, [], IfOk};
ghost use Rattle.text_parts.specs.Cuts.{now_all};
ghost use Rattle.text_graph.specs.Arrows.{arrows_seen};
ghost use Rattle.text_graph.specs.Numbers.{number_added, numbers_added, numbers_found, marks_count};
ghost use Rattle.text_graph.specs.Numbers.{KnowsItsNumbers, AreWithin};
ghost use Rattle.text_graph.specs.SearchResults.{FindsNumbers, HasMarks, FindsReached};

use crate::arrow::Arrow;
use crate::numbers::Numbers;
use crate::steps::Steps;
use std::alloc::{AllocError, Global};

/// The numbers of the texts that were found so far, each once, in the order in which they were found.
#[derive(Drop)]
struct Found {
    numbers: Vec<usize>,
    /// For each number, whether its text was found.
    known: Vec<bool>,
}

impl Found {
    /// What a search over arrows has found at first: none of so many texts.
    fn new(alloc: Global, count: usize) -> Result<Found, AllocError>
        ensures numbers { FindsNumbers result [] }
        ensures knows { IfOk result KnowsItsNumbers }
        ensures count { HasMarks result count }
    {
        Ok(Found {
            numbers: Vec::new(alloc),
            known: vec![in alloc; false; count]?,
        })
    }

    /// What a search over arrows has found, with one more text, if it is new.
    fn with(mut self, number: usize) -> Result<Found, AllocError>
        requires knows { KnowsItsNumbers self }
        requires inside { number < marks_count self }
        ensures numbers { FindsNumbers result (number_added (numbers_found self) number) }
        ensures knows { IfOk result KnowsItsNumbers }
        ensures count { HasMarks result (marks_count self) }
    {
        if self.known[number] {
            return Ok(self);
        }
        self.known[number] = true;
        self.numbers.push(number)?;
        Ok(self)
    }

    /// What a search over arrows has found, with those of these texts that are new.
    fn with_all(self, numbers: &[usize]) -> Result<Found, AllocError>
        requires knows { KnowsItsNumbers self }
        requires inside { AreWithin (marks_count self) numbers.now }
        ensures numbers { FindsNumbers result (numbers_added (numbers_found self) numbers.now) }
        ensures knows { IfOk result KnowsItsNumbers }
        ensures count { HasMarks result (marks_count self) }
    {
        let mut found = self;
        for number in numbers {
            found = found.with(*number)?;
        }
        Ok(found)
    }
}

/// A search over arrows: these texts, and all that are reached from them, in no particular order.
pub(crate) fn search<'a>(
    alloc: Global,
    starts: &[&'a str],
    arrows: &[Arrow<'a>],
) -> Result<Vec<&'a str>, AllocError>
    ensures { FindsReached result (now_all starts.now) (arrows_seen arrows.now) }
{
    let mut numbers = Numbers::new(alloc)?;
    let numbered = numbers.of_arrows(alloc, arrows)?;
    let first = numbers.of_texts(alloc, starts)?;
    let steps = Steps::over(alloc, numbers.count(), &numbered)?;
    let mut found = Found::new(alloc, numbers.count())?.with_all(&first)?;
    let mut place = 0;
    while place < found.numbers.len() {
        let next = steps.next(found.numbers[place]);
        found = found.with_all(next)?;
        place += 1;
    }
    numbers.texts_of(alloc, &found.numbers)
}
