//! The numbers of texts between which arrows lead.
ghost use Rattle.std.specs.Prelude.{◌≡◌, ◌<◌, fold, None, IfOk, OnOk, length, true, false};
ghost use Rattle.text_parts.specs.Cuts.{now_all};
ghost use Rattle.text_graph.specs.Arrows.{arrows_seen, beginnings_of, ends_of};
ghost use Rattle.text_graph.specs.Numbers.{texts_met, texts_at, IsNumbering, IsNoFirst, MeetsMore};
ghost use Rattle.text_graph.specs.Numbers.{IsNumberOf, IsOfAnother, AreWithin};
ghost use Rattle.text_graph.specs.SearchResults.{GivesNumber, GivesNumbers, BeginsAtNumber, EndsAtNumber};
ghost use Rattle.text_graph.specs.SearchResults.{BeginAtNumbers, EndAtNumbers, LendsTexts};
ghost use Rattle.text_graph.specs.Slots.{slot_of, spread, first_in};
ghost use Rattle.text_graph.specs.declared.numbers.TheConstants.{SLOTS};

use crate::arrow::Arrow;
use std::alloc::{AllocError, Global};
use std::collections::BTreeMap;

/// How many slots there are, each for a first text.
const SLOTS: usize = 16384;

/// What spreads the bytes of a text over the slots: an odd number whose bits follow no pattern.
const FACTOR: u64 = 0x9E37_79B9_7F4A_7C15;

/// Texts that were met. The number of each is its place among them. Most texts are the first of their slots,
/// and are looked up there. For any other, it takes time in proportion to the logarithm of how many others
/// there are.
#[derive(Drop)]
pub(crate) struct Numbers<'a> {
    texts: Vec<&'a str>,
    /// For each slot, the number of its first text, if one was met.
    first: Vec<Option<usize>>,
    /// The numbers of the texts that weren't the first of their slots.
    others: BTreeMap<&'a str, usize>,
}

/// An arrow between texts that were met, by their numbers.
#[derive(Clone, Copy)]
pub(crate) struct NumberedArrow {
    /// The number of the text where it begins.
    pub(crate) from: usize,
    /// The number of the text where it ends.
    pub(crate) to: usize,
}

impl<'a> Numbers<'a> {
    /// The numbers of texts before any text was met.
    pub(crate) fn new(alloc: Global) -> Result<Numbers<'a>, AllocError>
        ensures { IfOk result IsNumbering }
    {
        Ok(Numbers {
            texts: Vec::new(alloc),
            first: vec![in alloc; None; SLOTS]?,
            others: BTreeMap::new(alloc),
        })
    }

    /// How many texts were met and have a number.
    pub(crate) fn count(&self) -> usize
        ensures { result ≡ length (texts_met self.now) }
    {
        self.texts.len()
    }

    /// The numbers of these texts, each of which is met now if it wasn't before.
    pub(crate) fn of_texts(
        &mut self,
        alloc: Global,
        texts: &[&'a str],
    ) -> Result<Vec<usize>, AllocError>
        requires { IsNumbering self.old }
        ensures numbers { GivesNumbers result self.new (now_all texts.now) }
        ensures more { OnOk result (MeetsMore self.old self.new) }
    {
        let mut numbers = Vec::with_capacity(alloc, texts.len())?;
        for text in texts {
            numbers.push(self.of_text(text, 0)?)?;
        }
        Ok(numbers)
    }

    /// The arrows between texts by the texts' numbers. Each text is met now if it wasn't before.
    pub(crate) fn of_arrows(
        &mut self,
        alloc: Global,
        arrows: &[Arrow<'a>],
    ) -> Result<Vec<NumberedArrow>, AllocError>
        requires { IsNumbering self.old }
        ensures from { BeginAtNumbers result self.new (beginnings_of (arrows_seen arrows.now)) }
        ensures to { EndAtNumbers result self.new (ends_of (arrows_seen arrows.now)) }
        ensures more { OnOk result (MeetsMore self.old self.new) }
    {
        let mut numbered = Vec::with_capacity(alloc, arrows.len())?;
        let mut last = NumberedArrow { from: 0, to: 0 };
        for arrow in arrows {
            last = self.of_arrow(arrow, last)?;
            numbered.push(last)?;
        }
        Ok(numbered)
    }

    /// An arrow by the numbers of its texts. A text that has the same place in the arrow before isn't looked
    /// up.
    fn of_arrow(
        &mut self,
        arrow: &Arrow<'a>,
        before: NumberedArrow,
    ) -> Result<NumberedArrow, AllocError>
        requires { IsNumbering self.old }
        ensures from { BeginsAtNumber result self.new arrow.now.from.now }
        ensures to { EndsAtNumber result self.new arrow.now.to.now }
        ensures more { OnOk result (MeetsMore self.old self.new) }
    {
        let from = self.of_text(arrow.from, before.from)?;
        let to = self.of_text(arrow.to, before.to)?;
        Ok(NumberedArrow { from, to })
    }

    /// The number of a text, which is met now if it wasn't before. If it is the number `before`, the text
    /// isn't looked up.
    fn of_text(&mut self, text: &'a str, before: usize) -> Result<usize, AllocError>
        requires { IsNumbering self.old }
        ensures number { GivesNumber result self.new text.now }
        ensures more { OnOk result (MeetsMore self.old self.new) }
    {
        if self.is_at(before, text) {
            return Ok(before);
        }
        let slot = slot_of(text);
        match self.first[slot] {
            None => self.add_first(text, slot),
            Some(first) if self.is_at(first, text) => Ok(first),
            Some(_other) => self.of_other(text),
        }
    }

    /// Whether a text that was met has this number.
    fn is_at(&self, number: usize, text: &str) -> bool
        requires { IsNumbering self.now }
        ensures is { result ≡ true → IsNumberOf number self.now text.now }
        ensures differs { result ≡ false → IsOfAnother number self.now text.now }
    {
        number < self.texts.len() && self.texts[number] == text
    }

    /// The new number of a text that is the first of its slot, and is met now.
    fn add_first(&mut self, text: &'a str, slot: usize) -> Result<usize, AllocError>
        requires numbering { IsNumbering self.old }
        requires slot { slot ≡ slot_of text.now }
        requires inside { slot < SLOTS }
        requires none { first_in self.old text.now ≡ None }
        ensures number { GivesNumber result self.new text.now }
        ensures more { OnOk result (MeetsMore self.old self.new) }
    {
        let number = self.texts.len();
        self.texts.push(text)?;
        self.first[slot] = Some(number);
        Ok(number)
    }

    /// The number of a text that isn't the first of its slot. It is met now if it wasn't before.
    fn of_other(&mut self, text: &'a str) -> Result<usize, AllocError>
        requires numbering { IsNumbering self.old }
        requires other { IsNoFirst self.old text.now }
        ensures number { GivesNumber result self.new text.now }
        ensures more { OnOk result (MeetsMore self.old self.new) }
    {
        if let Some(number) = self.others.get(&text) {
            return Ok(*number);
        }
        let number = self.texts.len();
        self.others.insert(text, number)?;
        self.texts.push(text)?;
        Ok(number)
    }

    /// The texts that have these numbers.
    pub(crate) fn texts_of(
        &self,
        alloc: Global,
        numbers: &[usize],
    ) -> Result<Vec<&'a str>, AllocError>
        requires { AreWithin (length (texts_met self.now)) numbers.now }
        ensures { LendsTexts result (texts_at (texts_met self.now) numbers.now) }
    {
        let mut texts = Vec::with_capacity(alloc, numbers.len())?;
        for number in numbers {
            texts.push(self.texts[*number])?;
        }
        Ok(texts)
    }
}

/// The slot in which the number of a text is looked up, by the text's bytes.
fn slot_of(text: &str) -> usize
    ensures is { result ≡ slot_of text.now }
    ensures inside { result < SLOTS }
{
    let mut mark = 0u64;
    let mut rest = text.as_bytes();
    while let [first, second, third, fourth, others @ ..] = rest {
        let four = u32::from_le_bytes([*first, *second, *third, *fourth]);
        mark = spread(mark, u64::from(four));
        rest = others;
    }
    (spread_bytes(mark, rest) >> 48) as usize % SLOTS
}

/// A mark for the slot of a text, spread with each of these bytes.
fn spread_bytes(mark: u64, bytes: &[u8]) -> u64
    ensures { result ≡ fold spread mark bytes.now }
{
    let mut mark = mark;
    for byte in bytes {
        mark = spread(mark, u64::from(*byte));
    }
    mark
}

/// A mark for the slot of a text, spread with one number more.
fn spread(mark: u64, number: u64) -> u64
    ensures { result ≡ spread mark number }
{
    mark.wrapping_add(number).wrapping_mul(FACTOR)
}
