ghost use Rattle.std.specs.Prelude.{◌≡◌, ◌+◌, ◌^◌, ◌≤◌, IfOk, IfSome, pos, unsigned_abs};
ghost use Rattle.asm_core.specs.Expressions.{expression_of, minus_of, operand_of, operand_value, part_of, part_of_sum, sum_of, sum_value, summed, terms_of, value_of};

use crate::{List, Name, Names, Word, Words, after_mark};
use board_base::OutOfMemory;
use std::alloc::Global;

/// A number, or a name.
#[derive(Drop)]
pub enum Operand<'a> {
    /// A number.
    Number(u16),
    /// The value of a name.
    Name(Name<'a>),
}

/// An operand of a sum, which is taken away where it is negative.
#[derive(Drop)]
pub struct Term<'a> {
    pub negative: bool,
    pub operand: Operand<'a>,
}

/// Which part of a sum an expression is.
#[derive(Clone, Copy, Debug, PartialEq, Eq, Drop)]
pub enum Part {
    /// The sum as it is.
    Whole,
    /// The low byte of the sum modulo 65,536.
    Low,
    /// The high byte of the sum modulo 65,536.
    High,
}

/// A sum, or one of its two bytes.
#[derive(Drop)]
pub struct Expression<'a> {
    pub part: Part,
    pub terms: List<Term<'a>>,
}

/// The operand that a word is.
fn read_operand<'a>(word: &Word<'a>) -> Option<Operand<'a>>
    ensures { result ≡ operand_of word.now }
{
    match word {
        Word::Number(number) => Some(Operand::Number(*number)),
        _ => Some(Operand::Name(word.plain_name()?)),
    }
}

/// Whether a sign is a minus.
fn minus(word: &Word) -> Option<bool>
    ensures { result ≡ minus_of word.now }
{
    match word {
        Word::Mark(b'+') => Some(false),
        Word::Mark(b'-') => Some(true),
        _ => None,
    }
}

/// The terms of a sum, of which the first has this sign.
#[tactic(auto, using(crate::proofs::Lists::steps), unfolding(crate::specs::Expressions::terms_of))]
fn read_terms<'a>(
    alloc: Global,
    first: bool,
    words: &Words<'a>,
) -> Result<Option<List<Term<'a>>>, OutOfMemory>
    ensures { IfOk result (λ read. read ≡ terms_of first words.now) }
{
    let mut terms = List::with_capacity(alloc, words.term_count())?;
    let mut negative = first;
    let mut rest = words.copied();
    'terms: while let Some((word, after)) = rest.split_first() {
        let Some(operand) = read_operand(&word) else {
            return Ok(None);
        };
        terms.push(Term { negative, operand })?;
        let Some((sign, behind)) = after.split_first() else {
            return Ok(Some(terms));
        };
        let Some(next) = minus(&sign) else {
            return Ok(None);
        };
        negative = next;
        rest = behind;
    }
    Ok(None)
}

/// The terms of a sum, of which the first may have a minus.
fn read_sum<'a>(alloc: Global, words: &Words<'a>) -> Result<Option<List<Term<'a>>>, OutOfMemory>
    ensures { IfOk result (λ read. read ≡ sum_of words.now) }
{
    match after_mark(words, b'-') {
        Some(rest) => read_terms(alloc, true, &rest),
        None => read_terms(alloc, false, words),
    }
}

/// A part of a sum.
fn read_part<'a>(
    alloc: Global,
    part: Part,
    words: &Words<'a>,
) -> Result<Option<Expression<'a>>, OutOfMemory>
    ensures { IfOk result (λ read. read ≡ part_of_sum part words.now) }
{
    match read_sum(alloc, words)? {
        Some(terms) => Ok(Some(Expression { part, terms })),
        None => Ok(None),
    }
}

/// The expression that these words are, all of them: numbers and names with `+` and `-` between
/// them, a `-` that may stand before the first, and a `<` or `>` for a byte of the sum before that.
pub fn read_expression<'a>(
    alloc: Global,
    words: &Words<'a>,
) -> Result<Option<Expression<'a>>, OutOfMemory>
    ensures { IfOk result (λ read. read ≡ expression_of words.now) }
{
    if let Some(sum) = after_mark(words, b'<') {
        read_part(alloc, Part::Low, &sum)
    } else if let Some(sum) = after_mark(words, b'>') {
        read_part(alloc, Part::High, &sum)
    } else {
        read_part(alloc, Part::Whole, words)
    }
}

/// The value of an operand.
fn operand_value(names: &Names, operand: &Operand) -> Option<i128>
    ensures value { result ≡ operand_value names.now operand.now }
    ensures small { IfSome result (λ value. unsigned_abs value ≤ 2 ^ 31) }
{
    match operand {
        Operand::Number(number) => Some(i128::from(*number)),
        Operand::Name(name) => match names.get(name.bytes()) {
            Some(value) => Some(i128::from(value)),
            None => None,
        },
    }
}

/// A sum with one more operand's value.
fn summed(negative: bool, sum: i128, value: i128) -> i128
    requires sum { unsigned_abs sum ≤ 2 ^ 95 }
    requires value { unsigned_abs value ≤ 2 ^ 31 }
    ensures sum { result ≡ summed negative sum value }
    ensures small { unsigned_abs result ≤ unsigned_abs sum + 2 ^ 31 }
{
    if negative { sum - value } else { sum + value }
}

/// The sum of terms. Any number of terms that stands in memory has one of 128 bits.
#[tactic(auto, using(crate::proofs::Lists::steps), unfolding(crate::specs::Expressions::sum_value))]
fn sum_value(names: &Names, terms: &[Term]) -> Option<i128>
    ensures value { result ≡ sum_value names.now (pos 0) terms.now }
    ensures small { IfSome result (λ sum. unsigned_abs sum ≤ 2 ^ 95) }
{
    let mut sum: i128 = 0;
    for term in terms {
        let value = operand_value(names, &term.operand)?;
        sum = summed(term.negative, sum, value);
    }
    Some(sum)
}

/// What a part of a sum is worth.
#[tactic(auto, unfolding(crate::specs::Expressions::part_of))]
fn part_of(part: Part, sum: i128) -> i128
    requires { unsigned_abs sum ≤ 2 ^ 95 }
    ensures value { result ≡ part_of part sum }
    ensures small { unsigned_abs result ≤ 2 ^ 95 }
{
    match part {
        Part::Whole => sum,
        Part::Low => sum.rem_euclid(65_536) % 256,
        Part::High => sum.rem_euclid(65_536) / 256,
    }
}

/// The value of an expression, where all its names have one.
#[tactic(auto, unfolding(crate::specs::Expressions::value_of))]
pub fn value(names: &Names, expression: &Expression) -> Option<i128>
    ensures value { result ≡ value_of names.now expression.now }
    ensures small { IfSome result (λ value. unsigned_abs value ≤ 2 ^ 95) }
{
    let sum = sum_value(names, expression.terms.items())?;
    Some(part_of(expression.part, sum))
}
