ghost use Rattle.std.specs.Prelude.{ℕ, List, true, ◌≡◌, ◌+◌, ◌*◌, ◌^◌, ◌<◌, ◌≤◌, ◌++◌, length, drop, IsTrue};
ghost use Rattle.std.specs.Char.{is_ascii_digit, is_ascii_alphabetic};
ghost use Rattle.std.specs.List.{list_all, prefix_len, take_while};
ghost use Rattle.std.specs.Str.Parse.{digits_value, digits_value_after};
ghost use Rattle.slint_literals.specs.Numbers.{numeral, unit_length, starts_with_digit, IsLongestNumber, pointed, behind_point, number_in, within_type, measured, plain_number, digits_worth, is_unit, are_parts, whole_of, fraction_of, unit_of, worth, number_value};

use crate::measures::{Measure, Quantity, measure_of};
use slint_base::LIM;

/// A written number: its type, and its value in whole units of the type.
#[derive(Clone, Copy, Debug, PartialEq, Eq)]
pub enum Number {
    /// Only zeros, without a point or a unit. It is 0 of whatever type its place wants.
    Zero,
    /// An int.
    Int(i32),
    /// A float, in millionths.
    Float(i64),
    /// A percent, in millionths of one per cent.
    Percent(i64),
    /// A length, in thousandths of a px.
    Length(i64),
    /// A duration, in milliseconds.
    Duration(i64),
    /// An angle, in thousandths of a degree.
    Angle(i64),
}

/// A number has at most so many digits, on both sides of the point together.
const MOST_DIGITS: usize = 30;

/// The greatest value of an int, as digits write it.
const GREATEST_INT: u128 = 2_147_483_647;

/// How many digits lie at the front.
fn digits_length(text: &[u8]) -> usize
    ensures { result ≡ prefix_len is_ascii_digit text.now }
{
    text.iter().take_while(|b| b.is_ascii_digit()).count()
}

/// The digits at the front, and what is behind them.
fn split_digits(text: &[u8]) -> (&[u8], &[u8])
    ensures digits { result.0.now ≡ take_while is_ascii_digit text.now }
    ensures behind { result.1.now ≡ drop (prefix_len is_ascii_digit text.now) text.now }
{
    text.split_at(digits_length(text))
}

/// The digits behind a point, where a point lies at the front.
fn behind_point(text: &[u8]) -> &[u8]
    ensures { result.now ≡ behind_point text.now }
{
    match text.split_first() {
        Some((b'.', behind)) => split_digits(behind).0,
        _ => &[],
    }
}

/// How many bytes digits behind a point have, with the point.
fn pointed_length(fraction: &[u8]) -> usize
    ensures { result ≡ length (pointed fraction.now) }
{
    if fraction.is_empty() {
        0
    } else {
        fraction.len() + 1
    }
}

/// Whether all are ASCII letters.
fn are_letters(text: &[u8]) -> bool
    ensures { result ≡ list_all is_ascii_alphabetic text.now }
{
    text.iter().all(|b| b.is_ascii_alphabetic())
}

/// Whether the text can be a unit: `%`, or ASCII letters, or nothing.
fn is_unit(text: &[u8]) -> bool
    ensures { result ≡ is_unit text.now }
{
    text == b"%".as_slice() || are_letters(text)
}

/// The number that `digits` and then these digits write.
fn appended(before: u128, digits: &[u8]) -> u128
    requires digits { IsTrue (list_all is_ascii_digit digits.now) }
    requires room { (before + 1) * 10 ^ length digits.now ≤ 10 ^ 30 }
    ensures value { result ≡ digits_value_after 10 before digits.now }
    ensures below { result < (before + 1) * 10 ^ length digits.now }
{
    let mut value = before;
    for digit in digits {
        value = value * 10 + u128::from(*digit - b'0');
    }
    value
}

/// So many smallest units of a type.
fn number_in(quantity: Quantity, units: i64) -> Number
    ensures { result ≡ number_in quantity units }
{
    match quantity {
        Quantity::Float => Number::Float(units),
        Quantity::Percent => Number::Percent(units),
        Quantity::Length => Number::Length(units),
        Quantity::Duration => Number::Duration(units),
        Quantity::Angle => Number::Angle(units),
    }
}

/// So many smallest units of a type, unless they are too many for it.
fn within_type(quantity: Quantity, units: u128) -> Option<Number>
    ensures { result ≡ within_type quantity units }
{
    if units > LIM as u128 {
        return None;
    }
    Some(number_in(quantity, units as i64))
}

/// What digits are worth of which `places` stand behind the point, in a unit.
fn measured(digits: u128, places: usize, measure: Measure) -> Option<Number>
    requires few { digits < 10 ^ 30 }
    requires short { places ≤ 30 }
    requires factor { measure.factor ≤ 9600000 }
    requires some { 0 < measure.divisor }
    requires divisor { measure.divisor ≤ 254 }
    ensures { result ≡ measured digits places measure }
{
    let exact = digits * u128::from(measure.factor);
    let divisor = u128::from(measure.divisor) * 10u128.pow(places as u32);
    within_type(measure.quantity, (2 * exact + divisor) / (2 * divisor))
}

/// Digits without a point or a unit, up to the greatest int.
fn plain_number(digits: u128) -> Number
    requires { digits ≤ 2147483647 }
    ensures { result ≡ plain_number digits }
{
    if digits == 0 {
        Number::Zero
    } else {
        Number::Int(digits as i32)
    }
}

/// What digits are worth of which `places` stand behind the point.
fn digits_worth(digits: u128, places: usize, unit: &[u8]) -> Option<Number>
    requires few { digits < 10 ^ 30 }
    requires short { places ≤ 30 }
    ensures { result ≡ digits_worth digits places unit.now }
{
    if places == 0 && unit.is_empty() && digits <= GREATEST_INT {
        return Some(plain_number(digits));
    }
    measured(digits, places, measure_of(unit)?)
}

/// What a number is worth, by its parts.
fn worth(whole: &[u8], fraction: &[u8], unit: &[u8]) -> Option<Number>
    requires whole { IsTrue (list_all is_ascii_digit whole.now) }
    requires fraction { IsTrue (list_all is_ascii_digit fraction.now) }
    ensures { result ≡ worth whole.now fraction.now unit.now }
{
    if whole.len() > MOST_DIGITS || fraction.len() > MOST_DIGITS - whole.len() {
        return None;
    }
    let digits = appended(appended(0, whole), fraction);
    digits_worth(digits, fraction.len(), unit)
}

/// What a number's text is worth: digits, optionally `.` and digits, then optionally `%` or ASCII letters as a unit.
///
/// It is nothing for any other text, for over 30 digits, for an unknown unit, and for what is too great for its type.
pub fn read_number(text: &[u8]) -> Option<Number>
    ensures { result ≡ number_value text.now }
{
    let (whole, behind) = split_digits(text);
    let fraction = behind_point(behind);
    let unit = behind.split_at(pointed_length(fraction)).1;
    if whole.is_empty() || !is_unit(unit) {
        return None;
    }
    worth(whole, fraction, unit)
}

/// How many bytes of a unit lie at the front.
fn unit_length(text: &[u8]) -> usize
    ensures { result ≡ unit_length text.now }
{
    match text.first() {
        Some(b'%') => 1,
        _ => letters_length(text),
    }
}

/// How many ASCII letters lie at the front.
fn letters_length(text: &[u8]) -> usize
    ensures { result ≡ prefix_len is_ascii_alphabetic text.now }
{
    text.iter().take_while(|b| b.is_ascii_alphabetic()).count()
}

/// How many bytes the longest number has that lies at the front of bytes that begin with a digit.
pub fn number_length(text: &[u8]) -> usize
    requires { IsTrue (starts_with_digit text.now) }
    ensures { IsLongestNumber text.now result }
{
    let (whole, behind) = split_digits(text);
    let point = pointed_length(behind_point(behind));
    let unit = behind.split_at(point).1;
    whole.len() + point + unit_length(unit)
}

/// A law, which does nothing when it is called: digits, digits behind a point where there are some, and a unit make a number's text,
/// and that is worth what they are.
pub fn numbers_read()
    ensures { (whole fraction unit : List ℕ) → are_parts whole fraction unit ≡ true → number_value (numeral whole fraction unit) ≡ worth whole fraction unit }
{}
