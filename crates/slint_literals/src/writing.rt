ghost use Rattle.std.specs.Prelude.{◌≡◌, ◌≤◌, ◌<◌, ◌+◌, ◌/◌, ◌^◌, ◌∷◌, ◌++◌, [], ℕ, List, Some, unsigned_abs, IfOk};
ghost use Rattle.std.specs.Fmt.{decimal};
ghost use Rattle.slint_literals.specs.Numbers.{number_value};
ghost use Rattle.slint_literals.specs.declared.numbers.Number.{Number as Written};
ghost use Rattle.slint_literals.specs.Spelled.{last_digits, spelled_units, spelled_number, spelled_colour, ReadyNumber, IsWorth};

use crate::Number;
use crate::printing::digit_char;
use slint_base::Memory;
use std::alloc::Global;

/// Appends the last digits of a number in a base, `count` of them.
fn push_last_digits(out: &mut Vec<u8>, base: u64, count: usize, n: u64) -> Result<(), Memory>
    requires some { 2 ≤ base }
    requires few { base ≤ 16 }
    ensures { IfOk result (λ _. out.new.items ≡ out.old.items ++ last_digits base count n) }
{
    if count == 0 {
        return Ok(());
    }
    push_last_digits(out, base, count - 1, n / base)?;
    out.push(digit_char((n % base) as u8))?;
    Ok(())
}

/// Appends a number in decimal.
fn push_decimal(alloc: Global, out: &mut Vec<u8>, n: u64) -> Result<(), Memory>
    ensures { IfOk result (λ _. out.new.items ≡ out.old.items ++ decimal n) }
{
    let text = format!(in alloc; "{n}")?;
    out.extend_from_slice(text.as_bytes())?;
    Ok(())
}

/// Appends a number of smallest units of which 10 to the power of `places` make one, with a point and all of the places.
fn push_units(alloc: Global, out: &mut Vec<u8>, places: usize, n: u64) -> Result<(), Memory>
    requires { places ≤ 6 }
    ensures { IfOk result (λ _. out.new.items ≡ out.old.items ++ spelled_units places n) }
{
    push_decimal(alloc, out, n / 10u64.pow(places as u32))?;
    out.push(b'.')?;
    push_last_digits(out, 10, places, n)?;
    Ok(())
}

/// Appends the bytes of a text.
fn push_str(out: &mut Vec<u8>, text: &str) -> Result<(), Memory>
    ensures { IfOk result (λ _. out.new.items ≡ out.old.items ++ text.now) }
{
    out.extend_from_slice(text.as_bytes())?;
    Ok(())
}

/// Appends a number in all decimals of its type and with the unit that has them, so that reading it never rounds. After an error some of
/// it may stand there.
pub fn print_number(alloc: Global, out: &mut Vec<u8>, number: Number) -> Result<(), Memory>
    ensures { IfOk result (λ _. out.new.items ≡ out.old.items ++ spelled_number number) }
{
    match number {
        Number::Zero => push_str(out, "0"),
        Number::Int(n) => push_decimal(alloc, out, u64::from(n.unsigned_abs())),
        Number::Float(n) => push_units(alloc, out, 6, n.unsigned_abs()),
        Number::Percent(n) => {
            push_units(alloc, out, 6, n.unsigned_abs())?;
            push_str(out, "%")
        }
        Number::Length(n) => {
            push_units(alloc, out, 3, n.unsigned_abs())?;
            push_str(out, "px")
        }
        Number::Duration(n) => {
            push_decimal(alloc, out, n.unsigned_abs())?;
            push_str(out, "ms")
        }
        Number::Angle(n) => {
            push_units(alloc, out, 3, n.unsigned_abs())?;
            push_str(out, "deg")
        }
    }
}

/// Appends a colour with all of its digits. After an error some of it may stand there.
pub fn print_colour(out: &mut Vec<u8>, colour: u32) -> Result<(), Memory>
    ensures { IfOk result (λ _. out.new.items ≡ out.old.items ++ spelled_colour colour) }
{
    out.push(b'#')?;
    push_last_digits(out, 16, 8, u64::from(colour))?;
    Ok(())
}

/// A law, which does nothing when it is called: a number that reading can give is written as a number's text that is worth it.
pub fn printed_numbers_read()
    ensures { (n : Written) → ReadyNumber n → IsWorth (spelled_number n) n }
{}

/// A law, which does nothing when it is called: reading gives only numbers that are written as they are read.
pub fn read_numbers_ready()
    ensures { (text : List ℕ) (n : Written) → number_value text ≡ Some n → ReadyNumber n }
{}
