ghost use Rattle.std.specs.Prelude.{◌≡◌, ◌<◌, ◌∷◌, ◌++◌, [], ℕ, List, IfOk};
ghost use Rattle.std.specs.Char.{digit_char};
ghost use Rattle.std.specs.Str.{IsUtf8};
ghost use Rattle.slint_literals.specs.Printed.{hexadecimal, printed_byte, printed_text, printed_string};
ghost use Rattle.slint_literals.specs.Steps.{Steps};
ghost use Rattle.slint_literals.specs.Strings.{text_step};

use slint_base::{Memory, Text};

/// The character that writes a digit below 16.
pub(crate) fn digit_char(digit: u8) -> u8
    requires { digit < 16 }
    ensures { result ≡ digit_char digit }
{
    if digit < 10 {
        b'0' + digit
    } else {
        b'a' + (digit - 10)
    }
}

/// Appends a code in lower hexadecimal, without a leading zero.
fn push_hexadecimal(out: &mut Vec<u8>, code: u8) -> Result<(), Memory>
    ensures { IfOk result (λ _. out.new.items ≡ out.old.items ++ hexadecimal code) }
{
    if code >= 16 {
        out.push(digit_char(code / 16))?;
    }
    out.push(digit_char(code % 16))?;
    Ok(())
}

/// Appends a character by its code in braces.
fn push_code(out: &mut Vec<u8>, code: u8) -> Result<(), Memory>
    ensures { IfOk result (λ _. out.new.items ≡ out.old.items ++ (92 ∷ 117 ∷ 123 ∷ (hexadecimal code ++ 125 ∷ []))) }
{
    out.extend_from_slice(b"\\u{")?;
    push_hexadecimal(out, code)?;
    out.push(b'}')?;
    Ok(())
}

/// Appends a byte of a text as it stands inside a printed string.
fn push_byte(out: &mut Vec<u8>, byte: u8) -> Result<(), Memory>
    ensures { IfOk result (λ _. out.new.items ≡ out.old.items ++ printed_byte byte) }
{
    match byte {
        b'"' => out.extend_from_slice(b"\\\"")?,
        b'\\' => out.extend_from_slice(b"\\\\")?,
        b'\n' => out.extend_from_slice(b"\\n")?,
        0..=31 | 127 => push_code(out, byte)?,
        _ => out.push(byte)?,
    }
    Ok(())
}

/// Appends a text as it stands inside a printed string: `\"`, `\\` and `\n` for `"`, `\` and line feed, and `\u{h}` in lower
/// hexadecimal for other characters below U+0020 and for U+007F. After an error some of it may stand there.
pub fn print_text(out: &mut Vec<u8>, text: &str) -> Result<(), Memory>
    ensures { IfOk result (λ _. out.new.items ≡ out.old.items ++ printed_text text.now) }
{
    for byte in text.as_bytes() {
        push_byte(out, *byte)?;
    }
    Ok(())
}

/// Appends a text printed as a string, in quotes. After an error some of it may stand there.
pub fn print_string(out: &mut Vec<u8>, text: &Text) -> Result<(), Memory>
    ensures { IfOk result (λ _. out.new.items ≡ out.old.items ++ printed_string text.now) }
{
    out.push(b'"')?;
    print_text(out, text.as_str())?;
    out.push(b'"')?;
    Ok(())
}

/// A law, which does nothing when it is called: a printed text, whatever stands before and behind it, is read as the text.
pub fn printed_text_reads()
    ensures { (text before behind : List ℕ) → IsUtf8 text → Steps text_step (before, printed_text text ++ behind) (before ++ text, behind) }
{}
