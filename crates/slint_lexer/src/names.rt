ghost use Rattle.std.specs.Prelude.{◌≡◌, true};
ghost use Rattle.slint_literals.specs.Characters.{front_char};
ghost use Rattle.slint_lexer.specs.Found.{part_length, IsWholeName};
ghost use Rattle.slint_lexer.specs.Names.{is_name_start, is_name_part, begins_name, starts_name};

use slint_literals::{char_len, front_char};
use unicode_ident::{is_xid_continue, is_xid_start};

/// Whether a name may begin with the character.
fn is_name_start(ch: char) -> bool
    ensures { result ≡ is_name_start ch }
{
    is_xid_start(ch) || ch == '_'
}

/// Whether a name may go on with the character.
fn is_name_part(ch: char) -> bool
    ensures { result ≡ is_name_part ch }
{
    is_xid_continue(ch) || ch == '-'
}

/// Whether a character begins a name.
fn starts_name(ch: Option<char>) -> bool
    ensures { result ≡ starts_name ch }
{
    match ch {
        Some(ch) => is_name_start(ch),
        None => false,
    }
}

/// Whether the bytes begin with a character that begins a name.
pub(crate) fn begins_name(bytes: &[u8]) -> bool
    ensures { result ≡ begins_name bytes.now }
{
    starts_name(front_char(bytes))
}

/// How many bytes the character at the front has that a name goes on with; none where the name ends.
fn part_length(bytes: &[u8]) -> usize
    ensures { result ≡ part_length (front_char bytes.now) }
{
    match front_char(bytes) {
        Some(ch) if is_name_part(ch) => ch.len_utf8(),
        _ => 0,
    }
}

/// How many bytes the name at the front has.
pub(crate) fn name_length(bytes: &[u8]) -> usize
    requires { begins_name bytes.now ≡ true }
    ensures { IsWholeName bytes.now result }
{
    let mut at = char_len(bytes);
    loop {
        let length = part_length(bytes.split_at(at).1);
        if length == 0 {
            return at;
        }
        at += length;
    }
}
