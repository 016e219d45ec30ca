ghost use Rattle.std.specs.Prelude.{◌≡◌, ◌^◌, ◌<◌, ◌≤◌, ℕ, List, length, drop};
ghost use Rattle.slint_lexer.specs.Pieces.{bound_of};
ghost use Rattle.slint_lexer.specs.Found.{IsCommentStep, IsCommentWalk, IsLineStep, IsLineWalk};

use slint_literals::char_len;

/// What lies at the front of the inside of a comment that nests.
#[derive(Clone, Copy, Debug, PartialEq, Eq)]
pub(crate) enum Bound {
    /// A further comment begins.
    Opens,
    /// The innermost comment ends.
    Shuts,
    /// A character of so many bytes; of none where no well-formed one lies there.
    Skips(usize),
}

/// What lies at the front of the inside of a comment that nests.
fn bound_of(bytes: &[u8]) -> Bound
    ensures { result ≡ bound_of bytes.now }
{
    match bytes {
        [b'/', b'*', ..] => Bound::Opens,
        [b'*', b'/', ..] => Bound::Shuts,
        _ => Bound::Skips(char_len(bytes)),
    }
}

/// One step inside of `depth` open comments: how many are open behind it, and how many bytes it takes.
fn comment_step(depth: usize, bytes: &[u8]) -> Option<(usize, usize)>
    requires some { 0 < depth }
    requires few { depth < 2 ^ 63 }
    ensures { IsCommentStep depth bytes.now result }
{
    match bound_of(bytes) {
        Bound::Opens => Some((depth + 1, 2)),
        Bound::Shuts => Some((depth - 1, 2)),
        Bound::Skips(0) => None,
        Bound::Skips(length) => Some((depth, length)),
    }
}

/// Walks inside of the comment at the front up to its end, or to where it is broken: how many comments are open there, and how
/// many bytes stand before that.
pub(crate) fn comment_walk(bytes: &[u8]) -> (usize, usize)
    requires { 2 ≤ length bytes.now }
    ensures { IsCommentWalk bytes.now result.0 result.1 }
{
    let mut depth = 1;
    let mut at = 2;
    loop {
        if depth == 0 {
            return (depth, at);
        }
        let Some((next, length)) = comment_step(depth, bytes.split_at(at).1) else {
            return (depth, at);
        };
        depth = next;
        at += length;
    }
}

/// How many bytes the character at the front has that a comment to the line's end goes on with; none where it ends.
fn line_step(bytes: &[u8]) -> usize
    ensures { IsLineStep bytes.now result }
{
    match bytes.first() {
        None | Some(b'\n') => 0,
        Some(_) => char_len(bytes),
    }
}

/// How many bytes the comment to the line's end at the front has.
pub(crate) fn line_walk(bytes: &[u8]) -> usize
    requires { 2 ≤ length bytes.now }
    ensures { IsLineWalk bytes.now result }
{
    let mut at = 2;
    loop {
        let length = line_step(bytes.split_at(at).1);
        if length == 0 {
            return at;
        }
        at += length;
    }
}
