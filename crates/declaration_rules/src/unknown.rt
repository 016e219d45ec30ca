ghost use Rattle.std.specs.Prelude.{◌≡◌};
ghost use Rattle.std.specs.List.{flat_map};
ghost use Rattle.fault_order.specs.Order.{first_of};
ghost use Rattle.declaration_rules.specs.Declarations.{unknown_element, unknown_type, unlisted};

use crate::repeats::broken_if;
use crate::words::Word;
use fault_order::earlier;
use name_index::NameIndex;
use slint_base::{Fault, Rule};
use source_scopes::Scopes;

/// The fault of a name in a file that is that of no type.
fn unknown_type(scopes: &Scopes<'_>, file: usize, word: &Word<'_>) -> Option<Fault>
    ensures { result ≡ first_of (unknown_type scopes.now file word.now) }
{
    let is_type = scopes.is_type_name(file, word.name());
    broken_if(!is_type, Rule::UnknownType, word.span())
}

/// The first of words in a file that is the name of no type.
pub(crate) fn unknown_types(scopes: &Scopes<'_>, file: usize, words: &[Word<'_>]) -> Option<Fault>
    ensures { result ≡ first_of (flat_map (unknown_type scopes.now file) words.now) }
{
    let mut first = None;
    for word in words {
        first = earlier(first, unknown_type(scopes, file, word));
    }
    first
}

/// The fault of a name in a file that is that of no element.
fn unknown_element(scopes: &Scopes<'_>, file: usize, word: &Word<'_>) -> Option<Fault>
    ensures { result ≡ first_of (unknown_element scopes.now file word.now) }
{
    let element = scopes.element(file, word.name());
    broken_if(element.is_none(), Rule::UnknownElement, word.span())
}

/// The first of words in a file that is the name of no element.
pub(crate) fn unknown_elements(
    scopes: &Scopes<'_>,
    file: usize,
    words: &[Word<'_>],
) -> Option<Fault>
    ensures { result ≡ first_of (flat_map (unknown_element scopes.now file) words.now) }
{
    let mut first = None;
    for word in words {
        first = earlier(first, unknown_element(scopes, file, word));
    }
    first
}

/// The fault of a word that is listed for export and isn't among the names of the scope.
fn unlisted(names: &NameIndex, word: &Word<'_>) -> Option<Fault>
    ensures { result ≡ first_of (unlisted names.now word.now) }
{
    broken_if(!names.contains(word.name()), Rule::UnknownName, word.span())
}

/// The first of words that are listed for export and aren't among the names of the scope.
pub(crate) fn first_unlisted(names: &NameIndex, words: &[Word<'_>]) -> Option<Fault>
    ensures { result ≡ first_of (flat_map (unlisted names.now) words.now) }
{
    let mut first = None;
    for word in words {
        first = earlier(first, unlisted(names, word));
    }
    first
}
