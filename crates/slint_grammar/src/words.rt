ghost use Rattle.std.specs.Prelude.{◌≡◌};
ghost use Rattle.slint_grammar.specs.Derivations.{word_of};

use slint_base::Name;

/// A word of the grammar, which is a name elsewhere.
#[derive(Clone, Copy, PartialEq, Eq)]
pub enum Word {
    As,
    Callback,
    Changed,
    Children,
    Component,
    Else,
    Enum,
    Export,
    For,
    From,
    Function,
    Global,
    If,
    ImageUrl,
    Import,
    In,
    InOut,
    Inherits,
    Out,
    Private,
    Property,
    Protected,
    Public,
    Pure,
    Return,
    States,
    Struct,
    Tr,
    When,
    /// A name that spells none of them.
    Other,
}

/// The word that a name spells.
pub fn word_of(name: &Name) -> Word
    ensures { result ≡ word_of name.now }
{
    match name.as_str() {
        "as" => Word::As,
        "callback" => Word::Callback,
        "changed" => Word::Changed,
        "children" => Word::Children,
        "component" => Word::Component,
        "else" => Word::Else,
        "enum" => Word::Enum,
        "export" => Word::Export,
        "for" => Word::For,
        "from" => Word::From,
        "function" => Word::Function,
        "global" => Word::Global,
        "if" => Word::If,
        "image-url" => Word::ImageUrl,
        "import" => Word::Import,
        "in" => Word::In,
        "in-out" => Word::InOut,
        "inherits" => Word::Inherits,
        "out" => Word::Out,
        "private" => Word::Private,
        "property" => Word::Property,
        "protected" => Word::Protected,
        "public" => Word::Public,
        "pure" => Word::Pure,
        "return" => Word::Return,
        "states" => Word::States,
        "struct" => Word::Struct,
        "tr" => Word::Tr,
        "when" => Word::When,
        _ => Word::Other,
    }
}
