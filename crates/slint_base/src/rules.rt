ghost use Rattle.std.specs.Prelude.{◌≡◌};
ghost use Rattle.slint_base.specs.Rules.{rule_number};

/// A rule that a source can break, under the number by which a refusal names it.
#[derive(Clone, Copy, Debug, PartialEq, Eq)]
pub enum Rule {
    NotUtf8 = 1,
    BadToken = 2,
    BadNumber = 3,
    BadEscape = 4,
    Syntax = 10,
    TooDeep = 11,
    FileMissing = 20,
    ImportLoop = 21,
    NotExported = 22,
    TooManyFiles = 23,
    FileTooLong = 24,
    PathOutside = 25,
    NameTwice = 30,
    UnknownType = 31,
    UnknownElement = 32,
    BaseLoop = 33,
    UnknownName = 34,
    Visibility = 35,
    ChildrenMisplaced = 36,
    GridPlace = 37,
    NoComponent = 38,
    TypeMismatch = 40,
    NoOperator = 41,
    ArgCount = 42,
    NotCallable = 43,
    NotAssignable = 44,
    AliasTypes = 45,
    UnitProduct = 46,
    NotConstant = 47,
    ImpureBinding = 50,
    PureCallsImpure = 51,
    AliasLoop = 60,
    TwoStateLists = 61,
    BindingLoop = 62,
    Recursion = 63,
    TooManyElements = 70,
    RepeaterDepth = 71,
    NotBuilt = 90,
}

impl Rule {
    /// The number by which a refusal names the rule.
    pub fn number(self) -> u8
        ensures { result ≡ rule_number self }
    {
        self as u8
    }
}
