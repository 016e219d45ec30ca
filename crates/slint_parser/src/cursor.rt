ghost use Rattle.std.specs.Prelude.{◌≡◌, ◌↔◌, IsTrue, drop, MatchResult, IfOk, true};
ghost use Rattle.slint_grammar.specs.Grammar.{Sign, TheWord, AnyName, ANumber, AColour, AText, AHead, AMid, ATail};
ghost use Rattle.slint_grammar.specs.Derivations.{class_of, fits, ident_of, number_of, colour_of, quoted_of};
ghost use Rattle.slint_parser.specs.Readings.{seen_of, seen, stop_at, TakesIf, Misfits, ReadsOne, shows_name, is_piece, Closes, BehindItem};

use crate::stops::{DEEPEST, Seen, Stop};
use slint_base::{End, Memory, Rule, Span};
use slint_grammar::{Word, word_of};
use slint_lexer::{Symbol, Token, TokenKind};
use slint_literals::Number;
use std::marker::Model;
use syntax_tree::{Ident, Quoted};

/// What the grammar looks at in a token.
fn seen_in(kind: &TokenKind) -> Seen
    ensures { result ≡ seen_of (class_of kind.now) }
{
    match kind {
        TokenKind::Id(name) => Seen::Word(word_of(name)),
        TokenKind::Number(_) => Seen::Number,
        TokenKind::Colour(_) => Seen::Colour,
        TokenKind::Str(_) => Seen::Text,
        TokenKind::Head(_) => Seen::Head,
        TokenKind::Mid(_) => Seen::Mid,
        TokenKind::Tail(_) => Seen::Tail,
        TokenKind::Symbol(symbol) => Seen::Symbol(*symbol),
    }
}

/// The tokens that are left.
#[derive(Drop)]
pub struct Cursor<'a> {
    rest: &'a [Token],
}

impl<'a> Model for Cursor<'a> {
    ghost use Rattle.std.specs.Prelude.{List};
    ghost use Rattle.slint_lexer.specs.declared.tokens.Token.{Token as Lexed};

    ghost Value = { List Lexed };

    ghost view = { λ c. c.rest.now };
}

impl<'a> Cursor<'a> {
    pub fn new(rest: &'a [Token]) -> Cursor<'a>
        ensures { result ≡ rest.now }
    {
        Cursor { rest }
    }

    /// What the grammar looks at in the token so many places ahead.
    pub fn ahead(&self, places: usize) -> Seen
        ensures { result ≡ seen (drop places self.now) }
    {
        match self.rest.get(places) {
            Some(token) => seen_in(&token.kind),
            None => Seen::End,
        }
    }

    /// What the grammar looks at in the next token.
    pub fn seen(&self) -> Seen
        ensures { result ≡ seen self.now }
    {
        match self.rest {
            [token, ..] => seen_in(&token.kind),
            [] => Seen::End,
        }
    }

    pub fn shows(&self, wanted: Seen) -> bool
        ensures { IsTrue result ↔ (seen self.now ≡ wanted) }
    {
        self.seen() == wanted
    }

    pub fn shows_ahead(&self, places: usize, wanted: Seen) -> bool
        ensures { IsTrue result ↔ (seen (drop places self.now) ≡ wanted) }
    {
        self.ahead(places) == wanted
    }

    pub fn sees(&self, symbol: Symbol) -> bool
        ensures { IsTrue result ↔ (seen self.now ≡ Seen.Symbol symbol) }
    {
        self.shows(Seen::Symbol(symbol))
    }

    pub fn shows_name(&self) -> bool
        ensures { result ≡ shows_name self.now }
    {
        match self.rest {
            [token, ..] => matches!(token.kind, TokenKind::Id(_)),
            [] => false,
        }
    }

    /// The token so many places ahead can't stand there.
    pub fn refuse_ahead(&self, places: usize, rule: Rule) -> End<Stop>
        ensures { result ≡ End.Fault (stop_at rule (drop places self.now)) }
    {
        match self.rest.len().saturating_sub(places) {
            0 => End::Fault(Stop::AtEnd),
            left => End::Fault(Stop::At(rule, left)),
        }
    }

    /// The next token can't stand here.
    pub fn refuse(&self, rule: Rule) -> End<Stop>
        ensures { result ≡ End.Fault (stop_at rule self.now) }
    {
        match self.rest {
            [] => End::Fault(Stop::AtEnd),
            all => End::Fault(Stop::At(rule, all.len())),
        }
    }

    /// The next token at this depth, where it is what it was asked to be.
    fn take(&mut self, fits: bool, depth: usize) -> Result<&'a Token, End<Stop>>
        ensures { MatchResult result (λ token. TakesIf fits depth self.old token.now self.new) (λ end. Misfits fits depth self.old end) }
    {
        let Some((token, rest)) = self.rest.split_first() else {
            return Err(End::Fault(Stop::AtEnd));
        };
        if !fits {
            return Err(self.refuse(Rule::Syntax));
        }
        if depth > DEEPEST {
            return Err(self.refuse(Rule::TooDeep));
        }
        self.rest = rest;
        Ok(token)
    }

    pub fn symbol(&mut self, symbol: Symbol, depth: usize) -> Result<Span, End<Stop>>
        ensures { ReadsOne (Sign symbol) depth self.old result self.new }
    {
        let fits = self.sees(symbol);
        Ok(self.take(fits, depth)?.span)
    }

    pub fn word(&mut self, word: Word, depth: usize) -> Result<Span, End<Stop>>
        ensures { ReadsOne (TheWord word) depth self.old result self.new }
    {
        let fits = self.shows(Seen::Word(word));
        Ok(self.take(fits, depth)?.span)
    }

    pub fn name(&mut self, depth: usize) -> Result<Ident, End<Stop>>
        ensures { ReadsOne AnyName depth self.old result self.new }
    {
        let fits = self.shows_name();
        let token = self.take(fits, depth)?;
        Ok(ident(token)?)
    }

    pub fn number(&mut self, depth: usize) -> Result<(Number, Span), End<Stop>>
        ensures { ReadsOne ANumber depth self.old result self.new }
    {
        let fits = self.shows(Seen::Number);
        let token = self.take(fits, depth)?;
        Ok((number_in(&token.kind), token.span))
    }

    pub fn colour(&mut self, depth: usize) -> Result<(u32, Span), End<Stop>>
        ensures { ReadsOne AColour depth self.old result self.new }
    {
        let fits = self.shows(Seen::Colour);
        let token = self.take(fits, depth)?;
        Ok((colour_in(&token.kind), token.span))
    }

    pub fn text(&mut self, depth: usize) -> Result<Quoted, End<Stop>>
        ensures { ReadsOne AText depth self.old result self.new }
    {
        let fits = self.shows(Seen::Text);
        let token = self.take(fits, depth)?;
        Ok(quoted(token)?)
    }

    pub fn head(&mut self, depth: usize) -> Result<Quoted, End<Stop>>
        ensures { ReadsOne AHead depth self.old result self.new }
    {
        let fits = self.shows(Seen::Head);
        let token = self.take(fits, depth)?;
        Ok(quoted(token)?)
    }

    pub fn mid(&mut self, depth: usize) -> Result<Quoted, End<Stop>>
        ensures { ReadsOne AMid depth self.old result self.new }
    {
        let fits = self.shows(Seen::Mid);
        let token = self.take(fits, depth)?;
        Ok(quoted(token)?)
    }

    pub fn tail(&mut self, depth: usize) -> Result<Quoted, End<Stop>>
        ensures { ReadsOne ATail depth self.old result self.new }
    {
        let fits = self.shows(Seen::Tail);
        let token = self.take(fits, depth)?;
        Ok(quoted(token)?)
    }

    /// The symbol that closes a list, where it stands here.
    pub fn closes(&mut self, closer: Symbol, depth: usize) -> Result<Option<Span>, End<Stop>>
        ensures { Closes closer depth self.old result self.new }
    {
        if self.sees(closer) {
            Ok(Some(self.symbol(closer, depth)?))
        } else {
            Ok(None)
        }
    }

    /// Behind an item of a list: the symbol that closes it, with or without a comma before, or a comma alone.
    pub fn behind_item(&mut self, closer: Symbol, depth: usize) -> Result<Option<Span>, End<Stop>>
        ensures { BehindItem closer depth self.old result self.new }
    {
        if let Some(end) = self.closes(closer, depth)? {
            return Ok(Some(end));
        }
        self.symbol(Symbol::Comma, depth)?;
        self.closes(closer, depth)
    }
}

/// The name in a token that is one.
fn ident(token: &Token) -> Result<Ident, Memory>
    requires { fits AnyName (class_of token.now.kind) ≡ true }
    ensures { IfOk result (λ made. made ≡ ident_of token.now.kind token.now.span) }
{
    let TokenKind::Id(name) = &token.kind else {
        unreachable!();
    };
    let name = name.copy()?;
    Ok(Ident {
        name,
        span: token.span,
    })
}

fn number_in(kind: &TokenKind) -> Number
    ensures { result ≡ number_of kind.now }
{
    match kind {
        TokenKind::Number(number) => *number,
        _ => Number::Zero,
    }
}

fn colour_in(kind: &TokenKind) -> u32
    ensures { result ≡ colour_of kind.now }
{
    match kind {
        TokenKind::Colour(colour) => *colour,
        _ => 0,
    }
}

/// The text in a token that is a string or a piece of one.
fn quoted(token: &Token) -> Result<Quoted, Memory>
    requires { is_piece (class_of token.now.kind) ≡ true }
    ensures { IfOk result (λ made. made ≡ quoted_of token.now.kind token.now.span) }
{
    let text = match &token.kind {
        TokenKind::Str(text)
        | TokenKind::Head(text)
        | TokenKind::Mid(text)
        | TokenKind::Tail(text) => text.copy()?,
        _ => unreachable!(),
    };
    Ok(Quoted {
        text,
        span: token.span,
    })
}
