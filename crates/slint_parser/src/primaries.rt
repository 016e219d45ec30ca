//! Expressions without an operator, and what stands behind them.

ghost use Rattle.std.specs.Prelude.{◌≡◌, ◌≤◌, ◌+◌, ◌⊎◌, true, false, IsTrue};
ghost use Rattle.slint_grammar.specs.Parts as part;
ghost use Rattle.slint_grammar.specs.Parts.{closer as closer_of, begins_struct, may_be_empty, words_at};
ghost use Rattle.slint_grammar.specs.Grammar.{Alt as alts};
ghost use Rattle.slint_grammar.specs.Derivations.{deepest_token};
ghost use Rattle.slint_parser.specs.Readings.{Reads, ReadsBy, ReadsMay, MoreArguments, MoreElements, MoreFieldValues, HolesFrom, suffix_classes, seen, shows_name_but, IsSingle};
ghost use Rattle.slint_parser.specs.Starts.{start_of, Nests};

use crate::cursor::Cursor;
use crate::grammar::Grammar;
use crate::joined::join;
use crate::starts::{Inner, Start};
use crate::stops::{Seen, Stop};
use crate::trees::{postfix, push_expr, push_hole};
use slint_base::{End, Span};
use slint_grammar::Word;
use slint_lexer::Symbol;
use sqlite_items::{Boxed, Items};
use std::alloc::Global;
use syntax_tree::{Expr, FieldValue, Hole, Quoted, Suffix};

fn number_literal(
    alloc: Global,
    cursor: &mut Cursor<'_>,
    depth: usize,
) -> Result<Boxed<Expr>, End<Stop>>
    ensures { (h : part.Start) → ReadsBy (alts.number_literal {h = h}) depth cursor.old result cursor.new }
{
    let (number, span) = cursor.number(depth)?;
    Ok(Boxed::new(alloc, Expr::Number(number, span))?)
}

fn colour_literal(
    alloc: Global,
    cursor: &mut Cursor<'_>,
    depth: usize,
) -> Result<Boxed<Expr>, End<Stop>>
    ensures { (h : part.Start) → ReadsBy (alts.colour_literal {h = h}) depth cursor.old result cursor.new }
{
    let (colour, span) = cursor.colour(depth)?;
    Ok(Boxed::new(alloc, Expr::Colour(colour, span))?)
}

fn text_literal(
    alloc: Global,
    cursor: &mut Cursor<'_>,
    depth: usize,
) -> Result<Boxed<Expr>, End<Stop>>
    ensures { (h : part.Start) → ReadsBy (alts.text_literal {h = h}) depth cursor.old result cursor.new }
{
    let quoted = cursor.text(depth)?;
    let Quoted { text, span } = quoted;
    Ok(Boxed::new(alloc, Expr::Text(text, span))?)
}

/// Whether a name that can begin an expression there is at the front.
fn shows_name(cursor: &Cursor<'_>, start: Start) -> bool
    ensures { result ≡ shows_name_but (words_at (start_of start)) cursor.now }
{
    match cursor.seen() {
        Seen::Word(word) => start.admits(word),
        _ => false,
    }
}

/// Whether a struct literal that can begin an expression there is at the front.
fn shows_struct(cursor: &Cursor<'_>, start: Start) -> bool
    ensures yes { IsTrue result → (begins_struct (start_of start) ≡ true) × (seen cursor.now ≡ Seen.Symbol Symbol.OpenBrace) }
    ensures unless { result ≡ false → (begins_struct (start_of start) ≡ false) ⊎ (seen cursor.now ≡ Seen.Symbol Symbol.OpenBrace → ⊥) }
{
    if start.admits_struct() {
        cursor.sees(Symbol::OpenBrace)
    } else {
        false
    }
}

fn name_alone(
    alloc: Global,
    cursor: &mut Cursor<'_>,
    depth: usize,
) -> Result<Boxed<Expr>, End<Stop>>
    ensures { (h : part.Start) → shows_name_but (words_at h) cursor.old ≡ true → ReadsBy (alts.name_alone {h = h}) depth cursor.old result cursor.new }
{
    let ident = cursor.name(depth)?;
    let span = ident.span;
    Ok(Boxed::new(alloc, Expr::Name(ident, span))?)
}

fn image(alloc: Global, cursor: &mut Cursor<'_>, depth: usize) -> Result<Boxed<Expr>, End<Stop>>
    ensures { (h : part.Start) → ReadsBy (alts.image_url {h = h}) depth cursor.old result cursor.new }
{
    let at = cursor.symbol(Symbol::At, depth)?;
    cursor.word(Word::ImageUrl, depth)?;
    cursor.symbol(Symbol::OpenParen, depth)?;
    let path = cursor.text(depth)?;
    let close = cursor.symbol(Symbol::CloseParen, depth)?;
    Ok(Boxed::new(alloc, Expr::ImageUrl(path, join(at, close)))?)
}

/// The text to be translated, behind its context where one is written.
fn translated(cursor: &mut Cursor<'_>, depth: usize) -> Result<(Option<Quoted>, Quoted), End<Stop>>
    ensures { Reads part.TrText depth cursor.old result cursor.new }
{
    if cursor.shows_ahead(1, Seen::Symbol(Symbol::FatArrow)) {
        return in_context(cursor, depth);
    }
    let text = cursor.text(depth)?;
    Ok((None, text))
}

fn in_context(cursor: &mut Cursor<'_>, depth: usize) -> Result<(Option<Quoted>, Quoted), End<Stop>>
    ensures { ReadsBy alts.tr_context depth cursor.old result cursor.new }
{
    let context = cursor.text(depth)?;
    cursor.symbol(Symbol::FatArrow, depth)?;
    let text = cursor.text(depth)?;
    Ok((Some(context), text))
}

impl<F: Fn(Global, &mut Cursor<'_>, usize, Inner) -> Result<Boxed<Expr>, End<Stop>>> Grammar<F> {
    pub fn postfix(&self, cursor: &mut Cursor<'_>, start: Start) -> Result<Boxed<Expr>, End<Stop>>
        requires nests { Nests self.now.depth (F.pre self.now.inner) (F.post self.now.inner) }
        ensures { Reads (part.Post (start_of start)) self.now.depth cursor.old result cursor.new }
    {
        let first = self.primary(cursor, start)?;
        let suffixes = self.suffixes(cursor)?;
        Ok(postfix(self.alloc, first, suffixes)?)
    }

    fn suffixes(&self, cursor: &mut Cursor<'_>) -> Result<Items<Suffix>, End<Stop>>
        requires nests { Nests self.now.depth (F.pre self.now.inner) (F.post self.now.inner) }
        ensures { Reads part.Suffixes self.now.depth cursor.old result cursor.new }
    {
        let mut all = Items::new(self.alloc);
        'suffixes: while let Some(suffix) = self.may_suffix(cursor)? {
            all.push(suffix)?;
        }
        Ok(all)
    }

    fn may_suffix(&self, cursor: &mut Cursor<'_>) -> Result<Option<Suffix>, End<Stop>>
        requires nests { Nests self.now.depth (F.pre self.now.inner) (F.post self.now.inner) }
        ensures { ReadsMay part.Suffix suffix_classes self.now.depth cursor.old result cursor.new }
    {
        if cursor.sees(Symbol::Dot) {
            return Ok(Some(self.member(cursor)?));
        }
        if cursor.sees(Symbol::OpenParen) {
            return Ok(Some(self.call(cursor)?));
        }
        if cursor.sees(Symbol::OpenBracket) {
            return Ok(Some(self.index(cursor)?));
        }
        Ok(None)
    }

    fn member(&self, cursor: &mut Cursor<'_>) -> Result<Suffix, End<Stop>>
        ensures { ReadsBy alts.member self.now.depth cursor.old result cursor.new }
    {
        cursor.symbol(Symbol::Dot, self.depth)?;
        let name = cursor.name(self.depth)?;
        Ok(Suffix::Member(name))
    }

    fn call(&self, cursor: &mut Cursor<'_>) -> Result<Suffix, End<Stop>>
        requires nests { Nests self.now.depth (F.pre self.now.inner) (F.post self.now.inner) }
        ensures { ReadsBy alts.call self.now.depth cursor.old result cursor.new }
    {
        let open = cursor.symbol(Symbol::OpenParen, self.depth)?;
        let (arguments, close) = self.listed(cursor, Symbol::CloseParen)?;
        Ok(Suffix::Call(arguments, join(open, close)))
    }

    fn index(&self, cursor: &mut Cursor<'_>) -> Result<Suffix, End<Stop>>
        requires nests { Nests self.now.depth (F.pre self.now.inner) (F.post self.now.inner) }
        ensures { ReadsBy alts.index self.now.depth cursor.old result cursor.new }
    {
        let open = cursor.symbol(Symbol::OpenBracket, self.depth)?;
        let at = self.expr(cursor)?;
        let close = cursor.symbol(Symbol::CloseBracket, self.depth)?;
        Ok(Suffix::Index(at.into_inner(), join(open, close)))
    }

    fn parenthesized(&self, cursor: &mut Cursor<'_>) -> Result<Boxed<Expr>, End<Stop>>
        requires nests { Nests self.now.depth (F.pre self.now.inner) (F.post self.now.inner) }
        ensures { (h : part.Start) → ReadsBy (alts.paren {h = h}) self.now.depth cursor.old result cursor.new }
    {
        let open = cursor.symbol(Symbol::OpenParen, self.depth)?;
        let inner = self.expr(cursor)?;
        let close = cursor.symbol(Symbol::CloseParen, self.depth)?;
        Ok(Boxed::new(self.alloc, Expr::Paren(inner, join(open, close)))?)
    }

    fn array(&self, cursor: &mut Cursor<'_>) -> Result<Boxed<Expr>, End<Stop>>
        requires nests { Nests self.now.depth (F.pre self.now.inner) (F.post self.now.inner) }
        ensures { (h : part.Start) → ReadsBy (alts.array {h = h}) self.now.depth cursor.old result cursor.new }
    {
        let open = cursor.symbol(Symbol::OpenBracket, self.depth)?;
        let (items, close) = self.listed(cursor, Symbol::CloseBracket)?;
        Ok(Boxed::new(self.alloc, Expr::Array(items, join(open, close)))?)
    }

    /// Expressions behind an opening symbol, up to the closing one.
    fn listed(
        &self,
        cursor: &mut Cursor<'_>,
        closer: Symbol,
    ) -> Result<(Items<Expr>, Span), End<Stop>>
        requires nests { Nests self.now.depth (F.pre self.now.inner) (F.post self.now.inner) }
        requires low { self.now.depth ≤ deepest_token }
        ensures arguments { closer_of part.Arguments ≡ closer → Reads (part.Listing part.Arguments) self.now.depth cursor.old result cursor.new }
        ensures elements { closer_of part.Elements ≡ closer → Reads (part.Listing part.Elements) self.now.depth cursor.old result cursor.new }
    {
        let mut all = Items::new(self.alloc);
        if let Some(end) = cursor.closes(closer, self.depth)? {
            return Ok((all, end));
        }
        let first = self.expr(cursor)?;
        push_expr(&mut all, first)?;
        self.more(cursor, all, closer)
    }

    /// Further expressions behind those of a list that were read, up to the closing symbol.
    fn more(
        &self,
        cursor: &mut Cursor<'_>,
        mut all: Items<Expr>,
        closer: Symbol,
    ) -> Result<(Items<Expr>, Span), End<Stop>>
        requires nests { Nests self.now.depth (F.pre self.now.inner) (F.post self.now.inner) }
        ensures arguments { closer_of part.Arguments ≡ closer → MoreArguments self.now.depth all cursor.old result cursor.new }
        ensures elements { closer_of part.Elements ≡ closer → MoreElements self.now.depth all cursor.old result cursor.new }
    {
        'items: loop {
            if let Some(end) = cursor.behind_item(closer, self.depth)? {
                return Ok((all, end));
            }
            let item = self.expr(cursor)?;
            push_expr(&mut all, item)?;
        }
    }

    fn field_value(&self, cursor: &mut Cursor<'_>) -> Result<FieldValue, End<Stop>>
        requires nests { Nests self.now.depth (F.pre self.now.inner) (F.post self.now.inner) }
        ensures { Reads part.FieldValue self.now.depth cursor.old result cursor.new }
    {
        let name = cursor.name(self.depth)?;
        cursor.symbol(Symbol::Colon, self.depth)?;
        let value = self.expr(cursor)?;
        Ok(FieldValue {
            name,
            value: value.into_inner(),
        })
    }

    /// Further fields behind those of a struct literal that were read, up to the closing brace.
    fn more_fields(
        &self,
        cursor: &mut Cursor<'_>,
        mut all: Items<FieldValue>,
    ) -> Result<(Items<FieldValue>, Span), End<Stop>>
        requires nests { Nests self.now.depth (F.pre self.now.inner) (F.post self.now.inner) }
        ensures { MoreFieldValues self.now.depth all cursor.old result cursor.new }
    {
        'fields: loop {
            if let Some(end) = cursor.behind_item(Symbol::CloseBrace, self.depth)? {
                return Ok((all, end));
            }
            let field = self.field_value(cursor)?;
            all.push(field)?;
        }
    }

    fn struct_literal(
        &self,
        cursor: &mut Cursor<'_>,
        start: Start,
    ) -> Result<Boxed<Expr>, End<Stop>>
        requires nests { Nests self.now.depth (F.pre self.now.inner) (F.post self.now.inner) }
        requires may { begins_struct (start_of start) ≡ true }
        ensures { ReadsBy (alts.struct {h = start_of start}) self.now.depth cursor.old result cursor.new }
    {
        let open = cursor.symbol(Symbol::OpenBrace, self.depth)?;
        let (fields, close) = self.struct_fields(cursor, start)?;
        Ok(Boxed::new(self.alloc, Expr::Struct(fields, join(open, close)))?)
    }

    fn struct_fields(
        &self,
        cursor: &mut Cursor<'_>,
        start: Start,
    ) -> Result<(Items<FieldValue>, Span), End<Stop>>
        requires nests { Nests self.now.depth (F.pre self.now.inner) (F.post self.now.inner) }
        ensures { Reads (part.StructFields (start_of start)) self.now.depth cursor.old result cursor.new }
    {
        if !start.admits_empty_struct() {
            return self.some_fields(cursor);
        }
        if cursor.sees(Symbol::CloseBrace) {
            return self.no_fields(cursor);
        }
        self.some_fields(cursor)
    }

    fn no_fields(&self, cursor: &mut Cursor<'_>) -> Result<(Items<FieldValue>, Span), End<Stop>>
        ensures { (h : part.Start) → may_be_empty h ≡ true → ReadsBy (alts.no_fields {h = h}) self.now.depth cursor.old result cursor.new }
    {
        let end = cursor.symbol(Symbol::CloseBrace, self.depth)?;
        Ok((Items::new(self.alloc), end))
    }

    fn some_fields(&self, cursor: &mut Cursor<'_>) -> Result<(Items<FieldValue>, Span), End<Stop>>
        requires nests { Nests self.now.depth (F.pre self.now.inner) (F.post self.now.inner) }
        ensures { (h : part.Start) → ReadsBy (alts.some_fields {h = h}) self.now.depth cursor.old result cursor.new }
    {
        let field = self.field_value(cursor)?;
        let mut all = Items::new(self.alloc);
        all.push(field)?;
        self.more_fields(cursor, all)
    }

    fn template(&self, cursor: &mut Cursor<'_>) -> Result<Boxed<Expr>, End<Stop>>
        requires nests { Nests self.now.depth (F.pre self.now.inner) (F.post self.now.inner) }
        ensures { (h : part.Start) → ReadsBy (alts.template {h = h}) self.now.depth cursor.old result cursor.new }
    {
        let head = cursor.head(self.depth)?;
        let first = self.expr(cursor)?;
        let (holes, end) = self.holes(cursor, first)?;
        let span = join(head.span, end);
        Ok(Boxed::new(self.alloc, Expr::Template(head.text, holes, span))?)
    }

    /// The holes of a string, from the text behind the first one's expression on.
    fn holes(
        &self,
        cursor: &mut Cursor<'_>,
        first: Boxed<Expr>,
    ) -> Result<(Items<Hole>, Span), End<Stop>>
        requires nests { Nests self.now.depth (F.pre self.now.inner) (F.post self.now.inner) }
        ensures { HolesFrom self.now.depth first cursor.old result cursor.new }
    {
        let mut all = Items::new(self.alloc);
        let mut value = first;
        'holes: while cursor.shows(Seen::Mid) {
            let behind = cursor.mid(self.depth)?;
            push_hole(&mut all, value, behind)?;
            value = self.expr(cursor)?;
        }
        let behind = cursor.tail(self.depth)?;
        let end = behind.span;
        push_hole(&mut all, value, behind)?;
        Ok((all, end))
    }

    fn special(&self, cursor: &mut Cursor<'_>) -> Result<Boxed<Expr>, End<Stop>>
        requires nests { Nests self.now.depth (F.pre self.now.inner) (F.post self.now.inner) }
        ensures { (h : part.Start) → seen cursor.old ≡ Seen.Symbol Symbol.At → Reads (part.Prim h) self.now.depth cursor.old result cursor.new }
    {
        if cursor.shows_ahead(1, Seen::Word(Word::ImageUrl)) {
            return image(self.alloc, cursor, self.depth);
        }
        self.translation(cursor)
    }

    fn translation(&self, cursor: &mut Cursor<'_>) -> Result<Boxed<Expr>, End<Stop>>
        requires nests { Nests self.now.depth (F.pre self.now.inner) (F.post self.now.inner) }
        ensures { (h : part.Start) → ReadsBy (alts.tr {h = h}) self.now.depth cursor.old result cursor.new }
    {
        let at = cursor.symbol(Symbol::At, self.depth)?;
        cursor.word(Word::Tr, self.depth)?;
        cursor.symbol(Symbol::OpenParen, self.depth)?;
        let (context, text) = translated(cursor, self.depth)?;
        let (arguments, close) = self.more(cursor, Items::new(self.alloc), Symbol::CloseParen)?;
        Ok(Boxed::new(
            self.alloc,
            Expr::Tr(context, text, arguments, join(at, close)),
        )?)
    }

    fn primary(&self, cursor: &mut Cursor<'_>, start: Start) -> Result<Boxed<Expr>, End<Stop>>
        requires nests { Nests self.now.depth (F.pre self.now.inner) (F.post self.now.inner) }
        ensures { Reads (part.Prim (start_of start)) self.now.depth cursor.old result cursor.new }
    {
        if cursor.sees(Symbol::OpenParen) {
            return self.parenthesized(cursor);
        }
        if cursor.sees(Symbol::OpenBracket) {
            return self.array(cursor);
        }
        if cursor.sees(Symbol::At) {
            return self.special(cursor);
        }
        if cursor.shows(Seen::Head) {
            return self.template(cursor);
        }
        if shows_struct(cursor, start) {
            return self.struct_literal(cursor, start);
        }
        self.single(cursor, start)
    }

    /// An expression of one token.
    fn single(&self, cursor: &mut Cursor<'_>, start: Start) -> Result<Boxed<Expr>, End<Stop>>
        ensures { IsSingle (start_of start) cursor.old → Reads (part.Prim (start_of start)) self.now.depth cursor.old result cursor.new }
    {
        if cursor.shows(Seen::Text) {
            return text_literal(self.alloc, cursor, self.depth);
        }
        if cursor.shows(Seen::Colour) {
            return colour_literal(self.alloc, cursor, self.depth);
        }
        if shows_name(cursor, start) {
            return name_alone(self.alloc, cursor, self.depth);
        }
        number_literal(self.alloc, cursor, self.depth)
    }
}
