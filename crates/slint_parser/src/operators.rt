//! Expressions, from those with the weakest operators down to those that a prefix operator begins.

ghost use Rattle.std.specs.Prelude.{◌≡◌, ◌≤◌, List};
ghost use Rattle.slint_grammar.specs.Parts as part;
ghost use Rattle.slint_grammar.specs.Grammar.{Alt as alts};
ghost use Rattle.slint_grammar.specs.Derivations.{deepest_token};
ghost use Rattle.slint_parser.specs.Readings.{Reads, ReadsBy, ReadsOnto, LooksUp, comparison_classes, sum_classes, product_classes, prefix_classes};
ghost use Rattle.slint_parser.specs.Starts.{start_of, Nests};

use crate::cursor::Cursor;
use crate::grammar::Grammar;
use crate::starts::{Inner, Start};
use crate::stops::{Seen, Stop};
use crate::trees::{chain, may_choose, one_operand, prefix, push_operand};
use slint_base::End;
use slint_lexer::Symbol;
use sqlite_items::{Boxed, Items};
use std::alloc::Global;
use syntax_tree::{BinaryOp, Expr, Operand, PrefixOp};

fn compare_op(seen: Seen) -> Option<(Symbol, BinaryOp)>
    ensures { LooksUp part.CompareOp (λ op span. op) comparison_classes seen result }
{
    match seen {
        Seen::Symbol(Symbol::EqualEqual) => Some((Symbol::EqualEqual, BinaryOp::Equal)),
        Seen::Symbol(Symbol::NotEqual) => Some((Symbol::NotEqual, BinaryOp::NotEqual)),
        Seen::Symbol(Symbol::Less) => Some((Symbol::Less, BinaryOp::Less)),
        Seen::Symbol(Symbol::LessEqual) => Some((Symbol::LessEqual, BinaryOp::LessEqual)),
        Seen::Symbol(Symbol::Greater) => Some((Symbol::Greater, BinaryOp::Greater)),
        Seen::Symbol(Symbol::GreaterEqual) => Some((Symbol::GreaterEqual, BinaryOp::GreaterEqual)),
        _ => None,
    }
}

fn sum_op(seen: Seen) -> Option<(Symbol, BinaryOp)>
    ensures { LooksUp part.SumOp (λ op span. op) sum_classes seen result }
{
    match seen {
        Seen::Symbol(Symbol::Plus) => Some((Symbol::Plus, BinaryOp::Add)),
        Seen::Symbol(Symbol::Minus) => Some((Symbol::Minus, BinaryOp::Sub)),
        _ => None,
    }
}

fn product_op(seen: Seen) -> Option<(Symbol, BinaryOp)>
    ensures { LooksUp part.ProdOp (λ op span. op) product_classes seen result }
{
    match seen {
        Seen::Symbol(Symbol::Star) => Some((Symbol::Star, BinaryOp::Mul)),
        Seen::Symbol(Symbol::Slash) => Some((Symbol::Slash, BinaryOp::Div)),
        _ => None,
    }
}

fn prefix_op(seen: Seen) -> Option<(Symbol, PrefixOp)>
    ensures { LooksUp part.PrefixOp (λ op span. (op, span)) prefix_classes seen result }
{
    match seen {
        Seen::Symbol(Symbol::Bang) => Some((Symbol::Bang, PrefixOp::Not)),
        Seen::Symbol(Symbol::Minus) => Some((Symbol::Minus, PrefixOp::Minus)),
        Seen::Symbol(Symbol::Plus) => Some((Symbol::Plus, PrefixOp::Plus)),
        _ => None,
    }
}

impl<F: Fn(Global, &mut Cursor<'_>, usize, Inner) -> Result<Boxed<Expr>, End<Stop>>> Grammar<F> {
    pub fn whole(&self, cursor: &mut Cursor<'_>, start: Start) -> Result<Boxed<Expr>, End<Stop>>
        requires nests { Nests self.now.depth (F.pre self.now.inner) (F.post self.now.inner) }
        ensures { Reads (part.Expr (start_of start)) self.now.depth cursor.old result cursor.new }
    {
        let condition = self.logic(cursor, start)?;
        let branches = self.may_branch(cursor)?;
        Ok(may_choose(self.alloc, condition, branches)?)
    }

    /// The branches of a choice, where a question mark stands.
    fn may_branch(
        &self,
        cursor: &mut Cursor<'_>,
    ) -> Result<Option<(Boxed<Expr>, Boxed<Expr>)>, End<Stop>>
        requires nests { Nests self.now.depth (F.pre self.now.inner) (F.post self.now.inner) }
        ensures { Reads part.MayChoice self.now.depth cursor.old result cursor.new }
    {
        if cursor.sees(Symbol::Question) {
            self.branches(cursor)
        } else {
            Ok(None)
        }
    }

    fn branches(
        &self,
        cursor: &mut Cursor<'_>,
    ) -> Result<Option<(Boxed<Expr>, Boxed<Expr>)>, End<Stop>>
        requires nests { Nests self.now.depth (F.pre self.now.inner) (F.post self.now.inner) }
        ensures { ReadsBy alts.choice self.now.depth cursor.old result cursor.new }
    {
        cursor.symbol(Symbol::Question, self.depth)?;
        let yes = self.expr(cursor)?;
        cursor.symbol(Symbol::Colon, self.depth)?;
        let no = self.expr(cursor)?;
        Ok(Some((yes, no)))
    }

    fn logic(&self, cursor: &mut Cursor<'_>, start: Start) -> Result<Boxed<Expr>, End<Stop>>
        requires nests { Nests self.now.depth (F.pre self.now.inner) (F.post self.now.inner) }
        ensures { Reads (part.Logic (start_of start)) self.now.depth cursor.old result cursor.new }
    {
        let first = self.comparison(cursor, start)?;
        let operands = self.logic_rest(cursor)?;
        Ok(chain(self.alloc, first, operands)?)
    }

    fn logic_rest(&self, cursor: &mut Cursor<'_>) -> Result<Items<Operand>, End<Stop>>
        requires nests { Nests self.now.depth (F.pre self.now.inner) (F.post self.now.inner) }
        ensures { Reads part.LogicRest self.now.depth cursor.old result cursor.new }
    {
        if cursor.sees(Symbol::AndAnd) {
            self.conjuncts(cursor)
        } else if cursor.sees(Symbol::OrOr) {
            self.disjuncts(cursor)
        } else {
            Ok(Items::new(self.alloc))
        }
    }

    fn conjuncts(&self, cursor: &mut Cursor<'_>) -> Result<Items<Operand>, End<Stop>>
        requires nests { Nests self.now.depth (F.pre self.now.inner) (F.post self.now.inner) }
        ensures { ReadsBy alts.logic_and self.now.depth cursor.old result cursor.new }
    {
        cursor.symbol(Symbol::AndAnd, self.depth)?;
        let right = self.comparison(cursor, Start::Anywhere)?;
        let first = one_operand(self.alloc, BinaryOp::And, right)?;
        self.more_conjuncts(cursor, first)
    }

    fn more_conjuncts(
        &self,
        cursor: &mut Cursor<'_>,
        first: Items<Operand>,
    ) -> Result<Items<Operand>, End<Stop>>
        requires nests { Nests self.now.depth (F.pre self.now.inner) (F.post self.now.inner) }
        ensures { ReadsOnto part.Ands (λ xs. xs) self.now.depth first cursor.old result cursor.new }
    {
        let mut all = first;
        'more_conjuncts: while cursor.sees(Symbol::AndAnd) {
            cursor.symbol(Symbol::AndAnd, self.depth)?;
            let right = self.comparison(cursor, Start::Anywhere)?;
            push_operand(&mut all, BinaryOp::And, right)?;
        }
        Ok(all)
    }

    fn disjuncts(&self, cursor: &mut Cursor<'_>) -> Result<Items<Operand>, End<Stop>>
        requires nests { Nests self.now.depth (F.pre self.now.inner) (F.post self.now.inner) }
        ensures { ReadsBy alts.logic_or self.now.depth cursor.old result cursor.new }
    {
        cursor.symbol(Symbol::OrOr, self.depth)?;
        let right = self.comparison(cursor, Start::Anywhere)?;
        let first = one_operand(self.alloc, BinaryOp::Or, right)?;
        self.more_disjuncts(cursor, first)
    }

    fn more_disjuncts(
        &self,
        cursor: &mut Cursor<'_>,
        first: Items<Operand>,
    ) -> Result<Items<Operand>, End<Stop>>
        requires nests { Nests self.now.depth (F.pre self.now.inner) (F.post self.now.inner) }
        ensures { ReadsOnto part.Ors (λ xs. xs) self.now.depth first cursor.old result cursor.new }
    {
        let mut all = first;
        'more_disjuncts: while cursor.sees(Symbol::OrOr) {
            cursor.symbol(Symbol::OrOr, self.depth)?;
            let right = self.comparison(cursor, Start::Anywhere)?;
            push_operand(&mut all, BinaryOp::Or, right)?;
        }
        Ok(all)
    }

    fn comparison(&self, cursor: &mut Cursor<'_>, start: Start) -> Result<Boxed<Expr>, End<Stop>>
        requires nests { Nests self.now.depth (F.pre self.now.inner) (F.post self.now.inner) }
        ensures { Reads (part.Cmp (start_of start)) self.now.depth cursor.old result cursor.new }
    {
        let first = self.sum(cursor, start)?;
        let operands = self.may_compare(cursor)?;
        Ok(chain(self.alloc, first, operands)?)
    }

    fn may_compare(&self, cursor: &mut Cursor<'_>) -> Result<Items<Operand>, End<Stop>>
        requires nests { Nests self.now.depth (F.pre self.now.inner) (F.post self.now.inner) }
        ensures { Reads part.MayCompare self.now.depth cursor.old result cursor.new }
    {
        let Some((symbol, op)) = compare_op(cursor.seen()) else {
            return Ok(Items::new(self.alloc));
        };
        cursor.symbol(symbol, self.depth)?;
        let right = self.sum(cursor, Start::Anywhere)?;
        Ok(one_operand(self.alloc, op, right)?)
    }

    fn sum(&self, cursor: &mut Cursor<'_>, start: Start) -> Result<Boxed<Expr>, End<Stop>>
        requires nests { Nests self.now.depth (F.pre self.now.inner) (F.post self.now.inner) }
        ensures { Reads (part.Sum (start_of start)) self.now.depth cursor.old result cursor.new }
    {
        let first = self.product(cursor, start)?;
        let operands = self.terms(cursor)?;
        Ok(chain(self.alloc, first, operands)?)
    }

    fn terms(&self, cursor: &mut Cursor<'_>) -> Result<Items<Operand>, End<Stop>>
        requires nests { Nests self.now.depth (F.pre self.now.inner) (F.post self.now.inner) }
        ensures { Reads part.SumRest self.now.depth cursor.old result cursor.new }
    {
        let mut all = Items::new(self.alloc);
        'terms: while let Some((symbol, op)) = sum_op(cursor.seen()) {
            cursor.symbol(symbol, self.depth)?;
            let right = self.product(cursor, Start::Anywhere)?;
            push_operand(&mut all, op, right)?;
        }
        Ok(all)
    }

    fn product(&self, cursor: &mut Cursor<'_>, start: Start) -> Result<Boxed<Expr>, End<Stop>>
        requires nests { Nests self.now.depth (F.pre self.now.inner) (F.post self.now.inner) }
        ensures { Reads (part.Prod (start_of start)) self.now.depth cursor.old result cursor.new }
    {
        let first = self.unary(cursor, start)?;
        let operands = self.factors(cursor)?;
        Ok(chain(self.alloc, first, operands)?)
    }

    fn factors(&self, cursor: &mut Cursor<'_>) -> Result<Items<Operand>, End<Stop>>
        requires nests { Nests self.now.depth (F.pre self.now.inner) (F.post self.now.inner) }
        ensures { Reads part.ProdRest self.now.depth cursor.old result cursor.new }
    {
        let mut all = Items::new(self.alloc);
        'factors: while let Some((symbol, op)) = product_op(cursor.seen()) {
            cursor.symbol(symbol, self.depth)?;
            let right = self.unary(cursor, Start::Anywhere)?;
            push_operand(&mut all, op, right)?;
        }
        Ok(all)
    }

    pub fn unary(&self, cursor: &mut Cursor<'_>, start: Start) -> Result<Boxed<Expr>, End<Stop>>
        requires nests { Nests self.now.depth (F.pre self.now.inner) (F.post self.now.inner) }
        ensures { Reads (part.Unary (start_of start)) self.now.depth cursor.old result cursor.new }
    {
        let Some((symbol, op)) = prefix_op(cursor.seen()) else {
            return self.postfix(cursor, start);
        };
        let span = cursor.symbol(symbol, self.depth)?;
        let operand = self.operand(cursor)?;
        Ok(prefix(self.alloc, op, span, operand)?)
    }
}
