//! What each token does while a whole-number goal is read.
ghost use Rattle.std.specs.Prelude.{◌≡◌, ℕ, ◌<◌, ◌∷◌, List, length, IfOk, Some};
ghost use Rattle.ll_parser.specs.Grammar.{by_plus, by_minus, by_less, by_most};
ghost use Rattle.ll_parser.specs.Flat.{plain, led, lead_want, item_want, item, multiply, add as add_operand, test, take_product, take_both, after_plain};
ghost use Rattle.ll_parser.specs.Flat.{after_word, after_led, after_item, close_number, end_expression, flat_step};
ghost use Rattle.ll_parser.specs.Nodes.{build_raw, raw_trees};
ghost use Rattle.ll_parser.specs.Seen.{node_of, HasPartsBelow};
ghost use Rattle.ll_parser.specs.Symbols.{symbol_tok};
ghost use Rattle.ll_parser.specs.Waiting.{word_view, tree, waiting, args_from, waiting_below, pushed, IsSound, FitsBelow, IsNode, CanWait, Grows, Gives};

use crate::formulas::Mode;
use crate::symbols::Symbol;
use crate::waiting::{Frame, Waiting, Word, named, newest};
use crate::{RawAt, RawNode, SumOp, TestOp};
use ll_bank::OutOfMemory;
use ll_lexer::Place;

impl Waiting {
    // Puts a frame on, behind which a unit of an expression is read.
    fn want_unit(&mut self, frame: Frame) -> Result<Option<Mode>, OutOfMemory>
        requires { CanWait self.old frame }
        ensures gives { IfOk result (λ o. Gives self.new o (λ texts. Some (item_want (pushed texts self.old frame)))) }
        ensures grows { IfOk result (λ _. Grows self.old.forms self.new.forms) }
    {
        self.push(frame)?;
        Ok(Some(Mode::Unit))
    }

    // Puts a frame on, behind which a unit of the left side of a comparison is read.
    fn want_lead_unit(&mut self, frame: Frame) -> Result<Option<Mode>, OutOfMemory>
        requires { CanWait self.old frame }
        ensures gives { IfOk result (λ o. Gives self.new o (λ texts. Some (lead_want (pushed texts self.old frame)))) }
        ensures grows { IfOk result (λ _. Grows self.old.forms self.new.forms) }
    {
        self.push(frame)?;
        Ok(Some(Mode::LeadUnit))
    }

    /// `_` or a number with which a formula begins.
    pub fn plain(&mut self, at: Place, node: RawNode<'_>) -> Result<Option<Mode>, OutOfMemory>
        requires fits { IsSound self.old }
        requires parts { HasPartsBelow (length self.old.forms) node }
        ensures gives { IfOk result (λ o. Gives self.new o
            (λ texts. Some (plain (build_raw texts (raw_trees texts self.old.forms) (node_of at node.entry))
            (waiting texts self.old)))) }
        ensures grows { IfOk result (λ _. Grows self.old.forms self.new.forms) }
    {
        let unit = self.add(at, node)?;
        Ok(Some(Mode::Plain(unit)))
    }

    /// The token behind a plain term with which a formula begins: the sign of a whole-number goal or of an expression.
    pub fn after_plain(&mut self, unit: RawAt, symbol: Symbol) -> Result<Option<Mode>, OutOfMemory>
        requires fits { IsSound self.old }
        requires unit { IsNode self.old unit }
        ensures gives { IfOk result (λ o. Gives self.new o (λ texts.
            after_plain (tree texts self.old unit) (waiting texts self.old) (symbol_tok texts symbol))) }
        ensures grows { IfOk result (λ _. Grows self.old.forms self.new.forms) }
    {
        match symbol {
            Symbol::Star(at) => self.want_lead_unit(Frame::Product(at, unit)),
            Symbol::Plus(at) => self.want_lead_unit(Frame::Sum(SumOp::Plus, at, unit)),
            Symbol::Minus(at) => self.want_lead_unit(Frame::Sum(SumOp::Minus, at, unit)),
            Symbol::Less(at) => self.want_unit(Frame::Comparison(TestOp::Less, at, unit)),
            Symbol::Most(at) => self.want_unit(Frame::Comparison(TestOp::Most, at, unit)),
            Symbol::Is(at) => self.want_unit(Frame::Is(at, unit)),
            _ => Ok(None),
        }
    }

    /// The same behind an atom, which is a plain term only where it has no arguments.
    pub fn after_word(
        &mut self,
        word: Word,
        from: usize,
        symbol: Symbol,
    ) -> Result<Option<Mode>, OutOfMemory>
        requires { FitsBelow self.old from }
        ensures gives { IfOk result (λ o. Gives self.new o
            (λ texts. after_word (word_view texts word) (args_from texts self.old from)
            (waiting_below texts self.old from) (symbol_tok texts symbol))) }
        ensures grows { IfOk result (λ _. Grows self.old.forms self.new.forms) }
    {
        if self.args.len() == from {
            let unit = self.finish_head(named(word), from)?;
            self.after_plain(unit, symbol)
        } else {
            Ok(None)
        }
    }

    // A unit of the left side of a comparison.
    fn lead(&mut self, at: Place, node: RawNode<'_>) -> Result<Option<Mode>, OutOfMemory>
        requires fits { IsSound self.old }
        requires parts { HasPartsBelow (length self.old.forms) node }
        ensures gives { IfOk result (λ o. Gives self.new o
            (λ texts. Some (led (build_raw texts (raw_trees texts self.old.forms) (node_of at node.entry))
            (waiting texts self.old)))) }
        ensures grows { IfOk result (λ _. Grows self.old.forms self.new.forms) }
    {
        let unit = self.add(at, node)?;
        Ok(Some(Mode::Lead(unit)))
    }

    /// The first token of a unit of the left side of a comparison.
    pub fn begin_lead_unit(&mut self, symbol: Symbol) -> Result<Option<Mode>, OutOfMemory>
        requires { IsSound self.old }
        ensures gives { IfOk result (λ o. Gives self.new o (λ texts. flat_step (lead_want (waiting texts self.old))
            (symbol_tok texts symbol))) }
        ensures grows { IfOk result (λ _. Grows self.old.forms self.new.forms) }
    {
        match symbol {
            Symbol::Name(name) => self.lead(name.at, RawNode::Head(name, &[])),
            Symbol::Variable(name) => self.lead(name.at, RawNode::Head(name, &[])),
            Symbol::Any(at) => self.lead(at, RawNode::Any),
            Symbol::Number(at, value) => self.lead(at, RawNode::Int(value)),
            Symbol::ParenLeft(_) => self.want_unit(Frame::LeadGroup),
            _ => Ok(None),
        }
    }

    // The sign `*` in the left side of a comparison.
    fn multiply_lead(&mut self, at: Place, unit: RawAt) -> Result<Option<Mode>, OutOfMemory>
        requires fits { IsSound self.old }
        requires unit { IsNode self.old unit }
        ensures gives { IfOk result (λ o. Gives self.new o (λ texts.
            multiply lead_want at (take_product (tree texts self.old unit) (waiting texts self.old)))) }
        ensures grows { IfOk result (λ _. Grows self.old.forms self.new.forms) }
    {
        let left = self.take_product(unit)?;
        self.want_lead_unit(Frame::Product(at, left))
    }

    // The sign of a sum in the left side of a comparison.
    fn add_lead(&mut self, op: SumOp, at: Place, unit: RawAt) -> Result<Option<Mode>, OutOfMemory>
        requires fits { IsSound self.old }
        requires unit { IsNode self.old unit }
        ensures gives { IfOk result (λ o. Gives self.new o (λ texts.
            add_operand lead_want op at (take_both (tree texts self.old unit) (waiting texts self.old)))) }
        ensures grows { IfOk result (λ _. Grows self.old.forms self.new.forms) }
    {
        let left = self.take_both(unit)?;
        self.want_lead_unit(Frame::Sum(op, at, left))
    }

    // The sign of a comparison behind its left side.
    fn compare(&mut self, op: TestOp, at: Place, unit: RawAt) -> Result<Option<Mode>, OutOfMemory>
        requires fits { IsSound self.old }
        requires unit { IsNode self.old unit }
        ensures gives { IfOk result (λ o. Gives self.new o
            (λ texts. test op at (take_both (tree texts self.old unit) (waiting texts self.old)))) }
        ensures grows { IfOk result (λ _. Grows self.old.forms self.new.forms) }
    {
        let left = self.take_both(unit)?;
        self.want_unit(Frame::Comparison(op, at, left))
    }

    /// The token behind a unit of the left side of a comparison.
    pub fn after_lead(&mut self, unit: RawAt, symbol: Symbol) -> Result<Option<Mode>, OutOfMemory>
        requires fits { IsSound self.old }
        requires unit { IsNode self.old unit }
        ensures gives { IfOk result (λ o. Gives self.new o
            (λ texts. after_led (tree texts self.old unit) (waiting texts self.old) (symbol_tok texts symbol))) }
        ensures grows { IfOk result (λ _. Grows self.old.forms self.new.forms) }
    {
        match symbol {
            Symbol::Star(at) => self.multiply_lead(at, unit),
            Symbol::Plus(at) => self.add_lead(SumOp::Plus, at, unit),
            Symbol::Minus(at) => self.add_lead(SumOp::Minus, at, unit),
            Symbol::Less(at) => self.compare(TestOp::Less, at, unit),
            Symbol::Most(at) => self.compare(TestOp::Most, at, unit),
            _ => Ok(None),
        }
    }

    // A unit of any other expression.
    fn unit(&mut self, at: Place, node: RawNode<'_>) -> Result<Option<Mode>, OutOfMemory>
        requires fits { IsSound self.old }
        requires parts { HasPartsBelow (length self.old.forms) node }
        ensures gives { IfOk result (λ o. Gives self.new o
            (λ texts. Some (item (build_raw texts (raw_trees texts self.old.forms) (node_of at node.entry))
            (waiting texts self.old)))) }
        ensures grows { IfOk result (λ _. Grows self.old.forms self.new.forms) }
    {
        let unit = self.add(at, node)?;
        Ok(Some(Mode::Expression(unit)))
    }

    /// The first token of a unit of any other expression.
    pub fn begin_unit(&mut self, symbol: Symbol) -> Result<Option<Mode>, OutOfMemory>
        requires { IsSound self.old }
        ensures gives { IfOk result (λ o. Gives self.new o (λ texts. flat_step (item_want (waiting texts self.old))
            (symbol_tok texts symbol))) }
        ensures grows { IfOk result (λ _. Grows self.old.forms self.new.forms) }
    {
        match symbol {
            Symbol::Name(name) => self.unit(name.at, RawNode::Head(name, &[])),
            Symbol::Variable(name) => self.unit(name.at, RawNode::Head(name, &[])),
            Symbol::Any(at) => self.unit(at, RawNode::Any),
            Symbol::Number(at, value) => self.unit(at, RawNode::Int(value)),
            Symbol::ParenLeft(_) => self.want_unit(Frame::NumberGroup),
            _ => Ok(None),
        }
    }

    // The sign `*` in any other expression.
    fn multiply_unit(&mut self, at: Place, unit: RawAt) -> Result<Option<Mode>, OutOfMemory>
        requires fits { IsSound self.old }
        requires unit { IsNode self.old unit }
        ensures gives { IfOk result (λ o. Gives self.new o (λ texts.
            multiply item_want at (take_product (tree texts self.old unit) (waiting texts self.old)))) }
        ensures grows { IfOk result (λ _. Grows self.old.forms self.new.forms) }
    {
        let left = self.take_product(unit)?;
        self.want_unit(Frame::Product(at, left))
    }

    // The sign of a sum in any other expression.
    fn add_unit(&mut self, op: SumOp, at: Place, unit: RawAt) -> Result<Option<Mode>, OutOfMemory>
        requires fits { IsSound self.old }
        requires unit { IsNode self.old unit }
        ensures gives { IfOk result (λ o. Gives self.new o (λ texts.
            add_operand item_want op at (take_both (tree texts self.old unit) (waiting texts self.old)))) }
        ensures grows { IfOk result (λ _. Grows self.old.forms self.new.forms) }
    {
        let left = self.take_both(unit)?;
        self.want_unit(Frame::Sum(op, at, left))
    }

    /// The token behind a unit of any other expression: one of its signs, or what ends it.
    pub fn after_unit(&mut self, unit: RawAt, symbol: Symbol) -> Result<Option<Mode>, OutOfMemory>
        requires fits { IsSound self.old }
        requires unit { IsNode self.old unit }
        ensures gives { IfOk result (λ o. Gives self.new o (λ texts.
            after_item (tree texts self.old unit) (waiting texts self.old) (symbol_tok texts symbol))) }
        ensures grows { IfOk result (λ _. Grows self.old.forms self.new.forms) }
    {
        match symbol {
            Symbol::Star(at) => self.multiply_unit(at, unit),
            Symbol::Plus(at) => self.add_unit(SumOp::Plus, at, unit),
            Symbol::Minus(at) => self.add_unit(SumOp::Minus, at, unit),
            _ => {
                let expression = self.take_both(unit)?;
                self.end_expression(expression, symbol)
            }
        }
    }

    // The token behind a whole expression: what follows its goal, or the bracket that closes round it.
    fn end_expression(
        &mut self,
        expression: RawAt,
        symbol: Symbol,
    ) -> Result<Option<Mode>, OutOfMemory>
        requires fits { IsSound self.old }
        requires expression { IsNode self.old expression }
        ensures gives { IfOk result (λ o. Gives self.new o (λ texts.
            end_expression (tree texts self.old expression) (waiting texts self.old) (symbol_tok texts symbol))) }
        ensures grows { IfOk result (λ _. Grows self.old.forms self.new.forms) }
    {
        match self.goal(expression)? {
            Some(goal) => self.after_operand(goal, symbol),
            None => Ok(self.close_number(expression, symbol)),
        }
    }

    // `)` behind an expression.
    fn close_number(&mut self, expression: RawAt, symbol: Symbol) -> Option<Mode>
        requires fits { IsSound self.old }
        requires expression { IsNode self.old expression }
        ensures gives { Gives self.new result (λ texts. close_number (tree texts self.old expression)
            (waiting texts self.old) (symbol_tok texts symbol)) }
        ensures grows { Grows self.old.forms self.new.forms }
    {
        match newest(&self.frames) {
            None => None,
            Some(frame) => match frame {
                Frame::NumberGroup => match symbol {
                    Symbol::ParenRight(_) => {
                        self.drop_newest();
                        Some(Mode::Expression(expression))
                    }
                    _ => None,
                },
                Frame::LeadGroup => match symbol {
                    Symbol::ParenRight(_) => {
                        self.drop_newest();
                        Some(Mode::Lead(expression))
                    }
                    _ => None,
                },
                _ => None,
            },
        }
    }
}
