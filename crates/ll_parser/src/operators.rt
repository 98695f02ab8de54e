//! Operands with all that an operator or a closing bracket takes together.
ghost use Rattle.std.specs.Prelude.{◌≡◌, ℕ, ◌<◌, List, [], length, IfOk, IfSome, IfNone, MatchOption, slice_index_or};
ghost use Rattle.ll_parser.specs.declared.waiting.Frame.TheVariants.{Front};
ghost use Rattle.ll_parser.specs.Grammar.{add_sign, star, test_raw};
ghost use Rattle.ll_parser.specs.Flat.{build, take_product, take_sum, take_both};
ghost use Rattle.ll_parser.specs.Raw.{load, cons_raw, sign_raw};
ghost use Rattle.ll_parser.specs.Nodes.{identifier, raw_trees};
ghost use Rattle.ll_parser.specs.Waiting.{tree, waiting, args_from, waiting_below, pending, prefix_view};
ghost use Rattle.ll_parser.specs.Waiting.{prefix_left, IsSound, FitsBelow, IsNode, CanWait, Grows};
ghost use Rattle.ll_parser.specs.Waiting.{ShowsTree, IsBuilt, Popped, Reduced, Gathered, PoppedCell, HasNoCell, TakesNone, EndsWith, PoppedSign, TakesNothing};
ghost use Rattle.ll_parser.specs.Waiting.{IsGoal, HasNoGoal, known};

use crate::waiting::{CONS, Frame, MINUS, PLUS, Prefix, STAR, Waiting, newest, takes};
use crate::{Level, Named, Quantifier, RawAt, RawNode, SumOp, TestOp};
use ll_bank::OutOfMemory;
use ll_lexer::Place;

// The number of a sum's sign among the names.
fn sum_name(op: SumOp) -> u32
    ensures { (texts : List (List ℕ)) → slice_index_or (known texts) result [] ≡ add_sign op }
{
    match op {
        SumOp::Plus => PLUS,
        SumOp::Minus => MINUS,
    }
}

impl Waiting {
    // The load with the arguments that wait from a place on, which wait no more.
    fn finish_load(
        &mut self,
        at: Place,
        name: Named,
        from: usize,
        goal: RawAt,
    ) -> Result<RawAt, OutOfMemory>
        requires fits { FitsBelow self.old from }
        requires goal { IsNode self.old goal }
        ensures gives { IfOk result (λ i. IsBuilt self.old self.new i
            (λ texts. load at (identifier texts name) (args_from texts self.old from) (tree texts self.old goal))
            (λ texts. waiting_below texts self.old from)) }
        ensures grows { IfOk result (λ _. Grows self.old.forms self.new.forms) }
    {
        let args = self.args.as_slice();
        let load = self.forms.add_load(at, name, &args[from..], goal)?;
        self.args.truncate(from);
        Ok(load)
    }

    // The tree of the front of a formula, which was taken off, with the operand that it waited for.
    fn build(&mut self, front: Prefix, operand: RawAt) -> Result<RawAt, OutOfMemory>
        requires front { CanWait self.old (Front front) }
        requires operand { IsNode self.old operand }
        ensures gives { IfOk result (λ i. IsBuilt self.old self.new i
            (λ texts. build (prefix_view texts (raw_trees texts self.old.forms) self.old.args.items front)
            (tree texts self.old operand))
            (λ texts. pending texts self.old.forms (prefix_left self.old.args.items front) self.old.frames.items)) }
        ensures grows { IfOk result (λ _. Grows self.old.forms self.new.forms) }
    {
        match front {
            Prefix::Operator(op, at, left) => self.add(at, RawNode::Binary(op, left, operand)),
            Prefix::Load(at, name, from) => self.finish_load(at, name, from, operand),
            Prefix::Quantifier(Quantifier::Forall, at, name) => {
                self.add(at, RawNode::Forall(name, operand))
            }
            Prefix::Quantifier(Quantifier::Exists, at, name) => {
                self.add(at, RawNode::Exists(name, operand))
            }
        }
    }

    // EndsWith the newest front of a formula off, if the level takes it.
    fn pop(&mut self, level: Level) -> Option<Prefix>
        requires { IsSound self.old }
        ensures none { IfNone result (TakesNone level self.old self.new) }
        ensures some { IfSome result (λ p. Popped level self.old self.new p) }
        ensures grows { Grows self.old.forms self.new.forms }
    {
        match newest(&self.frames) {
            None => None,
            Some(frame) => match frame {
                Frame::Front(front) => {
                    if takes(level, front) {
                        self.drop_newest();
                        Some(front)
                    } else {
                        None
                    }
                }
                _ => None,
            },
        }
    }

    /// EndsWith the operand together with all that the level takes.
    pub fn reduce(&mut self, level: Level, operand: RawAt) -> Result<RawAt, OutOfMemory>
        requires fits { IsSound self.old }
        requires operand { IsNode self.old operand }
        ensures gives { IfOk result (λ i. Reduced level self.old self.new operand i) }
        ensures grows { IfOk result (λ _. Grows self.old.forms self.new.forms) }
    {
        let mut at = operand;
        while let Some(front) = self.pop(level) {
            at = self.build(front, at)?;
        }
        Ok(at)
    }

    // EndsWith the newest cell off, if one is the newest.
    fn pop_cell(&mut self) -> Option<(Place, RawAt)>
        requires { IsSound self.old }
        ensures none { IfNone result (HasNoCell self.old self.new) }
        ensures some { IfSome result (λ cell. PoppedCell self.old self.new cell.0 cell.1) }
        ensures grows { Grows self.old.forms self.new.forms }
    {
        match newest(&self.frames) {
            None => None,
            Some(frame) => match frame {
                Frame::Cell(at, first) => {
                    self.drop_newest();
                    Some((at, first))
                }
                _ => None,
            },
        }
    }

    // The list of a term and the one behind its sign.
    fn cons(&mut self, at: Place, first: RawAt, rest: RawAt) -> Result<RawAt, OutOfMemory>
        requires fits { IsSound self.old }
        requires first { IsNode self.old first }
        requires rest { IsNode self.old rest }
        ensures gives { IfOk result (λ i. IsBuilt self.old self.new i
            (λ texts. cons_raw at (tree texts self.old first) (tree texts self.old rest))
            (λ texts. waiting texts self.old)) }
        ensures grows { IfOk result (λ _. Grows self.old.forms self.new.forms) }
    {
        let name = Named { name: CONS, at };
        let list = self.add(at, RawNode::Head(name, &[first, rest]))?;
        Ok(list)
    }

    // A sign with a term on each side.
    fn pair(&mut self, sign: Named, left: RawAt, right: RawAt) -> Result<RawAt, OutOfMemory>
        requires fits { IsSound self.old }
        requires left { IsNode self.old left }
        requires right { IsNode self.old right }
        ensures gives { IfOk result (λ i. IsBuilt self.old self.new i
            (λ texts. sign_raw (identifier texts sign).text sign.at (tree texts self.old left)
            (tree texts self.old right)) (λ texts. waiting texts self.old)) }
        ensures grows { IfOk result (λ _. Grows self.old.forms self.new.forms) }
    {
        let pair = self.add(sign.at, RawNode::Head(sign, &[left, right]))?;
        Ok(pair)
    }

    // EndsWith `*` and what stands in front of it off, if they are the newest.
    fn pop_product(&mut self) -> Option<(Place, RawAt)>
        requires { IsSound self.old }
        ensures none { IfNone result (TakesNothing take_product self.old self.new) }
        ensures some { IfSome result (λ product. PoppedSign take_product star self.old self.new product.0 product.1) }
        ensures grows { Grows self.old.forms self.new.forms }
    {
        match newest(&self.frames) {
            None => None,
            Some(frame) => match frame {
                Frame::Product(at, left) => {
                    self.drop_newest();
                    Some((at, left))
                }
                _ => None,
            },
        }
    }

    /// A unit with the product that it ends.
    pub fn take_product(&mut self, unit: RawAt) -> Result<RawAt, OutOfMemory>
        requires fits { IsSound self.old }
        requires unit { IsNode self.old unit }
        ensures gives { IfOk result (λ i. EndsWith take_product self.old self.new unit i) }
        ensures grows { IfOk result (λ _. Grows self.old.forms self.new.forms) }
    {
        match self.pop_product() {
            Some((at, left)) => {
                let sign = Named { name: STAR, at };
                self.pair(sign, left, unit)
            }
            None => Ok(unit),
        }
    }

    // EndsWith `+` or `-` and what stands in front of it off, if they are the newest.
    fn pop_sum(&mut self) -> Option<(SumOp, Place, RawAt)>
        requires { IsSound self.old }
        ensures none { IfNone result (TakesNothing take_sum self.old self.new) }
        ensures some { IfSome result (λ sum. PoppedSign take_sum (add_sign sum.0) self.old self.new sum.1 sum.2) }
        ensures grows { Grows self.old.forms self.new.forms }
    {
        match newest(&self.frames) {
            None => None,
            Some(frame) => match frame {
                Frame::Sum(op, at, left) => {
                    self.drop_newest();
                    Some((op, at, left))
                }
                _ => None,
            },
        }
    }

    // A product with the sum that it ends.
    fn take_sum(&mut self, product: RawAt) -> Result<RawAt, OutOfMemory>
        requires fits { IsSound self.old }
        requires product { IsNode self.old product }
        ensures gives { IfOk result (λ i. EndsWith take_sum self.old self.new product i) }
        ensures grows { IfOk result (λ _. Grows self.old.forms self.new.forms) }
    {
        match self.pop_sum() {
            Some((op, at, left)) => {
                let name = sum_name(op);
                let sum = self.pair(Named { name, at }, left, product)?;
                Ok(sum)
            }
            None => Ok(product),
        }
    }

    /// A unit with the product that it ends, and with the sum that this ends.
    pub fn take_both(&mut self, unit: RawAt) -> Result<RawAt, OutOfMemory>
        requires fits { IsSound self.old }
        requires unit { IsNode self.old unit }
        ensures gives { IfOk result (λ i. EndsWith take_both self.old self.new unit i) }
        ensures grows { IfOk result (λ _. Grows self.old.forms self.new.forms) }
    {
        let product = self.take_product(unit)?;
        self.take_sum(product)
    }

    // A comparison.
    fn comparison(
        &mut self,
        op: TestOp,
        at: Place,
        left: RawAt,
        right: RawAt,
    ) -> Result<RawAt, OutOfMemory>
        requires fits { IsSound self.old }
        requires left { IsNode self.old left }
        requires right { IsNode self.old right }
        ensures gives { IfOk result (λ i. IsBuilt self.old self.new i
            (λ texts. test_raw op at (tree texts self.old left) (tree texts self.old right))
            (λ texts. waiting texts self.old)) }
        ensures grows { IfOk result (λ _. Grows self.old.forms self.new.forms) }
    {
        match op {
            TestOp::Less => self.add(at, RawNode::Less(left, right)),
            TestOp::Most => self.add(at, RawNode::Most(left, right)),
        }
    }

    /// The whole-number goal that an expression ends, if one is the newest that waits for it.
    pub fn goal(&mut self, expression: RawAt) -> Result<Option<RawAt>, OutOfMemory>
        requires fits { IsSound self.old }
        requires expression { IsNode self.old expression }
        ensures gives { IfOk result (λ o. MatchOption o (HasNoGoal self.old self.new)
            (λ i. IsGoal self.old self.new expression i)) }
        ensures grows { IfOk result (λ _. Grows self.old.forms self.new.forms) }
    {
        match newest(&self.frames) {
            None => Ok(None),
            Some(frame) => match frame {
                Frame::Is(at, left) => {
                    self.drop_newest();
                    let goal = self.add(at, RawNode::Is(left, expression))?;
                    Ok(Some(goal))
                }
                Frame::Comparison(op, at, left) => {
                    self.drop_newest();
                    let goal = self.comparison(op, at, left, expression)?;
                    Ok(Some(goal))
                }
                _ => Ok(None),
            },
        }
    }

    /// The list of all newest cells and the term behind them.
    pub fn gather(&mut self, term: RawAt) -> Result<RawAt, OutOfMemory>
        requires fits { IsSound self.old }
        requires term { IsNode self.old term }
        ensures gives { IfOk result (λ i. Gathered self.old self.new term i) }
        ensures grows { IfOk result (λ _. Grows self.old.forms self.new.forms) }
    {
        let mut at = term;
        while let Some((sign, first)) = self.pop_cell() {
            at = self.cons(sign, first, at)?;
        }
        Ok(at)
    }
}
