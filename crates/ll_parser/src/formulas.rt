//! What each token does while a formula is read.
ghost use Rattle.std.specs.Prelude.{◌≡◌, ℕ, ◌<◌, ◌∷◌, List, length, IfOk, Some};
ghost use Rattle.ll_parser.specs.declared.RawAt.{RawAt};
ghost use Rattle.ll_parser.specs.declared.waiting.Waiting.{Waiting};
ghost use Rattle.ll_parser.specs.declared.Level.TheVariants.{Close};
ghost use Rattle.ll_parser.specs.Raw.{Raw, raws_then};
ghost use Rattle.ll_parser.specs.Flat.{Pending, want, part, whole, binder, slash, term_want, push as push_operator, reduce, admits_load, begin_load};
ghost use Rattle.ll_parser.specs.Flat.{close_bracket, close_brace, operate, end_with, take_both, final_expression, flat_step, flat_final};
ghost use Rattle.ll_parser.specs.Nodes.{identifier, build_raw, raw_trees};
ghost use Rattle.ll_parser.specs.Seen.{node_of, HasPartsBelow};
ghost use Rattle.ll_parser.specs.Symbols.{symbol_tok};
ghost use Rattle.ll_parser.specs.Waiting.{word_view, frame_view, tree, waiting, args_from, waiting_below};
ghost use Rattle.ll_parser.specs.Waiting.{pushed, mode_view, IsSound, FitsBelow, IsNode, CanWait};
ghost use Rattle.ll_parser.specs.Waiting.{Grows, ModeFits, Gives, GivesTree};

use crate::symbols::Symbol;
use crate::waiting::{Frame, Prefix, Waiting, Word, named, newest};
use crate::{Level, Op, Quantifier, RawAt, RawNode};
use ll_bank::OutOfMemory;
use ll_lexer::Place;

/// What the tokens so far leave to be read next.
#[derive(Clone, Copy)]
pub enum Mode {
    /// A primary formula.
    Operand,
    /// An atom and its arguments, which wait from a place on: one more, or what follows an atom.
    Atom(Word, usize),
    /// What follows a primary formula.
    Formula(RawAt),
    /// The word that a quantifier binds.
    Binder(Quantifier, Place),
    /// The `\` behind it.
    Slash(Quantifier, Place, Word),
    /// A term.
    Term,
    /// An application and its arguments, which wait from a place on: one more, or what follows an application.
    Application(Word, usize),
    /// What follows a term that takes no arguments.
    WholeTerm(RawAt),
    /// What follows `_` or a number with which a formula begins.
    Plain(RawAt),
    /// A unit of the left side of a comparison, behind one of its signs.
    LeadUnit,
    /// What follows a unit of the left side of a comparison.
    Lead(RawAt),
    /// A unit of any other expression.
    Unit,
    /// What follows a unit of any other expression.
    Expression(RawAt),
}

impl Waiting {
    /// What a token does, if the grammar admits it.
    pub fn step(&mut self, mode: Mode, symbol: Symbol) -> Result<Option<Mode>, OutOfMemory>
        requires { ModeFits self.old mode }
        ensures gives { IfOk result (λ o. Gives self.new o
            (λ texts. flat_step (mode_view texts self.old mode) (symbol_tok texts symbol))) }
        ensures grows { IfOk result (λ _. Grows self.old.forms self.new.forms) }
    {
        match mode {
            Mode::Operand => self.begin_operand(symbol),
            Mode::Atom(word, from) => self.after_atom(word, from, symbol),
            Mode::Formula(operand) => self.after_operand(operand, symbol),
            Mode::Binder(quantifier, at) => Ok(bind(quantifier, at, symbol)),
            Mode::Slash(quantifier, at, word) => self.begin_scope(quantifier, at, word, symbol),
            Mode::Term => self.begin_term(symbol),
            Mode::Application(word, from) => self.after_application(word, from, symbol),
            Mode::WholeTerm(term) => self.after_term(term, symbol),
            Mode::Plain(unit) => self.after_plain(unit, symbol),
            Mode::LeadUnit => self.begin_lead_unit(symbol),
            Mode::Lead(unit) => self.after_lead(unit, symbol),
            Mode::Unit => self.begin_unit(symbol),
            Mode::Expression(unit) => self.after_unit(unit, symbol),
        }
    }

    // Puts a frame on, behind which an operand is read.
    fn want(&mut self, frame: Frame) -> Result<Option<Mode>, OutOfMemory>
        requires { CanWait self.old frame }
        ensures gives { IfOk result (λ o. Gives self.new o (λ texts. Some (want (pushed texts self.old frame)))) }
        ensures grows { IfOk result (λ _. Grows self.old.forms self.new.forms) }
    {
        self.push(frame)?;
        Ok(Some(Mode::Operand))
    }

    /// Puts a frame on, behind which a term is read.
    pub fn want_term(&mut self, frame: Frame) -> Result<Option<Mode>, OutOfMemory>
        requires { CanWait self.old frame }
        ensures gives { IfOk result (λ o. Gives self.new o (λ texts. Some (term_want (pushed texts self.old frame)))) }
        ensures grows { IfOk result (λ _. Grows self.old.forms self.new.forms) }
    {
        self.push(frame)?;
        Ok(Some(Mode::Term))
    }

    // A primary formula of one node.
    fn primary(&mut self, at: Place, node: RawNode<'_>) -> Result<Option<Mode>, OutOfMemory>
        requires fits { IsSound self.old }
        requires parts { HasPartsBelow (length self.old.forms) node }
        ensures gives { IfOk result (λ o. Gives self.new o
            (λ texts. Some (whole (build_raw texts (raw_trees texts self.old.forms) (node_of at node.entry))
            (waiting texts self.old)))) }
        ensures grows { IfOk result (λ _. Grows self.old.forms self.new.forms) }
    {
        let formula = self.add(at, node)?;
        Ok(Some(Mode::Formula(formula)))
    }

    // The first token of a primary formula.
    fn begin_operand(&mut self, symbol: Symbol) -> Result<Option<Mode>, OutOfMemory>
        requires { IsSound self.old }
        ensures gives { IfOk result (λ o. Gives self.new o
            (λ texts. flat_step (want (waiting texts self.old)) (symbol_tok texts symbol))) }
        ensures grows { IfOk result (λ _. Grows self.old.forms self.new.forms) }
    {
        match symbol {
            Symbol::Name(name) => Ok(Some(Mode::Atom(Word::Name(name), self.args.len()))),
            Symbol::Variable(name) => Ok(Some(Mode::Atom(Word::Variable(name), self.args.len()))),
            Symbol::Any(at) => self.plain(at, RawNode::Any),
            Symbol::Number(at, value) => self.plain(at, RawNode::Int(value)),
            Symbol::True(at) => self.primary(at, RawNode::True),
            Symbol::Erase(at) => self.primary(at, RawNode::Erase),
            Symbol::Forall(at) => Ok(Some(Mode::Binder(Quantifier::Forall, at))),
            Symbol::Exists(at) => Ok(Some(Mode::Binder(Quantifier::Exists, at))),
            Symbol::ParenLeft(_) => self.want(Frame::Bracket),
            Symbol::BraceLeft(at) => self.want(Frame::Brace(at)),
            _ => Ok(None),
        }
    }

    // The `\` behind a quantifier's word.
    fn begin_scope(
        &mut self,
        quantifier: Quantifier,
        at: Place,
        word: Word,
        symbol: Symbol,
    ) -> Result<Option<Mode>, OutOfMemory>
        requires { IsSound self.old }
        ensures gives { IfOk result (λ o. Gives self.new o
            (λ texts. flat_step (slash quantifier at (word_view texts word) (waiting texts self.old))
            (symbol_tok texts symbol))) }
        ensures grows { IfOk result (λ _. Grows self.old.forms self.new.forms) }
    {
        match symbol {
            Symbol::Backslash(_) => {
                self.want(Frame::Front(Prefix::Quantifier(quantifier, at, named(word))))
            }
            _ => Ok(None),
        }
    }

    // An atom with one more argument of one node.
    fn extend_atom(
        &mut self,
        word: Word,
        from: usize,
        at: Place,
        node: RawNode<'_>,
    ) -> Result<Option<Mode>, OutOfMemory>
        requires fits { FitsBelow self.old from }
        requires parts { HasPartsBelow (length self.old.forms) node }
        ensures gives { IfOk result (λ o. Gives self.new o
            (λ texts. Some (part (word_view texts word)
            (raws_then (args_from texts self.old from)
            (build_raw texts (raw_trees texts self.old.forms) (node_of at node.entry)))
            (waiting_below texts self.old from)))) }
        ensures grows { IfOk result (λ _. Grows self.old.forms self.new.forms) }
    {
        self.add_argument(at, node)?;
        Ok(Some(Mode::Atom(word, from)))
    }

    // The token behind an atom: one more argument, the arrow of a load, a sign of a whole-number goal, or what follows an operand.
    fn after_atom(
        &mut self,
        word: Word,
        from: usize,
        symbol: Symbol,
    ) -> Result<Option<Mode>, OutOfMemory>
        requires { FitsBelow self.old from }
        ensures gives { IfOk result (λ o. Gives self.new o
            (λ texts. flat_step (part (word_view texts word) (args_from texts self.old from)
            (waiting_below texts self.old from)) (symbol_tok texts symbol))) }
        ensures grows { IfOk result (λ _. Grows self.old.forms self.new.forms) }
    {
        match symbol {
            Symbol::Name(name) => self.extend_atom(word, from, name.at, RawNode::Head(name, &[])),
            Symbol::Variable(name) => {
                self.extend_atom(word, from, name.at, RawNode::Head(name, &[]))
            }
            Symbol::Any(at) => self.extend_atom(word, from, at, RawNode::Any),
            Symbol::Number(at, value) => self.extend_atom(word, from, at, RawNode::Int(value)),
            Symbol::ParenLeft(_) => self.want_term(Frame::Atom(word, from)),
            Symbol::LoadArrow(at) => self.begin_load(word, from, at),
            Symbol::Is(_)
            | Symbol::Most(_)
            | Symbol::Less(_)
            | Symbol::Plus(_)
            | Symbol::Minus(_)
            | Symbol::Star(_) => self.after_word(word, from, symbol),
            _ => {
                let operand = self.finish_head(named(word), from)?;
                self.after_operand(operand, symbol)
            }
        }
    }

    // The arrow of a load, which stands beside no tighter operator.
    fn begin_load(
        &mut self,
        word: Word,
        from: usize,
        at: Place,
    ) -> Result<Option<Mode>, OutOfMemory>
        requires { FitsBelow self.old from }
        ensures gives { IfOk result (λ o. Gives self.new o (λ texts.
            begin_load (word_view texts word) (args_from texts self.old from) at (waiting_below texts self.old from))) }
        ensures grows { IfOk result (λ _. Grows self.old.forms self.new.forms) }
    {
        match word {
            Word::Name(name) => {
                if self.admits_load() {
                    self.want(Frame::Front(Prefix::Load(at, name, from)))
                } else {
                    Ok(None)
                }
            }
            Word::Variable(_) => Ok(None),
        }
    }

    // Whether no operator that is tighter than a load is the newest.
    fn admits_load(&self) -> bool
        ensures { (texts : List (List ℕ)) (from : ℕ) → result ≡ admits_load (waiting_below texts self.now from) }
    {
        match newest(&self.frames) {
            None => true,
            Some(frame) => loads_above(frame),
        }
    }

    /// The operator behind an operand, or the bracket that closes round it.
    pub fn after_operand(
        &mut self,
        operand: RawAt,
        symbol: Symbol,
    ) -> Result<Option<Mode>, OutOfMemory>
        requires fits { IsSound self.old }
        requires operand { IsNode self.old operand }
        ensures gives { IfOk result (λ o. Gives self.new o (λ texts.
            operate (tree texts self.old operand) (waiting texts self.old) (symbol_tok texts symbol))) }
        ensures grows { IfOk result (λ _. Grows self.old.forms self.new.forms) }
    {
        match symbol {
            Symbol::Comma(at) => self.want(Frame::Front(Prefix::Operator(Op::Tensor, at, operand))),
            Symbol::Ampersand(at) => self.extend(Level::Ampersand, Op::With, at, operand),
            Symbol::Semicolon(at) => self.extend(Level::Semicolon, Op::Plus, at, operand),
            Symbol::Lolli(at) => self.extend(Level::Arrow, Op::Lolli, at, operand),
            Symbol::RightArrow(at) => self.extend(Level::Arrow, Op::RightArrow, at, operand),
            Symbol::ColonDash(at) => self.extend(Level::Clause, Op::ColonDash, at, operand),
            Symbol::LeftArrow(at) => self.extend(Level::Clause, Op::LeftArrow, at, operand),
            Symbol::ParenRight(_) => {
                let formula = self.reduce(Level::Close, operand)?;
                Ok(self.close_bracket(formula))
            }
            Symbol::BraceRight(_) => {
                let formula = self.reduce(Level::Close, operand)?;
                self.close_brace(formula)
            }
            _ => Ok(None),
        }
    }

    // An operator, which takes all that is tighter for its left operand.
    fn extend(
        &mut self,
        level: Level,
        op: Op,
        at: Place,
        operand: RawAt,
    ) -> Result<Option<Mode>, OutOfMemory>
        requires fits { IsSound self.old }
        requires operand { IsNode self.old operand }
        ensures gives { IfOk result (λ o. Gives self.new o (λ texts.
            push_operator op at (reduce level (tree texts self.old operand) (waiting texts self.old)))) }
        ensures grows { IfOk result (λ _. Grows self.old.forms self.new.forms) }
    {
        let left = self.reduce(level, operand)?;
        self.want(Frame::Front(Prefix::Operator(op, at, left)))
    }

    // `)` behind a formula.
    fn close_bracket(&mut self, formula: RawAt) -> Option<Mode>
        requires fits { IsSound self.old }
        requires formula { IsNode self.old formula }
        ensures gives { Gives self.new result
            (λ texts. close_bracket (tree texts self.old formula) (waiting texts self.old)) }
        ensures grows { Grows self.old.forms self.new.forms }
    {
        match newest(&self.frames) {
            None => None,
            Some(frame) => match frame {
                Frame::Bracket => {
                    self.drop_newest();
                    Some(Mode::Formula(formula))
                }
                _ => None,
            },
        }
    }

    // `}` behind a formula.
    fn close_brace(&mut self, formula: RawAt) -> Result<Option<Mode>, OutOfMemory>
        requires fits { IsSound self.old }
        requires formula { IsNode self.old formula }
        ensures gives { IfOk result (λ o. Gives self.new o
            (λ texts. close_brace (tree texts self.old formula) (waiting texts self.old))) }
        ensures grows { IfOk result (λ _. Grows self.old.forms self.new.forms) }
    {
        match newest(&self.frames) {
            None => Ok(None),
            Some(frame) => match frame {
                Frame::Brace(at) => {
                    self.drop_newest();
                    self.primary(at, RawNode::Braces(formula))
                }
                _ => Ok(None),
            },
        }
    }

    /// The whole formula, if the tokens may end here.
    pub fn finish(&mut self, mode: Mode) -> Result<Option<RawAt>, OutOfMemory>
        requires { ModeFits self.old mode }
        ensures gives { IfOk result (λ o. GivesTree self.new o (λ texts. flat_final (mode_view texts self.old mode))) }
        ensures grows { IfOk result (λ _. Grows self.old.forms self.new.forms) }
    {
        match mode {
            Mode::Atom(word, from) => {
                let operand = self.finish_head(named(word), from)?;
                self.finish_operand(operand)
            }
            Mode::Formula(operand) => self.finish_operand(operand),
            Mode::Expression(unit) => self.finish_expression(unit),
            _ => Ok(None),
        }
    }

    // The whole formula that ends with an expression, if no bracket is open.
    fn finish_expression(&mut self, unit: RawAt) -> Result<Option<RawAt>, OutOfMemory>
        requires fits { IsSound self.old }
        requires unit { IsNode self.old unit }
        ensures gives { IfOk result (λ o. GivesTree self.new o (λ texts.
            let q = take_both (tree texts self.old unit) (waiting texts self.old) in final_expression q.0 q.1)) }
        ensures grows { IfOk result (λ _. Grows self.old.forms self.new.forms) }
    {
        let expression = self.take_both(unit)?;
        match self.goal(expression)? {
            Some(goal) => self.finish_operand(goal),
            None => Ok(None),
        }
    }

    // The whole formula that ends with an operand, if no bracket is open.
    fn finish_operand(&mut self, operand: RawAt) -> Result<Option<RawAt>, OutOfMemory>
        requires fits { IsSound self.old }
        requires operand { IsNode self.old operand }
        ensures gives { IfOk result (λ o. GivesTree self.new o
            (λ texts. let q = reduce Close (tree texts self.old operand) (waiting texts self.old) in
            end_with q.0 q.1)) }
        ensures grows { IfOk result (λ _. Grows self.old.forms self.new.forms) }
    {
        let formula = self.reduce(Level::Close, operand)?;
        match newest(&self.frames) {
            None => Ok(Some(formula)),
            Some(_) => Ok(None),
        }
    }
}

// The word that a quantifier binds.
fn bind(quantifier: Quantifier, at: Place, symbol: Symbol) -> Option<Mode>
    ensures { (w : Waiting) → IsSound w
        → Gives w result (λ texts. flat_step (binder quantifier at (waiting texts w)) (symbol_tok texts symbol)) }
{
    match symbol {
        Symbol::Name(name) => Some(Mode::Slash(quantifier, at, Word::Name(name))),
        Symbol::Variable(name) => Some(Mode::Slash(quantifier, at, Word::Variable(name))),
        _ => None,
    }
}

// Whether a load may stand behind a frame.
fn loads_above(frame: Frame) -> bool
    ensures { (texts : List (List ℕ)) (trees : List Raw) (args : List RawAt) (ps : List Pending)
        → result ≡ admits_load (frame_view texts trees args frame ∷ ps) }
{
    match frame {
        Frame::Front(Prefix::Operator(op, _, _)) => match op {
            Op::Tensor | Op::With | Op::Plus => false,
            Op::ColonDash | Op::LeftArrow | Op::Lolli | Op::RightArrow => true,
        },
        Frame::Front(Prefix::Load(_, _, _) | Prefix::Quantifier(_, _, _)) => true,
        Frame::Bracket
        | Frame::Brace(_)
        | Frame::Atom(_, _)
        | Frame::Application(_, _)
        | Frame::Group
        | Frame::Cell(_, _)
        | Frame::Sum(_, _, _)
        | Frame::Product(_, _)
        | Frame::Is(_, _)
        | Frame::Comparison(_, _, _)
        | Frame::NumberGroup
        | Frame::LeadGroup => true,
    }
}
