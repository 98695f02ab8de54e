//! What each token does while a term is read.
ghost use Rattle.std.specs.Prelude.{◌≡◌, ℕ, ◌<◌, ◌∷◌, List, length, IfOk, Some};
ghost use Rattle.ll_parser.specs.Raw.{raws_then};
ghost use Rattle.ll_parser.specs.Flat.{term_want, term_part, term_whole, term_operate, close_term, flat_step};
ghost use Rattle.ll_parser.specs.Nodes.{build_raw, raw_trees};
ghost use Rattle.ll_parser.specs.Seen.{node_of, HasPartsBelow};
ghost use Rattle.ll_parser.specs.Symbols.{symbol_tok};
ghost use Rattle.ll_parser.specs.Waiting.{word_view, tree, waiting, args_from, waiting_below, IsSound, FitsBelow, IsNode, Grows, Gives};

use crate::formulas::Mode;
use crate::symbols::Symbol;
use crate::waiting::{Frame, Waiting, Word, named, newest};
use crate::{RawAt, RawNode};
use ll_bank::OutOfMemory;
use ll_lexer::Place;

impl Waiting {
    // A term of one node.
    fn constant(&mut self, at: Place, node: RawNode<'_>) -> Result<Option<Mode>, OutOfMemory>
        requires fits { IsSound self.old }
        requires parts { HasPartsBelow (length self.old.forms) node }
        ensures gives { IfOk result (λ o. Gives self.new o
            (λ texts. Some (term_whole (build_raw texts (raw_trees texts self.old.forms) (node_of at node.entry))
            (waiting texts self.old)))) }
        ensures grows { IfOk result (λ _. Grows self.old.forms self.new.forms) }
    {
        let term = self.add(at, node)?;
        Ok(Some(Mode::WholeTerm(term)))
    }

    /// The first token of a term.
    pub fn begin_term(&mut self, symbol: Symbol) -> Result<Option<Mode>, OutOfMemory>
        requires { IsSound self.old }
        ensures gives { IfOk result (λ o. Gives self.new o (λ texts. flat_step (term_want (waiting texts self.old))
            (symbol_tok texts symbol))) }
        ensures grows { IfOk result (λ _. Grows self.old.forms self.new.forms) }
    {
        match symbol {
            Symbol::Name(name) => Ok(Some(Mode::Application(Word::Name(name), self.args.len()))),
            Symbol::Variable(name) => {
                Ok(Some(Mode::Application(Word::Variable(name), self.args.len())))
            }
            Symbol::Any(at) => self.constant(at, RawNode::Any),
            Symbol::Number(at, value) => self.constant(at, RawNode::Int(value)),
            Symbol::ParenLeft(_) => self.want_term(Frame::Group),
            _ => Ok(None),
        }
    }

    // An application with one more argument of one node.
    fn extend_application(
        &mut self,
        word: Word,
        from: usize,
        at: Place,
        node: RawNode<'_>,
    ) -> Result<Option<Mode>, OutOfMemory>
        requires fits { FitsBelow self.old from }
        requires parts { HasPartsBelow (length self.old.forms) node }
        ensures gives { IfOk result (λ o. Gives self.new o
            (λ texts. Some (term_part (word_view texts word)
            (raws_then (args_from texts self.old from)
            (build_raw texts (raw_trees texts self.old.forms) (node_of at node.entry)))
            (waiting_below texts self.old from)))) }
        ensures grows { IfOk result (λ _. Grows self.old.forms self.new.forms) }
    {
        self.add_argument(at, node)?;
        Ok(Some(Mode::Application(word, from)))
    }

    /// The token behind an application: one more argument, or what follows a term.
    pub fn after_application(
        &mut self,
        word: Word,
        from: usize,
        symbol: Symbol,
    ) -> Result<Option<Mode>, OutOfMemory>
        requires { FitsBelow self.old from }
        ensures gives { IfOk result (λ o. Gives self.new o
            (λ texts. flat_step (term_part (word_view texts word) (args_from texts self.old from)
            (waiting_below texts self.old from)) (symbol_tok texts symbol))) }
        ensures grows { IfOk result (λ _. Grows self.old.forms self.new.forms) }
    {
        match symbol {
            Symbol::Name(name) => {
                self.extend_application(word, from, name.at, RawNode::Head(name, &[]))
            }
            Symbol::Variable(name) => {
                self.extend_application(word, from, name.at, RawNode::Head(name, &[]))
            }
            Symbol::Any(at) => self.extend_application(word, from, at, RawNode::Any),
            Symbol::Number(at, value) => {
                self.extend_application(word, from, at, RawNode::Int(value))
            }
            Symbol::ParenLeft(_) => self.want_term(Frame::Application(word, from)),
            _ => {
                let term = self.finish_head(named(word), from)?;
                self.after_term(term, symbol)
            }
        }
    }

    /// The token behind a term: `::`, or the bracket that closes round it.
    pub fn after_term(&mut self, term: RawAt, symbol: Symbol) -> Result<Option<Mode>, OutOfMemory>
        requires fits { IsSound self.old }
        requires term { IsNode self.old term }
        ensures gives { IfOk result (λ o. Gives self.new o (λ texts.
            term_operate (tree texts self.old term) (waiting texts self.old) (symbol_tok texts symbol))) }
        ensures grows { IfOk result (λ _. Grows self.old.forms self.new.forms) }
    {
        match symbol {
            Symbol::Cons(at) => self.want_term(Frame::Cell(at, term)),
            Symbol::ParenRight(_) => {
                let whole = self.gather(term)?;
                self.close_term(whole)
            }
            _ => Ok(None),
        }
    }

    // `)` behind a term.
    fn close_term(&mut self, term: RawAt) -> Result<Option<Mode>, OutOfMemory>
        requires fits { IsSound self.old }
        requires term { IsNode self.old term }
        ensures gives { IfOk result (λ o. Gives self.new o
            (λ texts. close_term (tree texts self.old term) (waiting texts self.old))) }
        ensures grows { IfOk result (λ _. Grows self.old.forms self.new.forms) }
    {
        match newest(&self.frames) {
            None => Ok(None),
            Some(frame) => match frame {
                Frame::Atom(word, from) => {
                    self.drop_newest();
                    self.push_argument(term)?;
                    Ok(Some(Mode::Atom(word, from)))
                }
                Frame::Application(word, from) => {
                    self.drop_newest();
                    self.push_argument(term)?;
                    Ok(Some(Mode::Application(word, from)))
                }
                Frame::Group => {
                    self.drop_newest();
                    Ok(Some(Mode::WholeTerm(term)))
                }
                _ => Ok(None),
            },
        }
    }
}
