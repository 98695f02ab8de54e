//! The terms of a bank as they are read under bindings.
use crate::table::{Bindings, walk};
use ll_bank::{At, Bank, TermView};
use ll_laws::Terms;

/// A bank whose terms are looked at with all bindings of a table applied. Nothing is copied.
#[derive(Drop)]
pub struct Reading<'a, T> {
    pub bank: &'a Bank,
    pub table: &'a T,
}

impl<T: Bindings> Terms for Reading<'_, T> {
    ghost use Rattle.ll_bank.specs.Term.{sub};
    ghost use Rattle.ll_bank.specs.Nodes.{term_tree};
    ghost use Rattle.ll_unify.specs.Bindings.{IsReadable, found};

    ghost has = { λ r at. IsReadable r.bank.now (T.table r.table.now) at };

    ghost tree = { λ r at. sub (found r.bank.now (T.table r.table.now)) (term_tree r.bank.now at) };

    fn view(&self, at: At) -> TermView<'_> {
        let bank = self.bank;
        bank.term_at(walk(bank, self.table, at))
    }
}
