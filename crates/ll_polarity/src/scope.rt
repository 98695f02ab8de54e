//! What binds the names round a place of a text.

ghost use Rattle.std.specs.Prelude.{◌≡◌, ◌<◌, ℕ, ◌∷◌, List, [], length, map, slice_index_or, IfOk, OnOk, OnErr};
ghost use Rattle.std.specs.List.{list_any};
ghost use Rattle.std.specs.Str.{bytes_eq};
ghost use Rattle.ll_polarity.specs.Scope.{outer, is_variable, meaning, bound_by as bound_meaning, unbound as unbound_meaning};
ghost use Rattle.ll_polarity.specs.NameMeanings.{meant};

use ll_bank::{Names, OutOfMemory};
use std::alloc::Global;
use std::marker::Model;

/// What a name means where it stands.
#[derive(Clone, Copy)]
pub enum Meaning {
    /// What the quantifier or parameter that is so many binders further out stands for.
    Bound(usize),
    /// The local constant that is so many binders further out.
    Local(usize),
    /// A variable of the whole clause or query.
    Free,
    /// A constant, a function or a predicate.
    Constant,
}

// The innermost binder of a name: how many binders there are from the outermost to it, and whether it is a local constant.
#[derive(Clone, Copy)]
struct Innermost {
    depth: usize,
    local: bool,
}

// A binder: its name, whether it is a local constant, and the binder of the name that it hides.
#[derive(Clone, Copy)]
struct Row {
    name: u32,
    local: bool,
    hidden: Option<Innermost>,
}

/// The binders round a place, over the names of a text.
///
/// Contracts see the texts of the names, and the scope. Each call takes constant time.
#[derive(Drop)]
pub struct Binders<'a> {
    names: &'a Names,
    innermost: Vec<Option<Innermost>>,
    rows: Vec<Row>,
}

impl<'a> Model for Binders<'a> {
    ghost use Rattle.ll_polarity.specs.Scope.{Scoped};

    ghost Value = { Scoped };

    ghost use Rattle.std.specs.Prelude.{reverse};
    ghost use Rattle.ll_polarity.specs.Binders.{scope_of, AreKept};

    ghost view = { λ b. record { texts = b.names.now; scope = scope_of b.names.now (reverse b.rows.items) } };

    ghost invariant = { λ b. AreKept b.names.now b.innermost.items (reverse b.rows.items) };
}

impl<'a> Binders<'a> {
    /// No binders.
    pub fn new(alloc: Global, names: &'a Names) -> Result<Self, OutOfMemory>
        ensures { IfOk result (λ b. b ≡ record { texts = names.now; scope = [] }) }
    {
        let innermost = vec![in alloc; None; names.len()]?;
        Ok(Binders {
            names,
            innermost,
            rows: Vec::new(alloc),
        })
    }

    /// One more binder, the innermost. After a refusal all is as before.
    pub fn open(&mut self, name: u32, local: bool) -> Result<(), OutOfMemory>
        requires { name < length self.old.texts }
        ensures opened { OnOk result (self.new ≡ record self.old {
          scope =
              record { text = slice_index_or self.old.texts name []; local = local } ∷ self.old.scope;
        }) }
        ensures refused { OnErr result (self.new ≡ self.old) }
    {
        self.rows.push(Row {
            name,
            local,
            hidden: self.innermost[name as usize],
        })?;
        self.innermost[name as usize] = Some(Innermost {
            depth: self.rows.len(),
            local,
        });
        Ok(())
    }

    /// The scope without its innermost binder, if it has one.
    pub fn close(&mut self)
        ensures { self.new ≡ record self.old { scope = outer self.old.scope } }
    {
        if let Some(row) = self.rows.pop() {
            self.innermost[row.name as usize] = row.hidden;
        }
    }

    /// No binders any more.
    pub fn close_all(&mut self)
        ensures { self.new ≡ record self.old { scope = [] } }
    {
        while !self.rows.is_empty() {
            self.close();
        }
    }

    /// Whether something binds a name.
    pub fn has(&self, name: u32) -> bool
        requires { name < length self.now.texts }
        ensures { result ≡ list_any (bytes_eq (slice_index_or self.now.texts name []))
            (map (λ b. b.text) self.now.scope) }
    {
        self.innermost[name as usize].is_some()
    }

    /// What a name means.
    pub fn meaning(&self, name: u32) -> Meaning
        requires { name < length self.now.texts }
        ensures { meant result ≡ meaning self.now.scope (slice_index_or self.now.texts name []) }
    {
        match self.innermost[name as usize] {
            Some(found) => bound_by(found.local, self.rows.len() - found.depth),
            None => unbound(self.names.text(name)),
        }
    }
}

// What the binder that is k binders further out makes of its name.
fn bound_by(local: bool, k: usize) -> Meaning
    ensures { meant result ≡ bound_meaning local k }
{
    if local {
        Meaning::Local(k)
    } else {
        Meaning::Bound(k)
    }
}

// What a name means that nothing binds.
fn unbound(text: &str) -> Meaning
    ensures { meant result ≡ unbound_meaning (is_variable text.now) }
{
    if names_variable(text) {
        Meaning::Free
    } else {
        Meaning::Constant
    }
}

// Whether a text is that of a variable.
fn names_variable(text: &str) -> bool
    ensures { result ≡ is_variable text.now }
{
    match text.as_bytes() {
        [first, ..] => first.is_ascii_uppercase() || *first == b'_',
        [] => false,
    }
}
