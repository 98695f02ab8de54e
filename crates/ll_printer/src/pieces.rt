//! The pieces of a text that are still to be printed.
ghost use Rattle.std.specs.Prelude.{◌≡◌, ◌+◌, ◌*◌, ◌++◌, ◌∷◌, ◌&&◌, [], IfOk, OnOk, OnErr, All, length, map, nat_eq, codes};
ghost use Rattle.ll_laws.specs.Output.{is_cons_head, term_text};
ghost use Rattle.ll_printer.specs.Pieces.{BeginsText};
ghost use Rattle.ll_printer.specs.Stack.{view_term, HasView, has_arguments_view, is_cons_view, sign_text, piece_text, piece_weight, HasPiece, Moves};
ghost use Rattle.ll_printer.specs.Stack.{term_size, cell_text, cell_weight, arguments_text, arguments_weight, argument_pieces, opening_text, closing_pieces};

use crate::words::{is_cons_sign, write_head, write_integer, write_signed_number};
use ll_bank::{At, Head, Names, OutOfMemory, TermView};
use ll_laws::Terms;
use std::alloc::Global;

/// A piece of a text that is left behind the term that goes on.
#[derive(Clone, Copy)]
pub(crate) enum Piece {
    /// A space and a term, in brackets where it has arguments.
    Argument(At),
    /// `::` and a term.
    Rest(At),
    /// `)`.
    Bracket,
}

/// Appends the text of a term. After a refusal some first bytes of it may have been appended.
pub(crate) fn write_term<T: Terms>(
    alloc: Global,
    names: &Names,
    terms: &T,
    at: At,
    out: &mut Vec<u8>,
) -> Result<(), OutOfMemory>
    requires { T.has terms.now at.0 }
    ensures text { OnOk result (out.new.items ≡ out.old.items ++ term_text names.now (T.tree terms.now at.0)) }
    ensures begun { BeginsText (term_text names.now (T.tree terms.now at.0)) out.old.items out.new.items }
{
    let mut pieces = Vec::new(alloc);
    let mut next = Some(terms.view(at));
    loop {
        if let Some(view) = next {
            next = print_view(names, terms, view, &mut pieces, out)?;
        } else if let Some(piece) = pieces.pop() {
            next = print_piece(names, terms, piece, &mut pieces, out)?;
        } else {
            return Ok(());
        }
    }
}

/// Prints the beginning of a piece, and puts what is left of it on the stack, but for a term that goes on at once: that is the
/// answer.
fn print_piece<'a, T: Terms>(
    names: &Names,
    terms: &'a T,
    piece: Piece,
    pieces: &mut Vec<Piece>,
    out: &mut Vec<u8>,
) -> Result<Option<TermView<'a>>, OutOfMemory>
    requires piece { HasPiece (T.has terms.now) piece }
    requires pieces { All (HasPiece (T.has terms.now)) pieces.old.items }
    ensures moves { IfOk result (λ next. Moves names.now (T.has terms.now) (T.tree terms.now)
        (piece_text names.now (T.tree terms.now) piece)
        (piece_weight (T.tree terms.now) piece) pieces.old.items out.old.items pieces.new.items next out.new.items) }
    ensures begun { OnErr result (BeginsText
        (piece_text names.now (T.tree terms.now) piece) out.old.items out.new.items) }
{
    match piece {
        Piece::Argument(at) => print_argument(names, terms, at, pieces, out),
        Piece::Rest(at) => {
            write_all(b"::", out)?;
            Ok(Some(terms.view(at)))
        }
        Piece::Bracket => {
            write_all(b")", out)?;
            Ok(None)
        }
    }
}

/// Prints a space and a term without arguments, or else a space and a bracket, and the term goes on: that is the answer.
fn print_argument<'a, T: Terms>(
    names: &Names,
    terms: &'a T,
    at: At,
    pieces: &mut Vec<Piece>,
    out: &mut Vec<u8>,
) -> Result<Option<TermView<'a>>, OutOfMemory>
    requires at { T.has terms.now at.0 }
    requires pieces { All (HasPiece (T.has terms.now)) pieces.old.items }
    ensures moves { IfOk result (λ next. Moves names.now (T.has terms.now) (T.tree terms.now)
        (piece_text names.now (T.tree terms.now) (Piece.Argument at)) (2 * term_size (T.tree terms.now at.0) + 2)
        pieces.old.items out.old.items pieces.new.items next out.new.items) }
    ensures begun { OnErr result (BeginsText
        (piece_text names.now (T.tree terms.now) (Piece.Argument at)) out.old.items out.new.items) }
{
    let view = terms.view(at);
    if has_arguments(view) {
        open_bracket(b" (", pieces, out)?;
        return Ok(Some(view));
    }
    write_short(names, view, out)?;
    Ok(None)
}

/// Prints the beginning of a term, and puts what is left of it on the stack, but for an argument that goes on at once: that is the answer.
fn print_view<'a, T: Terms>(
    names: &Names,
    terms: &'a T,
    view: TermView<'a>,
    pieces: &mut Vec<Piece>,
    out: &mut Vec<u8>,
) -> Result<Option<TermView<'a>>, OutOfMemory>
    requires view { HasView (T.has terms.now) view }
    requires pieces { All (HasPiece (T.has terms.now)) pieces.old.items }
    ensures moves { IfOk result (λ next. Moves names.now (T.has terms.now) (T.tree terms.now)
        (term_text names.now (view_term (T.tree terms.now) view.entry)) (2 * term_size (view_term (T.tree terms.now) view.entry))
        pieces.old.items out.old.items pieces.new.items next out.new.items) }
    ensures begun { OnErr result (BeginsText
        (term_text names.now (view_term (T.tree terms.now) view.entry)) out.old.items out.new.items) }
{
    match view {
        TermView::Var(number) => {
            write_signed_number(b'?', number, out)?;
            Ok(None)
        }
        TermView::Int(value) => {
            write_integer(value, out)?;
            Ok(None)
        }
        TermView::App(head, args) => {
            if is_cons_of(names, head, args) {
                return print_cons(names, terms, args, pieces, out);
            }
            write_head(names, head, out)?;
            print_arguments(names, terms, args, pieces, out)
        }
    }
}

/// Prints the beginning of a `::` with its two arguments: the first one goes on, but if it has no arguments itself it is printed with the sign,
/// and the other one goes on.
fn print_cons<'a, T: Terms>(
    names: &Names,
    terms: &'a T,
    args: &[At],
    pieces: &mut Vec<Piece>,
    out: &mut Vec<u8>,
) -> Result<Option<TermView<'a>>, OutOfMemory>
    requires two { length args.now ≡ 2 }
    requires args { All (λ a. T.has terms.now a.0) args.now }
    requires pieces { All (HasPiece (T.has terms.now)) pieces.old.items }
    ensures moves { IfOk result (λ next. Moves names.now (T.has terms.now) (T.tree terms.now)
        (cell_text names.now (map (λ a. T.tree terms.now a.0) args.now)) (cell_weight (map (λ a. T.tree terms.now a.0) args.now))
        pieces.old.items out.old.items pieces.new.items next out.new.items) }
    ensures begun { OnErr result (BeginsText
        (cell_text names.now (map (λ a. T.tree terms.now a.0) args.now)) out.old.items out.new.items) }
{
    let item = terms.view(args[0]);
    let rest = args[1];
    if has_arguments(item) {
        pieces.push(Piece::Rest(rest))?;
        open_item(names, item, pieces, out)?;
        return Ok(Some(item));
    }
    write_sign(names, item, out)?;
    write_all(b"::", out)?;
    Ok(Some(terms.view(rest)))
}

/// Prints the arguments of a head up to the first one that has arguments itself: this one goes on in brackets, and those behind it are left.
fn print_arguments<'a, T: Terms>(
    names: &Names,
    terms: &'a T,
    args: &[At],
    pieces: &mut Vec<Piece>,
    out: &mut Vec<u8>,
) -> Result<Option<TermView<'a>>, OutOfMemory>
    requires args { All (λ a. T.has terms.now a.0) args.now }
    requires pieces { All (HasPiece (T.has terms.now)) pieces.old.items }
    ensures moves { IfOk result (λ next. Moves names.now (T.has terms.now) (T.tree terms.now)
        (arguments_text names.now (map (λ a. T.tree terms.now a.0) args.now))
        (arguments_weight (map (λ a. T.tree terms.now a.0) args.now)
        + 2) pieces.old.items out.old.items pieces.new.items next out.new.items) }
    ensures begun { OnErr result (BeginsText
        (arguments_text names.now (map (λ a. T.tree terms.now a.0) args.now)) out.old.items out.new.items) }
{
    for i in 0..args.len() {
        let view = terms.view(args[i]);
        if has_arguments(view) {
            push_arguments(&args[i + 1..], pieces)?;
            open_bracket(b" (", pieces, out)?;
            return Ok(Some(view));
        }
        write_short(names, view, out)?;
    }
    Ok(None)
}

/// Leaves the arguments of a head, the first one on top.
fn push_arguments(args: &[At], pieces: &mut Vec<Piece>) -> Result<(), OutOfMemory>
    ensures { OnOk result (pieces.new.items ≡ pieces.old.items ++ argument_pieces args.now) }
{
    let mut i = args.len();
    while i > 0 {
        i -= 1;
        pieces.push(Piece::Argument(args[i]))?;
    }
    Ok(())
}

/// Opens brackets round the term in front of a `::` where it is itself of the form `X::L`.
fn open_item(
    names: &Names,
    view: TermView<'_>,
    pieces: &mut Vec<Piece>,
    out: &mut Vec<u8>,
) -> Result<(), OutOfMemory>
    ensures pieces { OnOk result (pieces.new.items
        ≡ pieces.old.items ++ closing_pieces (is_cons_view names.now view.entry)) }
    ensures text { OnOk result (out.new.items ≡ out.old.items ++ opening_text (is_cons_view names.now view.entry)) }
    ensures begun { OnErr result (BeginsText
        (opening_text (is_cons_view names.now view.entry)) out.old.items out.new.items) }
{
    if is_cons(names, view) {
        open_bracket(b"(", pieces, out)?;
    }
    Ok(())
}

/// Appends a text that ends with an opening bracket, and leaves the closing one.
fn open_bracket(bytes: &[u8], pieces: &mut Vec<Piece>, out: &mut Vec<u8>) -> Result<(), OutOfMemory>
    ensures pieces { OnOk result (pieces.new.items ≡ pieces.old.items ++ (Piece.Bracket ∷ [])) }
    ensures text { OnOk result (out.new.items ≡ out.old.items ++ bytes.now) }
    ensures begun { OnErr result (BeginsText bytes.now out.old.items out.new.items) }
{
    write_all(bytes, out)?;
    pieces.push(Piece::Bracket)?;
    Ok(())
}

/// Appends bytes. After a refusal the bytes are as before.
fn write_all(bytes: &[u8], out: &mut Vec<u8>) -> Result<(), OutOfMemory>
    ensures text { OnOk result (out.new.items ≡ out.old.items ++ bytes.now) }
    ensures refused { OnErr result (out.new.items ≡ out.old.items) }
{
    out.extend_from_slice(bytes)
}

/// Appends a space and a term without its arguments. After a refusal some first bytes of them may have been appended.
fn write_short(names: &Names, view: TermView<'_>, out: &mut Vec<u8>) -> Result<(), OutOfMemory>
    ensures text { OnOk result (out.new.items ≡ out.old.items ++ (codes " " ++ sign_text names.now view.entry)) }
    ensures begun { OnErr result (BeginsText
        (codes " " ++ sign_text names.now view.entry) out.old.items out.new.items) }
{
    write_all(b" ", out)?;
    write_sign(names, view, out)
}

/// Appends a term without its arguments. After a refusal some first bytes of it may have been appended.
fn write_sign(names: &Names, view: TermView<'_>, out: &mut Vec<u8>) -> Result<(), OutOfMemory>
    ensures text { OnOk result (out.new.items ≡ out.old.items ++ sign_text names.now view.entry) }
    ensures begun { OnErr result (BeginsText (sign_text names.now view.entry) out.old.items out.new.items) }
{
    match view {
        TermView::Var(number) => write_signed_number(b'?', number, out),
        TermView::Int(value) => write_integer(value, out),
        TermView::App(head, _) => write_head(names, head, out),
    }
}

/// Whether a term has arguments.
#[inline]
fn has_arguments(view: TermView<'_>) -> bool
    ensures { result ≡ has_arguments_view view.entry }
{
    match view {
        TermView::Var(_) => false,
        TermView::Int(_) => false,
        TermView::App(_, args) => !args.is_empty(),
    }
}

/// Whether a term is of the form `X::L`.
fn is_cons(names: &Names, view: TermView<'_>) -> bool
    ensures { result ≡ is_cons_view names.now view.entry }
{
    match view {
        TermView::Var(_) => false,
        TermView::Int(_) => false,
        TermView::App(head, args) => is_cons_of(names, head, args),
    }
}

/// Whether the head is the sign `::`, with two arguments.
fn is_cons_of(names: &Names, head: Head, args: &[At]) -> bool
    ensures { result ≡ (nat_eq (length args.now) 2 && is_cons_head names.now head) }
{
    args.len() == 2 && is_cons_sign(names, head)
}
