//! A text that formulas are read from, and where a part of it stands.

use crate::front::Place;
use crate::modules::Modules;
use crate::scope::Binders;
use ll_bank::Names;
use ll_parser::Raws;
use std::alloc::Global;

/// The text that formulas are read from, the places of the program's modules, and where lists of the reading are kept.
#[derive(Drop)]
pub struct Text<'a> {
    pub alloc: Global,
    pub names: &'a Names,
    pub forms: &'a Raws,
    pub modules: &'a Modules<'a>,
}

/// What a term is read with: its text, the binders round it, and where it stands.
#[derive(Clone, Copy)]
pub struct Spot<'a> {
    pub text: &'a Text<'a>,
    pub binders: &'a Binders<'a>,
    pub place: Place,
}
