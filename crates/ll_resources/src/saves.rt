//! Blocks of live marks, one behind the other: those that were kept, with their flags, and those from before a change.
ghost use Rattle.std.specs.Prelude.{◌≡◌, ◌<◌, ◌≤◌, ◌+◌, Bool, List, [], ◌∷◌, ◌++◌, length, take, drop, slice_index_or, IfOk, OnOk, OnErr};
ghost use Rattle.ll_resources.specs.declared.saves.SavedMarks.{SavedMarks};
ghost use Rattle.ll_resources.specs.Saves.{block_of};

use ll_bank::OutOfMemory;
use std::alloc::Global;

/// Marks and a flag that were kept, as a range of the marks.
#[derive(Clone, Copy)]
pub(crate) struct SavedMarks {
    /// The number of entries at that time.
    count: usize,
    /// The label of the next entry at that time.
    next: usize,
    from: usize,
    to: usize,
    flag: bool,
    skips: bool,
}

/// The number of entries at a time, and the label of the next one.
#[derive(Clone, Copy)]
pub(crate) struct Moment {
    pub(crate) count: usize,
    pub(crate) next: usize,
}

/// What a context has kept. It changes at its end alone, so a number means the same as long as it is there.
#[derive(Drop)]
pub(crate) struct Saves {
    /// The oldest mark of each block first.
    marks: Vec<bool>,
    kept: Vec<SavedMarks>,
}

impl Saves {
    /// Nothing is kept.
    pub(crate) fn new(alloc: Global) -> Self
        ensures marks { result.marks.items ≡ [] }
        ensures kept { result.kept.items ≡ [] }
    {
        Saves {
            marks: Vec::new(alloc),
            kept: Vec::new(alloc),
        }
    }

    /// How much has been kept.
    pub(crate) fn len(&self) -> usize
        ensures { result ≡ length self.now.kept.items }
    {
        self.kept.len()
    }

    /// Puts marks behind all others. The answer is the place of the first.
    pub(crate) fn note(&mut self, live: &[bool]) -> Result<usize, OutOfMemory>
        ensures from { IfOk result (λ from. from ≡ length self.old.marks.items) }
        ensures marks { OnOk result (self.new.marks.items ≡ self.old.marks.items ++ live.now) }
        ensures refused { OnErr result (self.new.marks.items ≡ self.old.marks.items) }
        ensures kept { self.new.kept.items ≡ self.old.kept.items }
    {
        let from = self.marks.len();
        self.marks.extend_from_slice(live)?;
        Ok(from)
    }

    /// Keeps the marks of the entries of a time, and both flags.
    pub(crate) fn keep(
        &mut self,
        moment: Moment,
        live: &[bool],
        flag: bool,
        skips: bool,
    ) -> Result<(), OutOfMemory>
        ensures marks { OnOk result (self.new.marks.items ≡ self.old.marks.items ++ live.now) }
        ensures kept { OnOk result (let from = length self.old.marks.items in
            self.new.kept.items ≡ self.old.kept.items ++ record {
              count = moment.count;
              next = moment.next;
              from = from;
              to = from + length live.now;
              flag = flag;
              skips = skips;
            } ∷ []) }
        ensures same_marks { OnErr result (self.new.marks.items ≡ self.old.marks.items) }
        ensures same_kept { OnErr result (self.new.kept.items ≡ self.old.kept.items) }
    {
        self.kept.reserve(1)?;
        let from = self.marks.len();
        self.marks.extend_from_slice(live)?;
        let to = self.marks.len();
        self.kept.push_reserved(SavedMarks {
            count: moment.count,
            next: moment.next,
            from,
            to,
            flag,
            skips,
        });
        Ok(())
    }

    /// When marks were kept under this number.
    pub(crate) fn moment(&self, number: usize) -> Moment
        requires { number < length self.now.kept.items }
        ensures count { (d : SavedMarks) → result.count ≡ (slice_index_or self.now.kept.items number d).count }
        ensures next { (d : SavedMarks) → result.next ≡ (slice_index_or self.now.kept.items number d).next }
    {
        let kept = self.kept[number];
        Moment {
            count: kept.count,
            next: kept.next,
        }
    }

    /// Whether entries were skipped when marks were kept under this number.
    pub(crate) fn skips(&self, number: usize) -> bool
        requires { number < length self.now.kept.items }
        ensures { (d : SavedMarks) → result ≡ (slice_index_or self.now.kept.items number d).skips }
    {
        self.kept[number].skips
    }

    /// The live marks that were kept under this number, the oldest first.
    pub(crate) fn live(&self, number: usize) -> &[bool]
        requires { number < length self.now.kept.items }
        ensures { (d : SavedMarks) → result.now
            ≡ block_of self.now.marks.items (slice_index_or self.now.kept.items number d) }
    {
        self.block(self.kept[number])
    }

    // The marks of a range, as far as they are there.
    fn block(&self, kept: SavedMarks) -> &[bool]
        ensures { result.now ≡ block_of self.now.marks.items kept }
    {
        let to = kept.to.min(self.marks.len());
        let from = kept.from.min(to);
        &self.marks[from..to]
    }

    /// The flag that was kept under this number.
    pub(crate) fn flag(&self, number: usize) -> bool
        requires { number < length self.now.kept.items }
        ensures { (d : SavedMarks) → result ≡ (slice_index_or self.now.kept.items number d).flag }
    {
        self.kept[number].flag
    }

    /// No fewer than the marks that were kept under this number.
    pub(crate) fn size(&self, number: usize) -> usize
        requires { number < length self.now.kept.items }
        ensures { (marks : List Bool) (d : SavedMarks)
            → length (block_of marks (slice_index_or self.now.kept.items number d)) ≤ result }
    {
        let kept = self.kept[number];
        kept.to.saturating_sub(kept.from)
    }

    /// The marks from this place on, the oldest first.
    pub(crate) fn from(&self, from: usize) -> &[bool]
        ensures { result.now ≡ drop from self.now.marks.items }
    {
        let from = from.min(self.marks.len());
        &self.marks[from..]
    }

    /// Lets go of the marks from this place on.
    pub(crate) fn cut(&mut self, from: usize)
        ensures marks { self.new.marks.items ≡ take from self.old.marks.items }
        ensures kept { self.new.kept.items ≡ self.old.kept.items }
    {
        self.marks.truncate(from);
    }

    /// Lets go of what was kept under this number and later ones, and of the marks from its own on.
    pub(crate) fn forget(&mut self, number: usize)
        requires { number < length self.old.kept.items }
        ensures marks { (d : SavedMarks) → self.new.marks.items
            ≡ take (slice_index_or self.old.kept.items number d).from self.old.marks.items }
        ensures kept { self.new.kept.items ≡ take number self.old.kept.items }
    {
        let from = self.kept[number].from;
        self.kept.truncate(number);
        self.marks.truncate(from);
    }

    /// A copy.
    pub(crate) fn copy(&self) -> Result<Saves, OutOfMemory>
        ensures marks { IfOk result (λ saves. saves.marks.items ≡ self.now.marks.items) }
        ensures kept { IfOk result (λ saves. saves.kept.items ≡ self.now.kept.items) }
    {
        let alloc = *self.kept.allocator();
        let marks = Vec::from_slice(alloc, self.marks.as_slice())?;
        let kept = Vec::from_slice(alloc, self.kept.as_slice())?;
        Ok(Saves { marks, kept })
    }
}
