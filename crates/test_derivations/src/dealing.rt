// How labels are dealt out to trees that no run comes to: equations of the definition that every derivation meets.
ghost use Rattle.std.specs.Prelude.{◌≡◌, [], ◌∷◌};
ghost use Rattle.ll_laws.specs.Dealing.{deal};
ghost use Rattle.ll_laws.specs.Shows.{EraseNode, TensorNode, BangNode, ClauseNode, NoParts, BoundedPart, UnboundedPart};
ghost use Rattle.test_derivations.specs.Facts.{fact};

/// What is below a `bang` counts for nothing above it: `{a} , a`.
pub fn below_a_bang()
    ensures { deal (0 ∷ []) (TensorNode [] [] (BangNode (fact 0)) (fact 0))
        ≡ TensorNode [] (0 ∷ []) (BangNode (fact 0)) (fact 0) }
{}

/// Premises share the labels, but for that of the step itself, and what is below a `bang` of an unbounded one counts for nothing.
pub fn shared_by_premises()
    ensures { deal (0 ∷ 2 ∷ 5 ∷ 9 ∷ [])
        (ClauseNode 9 0 [] (BoundedPart [] (fact 0)
        (UnboundedPart (BangNode (fact 2)) (BoundedPart [] (TensorNode [] [] (fact 2) EraseNode) NoParts))))
        ≡ ClauseNode 9 0 [] (BoundedPart (0 ∷ []) (fact 0)
        (UnboundedPart (BangNode (fact 2))
        (BoundedPart (2 ∷ 5 ∷ []) (TensorNode (2 ∷ []) (5 ∷ []) (fact 2) EraseNode) NoParts))) }
{}

/// What a step of an unbounded premise picks is no use of the step.
pub fn picked_in_an_unbounded_premise()
    ensures { deal (1 ∷ 2 ∷ []) (ClauseNode 9 0 []
        (BoundedPart [] EraseNode (UnboundedPart (fact 1) (BoundedPart [] (fact 2) NoParts))))
        ≡ ClauseNode 9 0 [] (BoundedPart (1 ∷ []) EraseNode
        (UnboundedPart (fact 1) (BoundedPart (2 ∷ []) (fact 2) NoParts))) }
{}
