// What rewriting a store keeps, as contracts: without its proof a statement is not taken.
ghost use Rattle.propagation.specs.Laws.{PropagationKeeps, RewritingKeeps, RewritingFollows};

// Propagation and replaced representatives keep the assignments that a store and its table stand for.
pub fn rewriting_keeps()
    ensures propagated { PropagationKeeps }
    ensures kept { RewritingKeeps }
    ensures followed { RewritingFollows }
{}
