//! Worked examples of sessions with software breakpoints. Each is the contract of a function that does nothing; `specs/SoftExamples.antt` has
//! the statements.

ghost use Rattle.soft_laws.specs.SoftExamples.{SoftExamplesHappen};

/// A breakpoint in a loop, met twice and stepped over, under which memory reads as it was; and two that are refused.
pub fn soft_examples_happen()
    ensures { SoftExamplesHappen }
{}
