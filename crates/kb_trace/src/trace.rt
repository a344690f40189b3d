// Traces.
ghost use Rattle.std.specs.Prelude.{◌≡◌};

use kb_term::{Origin, Pair};
use std::alloc::AllocError;
use std::marker::Model;

/// A step of a trace: a pair, and how it follows from the equations and the pairs of earlier steps, which are cited by
/// their numbers from 1.
#[derive(Drop)]
pub struct Step {
    origin: Origin,
    pair: Pair,
}

impl Model for Step {
    ghost use Rattle.std.specs.Coded.{codes};
    ghost use Rattle.kb_term.specs.Coding.{coded_pair};
    ghost use Rattle.kb_overlap.specs.Trace.{TraceStep};

    ghost Value = { TraceStep };

    ghost coded = { Prim.hlevel (codes, coded_pair) };

    ghost view = { λ s. record { origin = s.origin; pair = s.pair } };
}

impl Step {
    /// The step that makes the pair.
    pub fn new(origin: Origin, pair: Pair) -> Step
        ensures origin { result.origin ≡ origin }
        ensures pair { result.pair ≡ pair }
    {
        Step { origin, pair }
    }

    /// How the pair follows.
    pub fn origin(&self) -> &Origin
        ensures { result.now ≡ self.now.origin }
    {
        &self.origin
    }

    /// The pair.
    pub fn pair(&self) -> &Pair
        ensures { result.now ≡ self.now.pair }
    {
        &self.pair
    }

    /// Both, given back without a copy.
    pub fn into_parts(self) -> (Origin, Pair)
        ensures origin { result.0 ≡ self.origin }
        ensures pair { result.1 ≡ self.pair }
    {
        (self.origin, self.pair)
    }
}

impl Clone for Step {
    ghost is_clone = { λ a b. b ≡ a };

    fn clone(&self) -> Result<Step, AllocError> {
        let origin = self.origin.clone()?;
        let pair = self.pair.clone()?;
        Ok(Step { origin, pair })
    }
}

/// The steps of a trace, numbered from 1. Contracts see it as the list of its steps.
#[derive(Drop)]
pub struct Trace {
    steps: Vec<Step>,
}

impl Model for Trace {
    ghost use Rattle.std.specs.Prelude.{List};
    ghost use Rattle.std.specs.Coded.{codes};
    ghost use Rattle.kb_term.specs.Coding.{coded_pair};
    ghost use Rattle.kb_overlap.specs.Trace.{TraceStep};

    ghost Value = { List TraceStep };

    ghost coded = { Prim.hlevel (codes, coded_pair) };

    ghost view = { λ t. t.steps.items };
}

impl Trace {
    /// The trace of these steps.
    pub fn new(steps: Vec<Step>) -> Trace
        ensures { result ≡ steps.items }
    {
        Trace { steps }
    }

    /// The steps, in their order.
    pub fn steps(&self) -> &[Step]
        ensures { result.now ≡ self.now }
    {
        &self.steps
    }

    /// The steps, given back without a copy.
    pub fn into_steps(self) -> Vec<Step>
        ensures { result.items ≡ self }
    {
        self.steps
    }
}

impl Clone for Trace {
    ghost is_clone = { λ a b. b ≡ a };

    fn clone(&self) -> Result<Trace, AllocError> {
        let steps = self.steps.clone()?;
        Ok(Trace { steps })
    }
}
