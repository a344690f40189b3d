// Answers.
ghost use Rattle.std.specs.Prelude.{◌≡◌};
ghost use Rattle.kb_checker.specs.Answers.{IsAnswer};

use kb_cert::Certificate;
use kb_term::{Problem, Rule};
use kb_trace::Trace;
use std::marker::Model;

/// Rules for a problem and the constraints on their order, each with the trace step that it cites; the order, which shows that
/// the rules halt; and the trace.
///
/// Constraints are the rules that its run oriented, those too that it simplified away later: the order was chosen for all of
/// them.
///
/// Its parts have the forms that the text of an answer may have: a problem within the limits; at most 4,096 rules and at most
/// 4,096 constraints, each within the limits and numbered by first occurrence, which cites a number from 1 to 4,096; an order
/// of the signature with constants to 15 and coefficients from 1 to 3; at most 4,096 steps, each with a canonical pair within
/// the limits. Whether it is good is another question.
#[derive(Drop)]
pub struct Answer {
    problem: Problem,
    rules: Vec<(Rule, u32)>,
    constraints: Vec<(Rule, u32)>,
    cert: Certificate,
    trace: Trace,
}

impl Model for Answer {
    ghost use Rattle.std.specs.Coded.{codes};
    ghost use Rattle.kb_term.specs.Coding.{coded_pair, coded_rule, coded_problem};
    ghost use Rattle.kb_checker.specs.Answers.{Answer, IsAnswer};

    ghost Value = { Answer };

    ghost coded = { Prim.hlevel (codes, coded_pair, coded_rule, coded_problem) };

    ghost view = { λ a. record { problem = a.problem; rules = a.rules.items; constraints = a.constraints.items; cert = a.cert; trace = a.trace } };

    ghost invariant = { λ a. IsAnswer (record { problem = a.problem; rules = a.rules.items; constraints = a.constraints.items; cert = a.cert; trace = a.trace }) };
}

impl Answer {
    /// The answer of these parts.
    pub fn new(
        problem: Problem,
        rules: Vec<(Rule, u32)>,
        constraints: Vec<(Rule, u32)>,
        cert: Certificate,
        trace: Trace,
    ) -> Answer
        requires { IsAnswer (record { problem = problem; rules = rules.items; constraints = constraints.items; cert = cert; trace = trace }) }
        ensures { result ≡ record { problem = problem; rules = rules.items; constraints = constraints.items; cert = cert; trace = trace } }
    {
        Answer {
            problem,
            rules,
            constraints,
            cert,
            trace,
        }
    }

    /// The problem.
    pub fn problem(&self) -> &Problem
        ensures problem { result.now ≡ self.now.problem }
        ensures kept { IsAnswer self.now }
    {
        &self.problem
    }

    /// The parts have the forms that their texts may have. It runs nothing: each answer keeps this.
    pub fn has_form(&self)
        ensures { IsAnswer self.now }
    {
        self.problem();
    }

    /// The rules, each with the trace step that it cites.
    pub fn rules(&self) -> &[(Rule, u32)]
        ensures { result.now ≡ self.now.rules }
    {
        &self.rules
    }

    /// The constraints, each with the trace step that it cites.
    pub fn constraints(&self) -> &[(Rule, u32)]
        ensures { result.now ≡ self.now.constraints }
    {
        &self.constraints
    }

    /// The order that shows that the rules halt, and orders the constraints.
    pub fn cert(&self) -> &Certificate
        ensures { result.now ≡ self.now.cert }
    {
        &self.cert
    }

    /// The trace.
    pub fn trace(&self) -> &Trace
        ensures { result.now ≡ self.now.trace }
    {
        &self.trace
    }
}
