// How processes have nodes.
ghost use Rattle.std.specs.Prelude.{◌≡◌, ◌++◌, ◌∷◌, [], if◌then◌else◌, IsTrue, OnOk};
ghost use Rattle.mkb_rules.specs.Roles.{is_in_use, no_roles, rules_in, with_role};

use kb_node::{LabelKind, NodeId};
use kb_term::RuleRef;
use std::alloc::AllocError;

/// How a process has a node: as an equation, and as the rule of each direction.
#[derive(Clone, Copy, Debug, PartialEq, Eq)]
pub struct Roles {
    pub equation: bool,
    pub first: bool,
    pub second: bool,
}

impl Roles {
    /// Neither as an equation nor as a rule.
    pub(crate) fn none() -> Roles
        ensures { result ≡ no_roles }
    {
        Roles {
            equation: false,
            first: false,
            second: false,
        }
    }

    /// Whether whoever has the node so has it at all.
    pub fn is_in_use(self) -> bool
        ensures { result ≡ is_in_use self }
    {
        self.equation || (self.first || self.second)
    }

    /// Whether both are the same.
    pub fn is_same(self, other: Roles) -> bool
        ensures { IsTrue result → self ≡ other }
    {
        self.equation == other.equation && self.first == other.first && self.second == other.second
    }

    /// The roles after the label of this kind has come to name the process, or not to name it.
    pub(crate) fn with(self, kind: LabelKind, is_named: bool) -> Roles
        ensures { result ≡ with_role self kind is_named }
    {
        match kind {
            LabelKind::E => Roles {
                equation: is_named,
                ..self
            },
            LabelKind::R0 => Roles {
                first: is_named,
                ..self
            },
            LabelKind::R1 => Roles {
                second: is_named,
                ..self
            },
            LabelKind::C0 | LabelKind::C1 | LabelKind::X => self,
        }
    }
}

/// Adds the node, where whoever has it so has it at all.
///
/// # Errors
///
/// Want of memory.
pub fn push_held(held: &mut Vec<NodeId>, n: NodeId, roles: Roles) -> Result<(), AllocError>
    ensures { OnOk result (held.new.items ≡ held.old.items ++ (if is_in_use roles then n ∷ [] else [])) }
{
    if roles.is_in_use() {
        held.push(n)?;
    }
    Ok(())
}

/// Adds the rules of whoever has the node so.
///
/// # Errors
///
/// Want of memory.
pub fn push_rules(rules: &mut Vec<RuleRef>, node: u16, roles: Roles) -> Result<(), AllocError>
    ensures { OnOk result (rules.new.items ≡ rules.old.items ++ rules_in node roles) }
{
    if roles.first {
        rules.push(RuleRef { node, dir: 0 })?;
    }
    if roles.second {
        rules.push(RuleRef { node, dir: 1 })?;
    }
    Ok(())
}
