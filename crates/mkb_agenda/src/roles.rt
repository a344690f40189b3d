// How a process has a node, and which rules are open to a node.
ghost use Rattle.std.specs.Prelude.{◌≡◌};
ghost use Rattle.mkb_model.specs.Plain.{other};
ghost use Rattle.mkb_rules.specs.Named.{IsThere};
ghost use Rattle.mkb_rules.specs.Roles.{AreRolesOf, has_rule, roles_of};
ghost use Rattle.mkb_agenda.specs.Open.{is_open_in, is_open_to};

use kb_label::Process;
use kb_node::{LabelKind, NodeId};
use kb_term::{Found, RuleRef};
use mkb_rules::{KnownOn, Roles, State};

/// How the process has the node, by what is kept of it for the first nodes. It takes constant time for these.
pub fn roles_by(state: &State, kept: &[Roles], p: &Process, n: NodeId) -> Roles
    requires there { IsThere state.now n.0 }
    requires kept { AreRolesOf state.now.nodes p.now kept.now }
    ensures roles { result ≡ roles_of state.now p.now n.0 }
{
    match kept.get(n.0 as usize) {
        Some(roles) => *roles,
        None => roles_of(state, p, n),
    }
}

// How the process has the node, by its labels.
fn roles_of(state: &State, p: &Process, n: NodeId) -> Roles
    requires { IsThere state.now n.0 }
    ensures { result ≡ roles_of state.now p.now n.0 }
{
    Roles {
        equation: state.has_label(p, n, LabelKind::E),
        first: state.has_label(p, n, LabelKind::R0),
        second: state.has_label(p, n, LabelKind::R1),
    }
}

/// Whether whoever has the node so has the rule with this side on the right.
pub fn leads_to(roles: Roles, w: u8) -> bool
    ensures rule { result ≡ has_rule roles (other w) }
{
    if w == 0 { roles.second } else { roles.first }
}

/// A node in the roles in which a process has it, with what is known of the node.
#[derive(Clone, Copy)]
pub struct OpenTo<'a> {
    pub known: &'a KnownOn<'a>,
    pub roles: Roles,
}

impl<'a> OpenTo<'a> {
    /// Whether some side of the node is open to the rule, which is of another node: nothing is known of the side and the rule, or a
    /// redex that whoever has the node so may rewrite.
    #[inline]
    pub fn is_open(&self, rule: RuleRef) -> bool
        ensures { result ≡ is_open_to self.now.known.now.board self.now.roles self.now.known.now.node.0 rule }
    {
        if rule.node == self.known.node().0 {
            return false;
        }
        let (first, second) = self.known.sides(rule);
        is_open_side(self.roles, 0, first) || is_open_side(self.roles, 1, second)
    }
}

// Whether the side, of which this is known, is open where a process has the node in these roles.
fn is_open_side(roles: Roles, w: u8, known: Option<Found>) -> bool
    ensures { result ≡ is_open_in roles w known }
{
    match known {
        None => true,
        Some(Found::No) => false,
        Some(Found::Variant) => roles.equation || leads_to(roles, w),
        Some(Found::Strict) => true,
    }
}

/// Whether some side is open to the rule, which is of another node, where a process has the node in these roles: nothing is known of
/// the side and the rule, or a redex that whoever has the node so may rewrite.
pub fn is_open_to(state: &State, roles: Roles, n: NodeId, rule: RuleRef) -> bool
    ensures open { result ≡ is_open_to state.now roles n.0 rule }
{
    let known = state.known_on(n);
    let node = OpenTo {
        known: &known,
        roles,
    };
    node.is_open(rule)
}
