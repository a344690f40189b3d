// What an effect came to.
ghost use Rattle.std.specs.Prelude.{◌≡◌};
ghost use Rattle.mkb_rules.specs.Applying.{untargeted};

use kb_label::Reason;
use kb_node::NodeId;
use kb_term::Memory;

/// What an effect came to.
#[derive(Clone, Copy, Debug, PartialEq, Eq)]
pub enum Applied {
    /// The proposal had its effect.
    Done,
    /// At a limit, processes gave up for this reason.
    Over(Reason),
}

/// What a commit came to, and the node to which a rewriting led: none where its result is trivial, and for all other commits.
#[derive(Clone, Copy, Debug, PartialEq, Eq)]
pub struct Committed {
    pub applied: Applied,
    pub target: Option<NodeId>,
}

// The answer of a commit that leads to no node.
pub(crate) fn without_target(applied: Result<Applied, Memory>) -> Result<Committed, Memory>
    ensures { result ≡ untargeted applied }
{
    match applied {
        Ok(applied) => Ok(Committed {
            applied,
            target: None,
        }),
        Err(fault) => Err(fault),
    }
}
