// How a board stands as a ticket is taken.
ghost use Rattle.std.specs.Prelude.{◌≡◌};
ghost use Rattle.work_crew.specs.Moments.{moment_at};

use kb_io::Moment;
use mkb_board::Board;
use mkb_model::Ticket;

/// How the board stands where the ticket was just taken, with what its process costs where that is asked for. It reads counts that the
/// board keeps; for a cost alone it goes over the nodes.
pub(crate) fn moment_of(board: &Board, ticket: &Ticket, with_cost: bool) -> Moment
    ensures { result ≡ moment_at with_cost board.now.plain ticket.now }
{
    let living = board.living();
    let cost = if with_cost {
        Some(board.cost_of(&ticket.job))
    } else {
        None
    };
    Moment {
        ticket: ticket.number,
        commits: board.commits(),
        nodes: board.nodes().len(),
        living,
        awake: living.saturating_sub(board.asleep()),
        cost,
    }
}
