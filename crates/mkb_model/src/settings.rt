// What a run is told beside its problem.
ghost use Rattle.std.specs.Prelude.{◌≡◌};
ghost use Rattle.mkb_model.specs.Journals.{stated};

use kb_cert::Family;

/// Which due job is taken first, where several could be.
#[derive(Clone, Copy, Debug, PartialEq, Eq)]
pub enum Selection {
    /// By the cost of the process, its name, the kind of the job and the numbers in it. The cost counts the equations and
    /// the constraints of the process.
    Stated,
    /// By the cost of the process, its name, the kind of the job, its weight and the numbers in it. The cost counts the
    /// rules of the process too, and the weight of a job is the size of the nodes that it names, so that small rules are
    /// overlapped before large ones.
    Size,
}

/// The settings of a run, which stay from its opening board to its end.
#[derive(Clone, Copy, Debug, PartialEq, Eq)]
pub struct Settings {
    /// How many commits may be made.
    pub budget: u32,
    /// Which due job is taken first.
    pub selection: Selection,
    /// Which orders are searched for a certificate.
    pub family: Family,
}

impl Settings {
    /// The settings with this budget under which the stated job comes first and the stated orders are searched.
    pub fn stated(budget: u32) -> Settings
        ensures { result ≡ stated budget }
    {
        Settings {
            budget,
            selection: Selection::Stated,
            family: Family::Stated,
        }
    }
}
