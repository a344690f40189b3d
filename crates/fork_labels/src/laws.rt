// What a fork does to labels.
ghost use Rattle.fork_labels.specs.ForkLaws.{RelabelsEach, StaysUnder, ComesOfForks};

/// A fork is lent the log alone; afterwards each label that was made under the log, or before its last forks, stands for
/// the set for which it stood with both children in the place of their parent.
pub fn forks_relabel_each_label()
    ensures relabels { RelabelsEach }
    ensures under { StaysUnder }
    ensures living { ComesOfForks }
{}
