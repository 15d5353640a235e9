ghost use Rattle.std.specs.Prelude.{List};
ghost use Rattle.kk_syntax.specs.Checked.{IsChecked};
ghost use Rattle.kk_syntax.specs.Programs.{ProgramTree};
ghost use Rattle.kk_syntax.specs.Typing.{Choice};
ghost use Rattle.kk_mono.specs.Instances.{InstanceTree, IsInstanceProgram};
ghost use Rattle.kk_instances.specs.Meaning.{MeansTheSame};

/// The instances of a checked program are typed, their matches are covered, and they mean what the program means: on every
/// input they have the same events, the same numbers of live cells and of call frames, and the same ending, step by step. It
/// is a law, and does nothing.
pub fn instances_mean_the_program()
    ensures { (program made : ProgramTree) (typings : List (List Choice)) (instances : List InstanceTree)
        → IsChecked program typings → IsInstanceProgram program typings instances made → MeansTheSame program made }
{}
