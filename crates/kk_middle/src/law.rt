ghost use Rattle.std.specs.Prelude.{◌≡◌, List, map};
ghost use Rattle.kk_syntax.specs.declared.ground.Ground.{Ground};
ghost use Rattle.kk_syntax.specs.declared.ground.GroundConstructor.{GroundConstructor};
ghost use Rattle.kk_syntax.specs.declared.typed.Typed.{Typed};
ghost use Rattle.kk_syntax.specs.GroundPrograms.{ground_program};
ghost use Rattle.kk_syntax.specs.OwnedPositions.{owned_in, Told, ClosedUnderTailCalls};
ghost use Rattle.kk_syntax.specs.PositionsOf.{PositionTable};
ghost use Rattle.kk_syntax.specs.Programs.{ProgramTree};
ghost use Rattle.kk_syntax.specs.Typing.{Choice};
ghost use Rattle.kk_mono.specs.Instances.{InstanceTree, IsInstanceProgram};
ghost use Rattle.kk_instances.specs.Meaning.{positions_in};
ghost use Rattle.kk_mono.specs.Grounds.{AreGiven};
ghost use Rattle.kk_core.specs.CellTypes.{TellsCells};
ghost use Rattle.kk_core.specs.Codes.{ProgramCode};
ghost use Rattle.kk_core.specs.ConstructorShapes.{AreConsistent};
ghost use Rattle.kk_core.specs.declared.form.Core.{Core};
ghost use Rattle.kk_core.specs.declared.shape.ConstructorShape.{ConstructorShape};
ghost use Rattle.kk_norm.specs.Normalized.{IsCoreForm};
ghost use Rattle.kk_insert.specs.Promise.{TailsLendOn};
ghost use Rattle.kk_middle.specs.LentNames.{AllKeepLent};

/// Where a program's owned positions are closed under the rule on tail calls, its core form's tail calls lend only what is lent.
/// No binder on the way to a tail call may have the number of a lent variable, as where each binder of a function has a number
/// of its own. It is a law, and does nothing.
pub fn tail_calls_of_core_forms_lend_on()
    ensures { (program : ProgramTree) (code : ProgramCode) (positions : PositionTable)
        → IsCoreForm program code → Told program positions → ClosedUnderTailCalls program (owned_in positions)
        → AllKeepLent program positions → TailsLendOn positions code }
{}

/// Where a program's owned positions are closed under the rule on tail calls, so are those of its instances, which are those of
/// the functions that they are. So the law above holds of the instances. It is a law, and does nothing.
pub fn owned_positions_of_instances_are_closed()
    ensures told { (program made : ProgramTree) (typings : List (List Choice)) (instances : List InstanceTree) (table : PositionTable)
        → IsInstanceProgram program typings instances made → Told program table → Told made (positions_in instances table) }
    ensures closed { (program made : ProgramTree) (typings : List (List Choice)) (instances : List InstanceTree) (table : PositionTable)
        → IsInstanceProgram program typings instances made → Told program table
        → ClosedUnderTailCalls program (owned_in table) → ClosedUnderTailCalls made (owned_in (positions_in instances table)) }
    ensures keeps { (program made : ProgramTree) (typings : List (List Choice)) (instances : List InstanceTree) (table : PositionTable)
        → IsInstanceProgram program typings instances made → Told program table
        → AllKeepLent program table → AllKeepLent made (positions_in instances table) }
{}

/// What the core form of a program's instances tells of their constructors is consistent: the constructors of a type have the
/// tags 0, 1, 2 and so on in their order, and a type has cells exactly where one of its constructors has a field. It is a law,
/// and does nothing.
pub fn core_constructors_are_consistent()
    ensures { (typed : Typed) (given : Ground) (core : Core) → AreGiven typed given → TellsCells (ground_program given) core
        → map (λ (c : ConstructorShape). c.of_type) core.constructors.items
        ≡ map (λ (c : GroundConstructor). c.of_type) given.constructors.items
        → AreConsistent core.constructors.items }
{}
