ghost use Rattle.std.specs.Prelude.{◌+◌, ◌-◌, ◌≤◌, ℕ};
ghost use Rattle.kk_syntax.specs.GroundTyping.{table_of, IsGroundTyped};
ghost use Rattle.kk_syntax.specs.Programs.{ProgramTree};
ghost use Rattle.kk_syntax.specs.Shapes.{greatest_nodes};
ghost use Rattle.kk_core.specs.Kinds.{AllAskTyped};
ghost use Rattle.kk_core.specs.Cases.{CasesAreWhole};
ghost use Rattle.kk_core.specs.CodeNodes.{StandForNodes};
ghost use Rattle.kk_core.specs.Codes.{ProgramCode};
ghost use Rattle.kk_core.specs.CoreTyping.{IsCoreTyped, IsSmall};
ghost use Rattle.kk_core.specs.Sizes.{most_parameters};
ghost use Rattle.kk_core.specs.Unpackings.{UnpackAtMost};
ghost use Rattle.kk_core.specs.VariableBounds.{HaveVariablesAtMost};
ghost use Rattle.kk_norm.specs.Meaning.{KeepsMeaningByCells, CostsLittle};
ghost use Rattle.kk_norm.specs.Normal.{IsWithin};
ghost use Rattle.kk_norm.specs.Normalized.{IsCoreForm};

/// A core form of a program that is typed, and whose matches are covered, keeps its meaning: its machine tells the same events,
/// the same numbers of live places and of call frames, and ends alike, on every input, for all lent positions, cells and
/// depth; with at most two steps for a step of the source, and one more for each cell that a row of a match opens. Its
/// decisions are those of its matches (`AreDecisions`). It is a law, and does nothing.
pub fn core_forms_of_typed_programs_keep_meaning()
    ensures { (program : ProgramTree) (code : ProgramCode) → IsGroundTyped program → IsCoreForm program code → KeepsMeaningByCells program code }
{}

/// A core form asks what types tell: for each value of a type that all the patterns of a match are of, each answer that a
/// test of its decisions finds is of the type of its edges. It is a law, and does nothing.
pub fn core_forms_ask_what_types_tell()
    ensures { (program : ProgramTree) (code : ProgramCode) → IsCoreForm program code → AllAskTyped program.constructors code }
{}

/// A core form of a program that is typed, and whose matches are covered, costs little: the steps that do one step of the program
/// cost at most 256 times the square of the nodes of the greatest body. A step costs so much, and so much more for each argument or
/// field, and for all that a case looks at: nodes of tests, fields on the way to their positions, and edges. It is a law, and does
/// nothing.
pub fn core_forms_of_typed_programs_cost_little()
    ensures { (program : ProgramTree) (code : ProgramCode) → IsGroundTyped program → IsCoreForm program code → CostsLittle program code }
{}

/// A core form of a program that is within the limits is small: a node of a body binds at most one variable, and makes at most
/// two forms; and the tests of its matches are short together. It is a law, and does nothing.
pub fn core_forms_are_small()
    ensures { (program : ProgramTree) (code : ProgramCode) → IsCoreForm program code → IsWithin program → IsSmall code }
{}

/// No function of a core form has more variables than the greatest body has nodes, and a parameter for each that a function may have.
/// It is a law, and does nothing.
pub fn core_forms_have_few_variables()
    ensures { (program : ProgramTree) (code : ProgramCode) → IsCoreForm program code → IsWithin program
        → (nodes : ℕ) → greatest_nodes program ≤ nodes → HaveVariablesAtMost (nodes + most_parameters) code }
{}

/// A core form of a program that is typed, and whose matches are covered, is typed by what is known of its variables, and its
/// variables are in order. It is a law, and does nothing.
pub fn core_forms_of_typed_programs_are_typed()
    ensures { (program : ProgramTree) (code : ProgramCode) → IsGroundTyped program → IsCoreForm program code → IsCoreTyped (table_of program) code }
{}

/// Each case of a core form has an arm for each row of its decisions. It is a law, and does nothing.
pub fn core_forms_are_whole()
    ensures { (program : ProgramTree) (code : ProgramCode) → IsCoreForm program code → CasesAreWhole code }
{}

/// A core form opens fewer cells on a path than the greatest body of its program has nodes. It is a law, and does nothing.
pub fn core_forms_open_few_cells()
    ensures { (program : ProgramTree) (code : ProgramCode) → IsCoreForm program code
        → (nodes : ℕ) → greatest_nodes program ≤ nodes → UnpackAtMost (nodes - 1) code }
{}

/// Each function of a core form stands for the nodes of its body: it has no more of them, its forms take at most 116 words of an
/// image for each, but for those that grow with pairs of nodes, the tests of its cases are brief, and its openings have fields. It
/// is a law, and does nothing.
pub fn core_forms_stand_for_their_nodes()
    ensures { (program : ProgramTree) (code : ProgramCode) → IsCoreForm program code → StandForNodes program.functions code.functions }
{}
