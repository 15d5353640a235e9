ghost use Rattle.kk_base.specs.Sizes.{AreSizes};
ghost use Rattle.kk_command.specs.ProgramSizes.{IsProgramSize};

/// The sizes that a program is run with.
#[derive(Clone, Copy)]
pub struct Sizes {
    /// The cells of its heap.
    pub cells: u32,
    /// How many of its calls may be open at a time.
    pub depth: u32,
    pub ghost allowed: { AreSizes cells depth },
}

/// How a program is run.
#[derive(Clone, Copy)]
pub struct RunOptions {
    /// The sizes that its image is built with.
    pub sizes: Sizes,
    /// How many instructions are executed at most.
    pub steps: u64,
    /// Whether it is told what the run took, where the program ends by itself.
    pub stats: bool,
}

/// Which program is generated.
#[derive(Clone, Copy)]
pub struct Generation {
    /// What its functions depend on.
    pub seed: u32,
    /// How many functions `f1`, `f2` and so on it has.
    pub size: u32,
    pub ghost allowed: { IsProgramSize size },
}

/// What the words of the line ask for.
#[derive(Clone, Copy)]
pub enum Command<'a> {
    /// `check FILE`: judge the text in the file.
    Check {
        file: &'a str,
    },
    /// `build FILE -o OUT`: write the image of the text in the file to another file.
    Build {
        file: &'a str,
        out: &'a str,
        sizes: Sizes,
    },
    /// `run FILE`: run the image of the text in the file.
    Run {
        file: &'a str,
        options: RunOptions,
    },
    /// `sim IMAGE`: run the image in the file, for at most so many instructions.
    Sim {
        image: &'a str,
        steps: u64,
    },
    /// `eval FILE`: run the text in the file by its definition, for at most so many steps.
    Eval {
        file: &'a str,
        sizes: Sizes,
        steps: u64,
    },
    /// `bench SEED SIZE`: run the image of a generated program, for at most so many instructions, and tell what it took.
    Bench {
        generation: Generation,
        sizes: Sizes,
        steps: u64,
    },
}
