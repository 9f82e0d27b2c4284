use mk_value::Text;
use storage::Mode;

/// What words ask for.
#[derive(Debug, Drop)]
pub struct Job {
    /// The name of the file, which is not empty.
    pub file: Text,
    /// The name of the base that is served, where the file is an aside file.
    pub aside: Option<Text>,
    /// How its store is used.
    pub mode: Mode,
    /// Where a commit may end at most: 208 to 2147483632.
    pub cap: u64,
    /// What is done with it.
    pub task: Task,
}

/// What is done with a store.
#[derive(Clone, Copy, Debug, PartialEq, Eq)]
pub enum Task {
    /// Lines are answered.
    Serve,
    /// The store is looked at as a whole, and a report on it is said.
    Check,
    /// The lines of a sample are answered in place of the input's, over a store that is made.
    Sample {
        /// The number that makes the sample.
        number: u64,
        /// How many edits it has: at most 1000000.
        count: u32,
    },
    /// The stream of the store is said.
    Save,
    /// The input is taken as a stream, and a store is made of it in an empty file.
    Load,
}
