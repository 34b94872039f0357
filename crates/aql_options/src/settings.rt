use aql_plan::Rules;

/// How a run goes.
#[derive(Clone, Copy, Debug, PartialEq, Eq)]
pub struct Settings {
    /// The number of servers; 0 is one place.
    pub servers: u32,
    /// How many rows a step of a run gives at most.
    pub batch: u32,
    /// The schedule of deliveries between servers.
    pub schedule: u64,
    /// The rules that the optimiser applies.
    pub rules: Rules,
    /// Whether the plan is printed, and not run.
    pub explain: bool,
    /// Whether the deliveries are printed.
    pub trace: bool,
    /// Whether the counts are printed.
    pub stats: bool,
    /// The number of documents of the script that is made, where none is read.
    pub generate: Option<u32>,
}
