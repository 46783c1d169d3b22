/// Which of the sentences are read that a configuration decides on.
#[derive(Clone, Copy)]
pub struct OptionalSentences {
    /// RMC: a position, and the course and speed over ground.
    pub rmc: bool,
    /// DBT: a depth. A sounder that says DPT too says its depth in both.
    pub dbt: bool,
}

impl OptionalSentences {
    /// Those that are read if a configuration says nothing else.
    pub const USUAL: OptionalSentences = OptionalSentences {
        rmc: false,
        dbt: true,
    };
}
