// What the crates above speak of: questions, their answers, and the designs that the questions ask for.
#![tactic(auto)]

mod cells;
mod codes;
mod limits;
mod query;
mod refusal;
mod rule;
mod step;
mod verdict;

pub use cells::{CELLS, cell_of, query_of};
pub use codes::{code, read_code};
pub use limits::{
    BLOCK_DIGITS_MAX, COVER_MAX, DERIVATION_MAX, DIGITS_MAX, GDD_K_MAX, INPUT_MAX, LINE_MAX,
    PACKED_MAX, PARAMETER_MAX, PBD_S_MAX, POINTS_MAX, PREMISES_MAX, TD_K_MAX, TD_N_MAX,
    WORKERS_MAX, WORKLOAD_MAX,
};
pub use query::{
    FIELD_ORDERS, Group, Query, TableAsk, in_bounds, is_field_order, is_same, is_within,
};
pub use refusal::Memory;
pub use rule::{Kind, RULES, Rule, RuleTitle, rule_at, rule_named};
pub use step::Step;
pub use verdict::{CRITERIA, Criterion, Verdict};
