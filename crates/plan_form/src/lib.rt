//! Plans of a block: problems, plans with their costs, labels that bound every plan from below, and the text of plans.
#![tactic(auto)]

mod check;
mod cost;
mod fault;
mod fields;
mod index;
mod laws;
mod line;
mod maps;
mod order;
mod parsing;
mod printing;
mod problem;
mod progress;
mod step_words;

pub use check::check_labels;
pub use cost::{move_price, offer_of, plan_cost};
pub use fault::TextFault;
pub use index::{KEYS, index_in, map_indexes};
pub use laws::{certified_cost_is_least, one_line, one_list};
pub use maps::{map_behind, same_map};
pub use order::order_of;
pub use parsing::parse;
pub use printing::print;
pub use problem::{BadLabel, BlockPlan, Labels, MovePrice, Offer, Plan, Problem, Step, Tile};
