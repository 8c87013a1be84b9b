//! The blocks of a PowerPC program: stretches of code words that run one behind another.
#![tactic(auto)]

mod block;
mod boundaries;
mod branches;
mod code;
mod flow_words;
mod laws;
mod program;
mod spans;

pub use block::{Block, BlockList, Blocks, Words};
pub use boundaries::leaders;
pub use branches::named_place;
pub use code::Code;
pub use flow_words::is_flow_word;
pub use laws::{
    each_begins_one, each_is_block, have_few_words, leads_to_leaders, one_leader_set,
    one_list_of_words,
};
pub use program::blocks;
pub use spans::Run;
