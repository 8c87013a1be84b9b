//! What holds of prices. Each law is the contract of a function that does nothing of its own.

ghost use Rattle.offer_make.specs.Examples.{PricesCompute};
ghost use Rattle.offer_make.specs.Prices.{BasePricesAreLow};
ghost use Rattle.offer_make.specs.Problem.{EachHasLiveSets};

use base_flow::flow_tiles_are_marked;
use block_find::each_is_block;

/// Every base tile costs less than 1024.
pub fn base_prices_are_low()
    ensures { BasePricesAreLow }
{
    base_alu::tiles_are_tiles();
    base_mem::tiles_are_tiles();
    flow_tiles_are_marked();
}

/// The blocks of a program are blocks of that with its live sets, so that each has a problem.
pub fn blocks_have_live_sets()
    ensures { EachHasLiveSets }
{
    each_is_block();
}

/// The definitions of prices and of moves compute these examples, which were worked out by hand.
pub fn prices_compute()
    ensures { PricesCompute }
{}
