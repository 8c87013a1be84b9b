//! Laws of blocks. Each is the contract of a function that does nothing.
ghost use Rattle.std.specs.Prelude.{◌≡◌, ℕ, ◌↔◌, List, Bool};
ghost use Rattle.machines.specs.Prelude.{Program};
ghost use Rattle.code_words.specs.Words.{HasWords};
ghost use Rattle.block_find.specs.Blocks.{AreLeaders, IsIn};
ghost use Rattle.block_find.specs.Laws.{AllHaveFewWords, EachBeginsOne, EachIsBlock, LeadsToLeaders};

/// A program has one list of code words.
pub fn one_list_of_words()
    ensures { (program : Program) (first : ℕ) (a b : List ℕ) → HasWords program first a → HasWords program first b → a ≡ b }
{}

/// There is one set of leaders: though the definition speaks of leaders, it says which words are some.
pub fn one_leader_set()
    ensures { (first entry : ℕ) (words : List ℕ) (a b : List Bool) → AreLeaders first entry words (IsIn a) → AreLeaders first entry words (IsIn b)
        → (k : ℕ) → IsIn a k ↔ IsIn b k }
{}

/// Every block, of a leader or a single, has from 1 to 64 code words that stand one behind another, none
/// but the last a flow word.
pub fn each_is_block()
    ensures { EachIsBlock }
{}

/// Every code word begins one of all the blocks, and no other.
pub fn each_begins_one()
    ensures { EachBeginsOne }
{}

/// A leader's block begins with each code word that a branch names, and behind each leader's block.
pub fn leads_to_leaders()
    ensures { LeadsToLeaders }
{}

/// The leaders' blocks have as many words as the program has code words, and the singles no more.
pub fn have_few_words()
    ensures { AllHaveFewWords }
{}
