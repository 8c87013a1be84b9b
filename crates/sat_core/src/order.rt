//! In which order variables are decided, and which value is tried first. No promise rests on it.
use crate::search::LAST_VARIABLE;
use std::alloc::Global;
use watched_literals::{Levels, Literal};
use word_kit::NoMemory;

/// What a conflict adds to the score of each variable that it was found by.
const BUMP: u64 = 1 << 20;

/// How many clauses are learned before older conflicts count half.
const DECAY_INTERVAL: usize = 40;

/// The literal of a variable that is decided first, how much the variable was seen in conflicts of late, and whether it was
/// since the variables were ranked.
#[derive(Clone, Copy)]
struct Preference {
    score: u64,
    literal: Literal,
    is_seen: bool,
}

impl Preference {
    /// Variables of less rank are decided first: those of a higher score, and of one score those of greater numbers, since a
    /// formula that is written gate by gate numbers what rests on other variables behind them.
    fn rank(&self) -> (u64, u32) {
        (u64::MAX - self.score, u32::MAX - self.literal.variable())
    }
}

/// A preference for each variable, by number, and the last order of the variables.
#[derive(Drop)]
pub struct Order {
    preferences: Vec<Preference>,
    ranked: Vec<usize>,
    learned: usize,
}

/// Where the preference of the literal's variable stands.
fn index_of(literal: Literal) -> usize {
    (literal.variable() as usize).wrapping_sub(1)
}

impl Order {
    /// All variables alike, and false first.
    pub fn new(alloc: Global, variables: u32) -> Result<Order, NoMemory> {
        let mut preferences = Vec::new(alloc);
        let mut ranked = Vec::new(alloc);
        for index in 0..variables.min(LAST_VARIABLE) {
            preferences.push(Preference {
                score: 0,
                literal: Literal::of_variable(index + 1).opposite(),
                is_seen: false,
            })?;
        }
        for index in (0..preferences.len()).rev() {
            ranked.push(index)?;
        }
        Ok(Order {
            preferences,
            ranked,
            learned: 0,
        })
    }

    /// The preferences of the variables that were seen since the last ranking, or of the others, in the order of that.
    fn seen(&self, alloc: Global, is_seen: bool) -> Result<Vec<Preference>, NoMemory> {
        let mut found = Vec::new(alloc);
        for index in &self.ranked {
            if let Some(preference) = self.preferences.get(*index) {
                if preference.is_seen == is_seen {
                    found.push(*preference)?;
                }
            }
        }
        Ok(found)
    }

    /// The literals that are decided one after the other: those of the highest scores first. Variables that weren't seen are in
    /// order still, so the second sort is one merge.
    pub fn literals(&mut self, alloc: Global) -> Result<Vec<Literal>, NoMemory> {
        let mut sorted = self.seen(alloc, true)?;
        sorted.sort_by_key(|preference| preference.rank())?;
        sorted.append(&mut self.seen(alloc, false)?)?;
        sorted.sort_by_key(|preference| preference.rank())?;
        self.rank(alloc, &sorted)
    }

    /// Ranks the variables in this order, and answers their literals.
    fn rank(&mut self, alloc: Global, sorted: &[Preference]) -> Result<Vec<Literal>, NoMemory> {
        let mut literals = Vec::new(alloc);
        self.ranked.clear();
        for preference in sorted {
            let index = index_of(preference.literal);
            self.ranked.push(index)?;
            literals.push(preference.literal)?;
            if let Some(ranked) = self.preferences.get_mut(index) {
                ranked.is_seen = false;
            }
        }
        Ok(literals)
    }

    fn preference(&mut self, literal: Literal) -> Option<&mut Preference> {
        self.preferences.get_mut(index_of(literal))
    }

    /// The variable was seen in a conflict.
    pub fn bump(&mut self, literal: Literal) {
        if let Some(preference) = self.preference(literal) {
            preference.score = preference.score.saturating_add(BUMP);
            preference.is_seen = true;
        }
    }

    /// The clause was learned.
    pub fn learned(&mut self, clause: &[Literal]) {
        for literal in clause {
            self.bump(*literal);
        }
        self.learned = self.learned.saturating_add(1);
        if self.learned % DECAY_INTERVAL == 0 {
            self.decay();
        }
    }

    /// The values that variables have now are tried first, where they were not settled at the root.
    pub fn keep_values(&mut self, levels: &Levels) {
        for place in levels.root..levels.propagator.len() {
            if let Some(literal) = levels.propagator.literal(place) {
                if let Some(preference) = self.preference(literal) {
                    preference.literal = literal;
                }
            }
        }
    }

    /// Older conflicts count half.
    fn decay(&mut self) {
        for preference in self.preferences.iter_mut() {
            preference.score /= 2;
        }
    }
}
