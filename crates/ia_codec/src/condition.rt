//! The numbers of conditions.

ghost use Rattle.std.specs.Prelude.{◌≡◌, not, IfSome, Some};
ghost use Rattle.std.specs.Int.Bits.{bit_xor};
ghost use Rattle.ia_codec.specs.Effect.{Flags};
ghost use Rattle.ia_codec.specs.Conditions.{condition_holds};
ghost use Rattle.ia_codec.specs.Spelling.{condition_number};
ghost use Rattle.ia_codec.specs.Reading.{condition_of_number};

use crate::op::Condition;

impl Condition {
    /// The condition with a number: None at 0, 1, 10 and 11, which are not in the profile, and from 16 on.
    #[tactic(auto, unfolding(crate::specs::Reading::condition_of_number))]
    pub fn from_code(code: u8) -> Option<Condition>
        ensures found { IfSome result (λ c. condition_number c ≡ code) }
        ensures only { (c : Condition) → condition_number c ≡ code → result ≡ Some c }
        ensures read { result ≡ condition_of_number code }
    {
        match code {
            2 => Some(Condition::Below),
            3 => Some(Condition::NotBelow),
            4 => Some(Condition::Equal),
            5 => Some(Condition::NotEqual),
            6 => Some(Condition::NotAbove),
            7 => Some(Condition::Above),
            8 => Some(Condition::Sign),
            9 => Some(Condition::NotSign),
            12 => Some(Condition::Less),
            13 => Some(Condition::NotLess),
            14 => Some(Condition::NotGreater),
            15 => Some(Condition::Greater),
            _ => None,
        }
    }

    /// The number that the opcodes of Jcc, SETcc and CMOVcc have in their low four bits.
    pub fn code(self) -> u8
        ensures { result ≡ condition_number self }
    {
        self as u8
    }

    /// The condition that holds exactly where this one doesn't. Its number has the other lowest bit.
    pub fn opposite(self) -> Condition
        ensures holds { (flags : Flags) → condition_holds result flags ≡ not (condition_holds self flags) }
        ensures number { condition_number result ≡ bit_xor (condition_number self) 1 }
    {
        match self {
            Condition::Below => Condition::NotBelow,
            Condition::NotBelow => Condition::Below,
            Condition::Equal => Condition::NotEqual,
            Condition::NotEqual => Condition::Equal,
            Condition::NotAbove => Condition::Above,
            Condition::Above => Condition::NotAbove,
            Condition::Sign => Condition::NotSign,
            Condition::NotSign => Condition::Sign,
            Condition::Less => Condition::NotLess,
            Condition::NotLess => Condition::Less,
            Condition::NotGreater => Condition::Greater,
            Condition::Greater => Condition::NotGreater,
        }
    }
}
