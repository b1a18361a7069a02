// The fields of a line: the value that a word spells, or the first place at which no word of the field can go on.
#![tactic(auto)]

ghost use Rattle.std.specs.Prelude.{List, ℕ};
ghost use Rattle.fields.specs.Words.{IsSign, IsNatural, IsInteger, IsFloor, IsRunWord, IsLimbsText, IsKeyword, HasLimbBytes};
ghost use Rattle.fields.specs.Checking.{sign_of, natural_of, integer_of, floor_of, run_of, limbs_of, keyword_of};
ghost use Rattle.fields.specs.Laws.{Checks, AreWords};

mod held;
mod limb_text;
mod numbers;
mod words;

pub use held::Limbs;
pub use limb_text::limbs;
pub use numbers::{floor, integer, natural};
pub use words::{keyword, run, sign};

// Each field reads the words that spell its values, gives the value, and refuses all others.
pub fn fields_stand()
    ensures signs { Checks IsSign sign_of }
    ensures naturals { Checks IsNatural natural_of }
    ensures integers { Checks IsInteger integer_of }
    ensures floors { Checks IsFloor floor_of }
    ensures runs { Checks IsRunWord run_of }
    ensures limb_texts { Checks IsLimbsText limbs_of }
    ensures keywords { (keyword : List ℕ) → Checks (IsKeyword keyword) (keyword_of keyword) }
{}

// Words consist of letters, digits, + and -; limbs, of lowercase hexadecimal digits and spaces.
pub fn words_stand()
    ensures signs { AreWords IsSign }
    ensures naturals { AreWords IsNatural }
    ensures integers { AreWords IsInteger }
    ensures floors { AreWords IsFloor }
    ensures runs { AreWords IsRunWord }
    ensures limb_texts { (limbs text : List ℕ) → IsLimbsText limbs text → HasLimbBytes text }
{}
