// Records of a list batch: each means the same number of terms, one or two.
ghost use Rattle.std.specs.Prelude.{◌≡◌, ℕ, List};
ghost use Rattle.std.specs.List.{slice_get};
ghost use Rattle.std.specs.Option.{option_map};
ghost use Rattle.batch.specs.Term.{Term};
ghost use Rattle.list_batch.specs.WordTerms.{spelled};
ghost use Rattle.list_batch.specs.Lists.{LawfulRecord};

use crate::word_term::WordTerm;

pub trait Record {
    // How many terms a record means.
    const TERMS: usize;

    ghost TERMS: { ℕ };

    ghost parts: { Self → List Term };

    ghost lawful: { LawfulRecord TERMS parts };

    // One of the terms, and none past the last.
    fn term(&self, part: usize) -> Option<WordTerm>
        ensures { option_map spelled result ≡ slice_get (parts self.now) part };
}
