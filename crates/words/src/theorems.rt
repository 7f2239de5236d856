// What holds of words and numbers, as a theorem that a caller can name.
ghost use Rattle.words.specs.Laws.{WordsCutAndReadBack};

// Does nothing. What it ensures holds of every text cut, trimmed, split, written and read: a crate that stands on this one
// names it by a call.
#[tactic(auto, using(crate::proofs::AllLaws::word_laws))]
pub fn word_theorems()
    ensures { WordsCutAndReadBack }
{}
