// Splitting bytes at a mark.
ghost use Rattle.std.specs.Prelude.{◌≡◌};
ghost use Rattle.std.specs.Option.{option_map};
ghost use Rattle.words.specs.Splits.{after_mark, split_of, parts_of, SplitRejoins};

// What follows the mark, where the bytes begin with it.
fn strip<'a>(bytes: &'a [u8], mark: &[u8]) -> Option<&'a [u8]>
    ensures { option_map (λ x. x.now) result ≡ after_mark mark.now bytes.now }
{
    bytes.strip_prefix(mark)
}

// What stands before the first mark, and what follows it.
#[tactic(auto, using(crate::proofs::Splitting::rejoins))]
pub fn split_once<'a>(bytes: &'a [u8], mark: &[u8]) -> Option<(&'a [u8], &'a [u8])>
    ensures value { option_map parts_of result ≡ split_of mark.now bytes.now }
    ensures rejoins { SplitRejoins }
{
    // a loop and no `find_map` over the places: tried, and the proof of that form did not close
    for i in 0..bytes.len() {
        if let Some(back) = strip(&bytes[i..], mark) {
            return Some((&bytes[0..i], back));
        }
    }
    None
}
