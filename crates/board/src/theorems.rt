// What holds of every board, as a theorem that a caller can name.
ghost use Rattle.board.specs.Packing.{PackingIsExact};
ghost use Rattle.board.specs.Promises.{CallsKeepEaseAndSettle};

// Does nothing. What it ensures holds of every board's content, under every lawful kind of cost, and of every packed move: a
// crate that stands on this one names it by a call, and needs no board for that.
#[tactic(auto, using(crate::proofs::Promised::board_promises))]
pub fn board_theorems()
    ensures calls_and_settling { CallsKeepEaseAndSettle }
    ensures packing { PackingIsExact }
{}
