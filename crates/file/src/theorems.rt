// What holds of loading, as a theorem that a caller can name.
ghost use Rattle.file.specs.Laws.{FirstBytesTell};

// Does nothing. What it ensures holds of every file under every kind of cost: a crate that stands on this one names it by a
// call.
pub fn file_theorems()
    ensures { FirstBytesTell }
{}
